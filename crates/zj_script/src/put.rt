//! Words that are added to a text.

ghost use Rattle.std.specs.Prelude.{◌≡◌, [], ◌++◌, ◌<◌, decimal};
ghost use Rattle.std.specs.Char.{digit_char};
ghost use Rattle.std.specs.List.{flat_map};
ghost use Rattle.zj_dev.specs.Device.{device_name};
ghost use Rattle.zj_script.specs.Answers.{data_words};
ghost use Rattle.zj_script.specs.Text.{byte_text, bytes_text};
ghost use Rattle.zj_script.specs.Words.{spaced};
ghost use Rattle.zj_script.specs.Writing.{Adds};

use crate::text::is_plain;
use std::alloc::AllocError;
use zj_dev::Device;
use zj_tree::Bytes;

/// Adds a word behind a space.
pub(crate) fn put_word(word: &[u8], out: &mut Bytes) -> Result<(), AllocError>
    ensures { Adds result out.old out.new (spaced word.now) }
{
    out.extend(b" ")?;
    out.extend(word)
}

/// Adds a number.
pub(crate) fn put_number(number: u64, out: &mut Bytes) -> Result<(), AllocError>
    ensures { Adds result out.old out.new (decimal number) }
{
    if number < 10 {
        return out.extend(&[b'0' + number as u8]);
    }
    put_number(number / 10, out)?;
    out.extend(&[b'0' + (number % 10) as u8])
}

/// Adds a number behind a space.
pub(crate) fn put_spaced_number(number: u64, out: &mut Bytes) -> Result<(), AllocError>
    ensures { Adds result out.old out.new (spaced (decimal number)) }
{
    out.extend(b" ")?;
    put_number(number, out)
}

/// Adds the name of a device behind a space.
pub(crate) fn put_device(device: Device, out: &mut Bytes) -> Result<(), AllocError>
    ensures { Adds result out.old out.new (spaced (device_name device)) }
{
    match device {
        Device::Home => put_word(b"home", out),
        Device::Journal(core) => {
            put_word(b"j", out)?;
            put_number(u64::from(core), out)
        }
    }
}

/// Adds the word of a file's bytes behind a space, or nothing where there are no bytes.
pub(crate) fn put_data(bytes: &[u8], out: &mut Bytes) -> Result<(), AllocError>
    ensures { Adds result out.old out.new (flat_map spaced (data_words bytes.now)) }
{
    if bytes.is_empty() {
        return Ok(());
    }
    put_text(bytes, out)
}

/// Adds the word of bytes behind a space.
pub(crate) fn put_text(bytes: &[u8], out: &mut Bytes) -> Result<(), AllocError>
    ensures { Adds result out.old out.new (spaced (bytes_text bytes.now)) }
{
    out.extend(b" ")?;
    for byte in bytes {
        put_byte(*byte, out)?;
    }
    Ok(())
}

/// Adds a byte of a file.
fn put_byte(byte: u8, out: &mut Bytes) -> Result<(), AllocError>
    ensures { Adds result out.old out.new (byte_text byte) }
{
    if is_plain(byte) {
        out.extend(&[byte])
    } else {
        out.extend(&[b'%', hex_digit(byte / 16), hex_digit(byte % 16)])
    }
}

/// A digit of base 16, in lower case.
fn hex_digit(digit: u8) -> u8
    requires { digit < 16 }
    ensures { result ≡ digit_char digit }
{
    if digit < 10 {
        b'0' + digit
    } else {
        b'a' + (digit - 10)
    }
}
