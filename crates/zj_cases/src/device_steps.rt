//! The steps that change or compare a device.

use crate::devices::{calls_of, image_of, put_device, write_device};
use crate::shelf::CaseShelf;
use crate::text::{bytes_from, number_at, numbers_from, word_at};
use crate::trouble::{Outcome, compare, compare_number, differs};
use std::alloc::{AllocError, Global};
use zj_dev::Torn;

/// Makes a step that changes a device.
pub fn change(alloc: Global, shelf: &mut CaseShelf, words: &[&str]) -> Outcome<()> {
    let name = word_at(words, 1);
    match word_at(words, 0) {
        "device" => new_device(alloc, shelf, name, words),
        "set" => set(alloc, shelf, name, words),
        "cut" => cut(alloc, shelf, name, words),
        "fails" => fail(alloc, shelf, name, words),
        "stops" => stop(alloc, shelf, name, words),
        "writes" => write(alloc, shelf, name, words),
        "remove" => {
            let _taken = shelf.take(name);
            Ok(())
        }
        _ => compare_device(alloc, shelf, name, words),
    }
}

/// Makes a step that compares what a device is.
fn compare_device(alloc: Global, shelf: &mut CaseShelf, name: &str, words: &[&str]) -> Outcome<()> {
    match word_at(words, 0) {
        "holds" => compare_bytes(alloc, shelf, name, words),
        "length" => compare_length(alloc, shelf, name, words),
        "calls" => compare_calls(alloc, shelf, name, words),
        "stands" => compare(alloc, "the device", "yes", standing(alloc, shelf, name)),
        "absent" => compare(alloc, "the device", "no", standing(alloc, shelf, name)),
        "pending" => compare(alloc, "pending bytes", "yes", pending(alloc, shelf, name)?),
        "settled" => compare(alloc, "pending bytes", "no", pending(alloc, shelf, name)?),
        word => Err(differs(alloc, &["no step: ", word])),
    }
}

/// `device NAME LENGTH`
fn new_device(alloc: Global, shelf: &mut CaseShelf, name: &str, words: &[&str]) -> Outcome<()> {
    let len = number_at(alloc, words, 2)?;
    let zeros = vec![in alloc; 0u8; len as usize]?;
    put_device(alloc, shelf, name, &zeros, &[], None)?;
    Ok(())
}

/// Bytes with a piece over them from a place on, or nothing where they end before it.
fn overwritten(
    alloc: Global,
    bytes: &[u8],
    at: usize,
    piece: &[u8],
) -> Result<Vec<u8>, AllocError> {
    let (front, rest) = bytes.split_at_checked(at).unwrap_or((bytes, &[]));
    let (_over, back) = rest.split_at_checked(piece.len()).unwrap_or((rest, &[]));
    let mut whole = Vec::from_slice(alloc, front)?;
    whole.extend_from_slice(piece)?;
    whole.extend_from_slice(back)?;
    Ok(whole)
}

/// `set NAME AT HEX..`
fn set(alloc: Global, shelf: &mut CaseShelf, name: &str, words: &[&str]) -> Outcome<()> {
    let at = number_at(alloc, words, 2)?;
    let piece = bytes_from(alloc, words, 3)?;
    let bytes = image_of(alloc, shelf, name, Torn::Lost)?;
    let whole = overwritten(alloc, &bytes, at as usize, &piece)?;
    put_device(alloc, shelf, name, &whole, &[], None)?;
    if whole.len() == bytes.len() {
        Ok(())
    } else {
        Err(differs(alloc, &["these bytes lie behind the end"]))
    }
}

/// `cut NAME LENGTH`
fn cut(alloc: Global, shelf: &mut CaseShelf, name: &str, words: &[&str]) -> Outcome<()> {
    let len = number_at(alloc, words, 2)?;
    let mut bytes = image_of(alloc, shelf, name, Torn::Lost)?;
    bytes.truncate(len as usize);
    put_device(alloc, shelf, name, &bytes, &[], None)?;
    Ok(())
}

/// `fails NAME N..`
fn fail(alloc: Global, shelf: &mut CaseShelf, name: &str, words: &[&str]) -> Outcome<()> {
    let failing = numbers_from(alloc, words, 2)?;
    let bytes = image_of(alloc, shelf, name, Torn::Lost)?;
    put_device(alloc, shelf, name, &bytes, &failing, None)?;
    Ok(())
}

/// `stops NAME N`
fn stop(alloc: Global, shelf: &mut CaseShelf, name: &str, words: &[&str]) -> Outcome<()> {
    let from = number_at(alloc, words, 2)?;
    let bytes = image_of(alloc, shelf, name, Torn::Lost)?;
    put_device(alloc, shelf, name, &bytes, &[], Some(from))?;
    Ok(())
}

/// The device fails at one call, or at all from it on.
pub fn fail_from(alloc: Global, shelf: &mut CaseShelf, words: &[&str], number: u64) -> Outcome<()> {
    let name = word_at(words, 1);
    let bytes = image_of(alloc, shelf, name, Torn::Lost)?;
    match word_at(words, 2) {
        "fails" => put_device(alloc, shelf, name, &bytes, &[number], None)?,
        _ => put_device(alloc, shelf, name, &bytes, &[], Some(number))?,
    }
    Ok(())
}

/// `writes NAME AT HEX..`
fn write(alloc: Global, shelf: &mut CaseShelf, name: &str, words: &[&str]) -> Outcome<()> {
    let at = number_at(alloc, words, 2)?;
    let piece = bytes_from(alloc, words, 3)?;
    write_device(alloc, shelf, name, at, &piece)
}

/// `holds NAME AT HEX..`
fn compare_bytes(alloc: Global, shelf: &mut CaseShelf, name: &str, words: &[&str]) -> Outcome<()> {
    let at = number_at(alloc, words, 2)?;
    let due = bytes_from(alloc, words, 3)?;
    let bytes = image_of(alloc, shelf, name, Torn::Lost)?;
    let (_front, rest) = bytes.split_at_checked(at as usize).unwrap_or((&bytes, &[]));
    if rest.starts_with(&due) {
        Ok(())
    } else {
        Err(differs(alloc, &["it holds other bytes there"]))
    }
}

/// `length NAME LENGTH`
fn compare_length(alloc: Global, shelf: &mut CaseShelf, name: &str, words: &[&str]) -> Outcome<()> {
    let bytes = image_of(alloc, shelf, name, Torn::Lost)?;
    compare_number(alloc, "the length", word_at(words, 2), bytes.len() as u64)
}

/// `calls NAME N`
fn compare_calls(alloc: Global, shelf: &mut CaseShelf, name: &str, words: &[&str]) -> Outcome<()> {
    let calls = calls_of(alloc, shelf, name)?;
    compare_number(alloc, "the calls", word_at(words, 2), calls)
}

/// Whether a device stands on the shelf.
fn standing(alloc: Global, shelf: &mut CaseShelf, name: &str) -> &'static str {
    match calls_of(alloc, shelf, name) {
        Ok(_) => "yes",
        Err(_) => "no",
    }
}

/// Whether a crash may leave other bytes of a device than a read gives.
fn pending(alloc: Global, shelf: &mut CaseShelf, name: &str) -> Outcome<&'static str> {
    let lost = image_of(alloc, shelf, name, Torn::Lost)?;
    let whole = image_of(alloc, shelf, name, Torn::Whole)?;
    Ok(if lost == whole { "no" } else { "yes" })
}
