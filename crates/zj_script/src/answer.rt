//! Answers, and their lines.

ghost use Rattle.std.specs.Prelude.{◌≡◌, ◌∷◌, [], ◌++◌, ◌<◌, OnOk, OnErr, decimal, map, take};
ghost use Rattle.std.specs.List.{flat_map};
ghost use Rattle.zj_script.specs.Answers.{answer_core, answer_text, data_words, form_words, refusal_word, reply_words, sync_words};
ghost use Rattle.zj_script.specs.Words.{spaced, spelled};
ghost use Rattle.zj_script.specs.Writing.{Adds};

use crate::put::{put_data, put_device, put_number, put_spaced_number, put_word};
use std::alloc::AllocError;
use zj_dev::Device;
use zj_tree::{Bytes, Name, Refusal, Reply};

/// The answer to a line.
#[derive(Debug, Drop)]
pub struct Answer {
    /// The number of the line, from 1.
    pub line: u32,
    /// Its core; None for a checkpoint alone.
    pub core: Option<u32>,
    pub form: Form,
}

/// What an answer says.
#[derive(Debug, Drop)]
pub enum Form {
    /// A call was made at a place in the history, from 0.
    Drew { ticket: u64, reply: Reply },
    /// An fsync was made, and this came of waiting for its receipt.
    Synced { ticket: u64, sync: SyncForm },
    /// A handle is open.
    Begun,
    /// The open handle took a block.
    Took { block: u32 },
    /// The open handle saw a block.
    Saw { block: u32 },
    /// The open handle needs no further block.
    Ready,
    /// The open handle was given up.
    Dropped,
    /// The transaction with that number of the core was committed.
    Committed { number: u64 },
    /// There was nothing to commit.
    Empty,
    /// What came of waiting for a receipt. A commit or a call that fails is answered so too.
    Sync(SyncForm),
    /// A transaction runs, so there is no receipt yet.
    Open,
    /// All that was committed is home.
    Checkpointed,
    /// A checkpoint found a damaged journal.
    Damaged { device: Device },
    /// Another core holds a block.
    Busy { block: u32, holder: u32 },
    /// The transaction has too many blocks.
    TxFull { have: u32, more: u32 },
    /// The journal has too few free bytes.
    Full { need: u64, free: u64 },
    /// A block was changed since the handle looked at it: its stamps then and now.
    Again { block: u32, noted: u64, found: u64 },
    /// The line doesn't suit the state of its core.
    Order,
}

/// What came of waiting for a receipt.
#[derive(Debug, Drop)]
pub enum SyncForm {
    /// A receipt, with the bound of each core. Entries from the count of cores on are 0.
    Receipt { cores: u32, covers: [u64; 64] },
    /// A core has to commit up to a number, and committed up to another.
    Wait { core: u32, need: u64, stable: u64 },
    /// The commit of a core failed.
    Failed { core: u32 },
    /// A device failed.
    Fault { device: Device },
}

/// Adds the line of an answer. `AllocError` leaves the text as it was.
pub fn write_answer(answer: &Answer, out: &mut Bytes) -> Result<(), AllocError>
    ensures added { OnOk result (out.new ≡ out.old ++ answer_text answer.now) }
    ensures same { OnErr result (out.new ≡ out.old) }
{
    let len = out.as_slice().len();
    let put = put_answer(answer, out);
    if put.is_err() {
        out.truncate(len);
    }
    put
}

/// Adds the line of an answer, or a part of it.
fn put_answer(answer: &Answer, out: &mut Bytes) -> Result<(), AllocError>
    ensures { Adds result out.old out.new (answer_text answer.now) }
{
    put_number(u64::from(answer.line), out)?;
    put_core(answer.core, out)?;
    put_form(&answer.form, out)?;
    out.extend(b"\n")
}

/// Adds the word of a core behind a space.
fn put_core(core: Option<u32>, out: &mut Bytes) -> Result<(), AllocError>
    ensures { Adds result out.old out.new (spaced (answer_core core)) }
{
    match core {
        Some(core) => put_spaced_number(u64::from(core), out),
        None => put_word(b"-", out),
    }
}

/// Adds the words of an answer behind its core, each behind a space.
fn put_form(form: &Form, out: &mut Bytes) -> Result<(), AllocError>
    ensures { Adds result out.old out.new (flat_map spaced (form_words form.now)) }
{
    match form {
        Form::Drew { ticket, reply } => {
            put_spaced_number(*ticket, out)?;
            put_reply(reply, out)
        }
        Form::Synced { ticket, sync } => {
            put_spaced_number(*ticket, out)?;
            put_word(b"ok", out)?;
            put_sync(sync, out)
        }
        Form::Sync(sync) => put_sync(sync, out),
        Form::Damaged { device } => {
            put_word(b"damaged", out)?;
            put_device(*device, out)
        }
        Form::Begun => put_word(b"begun", out),
        Form::Took { block } => put_counted(b"took", u64::from(*block), out),
        Form::Saw { block } => put_counted(b"saw", u64::from(*block), out),
        Form::Ready => put_word(b"ready", out),
        Form::Dropped => put_word(b"dropped", out),
        Form::Committed { number } => put_counted(b"committed", *number, out),
        Form::Empty => put_word(b"empty", out),
        Form::Open => put_word(b"open", out),
        Form::Checkpointed => put_word(b"checkpointed", out),
        Form::Busy { block, holder } => put_two(
            b"busy",
            u64::from(*block),
            u64::from(*holder),
            out,
        ),
        Form::TxFull { have, more } => put_two(b"txfull", u64::from(*have), u64::from(*more), out),
        Form::Full { need, free } => put_two(b"full", *need, *free, out),
        Form::Again {
            block,
            noted,
            found,
        } => put_three(b"again", u64::from(*block), *noted, *found, out),
        Form::Order => put_word(b"order", out),
    }
}

/// Adds the words of what came of waiting for a receipt, each behind a space.
fn put_sync(sync: &SyncForm, out: &mut Bytes) -> Result<(), AllocError>
    ensures { Adds result out.old out.new (flat_map spaced (sync_words sync.now)) }
{
    match sync {
        SyncForm::Receipt { cores, covers } => {
            put_word(b"receipt", out)?;
            put_bounds(bounds_of(*cores, covers), out)
        }
        SyncForm::Wait { core, need, stable } => put_three(
            b"wait",
            u64::from(*core),
            *need,
            *stable,
            out,
        ),
        SyncForm::Failed { core } => put_counted(b"failed", u64::from(*core), out),
        SyncForm::Fault { device } => {
            put_word(b"fault", out)?;
            put_device(*device, out)
        }
    }
}

/// The bounds of so many cores.
#[tactic(auto, using(std::proofs::lemmas::List::take_all))]
fn bounds_of(cores: u32, covers: &[u64; 64]) -> &[u64]
    ensures { result.now ≡ take cores covers.now }
{
    if cores < 64 {
        &covers[..cores as usize]
    } else {
        covers
    }
}

/// Adds numbers, each behind a space.
fn put_bounds(bounds: &[u64], out: &mut Bytes) -> Result<(), AllocError>
    ensures { Adds result out.old out.new (flat_map spaced (map (λ bound. decimal bound) bounds.now)) }
{
    for bound in bounds {
        put_spaced_number(*bound, out)?;
    }
    Ok(())
}

/// Adds a word and a number, each behind a space.
fn put_counted(word: &[u8], number: u64, out: &mut Bytes) -> Result<(), AllocError>
    ensures { Adds result out.old out.new (flat_map spaced (word.now ∷ decimal number ∷ [])) }
{
    put_word(word, out)?;
    put_spaced_number(number, out)
}

/// Adds a word and two numbers, each behind a space.
fn put_two(word: &[u8], first: u64, second: u64, out: &mut Bytes) -> Result<(), AllocError>
    ensures { Adds result out.old out.new (flat_map spaced (word.now ∷ decimal first ∷ decimal second ∷ [])) }
{
    put_counted(word, first, out)?;
    put_spaced_number(second, out)
}

/// Adds a word and three numbers, each behind a space.
fn put_three(
    word: &[u8],
    first: u64,
    second: u64,
    third: u64,
    out: &mut Bytes,
) -> Result<(), AllocError>
    ensures { Adds result out.old out.new (flat_map spaced (word.now ∷ decimal first ∷ decimal second ∷ decimal third ∷ [])) }
{
    put_two(word, first, second, out)?;
    put_spaced_number(third, out)
}

/// Adds the words of a reply, each behind a space.
fn put_reply(reply: &Reply, out: &mut Bytes) -> Result<(), AllocError>
    ensures { Adds result out.old out.new (flat_map spaced (reply_words reply.now)) }
{
    match reply {
        Reply::Done => put_word(b"ok", out),
        Reply::Data(bytes) => {
            put_word(b"data", out)?;
            put_data(bytes.as_slice(), out)
        }
        Reply::Listed(names) => {
            put_word(b"names", out)?;
            put_names(names.as_slice(), out)
        }
        Reply::Dir { entries } => put_counted(b"dir", u64::from(*entries), out),
        Reply::File { size } => put_counted(b"file", u64::from(*size), out),
        Reply::Refused(refusal) => put_word(refusal_word(*refusal), out),
    }
}

/// Adds names, each behind a space.
fn put_names(names: &[Name], out: &mut Bytes) -> Result<(), AllocError>
    ensures { Adds result out.old out.new (flat_map spaced names.now) }
{
    for name in names {
        put_word(name.as_slice(), out)?;
    }
    Ok(())
}

/// The word of a refusal.
fn refusal_word(refusal: Refusal) -> &'static [u8]
    ensures { result.now ≡ refusal_word refusal }
{
    match refusal {
        Refusal::NotFound => b"notfound",
        Refusal::NotDir => b"notdir",
        Refusal::IsDir => b"isdir",
        Refusal::Exists => b"exists",
        Refusal::NotEmpty => b"notempty",
        Refusal::Inside => b"inside",
        Refusal::TooBig => b"toobig",
        Refusal::NoNodes => b"nonodes",
        Refusal::NoSpace => b"nospace",
        Refusal::DirFull => b"dirfull",
        Refusal::PastEnd => b"pastend",
    }
}
