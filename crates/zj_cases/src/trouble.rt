//! Why a step of a case fails.

use std::alloc::{AllocError, AllocFailed, Global};

/// Why a step of a case fails.
#[derive(Drop)]
pub enum Trouble {
    /// It ran out of memory.
    NoMemory,
    /// It is no step, can't be made, or came out in another way than it says. The text tells.
    Differs(String),
}

/// What a step gives, or why it fails.
pub type Outcome<T> = Result<T, Trouble>;

impl From<AllocError> for Trouble {
    fn from(_error: AllocError) -> Trouble {
        Trouble::NoMemory
    }
}

impl<T: Drop> From<AllocFailed<T>> for Trouble {
    fn from(_error: AllocFailed<T>) -> Trouble {
        Trouble::NoMemory
    }
}

/// The parts of a text behind each other.
pub fn joined(alloc: Global, parts: &[&str]) -> Result<String, AllocError> {
    let mut text = String::new(alloc);
    for part in parts {
        text.push_str(part)?;
    }
    Ok(text)
}

/// The trouble that a text tells, which is given in parts.
pub fn differs(alloc: Global, parts: &[&str]) -> Trouble {
    match joined(alloc, parts) {
        Ok(text) => Trouble::Differs(text),
        Err(_) => Trouble::NoMemory,
    }
}

/// Compares what came with what is due.
pub fn compare(alloc: Global, what: &str, due: &str, came: &str) -> Outcome<()> {
    if due == came {
        return Ok(());
    }
    Err(differs(
        alloc,
        &["expected ", what, " `", due, "`, came `", came, "`"],
    ))
}

/// Compares a number that came with the one that a word spells.
pub fn compare_number(alloc: Global, what: &str, due: &str, came: u64) -> Outcome<()> {
    let came = came.to_string(alloc)?;
    compare(alloc, what, due, came.as_str())
}
