//! The words of a step: numbers, bytes in base 16, and what stands for other bytes.

use crate::trouble::{Outcome, differs};
use std::alloc::{AllocError, Global};
use zj_script::read_number;

/// The word at a place of a step. Behind its end they are empty.
pub fn word_at<'a>(words: &[&'a str], place: usize) -> &'a str {
    words.get(place).copied().unwrap_or("")
}

/// What stands behind the first word of a line, if it is this one.
pub fn behind<'a>(line: &'a str, word: &str) -> Option<&'a str> {
    let (first, rest) = line.split_once(' ').unwrap_or((line, ""));
    (first == word).then_some(rest)
}

/// The number that a word spells.
pub fn number_of(alloc: Global, word: &str) -> Outcome<u64> {
    match read_number(word.as_bytes()) {
        Some(number) => Ok(u64::from(number)),
        None => Err(differs(alloc, &["no number: ", word])),
    }
}

/// The number at a place of a step.
pub fn number_at(alloc: Global, words: &[&str], place: usize) -> Outcome<u64> {
    number_of(alloc, word_at(words, place))
}

/// The numbers from a place of a step on.
pub fn numbers_from(alloc: Global, words: &[&str], place: usize) -> Outcome<Vec<u64>> {
    let mut numbers = Vec::new(alloc);
    for word in words.iter().skip(place) {
        numbers.push(number_of(alloc, word)?)?;
    }
    Ok(numbers)
}

/// The value of a digit of base 16.
fn digit_of(letter: u8) -> Option<u8> {
    match letter {
        b'0'..=b'9' => Some(letter - b'0'),
        b'a'..=b'f' => Some(letter - b'a' + 10),
        _ => None,
    }
}

/// Adds so many times the byte that digits of base 16 spell, two of them each.
fn put_pairs(alloc: Global, digits: &str, count: u64, bytes: &mut Vec<u8>) -> Outcome<()> {
    let mut high = None;
    for letter in digits.as_bytes() {
        let Some(digit) = digit_of(*letter) else {
            return Err(differs(alloc, &["no bytes: ", digits]));
        };
        match high {
            None => high = Some(digit),
            Some(first) => {
                put_byte(first.wrapping_mul(16).wrapping_add(digit), count, bytes)?;
                high = None;
            }
        }
    }
    Ok(())
}

/// Adds a byte so many times.
fn put_byte(byte: u8, count: u64, bytes: &mut Vec<u8>) -> Result<(), AllocError> {
    let len = (bytes.len() as u64).saturating_add(count);
    bytes.resize(len as usize, byte)
}

/// Adds the bytes that a word spells: two digits of base 16 for each, and behind a `*` how often each comes.
fn put_bytes(alloc: Global, word: &str, bytes: &mut Vec<u8>) -> Outcome<()> {
    let (digits, count) = word.split_once('*').unwrap_or((word, "1"));
    put_pairs(alloc, digits, number_of(alloc, count)?, bytes)
}

/// The bytes that the words from a place of a step on spell.
pub fn bytes_from(alloc: Global, words: &[&str], place: usize) -> Outcome<Vec<u8>> {
    let mut bytes = Vec::new(alloc);
    for word in words.iter().skip(place) {
        put_bytes(alloc, word, &mut bytes)?;
    }
    Ok(bytes)
}

/// The word of a command line that a word of a step stands for: `%` and two digits of base 16 at its end stand for a byte, and `%`
/// alone for nothing.
fn unspelled(alloc: Global, word: &str) -> Outcome<String> {
    let (front, digits) = word.split_once('%').unwrap_or((word, ""));
    let mut bytes = Vec::from_slice(alloc, front.as_bytes())?;
    put_pairs(alloc, digits, 1, &mut bytes)?;
    match String::from_utf8(bytes) {
        Ok(text) => Ok(text),
        Err(_) => Err(differs(alloc, &["no word: ", word])),
    }
}

/// The words behind the first one of a step, as words of a command line.
pub fn command_line(alloc: Global, words: &[&str]) -> Outcome<Vec<String>> {
    let mut line = Vec::new(alloc);
    for word in words.iter().skip(1) {
        line.push(unspelled(alloc, word)?)?;
    }
    Ok(line)
}

/// Adds so many letters A.
fn put_letters(count: u64, text: &mut String) -> Result<(), AllocError> {
    for _ in 0..count {
        text.push('A')?;
    }
    Ok(())
}

/// Adds a line, in which `A(6144)` stands for so many letters A.
pub fn put_line(alloc: Global, line: &str, text: &mut String) -> Outcome<()> {
    let (front, rest) = line.split_once("A(").unwrap_or((line, "0)"));
    let (count, behind) = rest.split_once(')').unwrap_or((rest, ""));
    text.push_str(front)?;
    put_letters(number_of(alloc, count)?, text)?;
    text.push_str(behind)?;
    Ok(())
}
