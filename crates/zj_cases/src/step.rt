//! The steps of a case.

use crate::text::{behind, put_line};
use crate::trouble::Outcome;
use std::alloc::Global;

/// A step: its line, and the lines that belong to it.
#[derive(Drop)]
pub struct Step<'a> {
    /// The number of its line, from 1.
    pub number: usize,
    /// Its line.
    pub text: &'a str,
    /// The lines below it that say what it is given and what is expected of it.
    pub below: Vec<&'a str>,
}

/// The words that lines begin with which belong to the step above them.
const BELOW: [&str; 8] = ["<", "<<", ">", ">>", "=", "phase", "phases", "closes"];

/// Whether a line belongs to the step above it.
pub fn is_below(text: &str) -> bool {
    BELOW.iter().any(|word| behind(text, word).is_some())
}

/// Whether a line says nothing.
pub fn is_comment(text: &str) -> bool {
    text.is_empty() || text.starts_with('#')
}

/// Adds what a line tells of a text, whose lines begin with the first of two words, or with the second one and lack their end.
fn put_told(alloc: Global, line: &str, whole: &str, cut: &str, text: &mut String) -> Outcome<()> {
    if let Some(rest) = behind(line, whole) {
        put_line(alloc, rest, text)?;
        text.push('\n')?;
    }
    if let Some(rest) = behind(line, cut) {
        put_line(alloc, rest, text)?;
    }
    Ok(())
}

/// The text that the lines below a step tell which begin with the first of two words, or with the second one and lack their end.
pub fn told(alloc: Global, below: &[&str], whole: &str, cut: &str) -> Outcome<String> {
    let mut text = String::new(alloc);
    for line in below {
        put_told(alloc, line, whole, cut, &mut text)?;
    }
    Ok(text)
}

/// What the line below a step tells that begins with a word, and is the one with this number of those that do, if there is one.
pub fn said<'a>(below: &[&'a str], word: &str, number: usize) -> Option<&'a str> {
    below
        .iter()
        .filter_map(|line| behind(line, word))
        .nth(number)
}

/// Whether a line below a step begins with a word and tells this.
pub fn is_said(below: &[&str], word: &str, text: &str) -> bool {
    below.iter().any(|line| behind(line, word) == Some(text))
}
