//! Scripts, schedules and answers as text: words parted by single spaces, a line for each act and each answer.
//!
//! Words are told from values: the words of an act, of a line and of an answer are functions (`specs/Grammar.antt`,
//! `specs/Answers.antt`), and a text is read as the line whose words it spells. It promises:
//!
//! - `read_script` and `read_schedule` answer the lines of an input exactly where it is a script or a schedule (clause
//!   `ok`): at most 16,777,216 bytes and 65,536 lines of at most 20,000 bytes, each of which spells a line, or has no byte,
//!   or begins with `#`. Lines are numbered among all.
//! - Else they tell where the input is refused (clause `err`): the first line that is past a limit or outside the
//!   grammar. In a line the longest list of leading words counts that some line begins with: the column is where the
//!   word behind them begins, or stands behind the line where none does, and the kind is that of the word that was due.
//!   Behind a whole line no word is due, and one there is a bad call. A byte past a limit is refused before any word of
//!   its line.
//! - `read_front` answers the lines of a schedule up to that place besides (clause `front`).
//! - `write_line`, `write_answer` and `write_entry` add the one spelling of a line, of an answer and of an entry of a tree
//!   (clause `added`), and leave the text as it was where memory runs out (clause `same`).
//! - `read_number` answers the number that a word spells in decimal (clauses `some`, `none`).
//! - Laws: a text spells one line, an input is one list of lines, an input is refused at one place and with one kind, and
//!   one that is refused is no list of lines (`laws`).
//! - `Kind` has the number of each kind of refusal (`number`, `from_number`), and a sentence on what was due (`due`).
#![tactic(auto)]

mod answer;
mod entry;
mod fault;
mod kind;
pub mod laws;
mod line;
mod lines;
mod number;
mod parts;
mod put;
mod script;
mod text;
mod verb;
mod words;
mod writing;

pub use answer::{Answer, Form, SyncForm, write_answer};
pub use entry::write_entry;
pub use fault::ScriptFault;
pub use kind::Kind;
pub use line::{Act, Line};
pub use number::read_number;
pub use script::{
    MAX_BYTES, MAX_LINE, MAX_LINES, Schedule, Script, read_front, read_schedule, read_script,
};
pub use writing::write_line;

#[cfg(test)]
mod tests;
