//! The lines of an input.

ghost use Rattle.std.specs.Prelude.{◌≡◌, [], ◌∷◌, ◌&&◌, not, ◌==◌, length, option_copied, MatchOption};
ghost use Rattle.std.specs.Str.{byte};
ghost use Rattle.zj_script.specs.Parts.{parts_of_any};
ghost use Rattle.zj_script.specs.Script.{is_cut, lines_read, none_left};

use crate::parts::cut;
use crate::script::MAX_BYTES;

/// The lines of an input that are not read yet. An input with too many bytes is cut behind those that it may have.
#[derive(Clone, Copy)]
pub(crate) struct Lines<'a> {
    /// The text from the next line on, None behind the last.
    rest: Option<&'a [u8]>,
    cut: bool,
}

impl<'a> Lines<'a> {
    ghost use Rattle.zj_script.specs.Lines.{lines_left};

    /// All lines of an input.
    pub(crate) fn new(input: &'a [u8]) -> Self
        ensures lines { lines_left result ≡ lines_read input.now }
        ensures cut { result.cut ≡ is_cut input.now }
    {
        if input.len() > MAX_BYTES {
            Lines {
                rest: Some(&input[..MAX_BYTES]),
                cut: true,
            }
        } else {
            Lines {
                rest: Some(input),
                cut: false,
            }
        }
    }

    /// The next line, or None exactly behind the last.
    pub(crate) fn next(&mut self) -> Option<&'a [u8]>
        ensures line { MatchOption result (lines_left self.old ≡ []) (λ line. lines_left self.old ≡ line.now ∷ lines_left self.new) }
        ensures cut { self.new.cut ≡ self.old.cut }
    {
        let (line, rest) = cut(self.rest?, b'\n');
        self.rest = rest;
        if self.ends_at(line) { None } else { Some(line) }
    }

    /// Whether the part read last is no line: it is empty and the last one, and the input isn't cut.
    fn ends_at(&self, part: &[u8]) -> bool
        ensures { result ≡ not self.now.cut && (length part.now == 0) && none_left (parts_of_any (byte "\n") (option_copied self.now.rest)) }
    {
        !self.cut && part.is_empty() && self.is_read()
    }

    /// Whether nothing is left to read.
    fn is_read(&self) -> bool
        ensures { result ≡ none_left (parts_of_any (byte "\n") (option_copied self.now.rest)) }
    {
        self.rest.is_none()
    }

    /// Whether the line read last isn't whole, since the input is cut in it.
    pub(crate) fn is_cut(&self) -> bool
        ensures { result ≡ self.now.cut && none_left (lines_left self.now) }
    {
        self.cut && self.is_read()
    }
}
