//! The words of a line.

ghost use Rattle.std.specs.Prelude.{◌≡◌, ◌≢◌, ◌<◌, ℕ, List, [], ◌∷◌, length, IfOk, IfErr, IsTrue, decimal, MatchOption, IfSome, IfNone, Option};
ghost use Rattle.zj_tree.specs.Path.{is_path, path_text};
ghost use Rattle.zj_script.specs.declared.kind.Kind.TheVariants as kinds;
ghost use Rattle.zj_script.specs.Grammar.{can_begin, core_word, verb_word};
ghost use Rattle.zj_script.specs.Reading.{IsBeginnable, IsCore, IsCoreWord, IsNumber, IsOpening, IsPath, IsText, Lacks, Opens, opening_word};
ghost use Rattle.zj_script.specs.Text.{bytes_text, has_text};

use crate::fault::Stop;
use crate::kind::Kind;
use crate::number::read_number;
use crate::parts::cut;
use crate::text::read_text;
use crate::verb::{Acts, Opening, Verb, read_begun, read_opening};
use std::alloc::{AllocError, Global};
use zj_tree::{Bytes, Path};

/// The words of a line that are not read yet.
#[derive(Clone, Copy)]
pub(crate) struct Words<'a> {
    /// The text from the next word on, None behind the last.
    rest: Option<&'a [u8]>,
}

impl<'a> Words<'a> {
    ghost use Rattle.std.specs.Str.{byte};
    ghost use Rattle.zj_script.specs.Parts.{parts_of};
    ghost use Rattle.zj_script.specs.Words.{spelled, words_left};

    /// All words of a line.
    pub(crate) fn new(line: &'a [u8]) -> Self
        ensures { words_left result ≡ parts_of (byte " ") line.now }
    {
        Words { rest: Some(line) }
    }

    /// The next word, or None exactly behind the last.
    fn next(&mut self) -> Option<&'a [u8]>
        ensures { MatchOption result (words_left self.old ≡ []) (λ word. words_left self.old ≡ word.now ∷ words_left self.new) }
    {
        let (word, rest) = cut(self.rest?, b' ');
        self.rest = rest;
        Some(word)
    }

    /// How many bytes the line has from the next word on.
    fn left(&self) -> usize
        ensures { result ≡ length (spelled (words_left self.now)) }
    {
        match self.rest {
            Some(rest) => rest.len(),
            None => 0,
        }
    }

    /// Whether no word is left. One that is left is a bad call.
    pub(crate) fn end(&self) -> Result<(), Stop>
        ensures ok { IfOk result (λ _. words_left self.now ≡ []) }
        ensures err { IfErr result (λ stop. Lacks (λ _. ⊥) kinds.BadCall (words_left self.now) stop × (words_left self.now ≢ [])) }
    {
        match self.rest {
            Some(rest) => Err(Stop::Refused {
                kind: Kind::BadCall,
                left: rest.len(),
            }),
            None => Ok(()),
        }
    }

    /// The next word as a core, or None where it is the word of a checkpoint.
    pub(crate) fn core(&mut self, acts: Acts, cores: u32) -> Result<Option<u32>, Stop>
        ensures ok { IfOk result (λ core. IsCore acts cores core × (words_left self.old ≡ core_word core ∷ words_left self.new)) }
        ensures err { IfErr result (Lacks (IsCoreWord acts cores) kinds.BadCore (words_left self.old)) }
    {
        let left = self.left();
        match self.next_core(acts, cores) {
            Some(core) => Ok(core),
            None => Err(Stop::Refused {
                kind: Kind::BadCore,
                left,
            }),
        }
    }

    /// The next word as the first of an act.
    pub(crate) fn opening(&mut self, acts: Acts) -> Result<Opening, Stop>
        ensures ok { IfOk result (λ opening. Opens acts opening × (words_left self.old ≡ opening_word opening ∷ words_left self.new)) }
        ensures err { IfErr result (Lacks (IsOpening acts) kinds.BadCall (words_left self.old)) }
    {
        let left = self.left();
        match self.next_opening(acts) {
            Some(opening) => Ok(opening),
            None => Err(Stop::Refused {
                kind: Kind::BadCall,
                left,
            }),
        }
    }

    /// The next word as the verb of a call that can be begun.
    pub(crate) fn begun(&mut self) -> Result<Verb, Stop>
        ensures ok { IfOk result (λ verb. IsTrue (can_begin verb) × (words_left self.old ≡ verb_word verb ∷ words_left self.new)) }
        ensures err { IfErr result (Lacks IsBeginnable kinds.BadCall (words_left self.old)) }
    {
        let left = self.left();
        match self.next_begun() {
            Some(verb) => Ok(verb),
            None => Err(Stop::Refused {
                kind: Kind::BadCall,
                left,
            }),
        }
    }

    /// The next word as a path.
    pub(crate) fn path(&mut self, alloc: Global) -> Result<Path, Stop>
        ensures ok { IfOk result (λ path. IsTrue (is_path path) × (words_left self.old ≡ path_text path ∷ words_left self.new)) }
        ensures err { IfErr result (Lacks IsPath kinds.BadPath (words_left self.old)) }
    {
        let left = self.left();
        match self.next_path(alloc)? {
            Some(path) => Ok(path),
            None => Err(Stop::Refused {
                kind: Kind::BadPath,
                left,
            }),
        }
    }

    /// The next word as a number.
    pub(crate) fn number(&mut self) -> Result<u32, Stop>
        ensures ok { IfOk result (λ number. words_left self.old ≡ decimal number ∷ words_left self.new) }
        ensures err { IfErr result (Lacks IsNumber kinds.BadNumber (words_left self.old)) }
    {
        let left = self.left();
        match self.next_number() {
            Some(number) => Ok(number),
            None => Err(Stop::Refused {
                kind: Kind::BadNumber,
                left,
            }),
        }
    }

    /// The next word as the bytes of a file.
    pub(crate) fn text(&mut self, alloc: Global) -> Result<Bytes, Stop>
        ensures ok { IfOk result (λ bytes. IsTrue (has_text bytes) × (words_left self.old ≡ bytes_text bytes ∷ words_left self.new)) }
        ensures err { IfErr result (Lacks IsText kinds.BadText (words_left self.old)) }
    {
        let left = self.left();
        match self.next_text(alloc)? {
            Some(bytes) => Ok(bytes),
            None => Err(Stop::Refused {
                kind: Kind::BadText,
                left,
            }),
        }
    }

    /// The core or checkpoint that is the next word. None exactly where that is neither.
    fn next_core(&mut self, acts: Acts, cores: u32) -> Option<Option<u32>>
        ensures some { IfSome result (λ core. IsCore acts cores core × (words_left self.old ≡ core_word core ∷ words_left self.new)) }
        ensures none { IfNone result ((word : List ℕ) (more : List (List ℕ)) → IsCoreWord acts cores word → words_left self.old ≡ word ∷ more → ⊥) }
    {
        read_core(acts, cores, self.next()?)
    }

    /// The opening that is the next word. None exactly where that is none.
    fn next_opening(&mut self, acts: Acts) -> Option<Opening>
        ensures some { IfSome result (λ opening. Opens acts opening × (words_left self.old ≡ opening_word opening ∷ words_left self.new)) }
        ensures none { IfNone result ((word : List ℕ) (more : List (List ℕ)) → IsOpening acts word → words_left self.old ≡ word ∷ more → ⊥) }
    {
        read_opening(acts, self.next()?)
    }

    /// The verb that is the next word, of a call that can be begun. None exactly where that is none.
    fn next_begun(&mut self) -> Option<Verb>
        ensures some { IfSome result (λ verb. IsTrue (can_begin verb) × (words_left self.old ≡ verb_word verb ∷ words_left self.new)) }
        ensures none { IfNone result ((word : List ℕ) (more : List (List ℕ)) → IsBeginnable word → words_left self.old ≡ word ∷ more → ⊥) }
    {
        read_begun(self.next()?)
    }

    /// The number that is the next word. None exactly where that is none of 32 bits.
    fn next_number(&mut self) -> Option<u32>
        ensures some { IfSome result (λ number. words_left self.old ≡ decimal number ∷ words_left self.new) }
        ensures none { IfNone result ((word : List ℕ) (more : List (List ℕ)) → IsNumber word → words_left self.old ≡ word ∷ more → ⊥) }
    {
        read_number(self.next()?)
    }

    /// The path that is the next word. None exactly where that is none.
    fn next_path(&mut self, alloc: Global) -> Result<Option<Path>, AllocError>
        ensures some { IfOk result (λ found. IfSome found (λ path. IsTrue (is_path path) × (words_left self.old ≡ path_text path ∷ words_left self.new))) }
        ensures none { IfOk result (λ found. IfNone found ((word : List ℕ) (more : List (List ℕ)) → IsPath word → words_left self.old ≡ word ∷ more → ⊥)) }
    {
        match self.next() {
            Some(word) => Path::parse(alloc, word),
            None => Ok(None),
        }
    }

    /// The bytes that the next word spells. None exactly where it spells none.
    fn next_text(&mut self, alloc: Global) -> Result<Option<Bytes>, AllocError>
        ensures some { IfOk result (λ found. IfSome found (λ bytes. IsTrue (has_text bytes) × (words_left self.old ≡ bytes_text bytes ∷ words_left self.new))) }
        ensures none { IfOk result (λ found. IfNone found ((word : List ℕ) (more : List (List ℕ)) → IsText word → words_left self.old ≡ word ∷ more → ⊥)) }
    {
        match self.next() {
            Some(word) => read_text(alloc, word),
            None => Ok(None),
        }
    }
}

/// The core that a word is, or None for the word of a checkpoint in a schedule. None where it is neither.
fn read_core(acts: Acts, cores: u32, word: &[u8]) -> Option<Option<u32>>
    ensures some { IfSome result (λ core. IsCore acts cores core × (word.now ≡ core_word core)) }
    ensures none { IfNone result ((core : Option ℕ) → IsCore acts cores core → word.now ≢ core_word core) }
{
    match acts {
        Acts::Script => Some(Some(read_below(cores, word)?)),
        Acts::Schedule => match word {
            b"checkpoint" => Some(None),
            _ => Some(Some(read_below(cores, word)?)),
        },
    }
}

/// The number below a count that a word is. None exactly where it is none.
fn read_below(count: u32, word: &[u8]) -> Option<u32>
    ensures some { IfSome result (λ number. (number < count) × (word.now ≡ decimal number)) }
    ensures none { IfNone result ((number : ℕ) → number < count → word.now ≢ decimal number) }
{
    let number = read_number(word)?;
    if number < count { Some(number) } else { None }
}
