//! The words that open calls and acts.

ghost use Rattle.std.specs.Prelude.{◌≡◌, ◌≢◌, IfSome, IfNone, IsTrue};
ghost use Rattle.zj_script.specs.declared.verb.Opening.{Opening};
ghost use Rattle.zj_script.specs.declared.verb.Verb.{Verb};
ghost use Rattle.zj_script.specs.Grammar.{can_begin, verb_word};
ghost use Rattle.zj_script.specs.Reading.{IsStep, Opens, opening_word};

/// Which acts the lines of an input may have.
#[derive(Clone, Copy, Debug, PartialEq, Eq)]
pub(crate) enum Acts {
    /// Calls alone.
    Script,
    /// All acts.
    Schedule,
}

/// What a call does. A path stands behind each.
#[derive(Clone, Copy, Debug, PartialEq, Eq)]
pub(crate) enum Verb {
    Mkdir,
    Create,
    Unlink,
    Rmdir,
    Rename,
    List,
    Stat,
    Write,
    Read,
    Truncate,
    Fsync,
}

impl Verb {
    /// Its word.
    pub(crate) fn word(self) -> &'static [u8]
        ensures { result.now ≡ verb_word self }
    {
        match self {
            Verb::Mkdir => b"mkdir",
            Verb::Create => b"create",
            Verb::Unlink => b"unlink",
            Verb::Rmdir => b"rmdir",
            Verb::Rename => b"rename",
            Verb::List => b"list",
            Verb::Stat => b"stat",
            Verb::Write => b"write",
            Verb::Read => b"read",
            Verb::Truncate => b"truncate",
            Verb::Fsync => b"fsync",
        }
    }
}

/// The verb that a word is. None exactly where it is none.
pub(crate) fn read_verb(word: &[u8]) -> Option<Verb>
    ensures some { IfSome result (λ verb. word.now ≡ verb_word verb) }
    ensures none { IfNone result ((verb : Verb) → word.now ≢ verb_word verb) }
{
    match word {
        b"mkdir" => Some(Verb::Mkdir),
        b"create" => Some(Verb::Create),
        b"unlink" => Some(Verb::Unlink),
        b"rmdir" => Some(Verb::Rmdir),
        b"rename" => Some(Verb::Rename),
        b"list" => Some(Verb::List),
        b"stat" => Some(Verb::Stat),
        b"write" => Some(Verb::Write),
        b"read" => Some(Verb::Read),
        b"truncate" => Some(Verb::Truncate),
        b"fsync" => Some(Verb::Fsync),
        _ => None,
    }
}

/// The verb that a word is, of a call that can be begun. None exactly where it is none.
pub(crate) fn read_begun(word: &[u8]) -> Option<Verb>
    ensures some { IfSome result (λ verb. IsTrue (can_begin verb) × (word.now ≡ verb_word verb)) }
    ensures none { IfNone result ((verb : Verb) → IsTrue (can_begin verb) → word.now ≢ verb_word verb) }
{
    match read_verb(word)? {
        Verb::Fsync => None,
        verb => Some(verb),
    }
}

/// The first word of an act that has a core.
#[derive(Clone, Copy, Debug, PartialEq, Eq)]
pub(crate) enum Opening {
    Call(Verb),
    Begin,
    Take,
    Look,
    Stop,
    Drop,
    Commit,
    Sync,
}

/// The opening that a word is. None exactly where it is none of these acts.
pub(crate) fn read_opening(acts: Acts, word: &[u8]) -> Option<Opening>
    ensures some { IfSome result (λ opening. Opens acts opening × (word.now ≡ opening_word opening)) }
    ensures none { IfNone result ((opening : Opening) → Opens acts opening → word.now ≢ opening_word opening) }
{
    match acts {
        Acts::Script => Some(Opening::Call(read_verb(word)?)),
        Acts::Schedule => read_any_opening(word),
    }
}

/// The opening that a word is. None exactly where it is none.
fn read_any_opening(word: &[u8]) -> Option<Opening>
    ensures some { IfSome result (λ opening. word.now ≡ opening_word opening) }
    ensures none { IfNone result ((opening : Opening) → word.now ≢ opening_word opening) }
{
    match read_step(word) {
        Some(opening) => Some(opening),
        None => Some(Opening::Call(read_verb(word)?)),
    }
}

/// The opening that a word is, but for a call's. None exactly where it is none.
fn read_step(word: &[u8]) -> Option<Opening>
    ensures some { IfSome result (λ opening. word.now ≡ opening_word opening) }
    ensures none { IfNone result ((opening : Opening) → IsStep opening → word.now ≢ opening_word opening) }
{
    match word {
        b"begin" => Some(Opening::Begin),
        b"take" => Some(Opening::Take),
        b"look" => Some(Opening::Look),
        b"stop" => Some(Opening::Stop),
        b"drop" => Some(Opening::Drop),
        b"commit" => Some(Opening::Commit),
        b"sync" => Some(Opening::Sync),
        _ => None,
    }
}
