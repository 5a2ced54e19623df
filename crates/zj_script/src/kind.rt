//! The kinds of refusals.

ghost use Rattle.std.specs.Prelude.{◌≡◌, ◌≢◌, ℕ, Option, Some, IfSome, IfNone};
ghost use Rattle.zj_script.specs.declared.kind.Kind.{Kind};
ghost use Rattle.zj_script.specs.Refusals.{kind_number};

/// What was due where an input is refused. Each kind has a number.
#[derive(Clone, Copy, Debug, PartialEq, Eq)]
pub enum Kind {
    /// 1: a core below the count of cores, or in a schedule the word `checkpoint`.
    BadCore,
    /// 2: the word of an act or a call, or the end of the line.
    BadCall,
    /// 3: a path.
    BadPath,
    /// 4: a number of 32 bits.
    BadNumber,
    /// 5: the bytes of a file.
    BadText,
    /// 6: the end of the line, or of the input.
    TooLong,
}

impl Kind {
    /// The number of the kind, from 1 to 6.
    pub fn number(self) -> u32
        ensures { result ≡ kind_number self }
    {
        match self {
            Kind::BadCore => 1,
            Kind::BadCall => 2,
            Kind::BadPath => 3,
            Kind::BadNumber => 4,
            Kind::BadText => 5,
            Kind::TooLong => 6,
        }
    }

    /// The kind with a number, or None exactly where no kind has it.
    pub fn from_number(number: u32) -> Option<Self>
        ensures some { IfSome result (λ kind. kind_number kind ≡ number) }
        ensures none { IfNone result ((kind : Kind) → kind_number kind ≢ number) }
    {
        match number {
            1 => Some(Kind::BadCore),
            2 => Some(Kind::BadCall),
            3 => Some(Kind::BadPath),
            4 => Some(Kind::BadNumber),
            5 => Some(Kind::BadText),
            6 => Some(Kind::TooLong),
            _ => None,
        }
    }

    /// A sentence for a person on what was due.
    pub fn due(self) -> &'static str {
        match self {
            Kind::BadCore =>
                "due: a core below the image's count of cores, or in a schedule checkpoint",
            Kind::BadCall => "due: a call or an act that can stand here, or the end of the line",
            Kind::BadPath =>
                "due: a path, as / or /a/b, of at most 16 names, each of at most 26 letters, digits, and . _ -",
            Kind::BadNumber => "due: a number from 0 to 4294967295, without leading zeros",
            Kind::BadText =>
                "due: the bytes of a file, as a%20b, where % and each byte that isn't printed is % and two lower-case digits",
            Kind::TooLong =>
                "due: the end: a line has at most 20000 bytes, and an input 65536 lines and 16777216 bytes",
        }
    }
}
