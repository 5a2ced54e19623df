//! The parts of a text round a separator: the lines of an input, and the words of a line.

ghost use Rattle.std.specs.Prelude.{◌≡◌, ◌==◌, ◌∷◌, option_copied};
ghost use Rattle.std.specs.List.{position};
ghost use Rattle.zj_script.specs.Parts.{parts_of, parts_of_any};

/// The first part of a text, and what stands behind its separator, None behind the last part.
pub(crate) fn cut(text: &[u8], separator: u8) -> (&[u8], Option<&[u8]>)
    ensures { parts_of separator text.now ≡ result.0.now ∷ parts_of_any separator (option_copied result.1) }
{
    match find(text, separator) {
        Some(end) => (&text[..end], Some(&text[end + 1..])),
        None => (text, None),
    }
}

/// Where the first such byte of a text stands.
fn find(text: &[u8], wanted: u8) -> Option<usize>
    ensures { result ≡ position (λ b. b == wanted) text.now }
{
    text.iter().position(|byte| *byte == wanted)
}
