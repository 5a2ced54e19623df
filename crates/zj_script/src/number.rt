//! Decimal numbers.

ghost use Rattle.std.specs.Prelude.{◌≡◌, ◌≢◌, ℕ, ◌<◌, ◌^◌, ◌↔◌, IfSome, IfNone, IsTrue, decimal};
ghost use Rattle.zj_script.specs.Number.{BeginsNumber};

/// The number that a word spells in decimal, without leading zeros. None exactly where it spells none below
/// 2^32.
pub fn read_number(word: &[u8]) -> Option<u32>
    ensures some { IfSome result (λ number. word.now ≡ decimal number) }
    ensures none { IfNone result ((number : ℕ) → number < 2 ^ 32 → word.now ≢ decimal number) }
{
    if !begins_number(word) {
        return None;
    }
    let Ok(text) = str::from_utf8(word) else {
        return None;
    };
    text.parse().ok()
}

/// Whether a word is a zero alone, or begins with another digit.
fn begins_number(word: &[u8]) -> bool
    ensures { IsTrue result ↔ BeginsNumber word.now }
{
    match word {
        [b'0'] => true,
        [b'1'..=b'9', ..] => true,
        _ => false,
    }
}
