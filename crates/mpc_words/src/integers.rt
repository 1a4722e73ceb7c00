//! Whole numbers.

ghost use Rattle.std.specs.Prelude.{◌≡◌, ◌≢◌, ◌^◌, ◌<◌, ℤ, pos, neg_ℤ, ◌∷◌, length, slice_index, MatchOption, MatchBool};
ghost use Rattle.mpc_words.specs.Spelled.{SpellsInteger};

use crate::naturals::read_size;

/// The negative of a number.
fn negative(size: u128) -> i128
    requires { size < 2 ^ 127 }
    ensures { result ≡ neg_ℤ (pos size) }
{
    -(size as i128)
}

/// The negative number whose size a word is.
fn read_negative(size: &[u8]) -> Option<i128>
    ensures { MatchOption result ((z : ℤ) → ¬ SpellsInteger (45 ∷ size.now) z)
        (λ z. SpellsInteger (45 ∷ size.now) z) }
{
    let size = read_size(size)?;
    if size == 0 {
        return None;
    }
    Some(negative(size))
}

/// Does the word begin with a minus sign?
fn has_minus(word: &[u8]) -> bool
    ensures { MatchBool result ((0 < length word.now) × (slice_index word.now 0 ≡ 45))
        (slice_index word.now 0 ≢ 45) }
{
    !word.is_empty() && word[0] == b'-'
}

/// The whole number at most 2^127 - 1 in size that a word is: digits without a zero in front, behind
/// a minus sign where it is negative.
pub fn read_integer(word: &[u8]) -> Option<i128>
    ensures { MatchOption result ((z : ℤ) → ¬ SpellsInteger word.now z)
        (λ z. SpellsInteger word.now z) }
{
    if has_minus(word) {
        return read_negative(&word[1..]);
    }
    let size = read_size(word)?;
    Some(size as i128)
}
