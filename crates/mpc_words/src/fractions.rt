//! Fractions.

ghost use Rattle.std.specs.Prelude.{pos, MatchOption, MatchBool};
ghost use Rattle.mpc_exact.specs.Rational.{ℚ};
ghost use Rattle.mpc_frac.specs.Fits.{FitsFrac};
ghost use Rattle.mpc_words.specs.Spelled.{SpellsFraction, SpellsRatio, SpellsWhole, HasParts};

use crate::integers::read_integer;
use crate::lines::cut_at;
use crate::naturals::read_size;
use mpc_frac::Frac;

/// Are these the parts of the fraction?
fn has_parts(fraction: &Frac, num: i128, den: i128) -> bool
    ensures { MatchBool result (HasParts fraction.now num den) (¬ HasParts fraction.now num den) }
{
    fraction.num() == num && fraction.den() == den
}

/// The fraction num/den, if it is in lowest terms and fits.
fn lowest(num: i128, den: i128) -> Option<Frac>
    ensures { MatchOption result ((x : ℚ) → FitsFrac x → ¬ HasParts x num den)
        (λ x. HasParts x num den) }
{
    match Frac::new(num, den) {
        Ok(fraction) => if has_parts(&fraction, num, den) {
            Some(fraction)
        } else {
            None
        },
        Err(_) => None,
    }
}

/// The whole number, if it fits: in 64 bits it does, and is in lowest terms.
fn whole(num: i128) -> Option<Frac>
    ensures { MatchOption result ((x : ℚ) → FitsFrac x → ¬ HasParts x num (pos 1)) (λ x. HasParts x num (pos 1)) }
{
    match i64::try_from(num) {
        Ok(short) => Some(Frac::whole(short)),
        Err(_) => lowest(num, 1),
    }
}

/// The whole number that a word is.
fn read_whole(word: &[u8]) -> Option<Frac>
    ensures { MatchOption result ((x : ℚ) → ¬ SpellsWhole word.now x)
        (λ x. SpellsWhole word.now x) }
{
    let num = read_integer(word)?;
    whole(num)
}

/// The fraction with a denominator above 1 whose parts two words are.
fn read_ratio(above: &[u8], below: &[u8]) -> Option<Frac>
    ensures { MatchOption result ((x : ℚ) → ¬ SpellsRatio above.now below.now x)
        (λ x. SpellsRatio above.now below.now x) }
{
    let num = read_integer(above)?;
    let den = read_size(below)?;
    if den == 1 {
        return None;
    }
    lowest(num, den as i128)
}

/// The fraction in lowest terms that a word is, both parts at most 2^127 - 1 in size: the numerator
/// and, unless it is 1, a slash and the denominator.
pub fn read_fraction(word: &[u8]) -> Option<Frac>
    ensures { MatchOption result ((x : ℚ) → ¬ SpellsFraction word.now x)
        (λ x. SpellsFraction word.now x) }
{
    match cut_at(word, b'/') {
        Some((above, below)) => read_ratio(above, below),
        None => read_whole(word),
    }
}
