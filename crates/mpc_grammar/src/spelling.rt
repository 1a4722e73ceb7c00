//! The numbers that the words of a line spell behind its first word.

ghost use Rattle.std.specs.Prelude.{◌≡◌, ◌≢◌, List, ℕ, ℤ, [], ◌∷◌, ◌++◌, MatchOption, IfOk};
ghost use Rattle.mpc_exact.specs.Rational.{ℚ};
ghost use Rattle.mpc_words.specs.Words.{line};
ghost use Rattle.mpc_grammar.specs.Spelling.{AreFractions, AreIntegers, IsOneNumber, IsOneCount};

use mpc_frac::NoMemory;
use mpc_linear::{Ints, Vector};
use mpc_words::{
    Natural, fraction_theorems, integer_theorems, line_theorems, read_fraction, read_integer,
    read_natural, split_word,
};
use std::alloc::Global;

/// What stands behind the blank behind the word `name`, or in it `None` where the line is this word
/// alone, if the line begins so.
fn words_behind<'a>(text: &'a [u8], name: &[u8]) -> Option<Option<&'a [u8]>>
    ensures { MatchOption result
        ((words : List (List ℕ)) → text.now ≢ line name.now words)
        (λ behind. MatchOption behind (text.now ≡ name.now) (λ rest. text.now ≡ name.now ++ 32 ∷ rest.now)) }
{
    let Some(rest) = text.strip_prefix(name) else {
        return None;
    };
    match rest.split_first() {
        None => Some(None),
        Some((first, words)) => if *first == b' ' {
            Some(Some(words))
        } else {
            None
        },
    }
}

/// The fractions behind the word `name`, put into a list without entries, if the line is this word and
/// fractions in lowest terms, each behind one blank.
pub fn fractions_into(
    mut fractions: Vector,
    text: &[u8],
    name: &[u8],
) -> Result<Option<Vector>, NoMemory>
    requires { fractions ≡ [] }
    ensures { IfOk result (λ found. MatchOption found
        ((xs : List ℚ) → ¬ AreFractions name.now text.now xs)
        (λ xs. AreFractions name.now text.now xs)) }
{
    line_theorems();
    fraction_theorems();
    let Some(mut rest) = words_behind(text, name) else {
        return Ok(None);
    };
    while let Some(words) = rest {
        let (word, behind) = split_word(words);
        let Some(fraction) = read_fraction(word) else {
            return Ok(None);
        };
        fractions.push(fraction)?;
        rest = behind;
    }
    Ok(Some(fractions))
}

/// The fractions behind the word `name`, if the line is this word and fractions in lowest terms, each
/// behind one blank.
pub fn fractions_of(alloc: Global, text: &[u8], name: &[u8]) -> Result<Option<Vector>, NoMemory>
    ensures { IfOk result (λ found. MatchOption found
        ((xs : List ℚ) → ¬ AreFractions name.now text.now xs)
        (λ xs. AreFractions name.now text.now xs)) }
{
    fractions_into(Vector::new(alloc), text, name)
}

/// The whole numbers behind the word `name`, if the line is this word and whole numbers, each behind one
/// blank.
pub fn integers_of(alloc: Global, text: &[u8], name: &[u8]) -> Result<Option<Ints>, NoMemory>
    ensures { IfOk result (λ found. MatchOption found
        ((zs : List ℤ) → ¬ AreIntegers name.now text.now zs)
        (λ zs. AreIntegers name.now text.now zs)) }
{
    line_theorems();
    integer_theorems();
    let Some(mut rest) = words_behind(text, name) else {
        return Ok(None);
    };
    let mut integers = Ints::new(alloc);
    while let Some(words) = rest {
        let (word, behind) = split_word(words);
        let Some(integer) = read_integer(word) else {
            return Ok(None);
        };
        integers.push(integer)?;
        rest = behind;
    }
    Ok(Some(integers))
}

/// The one natural number behind the word `name`.
pub fn number_of(text: &[u8], name: &[u8]) -> Natural
    ensures number { IsOneNumber name.now text.now result }
    ensures count { IsOneCount name.now text.now result }
{
    match words_behind(text, name) {
        Some(Some(word)) => read_natural(word),
        _ => Natural::Misspelled,
    }
}
