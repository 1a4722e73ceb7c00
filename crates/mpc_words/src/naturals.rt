//! Natural numbers.

ghost use Rattle.std.specs.Prelude.{◌≡◌, ℕ, ◌^◌, ◌<◌, ◌≤◌, length, MatchOption};
ghost use Rattle.std.specs.Option.{SomeIff};
ghost use Rattle.std.specs.List.{list_all};
ghost use Rattle.std.specs.Char.{is_ascii_digit};
ghost use Rattle.std.specs.Str.Parse.{AllDigits, digits_value};
ghost use Rattle.mpc_words.specs.Numerals.{is_numeral};
ghost use Rattle.mpc_words.specs.Spelled.{SpellsBelow, SpellsNatural, PrintsNatural, in_64_bits};

/// What a word is as a natural number.
#[derive(Clone, Copy, Debug, Drop, PartialEq, Eq)]
pub enum Natural {
    /// This number.
    Small(u64),
    /// A number of more than 64 bits.
    Large,
    /// None: a byte isn't a digit, a zero stands in front, or the word is empty.
    Misspelled,
}

/// The largest number of a part of a fraction.
const LARGEST: u128 = i128::MAX as u128;

/// Whatever so many digits are, 64 bits hold their number.
const SHORT: usize = 19;

/// Is each byte a digit?
fn are_digits(text: &[u8]) -> bool
    ensures { result ≡ list_all is_ascii_digit text.now }
{
    text.iter().all(|c| c.is_ascii_digit())
}

/// Are these digits, and is a zero in front the only one?
fn is_numeral(word: &[u8]) -> bool
    ensures { result ≡ is_numeral word.now }
{
    if word.is_empty() {
        return false;
    }
    if word[0] == b'0' {
        return word.len() == 1;
    }
    are_digits(word)
}

/// The number that so few digits stand for, which 64 bits hold whatever they are.
fn short_value(digits: &[u8]) -> u64
    requires digits { AllDigits 10 digits.now }
    requires few { length digits.now ≤ 19 }
    ensures { result ≡ digits_value 10 digits.now }
{
    let mut value: u64 = 0;
    for digit in digits {
        value = value * 10 + u64::from(*digit - b'0');
    }
    value
}

/// The number that digits stand for, if it is below 2^127.
fn small_value(digits: &[u8]) -> Option<u128>
    requires { AllDigits 10 digits.now }
    ensures { SomeIff result (digits_value 10 digits.now < 2 ^ 127) (digits_value 10 digits.now) }
{
    let short = digits.len().min(SHORT);
    let mut value = u128::from(short_value(&digits[..short]));
    for place in short..digits.len() {
        if value > LARGEST / 10 {
            return None;
        }
        let next = value * 10 + u128::from(digits[place] - b'0');
        if next > LARGEST {
            return None;
        }
        value = next;
    }
    Some(value)
}

/// The number below 2^127 that a word is.
pub(crate) fn read_size(word: &[u8]) -> Option<u128>
    ensures { MatchOption result ((n : ℕ) → ¬ SpellsBelow (2 ^ 127) word.now n)
        (λ n. SpellsBelow (2 ^ 127) word.now n) }
{
    if !is_numeral(word) {
        return None;
    }
    small_value(word)
}

/// The number in 64 bits, where it fits.
fn in_64_bits(value: Option<u128>) -> Natural
    ensures { result ≡ in_64_bits value }
{
    match value {
        Some(value) => if value <= u64::MAX as u128 {
            Natural::Small(value as u64)
        } else {
            Natural::Large
        },
        None => Natural::Large,
    }
}

/// The natural number that a word is: any number of digits without a zero in front, or `0`.
pub fn read_natural(word: &[u8]) -> Natural
    ensures spelled { SpellsNatural word.now result }
    ensures printed { PrintsNatural word.now result }
{
    if !is_numeral(word) {
        return Natural::Misspelled;
    }
    in_64_bits(small_value(word))
}
