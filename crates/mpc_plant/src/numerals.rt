//! The numbers that stand in strings.

ghost use Rattle.std.specs.Prelude.{◌≡◌, ◌+◌, ◌*◌, ◌^◌, ◌<◌, ◌≤◌, ◌==◌, length, position, pos, Some, None, IfSome, option_map, if◌then◌else◌};
ghost use Rattle.std.specs.List.{list_all};
ghost use Rattle.std.specs.Char.{is_ascii_digit};
ghost use Rattle.mpc_exact.specs.Rational.{frac, IsNonneg};
ghost use Rattle.mpc_plant.specs.Decimals.{decimal_value, numeral, parted, ratio_of, whole_of, plain_number, decimal_of, unsigned_number, text_number};

use mpc_frac::Frac;

/// The largest numeral has 18 digits.
const MOST_DIGITS: usize = 18;

/// The value of decimal digits, of which there are few.
fn digits_value(text: &[u8]) -> Option<u64>
    requires { length text.now ≤ 18 }
    ensures value { result
        ≡ (if list_all is_ascii_digit text.now then Some (decimal_value text.now) else None) }
    ensures small { IfSome result (λ value. value < 1000000000000000000) }
{
    let mut value = 0;
    for byte in text {
        if *byte < b'0' || *byte > b'9' {
            return None;
        }
        value = value * 10 + u64::from(*byte - b'0');
    }
    Some(value)
}

/// The value of a numeral of 1 to 18 digits.
fn numeral_value(text: &[u8]) -> Option<u64>
    ensures value { result ≡ numeral text.now }
    ensures small { IfSome result (λ value. (value < 1000000000000000000) × (length text.now ≤ 18)) }
{
    if text.is_empty() || text.len() > MOST_DIGITS {
        return None;
    }
    digits_value(text)
}

/// The place of the first such byte.
fn place_of(text: &[u8], byte: u8) -> Option<usize>
    ensures { result ≡ position (λ c. c == byte) text.now }
{
    text.iter().position(|c| *c == byte)
}

/// What stands before and after the first such byte.
fn part_at(text: &[u8], byte: u8) -> Option<(&[u8], &[u8])>
    ensures { option_map (λ parts. (parts.0.now, parts.1.now)) result ≡ parted byte text.now }
{
    match place_of(text, byte) {
        Some(place) => Some((&text[..place], &text[place + 1..])),
        None => None,
    }
}

/// The quotient of two whole numbers.
fn fraction(numerator: u128, denominator: u64) -> Frac
    requires small { numerator < 2 ^ 127 }
    requires positive { 0 < denominator }
    ensures value { result ≡ frac (pos numerator) denominator }
    ensures nonneg { IsNonneg result }
{
    match Frac::new(numerator as i128, i128::from(denominator)) {
        Ok(fraction) => fraction,
        Err(_) => unreachable!(),
    }
}

/// The number that two numerals with a stroke between them spell.
fn ratio_number(numerator: &[u8], denominator: &[u8]) -> Option<Frac>
    ensures value { result ≡ ratio_of (numerator.now, denominator.now) }
    ensures nonneg { IfSome result IsNonneg }
{
    let above = numeral_value(numerator)?;
    let below = numeral_value(denominator)?;
    if below == 0 {
        return None;
    }
    Some(fraction(u128::from(above), below))
}

/// The number that a numeral spells.
fn whole_number(text: &[u8]) -> Option<Frac>
    ensures value { result ≡ whole_of text.now }
    ensures nonneg { IfSome result IsNonneg }
{
    let value = numeral_value(text)?;
    Some(fraction(u128::from(value), 1))
}

/// The number that a text without a sign and a point is: one numeral of 1 to 18 digits, or two with a stroke between them, of which the
/// second isn't 0.
pub fn plain_number(text: &[u8]) -> Option<Frac>
    ensures value { result ≡ plain_number text.now }
    ensures nonneg { IfSome result IsNonneg }
{
    match part_at(text, b'/') {
        Some((numerator, denominator)) => ratio_number(numerator, denominator),
        None => whole_number(text),
    }
}

/// The number that two numerals with a point between them spell.
fn decimal_number(before: &[u8], after: &[u8]) -> Option<Frac>
    ensures { result ≡ decimal_of (before.now, after.now) }
{
    let whole = numeral_value(before)?;
    let part = numeral_value(after)?;
    let scale = power_of_ten(after.len());
    Some(fraction(
        u128::from(whole) * u128::from(scale) + u128::from(part),
        scale,
    ))
}

/// A power of ten of at most 18 zeros.
fn power_of_ten(zeros: usize) -> u64
    requires { zeros ≤ 18 }
    ensures value { result ≡ 10 ^ zeros }
    ensures positive { 0 < result }
    ensures small { result ≤ 1000000000000000000 }
{
    10u64.pow(zeros as u32)
}

/// The number that a text without a sign is.
fn unsigned(text: &[u8]) -> Option<Frac>
    ensures { result ≡ unsigned_number text.now }
{
    if let Some((numerator, denominator)) = part_at(text, b'/') {
        return ratio_number(numerator, denominator);
    }
    match part_at(text, b'.') {
        Some((before, after)) => decimal_number(before, after),
        None => whole_number(text),
    }
}

/// The number that a text is.
pub(crate) fn number_in(text: &[u8]) -> Option<Frac>
    ensures { result ≡ text_number text.now }
{
    if text.is_empty() {
        return None;
    }
    if text[0] != b'-' {
        return unsigned(text);
    }
    let size = unsigned(&text[1..])?;
    Some(size.neg())
}
