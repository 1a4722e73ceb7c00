//! Numbers of 62 bits.

ghost use Rattle.std.specs.Prelude.{◌≡◌, pos, ◌≤◌, ◌^◌, ◌*ℤ◌, neg_ℤ, unsigned_abs};

/// The product of two numbers, which fits twice the width.
#[inline]
pub fn product(left: i64, right: i64) -> i128
    ensures { result ≡ left *ℤ right }
{
    left as i128 * right as i128
}

/// The number in 64 bits.
#[inline]
pub fn narrow(number: i128) -> i64
    requires { unsigned_abs number ≤ 2 ^ 62 }
    ensures { result ≡ number }
{
    number as i64
}

/// Minus the number.
#[inline]
pub fn negative(number: i64) -> i64
    requires { unsigned_abs number ≤ 2 ^ 62 }
    ensures value { result ≡ neg_ℤ number }
    ensures small { unsigned_abs result ≤ 2 ^ 62 }
{
    -number
}

/// A number that is not negative, as a signed one. It is taken by its bits: were the compiler to know that it isn't
/// negative, it would multiply it as an unsigned one by signed ones, which takes two multiplications.
#[inline]
pub fn signed(number: u64) -> i64
    requires { number ≤ 2 ^ 62 }
    ensures value { result ≡ pos number }
{
    number.cast_signed()
}
