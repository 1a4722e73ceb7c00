//! Divisors that go into many numbers.

ghost use Rattle.std.specs.Prelude.{◌≡◌};

/// The lowest 64 bits.
const LOW: u128 = 0xffff_ffff_ffff_ffff;

/// A divisor, with what makes an exact division by it one multiplication (Jebelean 1993): it is `2^shift` times
/// an odd number, which has an inverse modulo 2^64.
#[derive(Clone, Copy, Drop)]
pub struct Divisor {
    /// The number itself.
    pub den: u64,
    shift: u32,
    inverse: u64,
}

/// A number that is inverse to an odd one in twice as many of the lowest bits as the guess (Newton's step).
#[inline]
fn nearer(guess: u64, odd: u64) -> u64 {
    guess.wrapping_mul(2_u64.wrapping_sub(odd.wrapping_mul(guess)))
}

/// The inverse of an odd number modulo 2^64: the first guess is right in 5 bits, and each step doubles them.
#[inline]
fn inverse_of(odd: u64) -> u64 {
    let first_guess = odd.wrapping_mul(3) ^ 2;
    nearer(nearer(nearer(nearer(first_guess, odd), odd), odd), odd)
}

impl Divisor {
    /// A number to divide by, with the inverse of its odd part. By 0, which has none, nothing is divided.
    #[inline]
    pub fn of(den: u64) -> Self
        ensures { result.den ≡ den }
    {
        let shift = den.trailing_zeros() & 63;
        let inverse = inverse_of(den >> shift);
        Divisor {
            den,
            shift,
            inverse,
        }
    }

    /// The quotient of the number, where that is whole and fits 64 bits. No clause says so: whoever needs it multiplies
    /// back, which shows both.
    #[inline]
    pub(crate) fn guess(self, number: i128) -> i64 {
        let shifted = number.cast_unsigned() >> (self.shift & 63);
        let low = (shifted & LOW) as u64;
        low.wrapping_mul(self.inverse).cast_signed()
    }

    /// The quotient of a number of 64 bits, where that is whole: as the other one, without an operation in 128 bits.
    #[inline]
    pub(crate) fn short_guess(self, number: i64) -> i64 {
        let shifted = number >> (self.shift & 63);
        shifted
            .cast_unsigned()
            .wrapping_mul(self.inverse)
            .cast_signed()
    }
}
