//! Exact fractions of 128-bit parts. An operation answers the value of exact arithmetic, or says that it is too wide.
#![tactic(auto)]

ghost use Rattle.std.specs.Prelude.{◌≡◌, ◌≢◌, ◌^◌, ◌*◌, ◌<◌, ◌≤◌, ◌++◌, ◌↔◌, ◌⊎◌, ◌/◌, MatchResult, IfOk, IfSome, OnOk, OnErr, IsTrue, unsigned_abs, pos, ◌+ℤ◌, ◌*ℤ◌, ◌<ℤ◌, ⊤};
ghost use Rattle.std.proofs.Common.{nat_cmp};
ghost use Rattle.mpc_exact.specs.Gcd.{gcd};
ghost use Rattle.mpc_exact.specs.Rational.{◌*ℚ◌, ◌+ℚ◌, ◌<ℚ◌, frac, int, neg_ℚ, inv_ℚ, cmp_ℚ, quotient};
ghost use Rattle.mpc_frac.specs.Fits.{FitsFrac, FitsSum, size_of_product, denom_of_product};
ghost use Rattle.mpc_frac.specs.Sign.{signed_like};
ghost use Rattle.mpc_frac.specs.Text.{text_of};

mod divisor;
mod short;
mod theorems;

use divisor::SHORT;
pub use divisor::greatest_common_divisor;
use itoa::Buffer;
use short::Short;
use std::alloc::{AllocError, AllocFailed};
use std::cmp::Ordering;
use std::marker::Model;
pub use theorems::fit_theorems;
use thiserror::Error;

/// The exact result needs more than 128 bits.
#[derive(Clone, Copy, Debug, Drop, Error)]
#[error("a number is too wide for 128 bits")]
pub struct Wide;

/// Memory ran out.
#[derive(Clone, Copy, Debug, Drop, Error)]
#[error("out of memory")]
pub struct NoMemory;

impl From<AllocError> for NoMemory {
    fn from(_error: AllocError) -> NoMemory {
        NoMemory
    }
}

impl<T: Drop> From<AllocFailed<T>> for NoMemory {
    fn from(_error: AllocFailed<T>) -> NoMemory {
        NoMemory
    }
}

/// Why two integers make no fraction.
#[derive(Clone, Copy, Debug, Drop, Error)]
pub enum FracError {
    #[error("the denominator is zero")]
    ZeroDenominator,
    #[error("a number is too wide for 128 bits")]
    Wide,
}

/// A fraction in lowest terms over a positive denominator, both parts below 2^127 in size.
///
/// Equal numbers are equal values, and zero is 0/1.
#[derive(Clone, Copy, Debug, Drop, PartialEq, Eq)]
pub struct Frac {
    num: i128,
    den: i128,
}

impl Model for Frac {
    ghost use Rattle.mpc_exact.specs.Rational.{ℚ, coded_ℚ};

    ghost Value = { ℚ };

    ghost coded = { coded_ℚ };

    ghost use Rattle.mpc_frac.specs.FracModel.{number, IsFrac, parts, parts_back};

    ghost view = { number };

    ghost invariant = { IsFrac };

    ghost inverse = { parts };

    ghost inverse_ok = { parts_back };
}

/// The product, if it lies below 2^127.
fn small_product(left: u128, right: u128) -> Result<u128, Wide>
    ensures small { MatchResult result (λ product. product < 2 ^ 127) (λ _. 2 ^ 127 ≤ left * right) }
    ensures value { MatchResult result (λ product. product ≡ left * right) (λ _. 2 ^ 127 ≤ left * right) }
{
    match left.checked_mul(right) {
        Some(product) => if product <= i128::MAX as u128 {
            Ok(product)
        } else {
            Err(Wide)
        },
        None => Err(Wide),
    }
}

/// A number divided by a divisor that is often 1, and in 64 bits where both fit.
#[inline]
fn part(number: u128, divisor: u128) -> u128
    requires { 0 < divisor }
    ensures { result ≡ number / divisor }
{
    if divisor == 1 {
        return number;
    }
    if number <= SHORT && divisor <= SHORT {
        return (number as u64 / divisor as u64) as u128;
    }
    number / divisor
}

/// The size, with the sign of the product of the two numbers.
#[inline]
pub(crate) fn with_sign_of(left: i128, right: i128, size: u128) -> i128
    requires { size < 2 ^ 127 }
    ensures { result ≡ signed_like left right size }
{
    if (left < 0) == (right < 0) {
        size as i128
    } else {
        -(size as i128)
    }
}

/// The fraction num/den, where only factors of the divisor can cancel.
fn cancelled(num: i128, den: u128, divisor: u128) -> Frac
    requires num_fits { unsigned_abs num < 2 ^ 127 }
    requires den_fits { den < 2 ^ 127 }
    requires den_positive { 0 < den }
    requires shared { gcd (unsigned_abs num) den ≡ gcd (unsigned_abs num) divisor }
    ensures { result ≡ frac num den }
{
    let shared = greatest_common_divisor(num.unsigned_abs(), divisor);
    if shared == 1 {
        return Frac::lowest(num, den);
    }
    let size = part(num.unsigned_abs(), shared);
    Frac::lowest(with_sign_of(num, 1, size), part(den, shared))
}

/// The sum, if it lies below 2^127 in size.
fn small_sum(left: i128, right: i128) -> Result<i128, Wide>
    ensures small { MatchResult result (λ sum. unsigned_abs sum < 2 ^ 127) (λ _. ⊤) }
    ensures value { MatchResult result (λ sum. sum ≡ left +ℤ right) (λ _. 2 ^ 127 ≤ unsigned_abs (left +ℤ right)) }
{
    match left.checked_add(right) {
        Some(sum) => if sum == i128::MIN { Err(Wide) } else { Ok(sum) },
        None => Err(Wide),
    }
}

/// The order of `left_num / left_den` and `right_num / right_den`, by their continued fractions, so that no product is made.
#[inline(never)]
fn compare(
    mut left_num: u128,
    mut left_den: u128,
    mut right_num: u128,
    mut right_den: u128,
) -> Ordering
    requires b_some { 0 < left_den }
    requires d_some { 0 < right_den }
    ensures { result ≡ nat_cmp (left_num * right_den) (right_num * left_den) }
{
    'turns: loop {
        let left_whole = left_num / left_den;
        let right_whole = right_num / right_den;
        if left_whole != right_whole {
            return left_whole.cmp(&right_whole);
        }
        let left_rest = left_num % left_den;
        let right_rest = right_num % right_den;
        if left_rest == 0 || right_rest == 0 {
            return left_rest.cmp(&right_rest);
        }
        left_num = right_den;
        right_num = left_den;
        left_den = right_rest;
        right_den = left_rest;
    }
}

impl Frac {
    /// The fraction num/den of parts in lowest terms.
    #[inline]
    pub(crate) fn lowest(num: i128, den: u128) -> Frac
        requires num_fits { unsigned_abs num < 2 ^ 127 }
        requires den_fits { den < 2 ^ 127 }
        requires den_positive { 0 < den }
        requires coprime { gcd (unsigned_abs num) den ≡ 1 }
        ensures { result ≡ frac num den }
    {
        Frac {
            num,
            den: den as i128,
        }
    }

    /// The fraction of these parts in lowest terms, with the sign of the product of the two numbers, if it fits.
    fn fitted(left: i128, right: i128, size: u128, den: u128) -> Result<Frac, Wide>
        requires den_positive { 0 < den }
        requires coprime { gcd size den ≡ 1 }
        ensures value { IfOk result (λ v. v ≡ frac (signed_like left right size) den) }
        ensures wide { MatchResult result (λ _. (size < 2 ^ 127) × (den < 2 ^ 127))
            (λ _. (2 ^ 127 ≤ size) ⊎ (2 ^ 127 ≤ den)) }
    {
        if size > i128::MAX as u128 {
            return Err(Wide);
        }
        if den > i128::MAX as u128 {
            return Err(Wide);
        }
        Ok(Frac::lowest(with_sign_of(left, right, size), den))
    }

    /// The reduced value of num/den.
    ///
    /// `ZeroDenominator` where den is 0; `Wide` where a part of the reduced value doesn't fit.
    pub fn new(num: i128, den: i128) -> Result<Frac, FracError>
        ensures zero { (result ≡ Err FracError.ZeroDenominator) ↔ (den ≡ pos 0) }
        ensures wide { (result ≡ Err FracError.Wide)
            ↔ ((den ≢ pos 0) × (¬ FitsFrac (quotient num den))) }

        ensures value { IfOk result (λ v. v ≡ quotient num den) }
        ensures fits { OnOk result (FitsFrac (quotient num den)) }
    {
        if den == 0 {
            return Err(FracError::ZeroDenominator);
        }
        let divisor = greatest_common_divisor(num.unsigned_abs(), den.unsigned_abs());
        let size = part(num.unsigned_abs(), divisor);
        let below = part(den.unsigned_abs(), divisor);
        match Frac::fitted(num, den, size, below) {
            Ok(fraction) => Ok(fraction),
            Err(Wide) => Err(FracError::Wide),
        }
    }

    /// The whole number.
    pub fn whole(number: i64) -> Frac
        ensures { result ≡ int number }
    {
        Frac::lowest(number as i128, 1)
    }

    /// The numerator, which has the fraction's sign.
    #[inline]
    pub fn num(&self) -> i128
        ensures value { result ≡ self.now.numer }
        ensures fits { FitsFrac self.now }
    {
        self.num
    }

    /// The denominator, which is positive.
    #[inline]
    pub fn den(&self) -> i128
        ensures value { result ≡ pos self.now.denom }
        ensures fits { FitsFrac self.now }
    {
        self.den
    }

    /// The size of the numerator.
    fn size(&self) -> u128
        ensures value { result ≡ unsigned_abs self.now.numer }
        ensures fits { result < 2 ^ 127 }
    {
        self.num.unsigned_abs()
    }

    /// The denominator.
    fn below(&self) -> u128
        ensures value { result ≡ self.now.denom }
        ensures fits { result < 2 ^ 127 }
        ensures positive { 0 < result }
    {
        self.den as u128
    }

    /// The parts, where both fit 64 bits.
    #[inline]
    fn short(&self) -> Option<Short>
        ensures { IfSome result (λ s. frac s.num s.den ≡ self.now) }
    {
        let num = i64::try_from(self.num()).ok()?;
        let den = i64::try_from(self.den()).ok()?;
        Some(Short {
            num,
            den: den as u64,
        })
    }

    /// Whether the number is 0.
    pub fn is_zero(&self) -> bool
        ensures value { IsTrue result ↔ (self.now ≡ int (pos 0)) }
        ensures fits { FitsFrac self.now }
    {
        self.num == 0
    }

    /// Whether the number is an integer.
    pub fn is_whole(&self) -> bool
        ensures value { IsTrue result ↔ (self.now.denom ≡ 1) }
        ensures fits { FitsFrac self.now }
    {
        self.den == 1
    }

    /// -1, 0 or 1.
    pub fn sign(&self) -> i32
        ensures unit { unsigned_abs result ≤ 1 }
        ensures negative { (result <ℤ pos 0) ↔ (self.now <ℚ int (pos 0)) }
        ensures zero { (result ≡ pos 0) ↔ (self.now ≡ int (pos 0)) }
        ensures positive { (pos 0 <ℤ result) ↔ (int (pos 0) <ℚ self.now) }
        ensures fits { FitsFrac self.now }
    {
        if self.num < 0 {
            -1
        } else if self.num == 0 {
            0
        } else {
            1
        }
    }

    /// The negative.
    #[inline]
    pub fn neg(&self) -> Frac
        ensures { result ≡ neg_ℚ self.now }
    {
        Frac::lowest(-self.num(), self.below())
    }

    /// One over the number.
    fn inverse(&self) -> Frac
        requires { self.now ≢ int (pos 0) }
        ensures { result ≡ inv_ℚ self.now }
    {
        Frac::lowest(with_sign_of(self.num(), 1, self.below()), self.size())
    }

    /// The product, from the size of its numerator and its denominator.
    fn product_of(&self, other: &Frac, size: u128, den: u128) -> Frac
        requires size_is { size ≡ size_of_product self.now other.now }
        requires size_fits { size < 2 ^ 127 }
        requires den_is { den ≡ denom_of_product self.now other.now }
        requires den_fits { den < 2 ^ 127 }
        ensures { result ≡ self.now *ℚ other.now }
    {
        Frac::lowest(with_sign_of(self.num(), other.num(), size), den)
    }

    /// The exact product. `Wide` where a part of it doesn't fit.
    #[inline]
    pub fn mul(&self, other: &Frac) -> Result<Frac, Wide>
        ensures value { IfOk result (λ v. v ≡ self.now *ℚ other.now) }
        ensures wide { MatchResult result (λ _. FitsFrac (self.now *ℚ other.now))
            (λ _. ¬ FitsFrac (self.now *ℚ other.now)) }
    {
        match (self.short(), other.short()) {
            (Some(left), Some(right)) => Ok(left.product(right)),
            _ => self.wide_product(other),
        }
    }

    /// The exact product of parts of any width.
    #[inline(never)]
    fn wide_product(&self, other: &Frac) -> Result<Frac, Wide>
        ensures value { IfOk result (λ v. v ≡ self.now *ℚ other.now) }
        ensures wide { MatchResult result (λ _. FitsFrac (self.now *ℚ other.now))
            (λ _. ¬ FitsFrac (self.now *ℚ other.now)) }
    {
        let left = greatest_common_divisor(self.size(), other.below());
        let right = greatest_common_divisor(other.size(), self.below());
        let size = small_product(part(self.size(), left), part(other.size(), right))?;
        let den = small_product(part(self.below(), right), part(other.below(), left))?;
        Ok(self.product_of(other, size, den))
    }

    /// The exact quotient. `Wide` where a part of it doesn't fit.
    pub fn div(&self, other: &Frac) -> Result<Frac, Wide>
        requires { other.now ≢ int (pos 0) }
        ensures value { IfOk result (λ v. v ≡ self.now *ℚ inv_ℚ other.now) }
        ensures wide { MatchResult result (λ _. FitsFrac (self.now *ℚ inv_ℚ other.now))
            (λ _. ¬ FitsFrac (self.now *ℚ inv_ℚ other.now)) }
    {
        self.mul(&other.inverse())
    }

    /// The numerator times the factor.
    fn numer_times(&self, factor: u128) -> Result<i128, Wide>
        ensures small { MatchResult result (λ p. unsigned_abs p < 2 ^ 127) (λ _. ⊤) }
        ensures value { MatchResult result (λ p. p ≡ self.now.numer *ℤ pos factor)
            (λ _. 2 ^ 127 ≤ unsigned_abs (self.now.numer *ℤ pos factor)) }
    {
        let size = small_product(self.size(), factor)?;
        Ok(with_sign_of(self.num(), 1, size))
    }

    /// The exact sum.
    ///
    /// With g the greatest common divisor of the denominators b and d of a/b and c/d, it is
    /// `Wide` where a(d/g), c(b/g), their sum or b(d/g) doesn't fit.
    #[inline]
    pub fn add(&self, other: &Frac) -> Result<Frac, Wide>
        ensures value { IfOk result (λ v. v ≡ self.now +ℚ other.now) }
        ensures wide { MatchResult result (λ _. FitsSum self.now other.now)
            (λ _. ¬ FitsSum self.now other.now) }
    {
        if self.is_whole() && other.is_whole() {
            return self.like_sum(other);
        }
        match (self.short(), other.short()) {
            (Some(left), Some(right)) => Ok(left.sum(right)),
            _ => self.wide_sum(other),
        }
    }

    /// The exact sum over the denominator of both.
    #[inline]
    fn like_sum(&self, other: &Frac) -> Result<Frac, Wide>
        requires { self.now.denom ≡ other.now.denom }
        ensures value { IfOk result (λ v. v ≡ self.now +ℚ other.now) }
        ensures wide { MatchResult result (λ _. FitsSum self.now other.now)
            (λ _. ¬ FitsSum self.now other.now) }
    {
        let num = small_sum(self.num(), other.num())?;
        if self.is_whole() {
            return Ok(Frac::lowest(num, 1));
        }
        Ok(cancelled(num, self.below(), self.below()))
    }

    /// The exact sum of parts of any width.
    #[inline(never)]
    fn wide_sum(&self, other: &Frac) -> Result<Frac, Wide>
        ensures value { IfOk result (λ v. v ≡ self.now +ℚ other.now) }
        ensures wide { MatchResult result (λ _. FitsSum self.now other.now)
            (λ _. ¬ FitsSum self.now other.now) }
    {
        if self.den() == other.den() {
            return self.like_sum(other);
        }
        let divisor = greatest_common_divisor(self.below(), other.below());
        let left = part(self.below(), divisor);
        let right = part(other.below(), divisor);
        let num = small_sum(self.numer_times(right)?, other.numer_times(left)?)?;
        let den = small_product(self.below(), right)?;
        Ok(cancelled(num, den, divisor))
    }

    /// The exact difference, which is the sum with the negative.
    pub fn sub(&self, other: &Frac) -> Result<Frac, Wide>
        ensures value { IfOk result (λ v. v ≡ self.now +ℚ neg_ℚ other.now) }
        ensures wide { MatchResult result (λ _. FitsSum self.now (neg_ℚ other.now))
            (λ _. ¬ FitsSum self.now (neg_ℚ other.now)) }
    {
        self.add(&other.neg())
    }

    /// The order of the two numbers, which is never wide.
    #[inline]
    pub fn cmp(&self, other: &Frac) -> Ordering
        ensures { result ≡ cmp_ℚ self.now other.now }
    {
        if let (Some(left), Some(right)) = (self.short(), other.short()) {
            return left.order(right);
        }
        match (self.num() < 0, other.num() < 0) {
            (false, false) => compare(self.size(), self.below(), other.size(), other.below()),
            (true, true) => compare(other.size(), other.below(), self.size(), self.below()),
            (true, false) => Ordering::Less,
            (false, true) => Ordering::Greater,
        }
    }

    /// Appends the numerator and, unless it is 1, a slash and the denominator.
    pub fn write(&self, out: &mut Vec<u8>) -> Result<(), NoMemory>
        ensures ok { OnOk result (out.new.items ≡ out.old.items ++ text_of self.now) }
        ensures err { OnErr result (out.new.items ≡ out.old.items) }
    {
        let mut buffer = Buffer::new();
        let num = buffer.format(self.num()).as_bytes();
        if self.is_whole() {
            out.extend_from_slice(num)?;
            return Ok(());
        }
        let mut below = Buffer::new();
        let den = below.format(self.den()).as_bytes();
        out.reserve(num.len() + 1 + den.len())?;
        out.extend_from_slice(num)?;
        out.push(b'/')?;
        out.extend_from_slice(den)?;
        Ok(())
    }
}
