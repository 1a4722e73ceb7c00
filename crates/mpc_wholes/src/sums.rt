//! Sums of products of whole numbers, which fit by bounds of their size.

ghost use Rattle.std.specs.Prelude.{◌≡◌, ◌<◌, ◌≤◌, ◌^◌, ◌+◌, ◌*◌, IsTrue, unsigned_abs, ◌*ℤ◌};
ghost use Rattle.mpc_wholes.specs.Sums.{AddsDot};
ghost use Rattle.mpc_wholes.specs.Spans.{IsSpanOf};

use crate::Wholes;
use crate::numerators::short_product;
use crate::spans::Span;
use mpc_linear::sum_theorems;

/// Numbers up to this, 2^62, fit 64 bits.
const SHORT: u128 = 0x4000_0000_0000_0000;

/// The product, which fits: of short numbers in one multiplication.
#[inline]
fn product(left: i128, right: i128, short: bool) -> i128
    requires fits { unsigned_abs (left *ℤ right) < 2 ^ 127 }
    requires short { IsTrue short → (unsigned_abs left < 2 ^ 63) × (unsigned_abs right < 2 ^ 63) }
    ensures { result ≡ left *ℤ right }
{
    if short {
        return short_product(left, right);
    }
    left * right
}

/// The start plus the products of the first numbers, where the left ones outside of a span are 0. Their sizes show that each sum fits, and
/// each operation on the fractions on the way to it.
#[inline]
pub fn dot_within(start: i128, left: &Wholes, right: &Wholes, span: &Span, count: usize) -> i128
    requires few { count ≤ 6 }
    requires room { unsigned_abs start + 6 * (left.now.most * right.now.most) < 2 ^ 127 }
    requires span { IsSpanOf left.now.numerators count span.now }
    ensures size { unsigned_abs result ≤ unsigned_abs start + 6 * (left.now.most * right.now.most) }
    ensures sum { AddsDot left.now right.now count start result }
{
    sum_theorems();
    let short = left.most <= SHORT && right.most <= SHORT;
    let mut total = start;
    for k in span.first..span.end {
        total += product(left.numerators[k], right.numerators[k], short);
    }
    total
}

/// The start plus the products of the first numbers.
#[inline]
pub fn dot_from(start: i128, left: &Wholes, right: &Wholes, count: usize) -> i128
    requires few { count ≤ 6 }
    requires room { unsigned_abs start + 6 * (left.now.most * right.now.most) < 2 ^ 127 }
    ensures size { unsigned_abs result ≤ unsigned_abs start + 6 * (left.now.most * right.now.most) }
    ensures sum { AddsDot left.now right.now count start result }
{
    dot_within(
        start,
        left,
        right,
        &Span {
            first: 0,
            end: count,
        },
        count,
    )
}
