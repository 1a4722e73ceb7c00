//! Whether rows in whole numbers, one more than there are unknowns, have no point. Each row is weighed with the minor of the others, and the
//! weights have alternating signs: then the left sides add up to 0 (Cramer's rule). Where no weight is negative, a point would show that the
//! right sides add up to at least 0, so there is none if they add up to less (Farkas 1902). With the other signs it is the same.
//!
//! The signs of the weights come from the order of the rows of each minor. The sizes that are asked for leave room for each operation, so none
//! is tested: a minor is at most 2^61, in 64 bits, and the sum of the sides at most 2^119, in 128.

ghost use Rattle.std.specs.Prelude.{◌≡◌, ◌⊎◌, ◌+◌, ◌*◌, ◌<◌, ◌≤◌, ◌^◌, ◌+ℤ◌, ◌-ℤ◌, ◌*ℤ◌, ◌<ℤ◌, ◌≤ℤ◌, pos, length, unsigned_abs, IsTrue};
ghost use Rattle.mpc_minors.specs.LineMinors.{pair_at, triple_at};
ghost use Rattle.mpc_minors.specs.Lines.{HaveNoPoint, AreSmallLines, most_coefficient};

use mpc_scaled::product;

/// The greatest size of a coefficient with which rows in so many unknowns can be asked for a point.
pub fn most_coefficient(width: usize) -> u64
    ensures { result ≡ most_coefficient width }
{
    if width == 2 { 1 << 30 } else { 1 << 19 }
}

/// Whether the rows, one more than there are unknowns, have no point, as their minors show: each row times the minor of the others, with
/// alternating signs, they add up to 0 on the left (Cramer's rule), so there is none where no such minor is negative and the right sides add up
/// to less than 0 (Farkas 1902), nor where that is so with the other sign. It says no in others than two or three unknowns.
pub fn have_no_point(width: usize, lines: &[i64]) -> bool
    requires { AreSmallLines width lines.now }
    ensures { IsTrue result → HaveNoPoint width lines.now }
{
    if width == 2 {
        three_have_no_point(lines)
    } else if width == 3 {
        four_have_no_point(lines)
    } else {
        false
    }
}

/// The determinant of the rows `a b` and `c d`.
#[inline(always)]
fn crossed(a: i64, b: i64, c: i64, d: i64) -> i64
    requires a_small { unsigned_abs a ≤ 2 ^ 30 }
    requires b_small { unsigned_abs b ≤ 2 ^ 30 }
    requires c_small { unsigned_abs c ≤ 2 ^ 30 }
    requires d_small { unsigned_abs d ≤ 2 ^ 30 }
    ensures { result ≡ (a *ℤ d) -ℤ (b *ℤ c) }
{
    a * d - b * c
}

/// The determinant of three rows by their last column, `a b c`, and the minors that belong to it.
#[inline(always)]
fn expanded(a: i64, b: i64, c: i64, x: i64, y: i64, z: i64) -> i64
    requires a_small { unsigned_abs a ≤ 2 ^ 19 }
    requires b_small { unsigned_abs b ≤ 2 ^ 19 }
    requires c_small { unsigned_abs c ≤ 2 ^ 19 }
    requires x_small { unsigned_abs x ≤ 2 ^ 39 }
    requires y_small { unsigned_abs y ≤ 2 ^ 39 }
    requires z_small { unsigned_abs z ≤ 2 ^ 39 }
    ensures { result ≡ ((a *ℤ x) +ℤ (b *ℤ y)) +ℤ (c *ℤ z) }
{
    a * x + b * y + c * z
}

/// The sum with one more right side, which is multiplied by its weight.
#[inline(always)]
fn weighed(sum: i128, weight: i64, side: i64) -> i128
    requires sum_small { unsigned_abs sum ≤ 2 ^ 120 }
    requires weight_small { unsigned_abs weight ≤ 2 ^ 61 }
    requires side_small { unsigned_abs side ≤ 2 ^ 56 }
    ensures value { result ≡ sum +ℤ (weight *ℤ side) }
    ensures size { unsigned_abs result ≤ unsigned_abs sum + 2 ^ 117 }
{
    sum + product(weight, side)
}

/// The minor of two of the three rows in two unknowns. In the other order of the rows it has the other sign.
#[inline(always)]
fn minor_of_two(lines: &[i64], first: usize, second: usize) -> i64
    requires small { AreSmallLines 2 lines.now }
    requires first_inside { first < 3 }
    requires second_inside { second < 3 }
    ensures value { result ≡ pair_at 3 lines.now first second }
    ensures size { unsigned_abs result ≤ 2 ^ 61 }
{
    let above = first * 3;
    let below = second * 3;
    crossed(
        lines[above],
        lines[above + 1],
        lines[below],
        lines[below + 1],
    )
}

/// The minor of two of the four rows in three unknowns, in the first two of these.
#[inline(always)]
fn minor_of_pair(lines: &[i64], first: usize, second: usize) -> i64
    requires small { AreSmallLines 3 lines.now }
    requires first_inside { first < 4 }
    requires second_inside { second < 4 }
    ensures value { result ≡ pair_at 4 lines.now first second }
    ensures size { unsigned_abs result ≤ 2 ^ 39 }
{
    let above = first * 4;
    let below = second * 4;
    crossed(
        lines[above],
        lines[above + 1],
        lines[below],
        lines[below + 1],
    )
}

/// The minor of three of the four rows in three unknowns. In an odd order of the rows it has the other sign.
#[inline(always)]
fn minor_of_three(lines: &[i64], first: usize, second: usize, third: usize) -> i64
    requires small { AreSmallLines 3 lines.now }
    requires first_inside { first < 4 }
    requires second_inside { second < 4 }
    requires third_inside { third < 4 }
    ensures value { result ≡ triple_at lines.now first second third }
    ensures size { unsigned_abs result ≤ 2 ^ 61 }
{
    expanded(
        lines[first * 4 + 2],
        lines[second * 4 + 2],
        lines[third * 4 + 2],
        minor_of_pair(lines, second, third),
        minor_of_pair(lines, third, first),
        minor_of_pair(lines, first, second),
    )
}

/// Whether the weights, which lie between these two, have one sign, and the sum of the sides the other.
#[inline(always)]
fn are_opposite(least: i64, greatest: i64, sum: i128) -> bool
    ensures { IsTrue result → (((pos 0 ≤ℤ least) × (sum <ℤ pos 0)) ⊎ ((greatest ≤ℤ pos 0) × (pos 0 <ℤ sum))) }
{
    least >= 0 && sum < 0 || greatest <= 0 && sum > 0
}

/// The answer for three rows in two unknowns. It is no as soon as two weights have opposite signs.
fn three_have_no_point(lines: &[i64]) -> bool
    requires { AreSmallLines 2 lines.now }
    ensures { IsTrue result → HaveNoPoint 2 lines.now }
{
    let first = minor_of_two(lines, 1, 2);
    let second = minor_of_two(lines, 2, 0);
    let least = first.min(second);
    let greatest = first.max(second);
    if least < 0 && greatest > 0 {
        return false;
    }
    let third = minor_of_two(lines, 0, 1);
    let least = least.min(third);
    let greatest = greatest.max(third);
    if least < 0 && greatest > 0 {
        return false;
    }
    let sum = weighed(0, first, lines[2]);
    let sum = weighed(sum, second, lines[5]);
    let sum = weighed(sum, third, lines[8]);
    are_opposite(least, greatest, sum)
}

/// The answer for four rows in three unknowns. It is no as soon as two weights have opposite signs.
fn four_have_no_point(lines: &[i64]) -> bool
    requires { AreSmallLines 3 lines.now }
    ensures { IsTrue result → HaveNoPoint 3 lines.now }
{
    let first = minor_of_three(lines, 1, 2, 3);
    let second = minor_of_three(lines, 0, 3, 2);
    let least = first.min(second);
    let greatest = first.max(second);
    if least < 0 && greatest > 0 {
        return false;
    }
    let third = minor_of_three(lines, 0, 1, 3);
    let least = least.min(third);
    let greatest = greatest.max(third);
    if least < 0 && greatest > 0 {
        return false;
    }
    let fourth = minor_of_three(lines, 0, 2, 1);
    let least = least.min(fourth);
    let greatest = greatest.max(fourth);
    if least < 0 && greatest > 0 {
        return false;
    }
    let sum = weighed(0, first, lines[3]);
    let sum = weighed(sum, second, lines[7]);
    let sum = weighed(sum, third, lines[11]);
    let sum = weighed(sum, fourth, lines[15]);
    are_opposite(least, greatest, sum)
}
