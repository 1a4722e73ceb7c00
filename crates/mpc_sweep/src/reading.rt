//! Tables of fractions, read as whole numbers over one scale.

ghost use Rattle.std.specs.Prelude.{◌≡◌, ◌<◌, ◌≤◌, ◌^◌, [], IfOk, IfSome, IsTrue, length, unsigned_abs};
ghost use Rattle.mpc_exact.specs.Rational.{frac};
ghost use Rattle.mpc_space.specs.Matrix.{height, entry};
ghost use Rattle.mpc_space.specs.Vector.{coordinate};
ghost use Rattle.mpc_sweep.specs.Numbers.{IsSwept};
ghost use Rattle.mpc_sweep.specs.Reading.{AreBehind, HasNumbers};

use crate::Swept;
use crate::rows::bound_of;
use mpc_frac::{Frac, NoMemory, greatest_common_divisor};
use mpc_linear::Matrix;
use mpc_quotients::{Divisor, changed};
use mpc_scaled::narrow;
use std::alloc::Global;

/// The greatest size of a number before the first sweep.
const MOST_NUMBER: u64 = 1 << 58;

/// The greatest scale.
const MOST_SCALE: u64 = 1 << 62;

/// The least common multiple of a scale and the denominator of a number, if it isn't above the greatest scale.
fn common_scale(scale: u64, number: &Frac) -> Option<u64>
    requires some { 0 < scale }
    requires small { scale ≤ 2 ^ 62 }
    ensures some { IfSome result (λ k. 0 < k) }
    ensures small { IfSome result (λ k. k ≤ 2 ^ 62) }
{
    let den = number.den().unsigned_abs();
    if den > MOST_SCALE as u128 {
        return None;
    }
    let divisor = greatest_common_divisor(den, scale as u128);
    let product = den / divisor * scale as u128;
    if product == 0 || product > MOST_SCALE as u128 {
        return None;
    }
    Some(product as u64)
}

/// The least common multiple of a scale and the denominators of a row, if it isn't above the greatest scale.
fn row_scale(scale: u64, row: &[Frac]) -> Option<u64>
    requires some { 0 < scale }
    requires small { scale ≤ 2 ^ 62 }
    ensures some { IfSome result (λ k. 0 < k) }
    ensures small { IfSome result (λ k. k ≤ 2 ^ 62) }
{
    let mut common = scale;
    for number in row {
        common = common_scale(common, number)?;
    }
    Some(common)
}

/// The least number that makes all rows whole, if it isn't above the greatest scale. One scale for all rows
/// keeps the numbers of the sweeps small: with a scale for each row they would have the product of the scales.
fn table_scale(table: &Matrix) -> Option<u64>
    ensures some { IfSome result (λ k. 0 < k) }
    ensures small { IfSome result (λ k. k ≤ 2 ^ 62) }
{
    let mut scale = 1;
    for at_row in 0..table.rows() {
        scale = row_scale(scale, table.row(at_row))?;
    }
    Some(scale)
}

/// The number times a scale, if that is whole and small.
fn scaled(number: &Frac, scale: u64) -> Option<i64>
    requires scale_some { 0 < scale }
    requires scale_small { scale ≤ 2 ^ 62 }
    ensures value { IfSome result (λ z. number.now ≡ frac z scale) }
    ensures small { IfSome result (λ z. unsigned_abs z ≤ 2 ^ 58) }
{
    let numerator = number.num();
    let den = number.den().unsigned_abs();
    if numerator.unsigned_abs() > 1 << 62 || den > 1 << 62 {
        return None;
    }
    let by = Divisor::of(den as u64);
    changed(narrow(numerator), 0, 0, scale, by, MOST_NUMBER)
}

/// Puts the numbers of a row behind the others, or some of them where one isn't whole or small.
fn put_row(numbers: &mut Vec<i64>, row: &[Frac], scale: u64) -> Result<bool, NoMemory>
    requires scale_some { 0 < scale }
    requires scale_small { scale ≤ 2 ^ 62 }
    ensures { IfOk result (λ done. IsTrue done → AreBehind numbers.old.items numbers.new.items (coordinate row.now) (length row.now) scale) }
{
    for number in row {
        let Some(whole) = scaled(number, scale) else {
            return Ok(false);
        };
        numbers.push(whole)?;
    }
    Ok(true)
}

/// The numbers of the table times a scale, if they are whole and small.
fn numbers_of(alloc: Global, table: &Matrix, scale: u64) -> Result<Option<Vec<i64>>, NoMemory>
    requires scale_some { 0 < scale }
    requires scale_small { scale ≤ 2 ^ 62 }
    ensures { IfOk result (λ o. IfSome o (λ v. HasNumbers table.now (height table.now) scale v.items)) }
{
    let count = table.rows() as usize * table.cols() as usize;
    let mut numbers = Vec::with_capacity(alloc, count)?;
    for at_row in 0..table.rows() {
        if !put_row(&mut numbers, table.row(at_row), scale)? {
            return Ok(None);
        }
    }
    Ok(Some(numbers))
}

/// The table before its first sweep, if it is whole times a scale, and scale and numbers are small.
pub fn whole_table(alloc: Global, table: &Matrix) -> Result<Option<Swept>, NoMemory>
    ensures { IfOk result (λ o. IfSome o (IsSwept (entry table.now) [] (height table.now) table.now.columns 0)) }
{
    let Some(scale) = table_scale(table) else {
        return Ok(None);
    };
    let Some(numbers) = numbers_of(alloc, table, scale)? else {
        return Ok(None);
    };
    let most = bound_of(&numbers, scale);
    Ok(Some(Swept {
        rows: table.rows() as usize,
        columns: table.cols() as usize,
        first: 0,
        den: scale,
        most,
        numbers,
    }))
}
