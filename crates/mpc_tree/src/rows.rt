//! The rows of a law, formed in whole numbers where these are small.

ghost use Rattle.std.specs.Prelude.{◌≡◌, ℤ, pos, ◌+◌, ◌<◌, ◌≤◌, ◌^◌, ◌+ℤ◌, ◌*ℤ◌, unsigned_abs, IfOk, IfSome, Some, None, length};
ghost use Rattle.mpc_exact.specs.Rational.{int, ◌*ℚ◌};
ghost use Rattle.mpc_space.specs.Matrix.{height};
ghost use Rattle.mpc_space.specs.Total.{total};
ghost use Rattle.mpc_rows.specs.Laws.{HasLawShape};
ghost use Rattle.mpc_rows.specs.LawRows.{IsPlaceAmong, excess_form, member_form, AreLawRows, LawRowFits};
ghost use Rattle.mpc_rows.specs.SetRuns.{LawRowsFit};
ghost use Rattle.mpc_sweep.specs.Numbers.{IsTable, number};
ghost use Rattle.mpc_systems.specs.Writing.{AreOfSize};
ghost use Rattle.mpc_tree.specs.WholeRows.{IsRead, AreRowNumbers, AreLawNumbers, all_dens, IsExcess, AreSides, IsPlainRow};

use mpc_frac::NoMemory;
use mpc_linear::{Ints, LinearError, RowInt, without_divisor};
use mpc_region::law_rows;
use mpc_rows::{Law, Qp, form_theorems, law_row, law_theorems, place_among};
use mpc_scaled::{narrow, negative, product, signed};
use mpc_sets::ActiveSet;
use mpc_sweep::Swept;
use std::alloc::Global;

/// The rows `g z <= w c` of a program in whole numbers, g and w over one denominator each.
#[derive(Drop)]
pub struct RowNumbers {
    g: Swept,
    w: Swept,
}

/// The unknowns of a law, and its multipliers where they are small, in whole numbers over one denominator each, and minus the
/// product of the unknowns' denominator with that of g.
#[derive(Drop)]
pub struct LawNumbers {
    moves: Swept,
    mults: Option<Swept>,
    against: i64,
}

/// The sum of two numbers, where it is small.
#[inline]
fn small_sum(left: i64, right: i128) -> Option<i64>
    ensures value { IfSome result (λ z. z ≡ left +ℤ right) }
    ensures small { IfSome result (λ z. unsigned_abs z ≤ 2 ^ 62) }
{
    let sum = right.checked_add(left as i128)?;
    if sum.unsigned_abs() <= 1 << 62 {
        Some(narrow(sum))
    } else {
        None
    }
}

/// `sum + left right`, where that is small.
#[inline]
fn with_product(sum: i64, left: i64, right: i64) -> Option<i64>
    ensures value { IfSome result (λ z. z ≡ sum +ℤ (left *ℤ right)) }
    ensures small { IfSome result (λ z. unsigned_abs z ≤ 2 ^ 62) }
{
    small_sum(sum, product(left, right))
}

/// The numbers of a program's rows, where they are small.
pub fn row_numbers(alloc: Global, qp: &Qp) -> Result<Option<RowNumbers>, NoMemory>
    ensures { IfOk result (λ o. IfSome o (AreRowNumbers qp.now)) }
{
    let Some(left) = Swept::read(alloc, &qp.g)? else {
        return Ok(None);
    };
    let Some(right) = Swept::read(alloc, &qp.w)? else {
        return Ok(None);
    };
    Ok(Some(RowNumbers { g: left, w: right }))
}

/// The numbers of a law's unknowns, where they are small.
fn law_numbers(
    alloc: Global,
    law: &Law,
    numbers: &RowNumbers,
) -> Result<Option<LawNumbers>, NoMemory>
    requires { IsTable numbers.now.g }
    ensures { IfOk result (λ o. IfSome o (AreLawNumbers law.now numbers.now)) }
{
    let Some(moves) = Swept::read(alloc, &law.moves)? else {
        return Ok(None);
    };
    let mults = Swept::read(alloc, &law.mults)?;
    match with_product(0, signed(numbers.g.den()), negative(signed(moves.den()))) {
        Some(against) => Ok(Some(LawNumbers {
            moves,
            mults,
            against,
        })),
        None => Ok(None),
    }
}

/// The sum of so many products of the numbers of a row of g and those of a column of a law's unknowns, where it is small.
fn sum_of_products(
    left: &Swept,
    moves: &Swept,
    count: usize,
    row: usize,
    column: usize,
) -> Option<i64>
    requires left { IsTable left.now }
    requires right { IsTable moves.now }
    requires row { row < left.now.rows }
    requires column { column < moves.now.columns }
    requires within_left { count ≤ left.now.columns }
    requires within_right { count ≤ moves.now.rows }
    ensures value { IfSome result (λ z. int z ≡ total count (λ k. int (number left.now row k) *ℚ int (number moves.now k column))) }
    ensures small { IfSome result (λ z. unsigned_abs z ≤ 2 ^ 62) }
{
    let mut sum = 0;
    for index in 0..count {
        sum = with_product(sum, left.at(row, index), moves.at(index, column))?;
    }
    Some(sum)
}

/// The coefficient of `g_i z(t) - w_i c`, where i is the row's number from 1, on the extended count at
/// the place, times all denominators, where it is small.
fn excess(
    qp: &Qp,
    _law: &Law,
    numbers: &RowNumbers,
    unknowns: &LawNumbers,
    row_number: u32,
    place: u32,
) -> Option<i64>
    requires from_one { 1 ≤ row_number }
    requires to_last { row_number ≤ height qp.now.g }
    requires shape { HasLawShape qp.now _law.now }
    requires column { place < _law.now.moves.columns }
    requires numbers { AreRowNumbers qp.now numbers.now }
    requires unknowns { AreLawNumbers _law.now numbers.now unknowns.now }
    ensures value { IfSome result (IsExcess qp.now _law.now numbers.now unknowns.now row_number place) }
    ensures small { IfSome result (λ z. unsigned_abs z ≤ 2 ^ 62) }
{
    let row = row_number as usize - 1;
    let column = place as usize;
    let count = qp.g.cols() as usize;
    let sum = sum_of_products(&numbers.g, &unknowns.moves, count, row, column)?;
    let left = with_product(0, sum, signed(numbers.w.den()))?;
    with_product(left, numbers.w.at(row, column), unknowns.against)
}

/// The coefficients of `g_i z(t) - w_i c`, where i is the row's number from 1, on t, times all denominators, where they are small.
fn excesses(
    alloc: Global,
    qp: &Qp,
    law: &Law,
    numbers: &RowNumbers,
    unknowns: &LawNumbers,
    row_number: u32,
) -> Result<Option<Ints>, NoMemory>
    requires from_one { 1 ≤ row_number }
    requires to_last { row_number ≤ height qp.now.g }
    requires shape { HasLawShape qp.now law.now }
    requires numbers { AreRowNumbers qp.now numbers.now }
    requires unknowns { AreLawNumbers law.now numbers.now unknowns.now }
    ensures { IfOk result (λ o. IfSome o (AreSides (all_dens numbers.now unknowns.now) (excess_form qp.now law.now row_number) (length qp.now.counts))) }
{
    let mut sides = Ints::with_capacity(alloc, qp.counts.len())?;
    for place in 1..law.moves.cols() {
        let Some(value) = excess(qp, law, numbers, unknowns, row_number, place) else {
            return Ok(None);
        };
        sides.push(value as i128)?;
    }
    Ok(Some(sides))
}

/// A row of a law, by its number from 1, which is no member of the law's set, where whole numbers serve.
fn outside_row(
    alloc: Global,
    qp: &Qp,
    law: &Law,
    numbers: &RowNumbers,
    unknowns: &LawNumbers,
    row_number: u32,
) -> Result<Option<RowInt>, NoMemory>
    requires from_one { 1 ≤ row_number }
    requires to_last { row_number ≤ height qp.now.g }
    requires shape { HasLawShape qp.now law.now }
    requires outside { IsPlaceAmong law.now.set row_number None }
    requires numbers { AreRowNumbers qp.now numbers.now }
    requires unknowns { AreLawNumbers law.now numbers.now unknowns.now }
    ensures { IfOk result (λ o. IfSome o (IsPlainRow qp.now law.now row_number)) }
{
    law_theorems();
    form_theorems();
    let Some(constant) = excess(qp, law, numbers, unknowns, row_number, 0) else {
        return Ok(None);
    };
    let Some(sides) = excesses(alloc, qp, law, numbers, unknowns, row_number)? else {
        return Ok(None);
    };
    let whole = RowInt {
        a: sides,
        b: negative(constant) as i128,
    };
    let row = without_divisor(alloc, whole)?;
    Ok(Some(row))
}

/// The coefficients on t of minus the multiplier of the member at the place, from 0, times their denominator.
fn member_sides(
    alloc: Global,
    qp: &Qp,
    law: &Law,
    mults: &Swept,
    place: u32,
) -> Result<Ints, NoMemory>
    requires shape { HasLawShape qp.now law.now }
    requires place { place < height law.now.mults }
    requires mults { IsRead law.now.mults mults.now }
    ensures { IfOk result (AreSides (int (pos mults.now.den)) (member_form law.now place) (length qp.now.counts)) }
{
    let mut sides = Ints::with_capacity(alloc, qp.counts.len())?;
    for column in 1..law.mults.cols() {
        let value = mults.at(place as usize, column as usize);
        sides.push(negative(value) as i128)?;
    }
    Ok(sides)
}

/// A row of a law, by its number from 1, which is the member at the place, from 0, where whole numbers serve.
fn member_row(
    alloc: Global,
    qp: &Qp,
    law: &Law,
    unknowns: &LawNumbers,
    row_number: u32,
    place: u32,
) -> Result<Option<RowInt>, NoMemory>
    requires shape { HasLawShape qp.now law.now }
    requires member { IsPlaceAmong law.now.set row_number (Some place) }
    requires unknowns { IfSome unknowns.now.mults (IsRead law.now.mults) }
    ensures { IfOk result (λ o. IfSome o (IsPlainRow qp.now law.now row_number)) }
{
    law_theorems();
    form_theorems();
    let Some(mults) = &unknowns.mults else {
        return Ok(None);
    };
    let whole = RowInt {
        a: member_sides(alloc, qp, law, mults, place)?,
        b: mults.at(place as usize, 0) as i128,
    };
    let row = without_divisor(alloc, whole)?;
    Ok(Some(row))
}

/// The place of the row among the members, from 0, if it is one: most aren't, which the set's mask tells at once.
fn member_place(set: ActiveSet, row: u32) -> Option<u32>
    requires from_one { 1 ≤ row }
    requires to_last { row ≤ 60 }
    ensures { IsPlaceAmong set row result }
{
    if !set.has(row) {
        return None;
    }
    place_among(set, row)
}

/// A row of a law, by its number from 1, where whole numbers serve.
fn whole_row(
    alloc: Global,
    qp: &Qp,
    law: &Law,
    numbers: &RowNumbers,
    unknowns: &LawNumbers,
    row_number: u32,
) -> Result<Option<RowInt>, NoMemory>
    requires from_one { 1 ≤ row_number }
    requires to_last { row_number ≤ height qp.now.g }
    requires shape { HasLawShape qp.now law.now }
    requires numbers { AreRowNumbers qp.now numbers.now }
    requires unknowns { AreLawNumbers law.now numbers.now unknowns.now }
    ensures { IfOk result (λ o. IfSome o (IsPlainRow qp.now law.now row_number)) }
{
    match member_place(law.set, row_number) {
        Some(place) => member_row(alloc, qp, law, unknowns, row_number, place),
        None => outside_row(alloc, qp, law, numbers, unknowns, row_number),
    }
}

/// A row of a law, by its number from 1, which isn't too wide.
fn row_of(
    alloc: Global,
    qp: &Qp,
    law: &Law,
    numbers: &RowNumbers,
    unknowns: &LawNumbers,
    row_number: u32,
) -> Result<RowInt, NoMemory>
    requires from_one { 1 ≤ row_number }
    requires to_last { row_number ≤ height qp.now.g }
    requires shape { HasLawShape qp.now law.now }
    requires fits { LawRowFits qp.now law.now row_number }
    requires numbers { AreRowNumbers qp.now numbers.now }
    requires unknowns { AreLawNumbers law.now numbers.now unknowns.now }
    ensures { IfOk result (IsPlainRow qp.now law.now row_number) }
{
    if let Some(row) = whole_row(alloc, qp, law, numbers, unknowns, row_number)? {
        return Ok(row);
    }
    match law_row(alloc, qp, law, row_number) {
        Ok(row) => Ok(row),
        Err(LinearError::Wide(_)) => unreachable!(),
        Err(LinearError::NoMemory) => Err(NoMemory),
    }
}

/// All rows of a law, of which none is too wide, from numbers that are small.
fn whole_rows(
    alloc: Global,
    qp: &Qp,
    law: &Law,
    numbers: &RowNumbers,
    unknowns: &LawNumbers,
) -> Result<Vec<RowInt>, NoMemory>
    requires shape { HasLawShape qp.now law.now }
    requires fits { LawRowsFit qp.now law.now (height qp.now.g) }
    requires numbers { AreRowNumbers qp.now numbers.now }
    requires unknowns { AreLawNumbers law.now numbers.now unknowns.now }
    ensures rows { IfOk result (λ rows. AreLawRows qp.now law.now rows.items) }
    ensures size { IfOk result (λ rows. AreOfSize (length qp.now.counts) rows.items) }
{
    let mut rows = Vec::with_capacity(alloc, qp.g.rows() as usize)?;
    for row_number in 1..qp.g.rows() + 1 {
        rows.push(row_of(alloc, qp, law, numbers, unknowns, row_number)?)?;
    }
    Ok(rows)
}

/// All rows of a law, of which none is too wide, in fractions.
fn plain_rows(alloc: Global, qp: &Qp, law: &Law) -> Result<Vec<RowInt>, NoMemory>
    requires shape { HasLawShape qp.now law.now }
    requires fits { LawRowsFit qp.now law.now (height qp.now.g) }
    ensures rows { IfOk result (λ rows. AreLawRows qp.now law.now rows.items) }
    ensures size { IfOk result (λ rows. AreOfSize (length qp.now.counts) rows.items) }
{
    match law_rows(alloc, qp, law) {
        Ok(rows) => Ok(rows),
        Err(LinearError::Wide(_)) => unreachable!(),
        Err(LinearError::NoMemory) => Err(NoMemory),
    }
}

/// All rows of a law, of which none is too wide, from the numbers of the program's rows where they serve.
pub fn rows_of(
    alloc: Global,
    qp: &Qp,
    law: &Law,
    numbers: &Option<RowNumbers>,
) -> Result<Vec<RowInt>, NoMemory>
    requires shape { HasLawShape qp.now law.now }
    requires fits { LawRowsFit qp.now law.now (height qp.now.g) }
    requires numbers { IfSome numbers.now (AreRowNumbers qp.now) }
    ensures rows { IfOk result (λ rows. AreLawRows qp.now law.now rows.items) }
    ensures size { IfOk result (λ rows. AreOfSize (length qp.now.counts) rows.items) }
{
    let Some(numbers) = numbers else {
        return plain_rows(alloc, qp, law);
    };
    match law_numbers(alloc, law, numbers)? {
        Some(unknowns) => whole_rows(alloc, qp, law, numbers, &unknowns),
        None => plain_rows(alloc, qp, law),
    }
}
