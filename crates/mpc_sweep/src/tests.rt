//! Tests of one sweep, with numbers that were worked out by hand.

ghost use Rattle.std.specs.Prelude.{IfOk, IfSome};
ghost use Rattle.mpc_sweep.specs.Numbers.{IsTable};

use crate::Swept;
use mpc_frac::{Frac, NoMemory};
use mpc_linear::Matrix;
use std::alloc::Global;
use std::test::Fail;

/// The table swept at the pivot's row in the columns from `first` on, if that can be.
fn swept_at(
    alloc: Global,
    table: &Matrix,
    pivot_place: usize,
    first: usize,
) -> Result<Option<Swept>, NoMemory>
    ensures { IfOk result (λ o. IfSome o IsTable) }
{
    let Some(from) = Swept::read(alloc, table)? else {
        return Ok(None);
    };
    if from.rows <= pivot_place
        || from.columns <= pivot_place
        || from.columns < first
        || first <= pivot_place
    {
        return Ok(None);
    }
    if from.at(pivot_place, pivot_place) == 0 {
        return Ok(None);
    }
    let mut out = Swept::empty(alloc);
    let done = from.sweep(&mut out, pivot_place, first)?;
    if done { Ok(Some(out)) } else { Ok(None) }
}

/// The number in this row and column, and what it lies over.
fn entry(table: &Swept, row: usize, column: usize) -> Option<(i64, u64)>
    requires { IsTable table.now }
{
    if table.rows <= row || table.columns <= column {
        return None;
    }
    Some((table.at(row, column), table.den()))
}

/// -3/2, 3/2, 1 and 2/3, 1, -1/3.
fn two_rows(alloc: Global) -> Result<Option<Matrix>, NoMemory> {
    let Ok(half) = Frac::new(3, 2) else {
        return Ok(None);
    };
    let Ok(thirds) = Frac::new(2, 3) else {
        return Ok(None);
    };
    let Ok(third) = Frac::new(-1, 3) else {
        return Ok(None);
    };
    let mut table = Matrix::zero(alloc, 2, 3)?;
    table.set(0, 0, half.neg());
    table.set(0, 1, half);
    table.set(0, 2, Frac::whole(1));
    table.set(1, 0, thirds);
    table.set(1, 1, Frac::whole(1));
    table.set(1, 2, third);
    Ok(Some(table))
}

#[test]
fn sweeps_at_a_negative_pivot(rt: HostRuntime) -> Result<(), Fail> {
    let Some(table) = two_rows(rt.alloc())? else {
        panic!(rt; "the fractions fit");
    };
    let Some(swept) = swept_at(rt.alloc(), &table, 0, 1)? else {
        panic!(rt; "the numbers are small");
    };
    assert!(rt; entry(&swept, 0, 1) == Some((-9, 9)));
    assert!(rt; entry(&swept, 0, 2) == Some((-6, 9)));
    assert!(rt; entry(&swept, 1, 1) == Some((15, 9)));
    assert!(rt; entry(&swept, 1, 2) == Some((1, 9)));
    Ok(())
}

/// 1, 2, 3 and 0, 5, 7.
fn apart(alloc: Global) -> Result<Matrix, NoMemory> {
    let mut table = Matrix::zero(alloc, 2, 3)?;
    table.set(0, 0, Frac::whole(1));
    table.set(0, 1, Frac::whole(2));
    table.set(0, 2, Frac::whole(3));
    table.set(1, 1, Frac::whole(5));
    table.set(1, 2, Frac::whole(7));
    Ok(table)
}

#[test]
fn keeps_a_row_without_the_pivot(rt: HostRuntime) -> Result<(), Fail> {
    let table = apart(rt.alloc())?;
    let Some(swept) = swept_at(rt.alloc(), &table, 0, 2)? else {
        panic!(rt; "the numbers are small");
    };
    assert!(rt; entry(&swept, 0, 2) == Some((3, 1)));
    assert!(rt; entry(&swept, 1, 2) == Some((7, 1)));
    Ok(())
}
