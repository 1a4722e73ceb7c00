//! Tests of the cheapest choice at one state.

ghost use Rattle.std.specs.Prelude.{[], ◌∷◌, IsTrue};
ghost use Rattle.mpc_rows.specs.ActiveSets.{IsInBox};
ghost use Rattle.mpc_online.specs.StateRows.{point_of};

use crate::programs::{is_positive_number, program};
use mpc_frac::Frac;
use mpc_online::{Online, OnlineError, solve_at};
use mpc_rows::{Counts, Qp};
use std::alloc::Global;
use std::process::Abort;
use std::test::Fail;

/// Whether the count is in a box of one count.
fn is_in_box(counts: &Counts, count: u64) -> bool
    ensures { IsTrue result → IsInBox counts.now (point_of (count ∷ [])) }
{
    if counts.len() != 1 {
        return false;
    }
    if count > *counts.at(0) {
        return false;
    }
    true
}

/// The answer at the count.
fn answer(rt: &impl Abort, alloc: Global, qp: &Qp, count: u64) -> Result<Online, OnlineError> {
    assert!(rt; is_positive_number(&qp.h));
    assert!(rt; is_in_box(&qp.counts, count));
    solve_at(alloc, qp, &[count])
}

fn assert_refuted(rt: &impl Abort, found: &Online, expected: &[Frac]) {
    match found {
        Online::Best(_) => assert!(rt; false),
        Online::Refuted(m) => assert_eq!(rt; m.as_slice(), expected),
    }
}

#[test]
fn refutations(rt: HostRuntime) -> Result<(), Fail> {
    let alloc = rt.alloc();
    let both = [[1, 0], [-1, 0]].as_slice();
    let against = program(alloc, [-4, 1], 8, both, [[-1, 0], [-1, 0]].as_slice())?;
    let ones = [Frac::whole(1), Frac::whole(1)];
    assert_refuted(&rt, &answer(&rt, alloc, &against, 0)?, &ones);
    Ok(())
}

/// The first row brings the point from 2^81 to 2^80, and the second has the coefficient 2^62.
#[test]
fn wide_in_step_one(rt: HostRuntime) -> Result<(), Fail> {
    let alloc = rt.alloc();
    let rows = [[1, 0], [1 << 62, 0]].as_slice();
    let sides = [[0, 1 << 40], [0, 0]].as_slice();
    let steep = program(alloc, [0, -(1 << 42)], 1 << 40, rows, sides)?;
    let found = answer(&rt, alloc, &steep, 1 << 40);
    assert!(rt; matches!(&found, Err(OnlineError::Wide(1))));
    Ok(())
}
