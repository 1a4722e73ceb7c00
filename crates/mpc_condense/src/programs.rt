//! Condensing: the states are eliminated, and the moves alone are left.

ghost use Rattle.std.specs.Prelude.{◌≡◌, IfOk, IfErr, OnOk};
ghost use Rattle.mpc_condense.specs.Causes.{AllFit, IsCause};
ghost use Rattle.mpc_condense.specs.Condensed.{IsCondensed, counts_of};

use crate::costs::{Cost, costs};
use crate::errors::CondenseError;
use crate::limits::{Limits, all_limits};
use crate::motions::motions;
use mpc_frac::NoMemory;
use mpc_plant::{Coordinates, Plant};
use mpc_rows::{Counts, Qp};
use std::alloc::Global;

/// The counts of the coordinates.
fn counts(alloc: Global, grid: &Coordinates) -> Result<Counts, NoMemory>
    ensures { IfOk result (λ c. c ≡ counts_of grid.now) }
{
    let mut counts = Counts::new(alloc);
    for i in 0..grid.len() {
        counts.push(grid.at(i).count)?;
    }
    Ok(counts)
}

/// The quadratic program of a plant, by elimination of the states (Bemporad, Morari, Dua and Pistikopoulos, 2002): at every state of the
/// grid it has the same cost and the same rows, for the moves of all steps one after the other.
///
/// For n states, p inputs, N steps and m rows in all, h has p N rows and columns, f has p N rows and n + 1 columns, y is n + 1 square, g has
/// m rows of p N and w m rows of n + 1. What the drift and the targets add lies in the first columns of f and w and the first row and column
/// of y; h is as without them.
///
/// Answers at the first state, then the first cost, then the first row that needs more than 128 bits, as `Wide`.
pub fn condense(alloc: Global, plant: &Plant) -> Result<Qp, CondenseError>
    ensures condensed { IfOk result (λ qp. IsCondensed qp plant.now) }
    ensures fits { OnOk result (AllFit plant.now) }
    ensures cause { IfErr result (IsCause plant.now) }
{
    let motions = motions(alloc, plant)?;
    let Cost { h, f, y } = costs(alloc, plant, motions.as_slice())?;
    let Limits { g, w } = all_limits(alloc, plant, motions.as_slice())?;
    let counts = counts(alloc, &plant.grid)?;
    Ok(Qp {
        h,
        f,
        y,
        g,
        w,
        counts,
    })
}
