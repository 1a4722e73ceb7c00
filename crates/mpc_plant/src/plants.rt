//! The plant's type.

ghost use Rattle.mpc_plant.specs.Limits.{IsPlant};

use crate::lists::{Coordinates, PlantRows};
use mpc_linear::{Matrix, Vector};

/// A plant of `n` states and `p` inputs, with a horizon of `N` steps: `a` is n by n, `b` n by p, `q` and `last` n by n, `r` p by p.
///
/// From the state x the move u leads to `a x + b u + drift`. The cost of a sequence of moves is the sum over the N steps of
/// `(x - xgoal)'q (x - xgoal) + (u - ugoal)'r (u - ugoal)`, plus `(x - xgoal)'last (x - xgoal)` at the end: `drift` and `xgoal` have n
/// entries, `ugoal` has p. The `rows` hold at each step before the end, the `terminal` rows at the end. The `grid` has one coordinate a
/// state.
pub struct Plant {
    pub n: u32,
    pub p: u32,
    pub horizon: u32,
    pub a: Matrix,
    pub b: Matrix,
    pub q: Matrix,
    pub r: Matrix,
    pub last: Matrix,
    pub drift: Vector,
    pub xgoal: Vector,
    pub ugoal: Vector,
    pub rows: PlantRows,
    pub terminal: PlantRows,
    pub grid: Coordinates,
    pub ghost is_plant: { IsPlant n p horizon a b q r last drift xgoal ugoal rows terminal grid },
}

/// A plant is dropped in many places, so the program has this once.
impl Drop for Plant {
    #[inline(never)]
    fn drop(self) {
        let Plant {
            n: _,
            p: _,
            horizon: _,
            a: _,
            b: _,
            q: _,
            r: _,
            last: _,
            drift: _,
            xgoal: _,
            ugoal: _,
            rows: _,
            terminal: _,
            grid: _,
        } = self;
    }
}
