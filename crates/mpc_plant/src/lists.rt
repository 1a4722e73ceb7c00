//! The rows of a plant and the coordinates of its grid.

use mpc_frac::Frac;
use mpc_linear::{Seq, Vector};

/// The row `x·state + u·move <= max`; `u` is empty in a terminal row.
#[derive(Drop)]
pub struct PlantRow {
    pub x: Vector,
    pub u: Vector,
    pub max: Frac,
}

/// One coordinate of the box of states: the values `low + step t` with t from 0 to `count`.
#[derive(Clone, Copy, Drop)]
pub struct Coordinate {
    pub low: Frac,
    pub step: Frac,
    pub count: u64,
}

/// A list of rows.
pub type PlantRows = Seq<PlantRow>;

/// A list of coordinates.
pub type Coordinates = Seq<Coordinate>;
