//! The parts of a plant's text.

use mpc_linear::{Matrix, Vector};
use mpc_plant::{Coordinates, PlantRows};

/// How many states, inputs and steps there are.
#[derive(Clone, Copy, Debug, Drop)]
pub struct Sizes {
    pub states: u32,
    pub inputs: u32,
    pub steps: u32,
}

/// The matrices A and B of the plant.
#[derive(Drop)]
pub struct Dynamics {
    pub a: Matrix,
    pub b: Matrix,
}

/// The weights Q, R and P of the cost.
#[derive(Drop)]
pub struct Weights {
    pub q: Matrix,
    pub r: Matrix,
    pub last: Matrix,
}

/// The drift, and where the state and the input are to be.
#[derive(Drop)]
pub struct Offsets {
    pub drift: Vector,
    pub xgoal: Vector,
    pub ugoal: Vector,
}

/// The rows of the steps and of the end, and the axes of the grid.
#[derive(Drop)]
pub struct Limits {
    pub rows: PlantRows,
    pub terminal: PlantRows,
    pub axes: Coordinates,
}
