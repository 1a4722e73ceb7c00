//! The lists of a run.

use mpc_runs::Seat;

/// The lists of a run at a position.
#[derive(Drop)]
pub struct RunLists {
    /// Where the variables stand, and which of them stand in the columns.
    pub seats: Vec<Seat>,
    pub nonbasic: Vec<usize>,
    /// The numbers of the position.
    pub numbers: Vec<i64>,
    /// The values of the unknowns there, in their first parts and in their second ones.
    pub firsts: Vec<i64>,
    pub seconds: Vec<i64>,
}

/// The lists of a run at a position, with numbers of 128 bits.
#[derive(Drop)]
pub struct WideLists {
    /// Where the variables stand, and which of them stand in the columns.
    pub seats: Vec<Seat>,
    pub nonbasic: Vec<usize>,
    /// The numbers of the position.
    pub numbers: Vec<i128>,
    /// The values of the unknowns there, in their first parts and in their second ones.
    pub firsts: Vec<i128>,
    pub seconds: Vec<i128>,
    /// For each unknown at least what its numbers at the positions before take with a coefficient of 1, so that a row
    /// that joins is judged there by its own coefficients.
    pub weights: Vec<u128>,
}
