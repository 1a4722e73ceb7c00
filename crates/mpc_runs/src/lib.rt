//! Where a run of the simplex method by least numbers stands, what it ends with, and the theory of its steps.
#![tactic(auto)]

mod numbers;
mod variables;

use mpc_rows::{Multipliers, PairPoint};
pub use numbers::{Standing, zero, zero_pairs, zeros};
pub use variables::{Seat, column_of, is_basic, is_unknown, opening_seats, row_of};

/// What a run ends with.
#[derive(Drop)]
pub enum End {
    /// The values of the unknowns, in pairs.
    Point(PairPoint),
    /// The multipliers of the rows.
    Refuted(Multipliers),
}
