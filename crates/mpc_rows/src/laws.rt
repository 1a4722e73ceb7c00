//! Laws of active sets, and tables of laws.

use mpc_linear::{Matrix, Seq};
use mpc_sets::ActiveSet;

/// The law of an active set: the unknowns and the members' multipliers as affine forms of the
/// extended counts `(1, t_1, .., t_n)` (Bemporad, Morari, Dua and Pistikopoulos, 2002).
///
/// `moves` has a row for each unknown, `mults` one for each member in rising order; each row has
/// n + 1 coefficients, that on 1 first.
#[derive(Drop)]
pub struct Law {
    pub set: ActiveSet,
    pub moves: Matrix,
    pub mults: Matrix,
}

/// A list of laws.
pub type LawTable = Seq<Law>;
