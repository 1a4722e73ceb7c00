//! Quadratic programs over the states of a box, the places where a number can be too wide, systems of linear rows, and multipliers that
//! refute them.
#![tactic(auto)]

mod counts;
mod law_rows;
mod laws;
mod places;
mod programs;
mod refuting;
mod rules;
mod systems;
mod trees;
mod verdicts;

pub use counts::Counts;
pub use law_rows::{law_row, place_among};
pub use laws::{Law, LawTable};
pub use places::Place;
pub use programs::Qp;
pub use refuting::refutes;
pub use rules::{form_theorems, law_theorems, region_theorems, system_theorems};
pub use systems::{Multipliers, PairPoint, Row, Rows, System};
pub use trees::{Cert, Certs, Node, Tree};
pub use verdicts::{Judged, Verdict};
