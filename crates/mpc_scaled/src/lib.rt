//! Systems of rows in whole numbers, each row over a scale.
#![tactic(auto)]

mod numbers;
mod scales;
mod systems;

pub use numbers::{narrow, negative, product, signed};
pub use scales::greatest;
pub use systems::{WholeNumbers, WholeSystem};
