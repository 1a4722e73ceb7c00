//! Rows with room for disturbances: the program of a plant whose sequences of moves keep the plant's rows whatever a box of disturbances
//! adds to the state at each step (Witsenhausen, 1968; Mayne, Rawlings, Rao and Scokaert, 2000).
#![tactic(auto)]

mod errors;
mod noise;
mod programs;
mod theorems;
mod tightening;
mod vectors;

pub use errors::{NoiseError, TightError};
pub use noise::read_noise;
pub use programs::tighten;
pub use theorems::tight_theorems;
