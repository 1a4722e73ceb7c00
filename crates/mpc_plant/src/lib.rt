//! The plant: its type, what its controller has to achieve, and its file.
//!
//! The plant is the discrete-time linear system `x[k+1] = A x[k] + B u[k] + drift` with `n` states and `p` inputs, a horizon of `N` steps, a
//! quadratic cost of the distances from a state and an input that are aimed at, and linear rows on states and inputs (Bemporad, Morari, Dua
//! and Pistikopoulos, 2002).
#![tactic(auto)]

mod costs;
mod entries;
mod faults;
mod lists;
mod matrices;
mod numerals;
mod objects;
mod plant_file;
mod plants;
mod rolling;
mod rows;
mod theorems;
mod values;
mod weights;

pub use costs::cost;
pub use faults::{Path, PlantError, PlantKind};
pub use lists::{Coordinate, Coordinates, PlantRow, PlantRows};
pub use numerals::plain_number;
pub use plant_file::read_plant;
pub use plants::Plant;
pub use rolling::roll;
pub use theorems::{one_reading, one_right_reply};
