//! The controller of a plant: its laws and a search tree that names at each state the law that holds there, with the ways through it.
#![tactic(auto)]

mod bounds;
mod controllers;
mod errors;
mod theorems;
mod ways;

pub use bounds::{form_fits, limits, split_fits};
pub use controllers::Controller;
pub use errors::SealError;
pub use theorems::{
    bound_theorems, one_leaf, one_path, preorder_theorems, replies_everywhere, way_theorems,
};
pub use ways::{Turn, go_on, way_to};
