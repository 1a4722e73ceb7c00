//! Vectors and matrices of checked fractions, and exact linear algebra on them.
#![tactic(auto)]

mod elimination;
mod errors;
mod integers;
mod lists;
mod matrices;
mod products;
mod sequences;
mod theorems;

pub use elimination::{Solved, solve};
pub use errors::LinearError;
pub use integers::{IntAffine, RowInt, common, primitive, shared_divisor, without_divisor};
pub use lists::{Ints, Vector};
pub use matrices::Matrix;
pub use products::{add_product, dot, dot_from, sub_product};
pub use sequences::Seq;
pub use theorems::{
    elimination_theorems, grid_theorems, primitive_theorems, sum_theorems, zero_theorems,
};
