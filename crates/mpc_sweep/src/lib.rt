//! Tables of fractions that are swept at some of their rows, in whole numbers over one denominator: what one
//! sweep leaves serves every system that has its rows and more.
#![tactic(auto)]

mod divisor;
mod numbers;
mod reading;
mod rows;
mod short;
#[cfg(test)]
mod tests;
mod theorems;

pub use numbers::Swept;
pub use theorems::sweep_theorems;
