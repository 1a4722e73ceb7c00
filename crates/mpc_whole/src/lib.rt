//! The simplex run by least numbers in whole numbers over one denominator, as far as they stay small.
#![tactic(auto)]

mod frames;
mod judge;
mod judged;
mod lists;
mod reduced;
mod stated;
mod theorems;
mod weights;
mod whole;
mod whole_ends;
mod whole_pivot;
mod whole_rows;
mod whole_turn;
mod whole_values;
mod wide_turn;
mod wide_values;

pub use judged::{WidePlace, judged_run};
pub use lists::{RunLists, WideLists};
pub use theorems::position_theorems;
pub use weights::MOST_VARIABLES;
pub use whole::{Ending, Place, whole_run};
pub use whole_ends::{
    bearing_rows, last_multipliers, last_values, wide_last_multipliers, wide_last_values,
};
pub use whole_rows::{limit, put_units};
pub use whole_values::clear;
