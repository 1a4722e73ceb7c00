//! Systems of rows that decide active sets and the cells of a search tree, and their rows one by one; the equations of an active set.
#![tactic(auto)]

mod entries;
mod equations;
mod numbers;
mod pushing;
mod single_rows;
mod systems;
mod theorems;

pub use equations::{law_matrix, matrix_of, member_entry, member_places};
pub use numbers::whole;
pub use pushing::{joint_rows, push_box, push_cell, push_joint_rows, push_members, push_rows};
pub use single_rows::{
    box_row, broken_row, joint_row, turned, whole_row, widened, widened_broken_row,
    widened_whole_row,
};
pub use systems::{hold_system, joint_system, meet_system, reach_system, region_system};
pub use theorems::cell_theorems;
