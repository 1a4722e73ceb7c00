//! The lines behind the plant of a controller's text: its laws and its tree, read with their forms and rows written out or named.
#![tactic(auto)]

mod forms;
mod law_lines;
mod line_sets;
mod named_laws;
mod named_trees;
mod tree_depths;
mod tree_lines;

pub use forms::Forms;
pub use law_lines::read_written_laws;
pub use named_laws::{read_forms, read_named_laws};
pub use named_trees::{Planes, read_named_tree, read_planes};
pub use tree_lines::{read_word, read_written_tree};
