//! Several plants in one input: each section by itself has its answer, and one pool of workers makes all of them.
#![tactic(auto)]

mod answers;
mod beginnings;
mod errors;
mod fleet_answers;
mod sections;
mod theorems;

pub use errors::SectionsError;
pub use fleet_answers::fleet;
pub use theorems::one_answer;
