//! What a check answers.

/// Why nothing is found of a controller. `TooWide` names the place of the first condition that isn't met.
pub use mpc_condense::ProgramError as CheckError;

/// Where a controller fails. Laws, lines, rows and nodes are counted from 1.
#[derive(Clone, Copy, Debug, PartialEq, Eq, Drop)]
pub enum Spot {
    /// In this line the gradient of the law's Lagrangian isn't 0 at every state.
    Stationary { law: u32, line: u32 },
    /// This member of the law's set doesn't hold with equality at every state.
    Active { law: u32, row: u32 },
    /// The certificate that this row of the leaf's law holds on the leaf's cell refutes nothing.
    LeafRow { node: u64, row: u32 },
    /// The certificate that the leaf's cell has no admissible moves refutes nothing.
    Leaf { node: u64 },
}

/// What is found of a controller.
#[derive(Clone, Copy, Debug, PartialEq, Eq, Drop)]
pub enum Answer {
    /// All conditions are met.
    Accepted,
    /// The first condition that isn't met fails here.
    Refused(Spot),
}
