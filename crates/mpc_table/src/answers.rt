//! Replies to counts.

/// What a controller replies to counts. Nodes of its tree, its laws and coordinates are counted from 1.
#[derive(Clone, Copy, Debug, PartialEq, Eq, Drop)]
pub enum Reply {
    /// The first move of this law, which the leaf at this node names.
    Move { node: u64, law: u32 },
    /// No sequence of moves is admissible, by the leaf at this node.
    Infeasible { node: u64 },
    /// This coordinate is the first whose count is above its limit.
    Outside { coordinate: u32 },
}
