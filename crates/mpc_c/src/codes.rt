//! What the calls answer where no exit code of the command does.

/// The call did what it is for.
pub(crate) const DONE: u32 = 0;

/// The number of workers can't be asked for.
pub(crate) const USAGE: u32 = 2;

/// The plant's file fails a check.
pub(crate) const BAD_PLANT: u32 = 3;

/// The Hessian of the plant's program isn't positive definite.
pub(crate) const NOT_DEFINITE: u32 = 4;

/// A number is too wide for 128 bits.
pub(crate) const TOO_WIDE: u32 = 5;

/// Memory ran out.
pub(crate) const NO_MEMORY: u32 = 11;

/// There is no room for the text or the block.
pub(crate) const TOO_SMALL: u32 = 32;

/// No sequence of moves is admissible.
pub(crate) const INFEASIBLE: u32 = 33;

/// A count is above its limit.
pub(crate) const OUTSIDE: u32 = 34;

/// The words are no block, or none of a controller with so many coordinates and inputs.
pub(crate) const BAD_BLOCK: u32 = 35;

/// A number is too wide for 128 bits at this state.
pub(crate) const WIDE_STATE: u32 = 36;

/// There isn't one count for each coordinate, or not one move for each input.
pub(crate) const OTHER_SIZES: u32 = 37;
