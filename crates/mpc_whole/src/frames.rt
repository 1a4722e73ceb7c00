//! What a run in whole numbers leaves as it is.

/// The numbers of a system's rows times their scales, how many variables there are, and what the numbers of a position
/// may have at most.
#[derive(Clone, Copy, Drop)]
pub(crate) struct Frame<'a> {
    pub scales: &'a [u64],
    pub a: &'a [i64],
    pub b: &'a [i64],
    pub count: usize,
    pub most: u64,
}

/// The same for a run that is judged position by position, with the norm of the coefficients and the greatest sizes of
/// a scale and of a right side.
#[derive(Clone, Copy, Drop)]
pub(crate) struct JudgedFrame<'a> {
    pub scales: &'a [u64],
    pub a: &'a [i64],
    pub b: &'a [i64],
    pub count: usize,
    /// By how many times more a number of a side's row may have than those of its column, at least 1.
    pub norm: u128,
    pub most_scale: u128,
    pub most_side: u128,
}
