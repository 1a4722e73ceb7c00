//! What all states of a program share.

use mpc_bordered::Kept;
use mpc_frac::Frac;
use mpc_linear::Matrix;
use mpc_sets::ActiveSet;
use mpc_wholes::{Span, Wholes};

/// The direction of a step: how the point moves, also in whole numbers where these are small, and how the multipliers of the members do; and
/// how the row on its way grows, `None` where a number on the way to this needs more than 128 bits.
#[derive(Drop)]
pub struct Direction {
    pub point: Vec<Frac>,
    pub whole: Option<Wholes>,
    pub multipliers: Vec<Frac>,
    pub slope: Option<Frac>,
}

/// The direction with these members towards this row, which depends on no state; `None` where a number on the way to it needs more than
/// 128 bits.
#[derive(Drop)]
pub struct KeptDirection {
    pub set: ActiveSet,
    pub row: u32,
    pub direction: Option<Direction>,
}

/// An entry of an index of directions: that of this row and the members with this mask stands in this place.
#[derive(Clone, Copy, Drop)]
pub struct IndexEntry {
    pub row: u32,
    pub mask: u64,
    pub place: usize,
}

/// The first point as forms in the extended counts, whose values it has at all states of the grid, and the forms in whole numbers, where
/// these are small.
#[derive(Drop)]
pub struct Opening {
    pub forms: Matrix,
    pub rows: Vec<Option<Wholes>>,
}

/// The rows of g and of w in whole numbers, which are small, over one denominator, with the spans outside of which these are 0.
#[derive(Drop)]
pub struct EvenRows {
    pub den: u128,
    pub rows: Vec<Wholes>,
    pub row_spans: Vec<Span>,
    pub sides: Vec<Wholes>,
    pub side_spans: Vec<Span>,
}

/// What the runs at all states of a program share: the rows of its g, w and f in whole numbers, where these are small, and those of g and w
/// over one denominator; the elimination of its Hessian in the equations of all steps, where it is kept; the first point as forms, where its
/// numbers are small; and the directions, as they were found, with an index by rising rows and masks, and where one may stand, by a slot of
/// its mask and its row.
#[derive(Drop)]
pub struct Prepared {
    pub rows: Vec<Option<Wholes>>,
    pub sides: Vec<Option<Wholes>>,
    pub costs: Vec<Option<Wholes>>,
    pub even: Option<EvenRows>,
    pub kept: Option<Kept>,
    pub opening: Option<Opening>,
    pub directions: Vec<KeptDirection>,
    pub index: Vec<IndexEntry>,
    pub slots: Vec<u32>,
}
