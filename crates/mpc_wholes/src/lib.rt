//! Fractions in whole numbers over one denominator, and their sums of products.
#![tactic(auto)]

mod denominators;
mod numbers;
mod numerators;
mod spans;
mod sums;
mod theorems;

pub use denominators::{common_in, common_multiple, common_of, denominator, part, rest};
pub use numbers::Wholes;
pub use numerators::{
    column_over, numerator_over, over_multiple, over_one_denominator, rows_over, short_product,
    wholes_over,
};
pub use spans::{Span, span_of, spans_of};
pub use sums::{dot_from, dot_within};
pub use theorems::over_theorems;
