//! Whole numbers of 64 and 128 bits: their exact quotients (Jebelean 1993) and sums of their products.
#![tactic(auto)]

mod divisors;
mod short_numbers;
mod theorems;
mod whole_numbers;
mod wide_numbers;

pub use divisors::Divisor;
pub use short_numbers::short_changed;
pub use theorems::over_theorems;
pub use whole_numbers::{
    Sums, changed, four_row_times_column, minus, row_times, row_times_column, small,
    small_quotient, sum, turned, wide_row_times, widened,
};
pub use wide_numbers::{
    WideDivisor, are_short, column_value, divide_all, goes_into, positive, product_of,
    product_with, wide_difference, wide_product, wide_quotient, wide_row_value, wide_side_cell,
    wide_turned,
};
