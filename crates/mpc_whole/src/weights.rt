//! What is kept of the numbers at a position, unknown by unknown, so that a row that joins later is judged there by its
//! own coefficients.

ghost use Rattle.std.specs.Prelude.{◌≡◌, ℕ, ℤ, ◌<◌, ◌≤◌, ◌*◌, ◌^◌, IfSome, length, get_or, unsigned_abs};
ghost use Rattle.mpc_runs.specs.declared.variables.Seat.TheVariants.{Column};
ghost use Rattle.mpc_runs.specs.Table.{seat_at};
ghost use Rattle.mpc_scaled.specs.Scaled.{whole_cell};
ghost use Rattle.mpc_whole.specs.Running.{HasNumbers};
ghost use Rattle.mpc_whole.specs.Judged.{IsPlaced, IsWeighedAt};

use crate::frames::JudgedFrame;
use crate::judge::{Factors, Here, factor_at, side_of};
use crate::judged::WidePlace;
use mpc_scaled::WholeSystem;

/// A system with further rows has at most so many variables where the weights serve.
pub const MOST_VARIABLES: u128 = 1024;

/// What a number in the column of a variable is multiplied by at most, as a weight counts it, if that fits.
fn weight_of(
    system: &WholeSystem,
    frame: &JudgedFrame,
    by: Factors,
    variable: usize,
) -> Option<u128>
    requires numbers { HasNumbers system.now frame.now.count frame.now.scales.now frame.now.a.now frame.now.b.now }
    requires below { variable < frame.now.count }
    ensures { IfSome result (λ weight. (z : ℤ) (m : ℕ) → unsigned_abs z * weight ≤ m → IsWeighedAt system.now frame.now.scales.now by.enters by.top by.size variable z m) }
{
    let factor = factor_at(by, variable).max(MOST_VARIABLES);
    let scaled = factor.checked_mul(frame.scales[variable] as u128)?;
    let sides = side_of(system, frame, variable).checked_mul(MOST_VARIABLES)?;
    Some(scaled.max(sides))
}

/// Raises the weights, one for each unknown, to those of its numbers in a column.
fn weigh_column(weights: &mut [u128], numbers: &[i128], column: usize, weight: u128) -> Option<()>
    requires square { length numbers.now ≡ length weights.old * length weights.old }
    requires column { column < length weights.old }
    ensures before { IfSome result (λ _. (j : ℕ) → get_or weights.old j 0 ≤ get_or weights.new j 0) }
    ensures here { IfSome result (λ _. (j : ℕ) → j < length weights.old → unsigned_abs (whole_cell (length weights.old) numbers.now j column) * weight ≤ get_or weights.new j 0) }
{
    let width = weights.len();
    for unknown in 0..width {
        let size = numbers[unknown * width + column].unsigned_abs();
        let product = size.checked_mul(weight)?;
        weights[unknown] = weights[unknown].max(product);
    }
    Some(())
}

/// Raises the weights to those of all numbers at a position.
fn weigh(
    weights: &mut [u128],
    here: &Here,
    system: &WholeSystem,
    frame: &JudgedFrame,
    by: Factors,
) -> Option<()>
    requires numbers { HasNumbers system.now frame.now.count frame.now.scales.now frame.now.a.now frame.now.b.now }
    requires here { IsPlaced system.now frame.now.count here.now.seats.now here.now.nonbasic.now here.now.den here.now.numbers.now }
    ensures before { IfSome result (λ _. (j : ℕ) → get_or weights.old j 0 ≤ get_or weights.new j 0) }
    ensures here { IfSome result (λ _. (j y c : ℕ) → j < system.now.width → y < frame.now.count → seat_at here.now.seats.now y ≡ Column c
        → IsWeighedAt system.now frame.now.scales.now by.enters by.top by.size y (whole_cell system.now.width here.now.numbers.now j c) (get_or weights.new j 0)) }
{
    if weights.len() != system.unknowns() {
        return None;
    }
    for column in 0..system.unknowns() {
        let weight = weight_of(system, frame, by, here.nonbasic[column])?;
        weigh_column(weights, here.numbers, column, weight)?;
    }
    Some(())
}

/// The greater of the product that is kept and that of the denominator here with the pivot's size, where the weights
/// are raised to those of the numbers here: the greatest of its type where either isn't known.
pub(crate) fn kept_product(
    weights: &mut [u128],
    here: &Here,
    system: &WholeSystem,
    frame: &JudgedFrame,
    by: Factors,
    place: WidePlace,
) -> u128
    requires numbers { HasNumbers system.now frame.now.count frame.now.scales.now frame.now.a.now frame.now.b.now }
    requires here { IsPlaced system.now frame.now.count here.now.seats.now here.now.nonbasic.now here.now.den here.now.numbers.now }
    ensures product { place.product ≤ result }
    ensures den { result < 2 ^ 127 → here.now.den * by.size ≤ result }
    ensures before { result < 2 ^ 127 → (j : ℕ) → get_or weights.old j 0 ≤ get_or weights.new j 0 }
    ensures here { result < 2 ^ 127 → (j y c : ℕ) → j < system.now.width → y < frame.now.count → seat_at here.now.seats.now y ≡ Column c
        → IsWeighedAt system.now frame.now.scales.now by.enters by.top by.size y (whole_cell system.now.width here.now.numbers.now j c) (get_or weights.new j 0) }
{
    if place.product > i128::MAX as u128 {
        return u128::MAX;
    }
    let Some(product) = here.den.checked_mul(by.size) else {
        return u128::MAX;
    };
    match weigh(weights, here, system, frame, by) {
        Some(()) => product.max(place.product),
        None => u128::MAX,
    }
}
