//! The values at a position in numbers of 128 bits.

ghost use Rattle.std.specs.Prelude.{◌≡◌, ℕ, List, pos, ◌*◌, ◌<◌, ◌^◌, ◌+ℤ◌, ◌*ℤ◌, IfSome, IsTrue, length};
ghost use Rattle.mpc_rows.specs.LinearSystem.{height};
ghost use Rattle.mpc_runs.specs.declared.variables.Seat.{Seat};
ghost use Rattle.mpc_runs.specs.Table.{variable_at, IsSeated, AreNonbasic};
ghost use Rattle.mpc_whole.specs.Moved.{AreFormed};
ghost use Rattle.mpc_whole.specs.Running.{HasNumbers};
ghost use Rattle.mpc_scaled.specs.Scaled.{whole_at, whole_cell, IsSmall};

use crate::frames::JudgedFrame;
use crate::whole_values::step_of;
use mpc_quotients::product_with;
use mpc_scaled::WholeSystem;

/// Writes 0 into each number.
fn clear_wide(list: &mut [i128])
    ensures { (k : ℕ) → whole_at list.new k ≡ pos 0 }
{
    for index in 0..list.len() {
        list[index] = 0;
    }
}

/// Adds the numbers of a column times a factor to those of a list. They aren't tested where they are known to be short.
#[inline(always)]
fn add_column(
    list: &mut [i128],
    numbers: &[i128],
    column: usize,
    factor: i64,
    short: bool,
) -> Option<()>
    requires square { length numbers.now ≡ length list.old * length list.old }
    requires column { column < length list.old }
    requires short { IsTrue short → IsSmall (2 ^ 62) numbers.now }
    ensures { IfSome result (λ _. (unknown : ℕ) → unknown < length list.old → whole_at list.new unknown ≡ whole_at list.old unknown +ℤ (whole_cell (length list.old) numbers.now unknown column *ℤ factor)) }
{
    let width = list.len();
    for unknown in 0..width {
        let term = product_with(factor, numbers[unknown * width + column], short)?;
        let sum = list[unknown].checked_add(term)?;
        list[unknown] = sum;
    }
    Some(())
}

/// The same, where nothing is added by the factor 0. The loop over the unknowns stands there once for short numbers
/// and once for others, so that they aren't tested again at each number.
fn add_times(
    list: &mut [i128],
    numbers: &[i128],
    column: usize,
    factor: i64,
    short: bool,
) -> Option<()>
    requires square { length numbers.now ≡ length list.old * length list.old }
    requires column { column < length list.old }
    requires short { IsTrue short → IsSmall (2 ^ 62) numbers.now }
    ensures { IfSome result (λ _. (unknown : ℕ) → unknown < length list.old → whole_at list.new unknown ≡ whole_at list.old unknown +ℤ (whole_cell (length list.old) numbers.now unknown column *ℤ factor)) }
{
    if factor == 0 {
        return Some(());
    }
    if short {
        return add_column(list, numbers, column, factor, true);
    }
    add_column(list, numbers, column, factor, false)
}

/// The values of the unknowns, where no number of the position is above own.
pub(crate) fn wide_stand(
    firsts: &mut [i128],
    seconds: &mut [i128],
    system: &WholeSystem,
    frame: &JudgedFrame,
    nonbasic: &[usize],
    numbers: &[i128],
    own: u128,
) -> Option<()>
    requires numbers { HasNumbers system.now frame.now.count frame.now.scales.now frame.now.a.now frame.now.b.now }
    requires columns { length nonbasic.now ≡ system.now.width }
    requires below { (column : ℕ) → column < system.now.width → variable_at nonbasic.now column < frame.now.count }
    requires square { length numbers.now ≡ system.now.width * system.now.width }
    requires first_room { length firsts.old ≡ system.now.width }
    requires second_room { length seconds.old ≡ system.now.width }
    requires own { IsSmall own numbers.now }
    ensures { IfSome result (λ _. (seats : List Seat) → IsSeated (height system.now) system.now.width frame.now.count seats → AreNonbasic system.now.width seats nonbasic.now
        → AreFormed system.now frame.now.count seats frame.now.scales.now frame.now.b.now numbers.now firsts.new seconds.new) }
{
    let short = own <= 1 << 62;
    let width = system.unknowns();
    clear_wide(firsts);
    clear_wide(seconds);
    for column in 0..width {
        let variable = nonbasic[column];
        if variable < width {
            continue;
        }
        let side = variable - width;
        let step = step_of(system, frame.scales, side);
        add_times(firsts, numbers, column, frame.b[side], short)?;
        add_times(seconds, numbers, column, step, short)?;
    }
    Some(())
}
