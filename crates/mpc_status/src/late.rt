//! The places of numbers that are too wide in what comes behind a controller's program.

ghost use Rattle.std.specs.Prelude.{◌≡◌, ◌++◌, OnOk};
ghost use Rattle.mpc_status.specs.LateText.{late_text};

use mpc_frac::NoMemory;
use mpc_recur::Next;
use mpc_words::{add_number, add_text};

/// Where a number is too wide behind the making and the check of a controller.
#[derive(Clone, Copy, Debug, Drop)]
pub enum LatePlace {
    /// As this step of the closed loop is followed.
    Next(Next),
    /// As this row of the program, from 1, is tightened by the disturbances that may come.
    Tight(u32),
}

/// Puts the text of a late place behind the text.
pub fn add_late_place(text: &mut Vec<u8>, place: LatePlace) -> Result<(), NoMemory>
    ensures { OnOk result (text.new.items ≡ text.old.items ++ late_text place) }
{
    match place {
        LatePlace::Next(next) => {
            add_text(text, b"next ")?;
            next.write(text)
        }
        LatePlace::Tight(row) => {
            add_text(text, b"tight ")?;
            add_number(text, u64::from(row))
        }
    }
}
