//! The texts of spots where a controller is refused.

ghost use Rattle.std.specs.Prelude.{◌≡◌, ◌++◌, OnOk, decimal};
ghost use Rattle.mpc_status.specs.SpotText.{spot_text};

use mpc_check::Spot;
use mpc_frac::NoMemory;
use mpc_words::{add_number, add_text};

/// Puts a word and two numbers with a word between them behind the text.
fn add_pair(
    text: &mut Vec<u8>,
    word: &[u8],
    number: u64,
    between: &[u8],
    other: u64,
) -> Result<(), NoMemory>
    ensures { OnOk result (text.new.items ≡ text.old.items ++ (word.now ++ decimal number ++ between.now ++ decimal other)) }
{
    add_text(text, word)?;
    add_number(text, number)?;
    add_text(text, between)?;
    add_number(text, other)
}

/// Puts the text of a spot behind the text.
pub fn add_spot(text: &mut Vec<u8>, spot: &Spot) -> Result<(), NoMemory>
    ensures { OnOk result (text.new.items ≡ text.old.items ++ spot_text spot.now) }
{
    match spot {
        Spot::Stationary { law, line } => {
            add_pair(
                text,
                b"law ",
                u64::from(*law),
                b" stationary ",
                u64::from(*line),
            )
        }
        Spot::Active { law, row } => {
            add_pair(text, b"law ", u64::from(*law), b" active ", u64::from(*row))
        }
        Spot::LeafRow { node, row } => {
            add_pair(text, b"leaf ", *node, b" row ", u64::from(*row))
        }
        Spot::Leaf { node } => {
            add_text(text, b"leaf ")?;
            add_number(text, *node)
        }
    }
}
