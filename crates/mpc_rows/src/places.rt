//! Places in the making of a controller, as they are named where a number is too wide.

ghost use Rattle.std.specs.Prelude.{◌≡◌, ◌++◌, OnOk, OnErr, codes, decimal};
ghost use Rattle.mpc_sets.specs.SetText.{set_text};
ghost use Rattle.mpc_rows.specs.PlaceText.{place_text};

use itoa::Buffer;
use mpc_frac::NoMemory;
use mpc_sets::{ActiveSet, write_set};

/// A part of the making of a controller. Steps, rows, laws and inputs are counted from 1.
#[derive(Clone, Copy, Debug, Drop)]
pub enum Place {
    /// The state after so many steps, as the program of a plant is made.
    State(u32),
    /// The cost at this step, from 0.
    Cost(u32),
    /// This row of the program.
    Row(u32),
    /// This step of the decomposition that shows whether the program is convex.
    Pivot(u32),
    /// The law of an active set.
    Law(ActiveSet),
    /// The search for a state that reaches an active set.
    Reach(ActiveSet),
    /// This row of the law of an active set.
    Border(ActiveSet, u32),
    /// The search for a point of the region of an active set.
    Region(ActiveSet),
    /// Whether this law's region meets the cell of this node of the tree. Nodes are counted from 1.
    Meet(u64, u32),
    /// Whether this row of this law holds on all of the cell of this node.
    Holds(u64, u32, u32),
    /// Whether the cell of this node has a state with an admissible sequence.
    Joint(u64),
    /// The bound on the numbers of this law's input.
    LawBound(u32, u32),
    /// The bound on the numbers of this node.
    NodeBound(u64),
    /// The test of this law's equations.
    CheckLaw(u32),
    /// The test of this row's certificate at this leaf, 0 at a leaf without a law.
    CheckLeaf(u64, u32),
}

/// Appends the word and the number.
fn write_numbered(word: &[u8], number: u64, out: &mut Vec<u8>) -> Result<(), NoMemory>
    ensures ok { OnOk result (out.new.items ≡ out.old.items ++ (word.now ++ decimal number)) }
    ensures err { OnErr result (out.new.items ≡ out.old.items) }
{
    let mut buffer = Buffer::new();
    let digits = buffer.format(number).as_bytes();
    out.reserve(word.len() + digits.len())
        .map_err(|_| NoMemory)?;
    out.extend_from_slice(word).map_err(|_| NoMemory)?;
    out.extend_from_slice(digits).map_err(|_| NoMemory)?;
    Ok(())
}

/// Appends the word and the set.
fn write_with_set(word: &[u8], set: ActiveSet, out: &mut Vec<u8>) -> Result<(), NoMemory>
    ensures ok { OnOk result (out.new.items ≡ out.old.items ++ (word.now ++ set_text set)) }
    ensures err { OnErr result (out.new.items ≡ out.old.items) }
{
    let start = out.len();
    out.extend_from_slice(word).map_err(|_| NoMemory)?;
    let Ok(()) = write_set(set, out) else {
        out.truncate(start);
        return Err(NoMemory);
    };
    Ok(())
}

/// Appends the word, the number, a blank and the other number.
fn write_pair(word: &[u8], number: u64, other: u64, out: &mut Vec<u8>) -> Result<(), NoMemory>
    ensures ok { OnOk result (out.new.items ≡ out.old.items ++ (word.now ++ decimal number ++ codes " " ++ decimal other)) }
    ensures err { OnErr result (out.new.items ≡ out.old.items) }
{
    let start = out.len();
    write_numbered(word, number, out)?;
    let Ok(()) = write_numbered(b" ", other, out) else {
        out.truncate(start);
        return Err(NoMemory);
    };
    Ok(())
}

/// Appends the word, the set, a blank and the number.
fn write_set_row(word: &[u8], set: ActiveSet, row: u64, out: &mut Vec<u8>) -> Result<(), NoMemory>
    ensures ok { OnOk result (out.new.items ≡ out.old.items ++ (word.now ++ set_text set ++ codes " " ++ decimal row)) }
    ensures err { OnErr result (out.new.items ≡ out.old.items) }
{
    let start = out.len();
    write_with_set(word, set, out)?;
    let Ok(()) = write_numbered(b" ", row, out) else {
        out.truncate(start);
        return Err(NoMemory);
    };
    Ok(())
}

/// Appends the word and three numbers, with blanks between them.
fn write_triple(
    word: &[u8],
    number: u64,
    other: u64,
    last: u64,
    out: &mut Vec<u8>,
) -> Result<(), NoMemory>
    ensures ok { OnOk result (out.new.items ≡ out.old.items ++ (word.now ++ decimal number ++ codes " " ++ decimal other ++ codes " " ++ decimal last)) }
    ensures err { OnErr result (out.new.items ≡ out.old.items) }
{
    let start = out.len();
    write_pair(word, number, other, out)?;
    let Ok(()) = write_numbered(b" ", last, out) else {
        out.truncate(start);
        return Err(NoMemory);
    };
    Ok(())
}

impl Place {
    /// Appends the name of the place, as `condense row 3` or `law {1,3}`. Without memory `out` stays as it was.
    pub fn write(&self, out: &mut Vec<u8>) -> Result<(), NoMemory>
        ensures ok { OnOk result (out.new.items ≡ out.old.items ++ place_text self.now) }
        ensures err { OnErr result (out.new.items ≡ out.old.items) }
    {
        match *self {
            Place::State(k) => write_numbered(b"condense state ", k.into(), out),
            Place::Cost(k) => write_numbered(b"condense cost ", k.into(), out),
            Place::Row(i) => write_numbered(b"condense row ", i.into(), out),
            Place::Pivot(j) => write_numbered(b"pivot ", j.into(), out),
            Place::Law(set) => write_with_set(b"law ", set, out),
            Place::Reach(set) => write_with_set(b"reach ", set, out),
            Place::Border(set, i) => write_set_row(b"border ", set, i.into(), out),
            Place::Region(set) => write_with_set(b"region ", set, out),
            Place::Meet(node, law) => write_pair(b"meet ", node, law.into(), out),
            Place::Holds(node, law, i) => {
                write_triple(b"holds ", node, law.into(), i.into(), out)
            }
            Place::Joint(node) => write_numbered(b"joint ", node, out),
            Place::LawBound(law, input) => write_pair(b"bound law ", law.into(), input.into(), out),
            Place::NodeBound(node) => write_numbered(b"bound node ", node, out),
            Place::CheckLaw(law) => write_numbered(b"check law ", law.into(), out),
            Place::CheckLeaf(node, i) => write_pair(b"check leaf ", node, i.into(), out),
        }
    }
}
