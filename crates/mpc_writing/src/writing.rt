//! The file of a controller, written in version 3.

ghost use Rattle.std.specs.Prelude.{◌≡◌, [], IfOk, OnOk, length, take};
ghost use Rattle.mpc_controller.specs.Bounds.{IsController};
ghost use Rattle.mpc_grammar.specs.FileGrammar.{Spells, parts_with};
ghost use Rattle.mpc_grammar.specs.declared.versions.Version.TheVariants.{Three};

use crate::law_lines::write_table;
use crate::plant_lines::write_plant;
use crate::tree_lines::write_tree;
use crate::words::{write_count_line, write_piece};
use mpc_controller::Controller;
use mpc_frac::NoMemory;
use mpc_grammar::word_theorems;
use mpc_plant::Plant;
use mpc_rows::{LawTable, Tree};
use std::alloc::Global;

/// Appends the text of these parts. Without memory some of it stands there.
fn write_parts(
    alloc: Global,
    plant: &Plant,
    laws: &LawTable,
    tree: &Tree,
    out: &mut Vec<u8>,
) -> Result<(), NoMemory>
    ensures spells { OnOk result (IsController plant.now laws.now tree.now → out.old.items ≡ []
        → Spells out.new.items Three (parts_with plant.now laws.now tree.now)) }
    ensures kept { take (length out.old.items) out.new.items ≡ out.old.items }
{
    word_theorems();
    write_count_line(b"mpc", 3, out)?;
    write_plant(plant, out)?;
    write_table(alloc, laws, out)?;
    write_tree(alloc, tree, out)?;
    write_piece(b"end\n", out)
}

/// The controller's file: its plant, its laws and its search tree as lines of ASCII text, each ended by
/// a line feed. All numbers are exact. It is of version 3: the different affine forms of the laws and
/// the different rows of the splits are written once, and named by their numbers. The only error is
/// want of memory.
pub fn write_file(alloc: Global, controller: &Controller) -> Result<Vec<u8>, NoMemory>
    ensures { IfOk result (λ bytes. Spells bytes.items Three controller.now) }
{
    let mut out = Vec::new(alloc);
    write_parts(
        alloc,
        controller.plant(),
        controller.laws(),
        controller.tree(),
        &mut out,
    )?;
    Ok(out)
}
