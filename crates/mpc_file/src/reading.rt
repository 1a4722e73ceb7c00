//! The file of a controller, read.

ghost use Rattle.std.specs.Prelude.{codes, ◌≡◌, IfOk, IfErr};
ghost use Rattle.mpc_controller.specs.Bounds.{IsController};
ghost use Rattle.mpc_grammar.specs.Reading.{Outcome, one_line};
ghost use Rattle.mpc_grammar.specs.PlantGrammar.{plain_rule, UsesAll};
ghost use Rattle.mpc_file.specs.Unsealed.{unsealed, in_version};
ghost use Rattle.mpc_grammar.specs.FileGrammar.{written, named, behind_plant, IsSpelled, ExplainsFileError};
ghost use Rattle.mpc_grammar.specs.TreeGrammar.{IsWord};

use mpc_controller::{Controller, SealError, bound_theorems, preorder_theorems};
use mpc_frac::NoMemory;
use mpc_grammar::{FileError, FileKind, Lines, Version};
use mpc_law_lines::{
    read_forms, read_named_laws, read_named_tree, read_planes, read_word, read_written_laws,
    read_written_tree,
};
use mpc_plant::Plant;
use mpc_plant_lines::{read_plant_lines, read_version};
use mpc_rows::{LawTable, Tree};
use std::alloc::Global;

/// Reads the last line, behind a tree that uses so many of all planes.
fn read_end(lines: &mut Lines, all: u64, used: u64) -> Result<(), FileError>
    ensures { Outcome (one_line (plain_rule (UsesAll all used (IsWord (codes "end"))))) lines.old lines.new result }
{
    let number = lines.number();
    let line = lines.take()?;
    if used == all && line == b"end".as_slice() {
        Ok(())
    } else {
        Err(FileError::Bad(FileKind::BadLine, number))
    }
}

/// The controller of parts that have its shapes and keep its bounds.
fn sealed(alloc: Global, plant: Plant, laws: LawTable, tree: Tree) -> Result<Controller, NoMemory>
    requires { IsController plant laws tree }
    ensures { IfOk result (λ c. c ≡ record { plant = plant; laws = laws; tree = tree }) }
{
    bound_theorems();
    match Controller::seal(alloc, plant, laws, tree) {
        Ok(controller) => Ok(controller),
        Err(SealError::NoMemory) => Err(NoMemory),
        Err(SealError::Wide(_)) => unreachable!(),
    }
}

/// Reads what stands behind the plant where forms and rows are written out.
fn read_written(
    alloc: Global,
    lines: &mut Lines,
    plant: &Plant,
) -> Result<(LawTable, Tree), FileError>
    ensures { Outcome (unsealed plant.now (written plant.now)) lines.old lines.new result }
{
    preorder_theorems();
    let laws = read_written_laws(alloc, lines, plant)?;
    let tree = read_written_tree(alloc, lines, plant, laws.len() as u64)?;
    read_word(lines, b"end")?;
    Ok((laws, tree))
}

/// Reads what stands behind the plant where forms and rows are named.
fn read_named(
    alloc: Global,
    lines: &mut Lines,
    plant: &Plant,
) -> Result<(LawTable, Tree), FileError>
    ensures { Outcome (unsealed plant.now (named plant.now)) lines.old lines.new result }
{
    preorder_theorems();
    let forms = read_forms(alloc, lines, plant)?;
    let (laws, used) = read_named_laws(alloc, lines, plant, &forms)?;
    let planes = read_planes(alloc, lines, plant, forms.len() as u64, used)?;
    let (tree, splits) = read_named_tree(alloc, lines, plant, laws.len() as u64, &planes)?;
    read_end(lines, planes.len() as u64, splits)?;
    Ok((laws, tree))
}

/// Reads the laws and the tree that stand behind the plant.
fn read_parts(
    alloc: Global,
    lines: &mut Lines,
    version: Version,
    plant: &Plant,
) -> Result<(LawTable, Tree), FileError>
    ensures { Outcome (unsealed plant.now (behind_plant version plant.now)) lines.old lines.new result }
{
    match version {
        Version::One | Version::Two => read_written(alloc, lines, plant),
        Version::Three => read_named(alloc, lines, plant),
    }
}

/// Reads what stands behind the plant.
fn read_behind_plant(
    alloc: Global,
    lines: &mut Lines,
    version: Version,
    plant: Plant,
) -> Result<Controller, FileError>
    ensures { Outcome (behind_plant version plant) lines.old lines.new result }
{
    let (laws, tree) = read_parts(alloc, lines, version, &plant)?;
    let controller = sealed(alloc, plant, laws, tree)?;
    Ok(controller)
}

/// Reads what stands behind the first line.
fn read_in_version(
    alloc: Global,
    lines: &mut Lines,
    version: Version,
) -> Result<Controller, FileError>
    ensures { Outcome (in_version version) lines.old lines.new result }
{
    let plant = read_plant_lines(alloc, lines, version)?;
    read_behind_plant(alloc, lines, version, plant)
}

/// Reads the file of a controller, in any of the three versions of its text.
///
/// `Bad` with the kind and the number, from 1, of the first line that fails: a line that is needed and
/// that no line feed ends, a line that isn't what the format demands behind the lines before it, a node
/// that names or states none, a number that is too great at the greatest counts, or a byte behind the last
/// line. Memory is taken for the lines that are there, not for those that the file announces.
pub fn read_file(alloc: Global, bytes: &[u8]) -> Result<Controller, FileError>
    ensures ok { IfOk result (IsSpelled bytes.now) }
    ensures err { IfErr result (ExplainsFileError bytes.now) }
{
    let mut lines = Lines::of(bytes);
    let version = read_version(&mut lines)?;
    let controller = read_in_version(alloc, &mut lines, version)?;
    if lines.is_at_end() {
        Ok(controller)
    } else {
        Err(FileError::Bad(FileKind::TailAfterEnd, lines.number()))
    }
}
