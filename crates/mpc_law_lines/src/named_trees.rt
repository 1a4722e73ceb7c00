//! Search trees whose splits name planes, and the planes that stand before them.

ghost use Rattle.std.specs.Prelude.{codes, ◌≡◌, ℕ, ◌+◌, ◌-◌, ◌^◌, ◌<◌, ◌≤◌, List, [], ◌∷◌, ◌++◌, length, Some, Contains, IfOk, MatchOption};
ghost use Rattle.mpc_linear.specs.declared.integers.RowInt.{RowInt as Row};
ghost use Rattle.mpc_plant.specs.declared.plants.Plant.{Plant as ThePlant};
ghost use Rattle.mpc_controller.specs.Parts.{limits_of};
ghost use Rattle.mpc_grammar.specs.Reading.{one_line, many, Outcome};
ghost use Rattle.mpc_grammar.specs.PlantGrammar.{plain_rule, UsesAll, IsNumber};
ghost use Rattle.mpc_grammar.specs.TreeGrammar.{plane_rule, planes, plane_named};
ghost use Rattle.mpc_law_lines.specs.TreeReading.{plane_rows, named_node_at, named_nodes, named_tree_nodes};
ghost use Rattle.mpc_law_lines.specs.PlaneReading.{ReadsNamedSplit, AreLinesOf};

use crate::line_sets::LineSet;
use crate::tree_depths::Depths;
use crate::tree_lines::{PlaneLine, ints_of, plane_in, read_leaf, read_word};
use mpc_controller::limits;
use mpc_frac::NoMemory;
use mpc_grammar::{FileError, FileKind, Lines, number_of, one_integers, one_number};
use mpc_linear::{RowInt, Seq};
use mpc_plant::Plant;
use mpc_rows::{Node, Tree};
use mpc_words::Natural;
use std::alloc::Global;

/// The different rows of a tree's splits.
pub type Planes = Seq<RowInt>;

/// Which plane the line of a split names.
#[derive(Clone, Copy, Drop)]
pub(crate) enum SplitLine {
    /// The plane with this number.
    Plane(u64),
    /// A number that is no plane's, or not the next one's.
    NoPlane,
    /// No split's line.
    NoSplit,
}

/// How many planes a line announces, behind laws that use so many of all forms.
fn plane_count_in(text: &[u8], all: u64, used: u64) -> Option<u64>
    ensures { MatchOption result ((count : ℕ) → ¬ UsesAll all used (IsNumber (codes "planes") (λ number. number < 10 ^ 18)) text.now count)
        (λ count. UsesAll all used (IsNumber (codes "planes") (λ number. number < 10 ^ 18)) text.now count) }
{
    one_number();
    match number_of(text, b"planes") {
        Natural::Small(count) => if count < 1_000_000_000_000_000_000 && used == all {
            Some(count)
        } else {
            None
        },
        Natural::Large | Natural::Misspelled => None,
    }
}

/// Reads the line of the number of planes.
fn read_plane_count(lines: &mut Lines, all: u64, used: u64) -> Result<u64, FileError>
    ensures { Outcome (one_line (plain_rule (UsesAll all used (IsNumber (codes "planes") (λ number. number < 10 ^ 18))))) lines.old lines.new result }
{
    let number = lines.number();
    let line = lines.take()?;
    match plane_count_in(line, all, used) {
        Some(count) => Ok(count),
        None => Err(FileError::Bad(FileKind::BadLine, number)),
    }
}

/// Reads the line of the next plane, which is none of those before, and puts it with them. On an error it may
/// be one of them, and those that were before still are.
fn read_plane<'a>(
    alloc: Global,
    lines: &mut Lines<'a>,
    before: &mut LineSet<'a>,
    counts: &[u64],
) -> Result<RowInt, FileError>
    ensures read { (plant : ThePlant) (rows : List Row) → counts.now ≡ limits_of plant → AreLinesOf before.old rows →
        Outcome (one_line (plane_rule plant rows)) lines.old lines.new result }
    ensures before { IfOk result (λ row. (rows : List Row) → AreLinesOf before.old rows → AreLinesOf before.new (rows ++ row ∷ [])) }
    ensures kept { (line : List ℕ) → Contains before.old line → Contains before.new line }
{
    let number = lines.number();
    let line = lines.take()?;
    one_integers();
    let is_new = before.insert(line)?;
    if !is_new {
        return Err(FileError::Bad(FileKind::BadLine, number));
    }
    match plane_in(alloc, line, b"plane", counts)? {
        PlaneLine::Plane(row) => Ok(row),
        PlaneLine::NoPlane => Err(FileError::Bad(FileKind::BadNode, number)),
        PlaneLine::Wide => Err(FileError::Bad(FileKind::OverBound, number)),
        PlaneLine::NoRow => Err(FileError::Bad(FileKind::BadLine, number)),
    }
}

/// Reads the lines of so many planes.
fn read_plane_rows(
    alloc: Global,
    lines: &mut Lines,
    plant: &Plant,
    count: u64,
) -> Result<Planes, FileError>
    ensures { Outcome (plane_rows plant.now count) lines.old lines.new result }
{
    let counts = limits(alloc, plant)?;
    let mut before = LineSet::new(alloc);
    let mut planes = Planes::new(alloc);
    for _i in 0..count {
        let plane = read_plane(alloc, lines, &mut before, counts.as_slice())?;
        planes.push(plane)?;
    }
    Ok(planes)
}

/// Reads the planes, behind laws that use so many of all forms.
pub fn read_planes(
    alloc: Global,
    lines: &mut Lines,
    plant: &Plant,
    all: u64,
    used: u64,
) -> Result<Planes, FileError>
    ensures { Outcome (planes plant.now all used) lines.old lines.new result }
{
    let count = read_plane_count(lines, all, used)?;
    read_plane_rows(alloc, lines, plant, count)
}

/// Which of all planes the line of a split names, where so many are used before.
fn split_in(text: &[u8], all: u64, used: u64) -> SplitLine
    ensures { ReadsNamedSplit all used text.now result }
{
    match number_of(text, b"split") {
        Natural::Small(named) => if named >= 1 && named <= all && named - 1 <= used {
            SplitLine::Plane(named)
        } else {
            SplitLine::NoPlane
        },
        Natural::Large => SplitLine::NoPlane,
        Natural::Misspelled => SplitLine::NoSplit,
    }
}

/// The plane with this number, once more.
fn plane_copy(alloc: Global, planes: &Planes, named: u64) -> Result<RowInt, NoMemory>
    requires from_one { 1 ≤ named }
    requires is_plane { named ≤ length planes.now }
    ensures { IfOk result (λ row. row ≡ plane_named planes.now named) }
{
    let plane = planes.at(named as usize - 1);
    let a = ints_of(alloc, plane.a.as_slice())?;
    Ok(RowInt { a, b: plane.b })
}

/// Reads the node at a depth, whose split names a plane, where so many are used before, and says how
/// many are used then.
fn read_named_node(
    alloc: Global,
    lines: &mut Lines,
    plant: &Plant,
    laws: u64,
    planes: &Planes,
    used: u64,
    depth: u64,
) -> Result<(Node, u64), FileError>
    requires laws_few { laws ≤ 4598479 }
    requires depth_small { depth < 2 ^ 63 }
    ensures { Outcome (named_node_at plant.now laws planes.now used depth) lines.old lines.new result }
{
    let number = lines.number();
    let line = lines.take()?;
    match split_in(line, planes.len() as u64, used) {
        SplitLine::Plane(named) => {
            let row = plane_copy(alloc, planes, named)?;
            let used_then = if used < named { named } else { used };
            Ok((Node::Split(row), used_then))
        }
        SplitLine::NoPlane => Err(FileError::Bad(FileKind::BadNode, number)),
        SplitLine::NoSplit => {
            let node = read_leaf(alloc, lines, plant, laws, depth, line, number)?;
            Ok((node, used))
        }
    }
}

/// Reads nodes whose splits name planes until none is owed, and says how many planes they use.
fn read_named_nodes(
    alloc: Global,
    lines: &mut Lines,
    plant: &Plant,
    laws: u64,
    planes: &Planes,
) -> Result<(Tree, u64), FileError>
    requires { laws ≤ 4598479 }
    ensures { Outcome (named_nodes plant.now laws planes.now) lines.old lines.new result }
{
    // Depths don't overflow: each node takes two bytes at least.
    let _left = lines.left();
    let mut owed = Depths::of_root(alloc)?;
    let mut tree = Tree::new(alloc);
    let mut used = 0;
    while let Some(depth) = owed.next() {
        let (node, used_then) = read_named_node(alloc, lines, plant, laws, planes, used, depth)?;
        owed.owe_under(&node, depth)?;
        tree.push(node)?;
        used = used_then;
    }
    Ok((tree, used))
}

/// Reads a tree over so many laws, whose splits name planes, and says how many planes they use.
pub fn read_named_tree(
    alloc: Global,
    lines: &mut Lines,
    plant: &Plant,
    laws: u64,
    planes: &Planes,
) -> Result<(Tree, u64), FileError>
    requires { laws ≤ 4598479 }
    ensures { Outcome (named_tree_nodes plant.now laws planes.now) lines.old lines.new result }
{
    read_word(lines, b"tree")?;
    read_named_nodes(alloc, lines, plant, laws, planes)
}
