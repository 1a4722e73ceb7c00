//! The lines of a search tree: its nodes in preorder, each with the certificates of its leaf.

ghost use Rattle.std.specs.Prelude.{◌≡◌, ◌≢◌, ℕ, ◌+◌, ◌^◌, ◌<◌, ◌≤◌, ◌↔◌, pos, List, [], ◌∷◌, ◌++◌, length, IfOk, MatchOption, IsTrue, All, unsigned_abs};
ghost use Rattle.std.specs.List.{flat_map};
ghost use Rattle.mpc_exact.specs.Rational.{ℚ, int};
ghost use Rattle.mpc_linear.specs.Whole.{AreSmall};
ghost use Rattle.mpc_controller.specs.Parts.{row_count, limits_of};
ghost use Rattle.mpc_controller.specs.Certificates.{IsCertOver, cell_rows};
ghost use Rattle.mpc_grammar.specs.Reading.{one_line, Outcome};
ghost use Rattle.mpc_grammar.specs.PlantGrammar.{plain_rule};
ghost use Rattle.mpc_grammar.specs.TreeGrammar.{IsPlane, IsCertLine, certs, IsWord, written_tree};
ghost use Rattle.mpc_law_lines.specs.TreeReading.{pair_fractions, ReadsPlane, ReadsLeaf, LeafOutcome, written_node_at, written_nodes, IsPlaneOf};

use crate::tree_depths::Depths;
use mpc_controller::{limits, split_fits};
use mpc_frac::{Frac, NoMemory};
use mpc_grammar::{
    FileError, FileKind, Lines, fractions_into, integers_of, number_of, one_fractions,
    one_integers, stated,
};
use mpc_linear::{Ints, RowInt, Vector, shared_divisor};
use mpc_plant::Plant;
use mpc_rows::{Cert, Certs, Node, Tree};
use mpc_words::Natural;
use std::alloc::Global;

/// The parts of most certificates fit into room for so many, so that it needn't grow.
const ROOM: usize = 16;

/// What a line is as that of a plane.
#[derive(Drop)]
pub(crate) enum PlaneLine {
    /// A plane that fits.
    Plane(RowInt),
    /// A well spelled row that is no plane.
    NoPlane,
    /// A plane that breaks a bound.
    Wide,
    /// No row.
    NoRow,
}

/// What a line is as that of a leaf.
#[derive(Clone, Copy, Drop)]
pub(crate) enum LeafLine {
    /// That of the law with this number.
    Law(u32),
    /// That there is no move.
    Nothing,
    /// A number that is no law's.
    NoLaw,
    /// No leaf's line.
    NoLeaf,
}

/// The position that a fraction is: a whole number above the last one, up to the number of rows.
fn position_of(fraction: &Frac, last: u64, rows: u64) -> Option<u64>
    ensures { MatchOption result ((k : ℕ) → last < k → k ≤ rows → fraction.now ≢ int (pos k))
        (λ k. (fraction.now ≡ int (pos k)) × (last < k) × (k ≤ rows)) }
{
    if fraction.den() != 1 {
        return None;
    }
    let position = fraction.num();
    if position <= i128::from(last) || i128::from(rows) < position {
        return None;
    }
    Some(position as u64)
}

/// The certificate over so many rows whose positions and multipliers these are.
fn cert_of(alloc: Global, parts: &[Frac], rows: u64) -> Result<Option<Cert>, NoMemory>
    ensures is_cert { IfOk result (λ found. MatchOption found
        ((cert : List (ℕ × ℚ)) → IsCertOver rows cert → parts.now ≢ flat_map pair_fractions cert)
        (λ cert. IsCertOver rows cert)) }
    ensures parts { IfOk result (λ found. MatchOption found (Unit {0})
        (λ cert. parts.now ≡ flat_map pair_fractions cert)) }
{
    let mut cert = Cert::with_capacity(alloc, parts.len() / 2)?;
    let mut last = 0;
    let mut left = parts;
    while let [position, multiplier, rest @ ..] = left {
        let Some(place) = position_of(position, last, rows) else {
            return Ok(None);
        };
        if multiplier.is_zero() {
            return Ok(None);
        }
        cert.push((place, *multiplier))?;
        last = place;
        left = rest;
    }
    if left.is_empty() {
        Ok(Some(cert))
    } else {
        Ok(None)
    }
}

/// The certificate over so many rows that a line states.
fn cert_in(alloc: Global, text: &[u8], rows: u64) -> Result<Option<Cert>, NoMemory>
    ensures { IfOk result (λ found. MatchOption found
        ((cert : List (ℕ × ℚ)) → ¬ IsCertLine rows text.now cert)
        (λ cert. IsCertLine rows text.now cert)) }
{
    one_fractions();
    let room = Vector::with_capacity(alloc, ROOM)?;
    match fractions_into(room, text, b"cert")? {
        Some(parts) => cert_of(alloc, parts.as_slice(), rows),
        None => Ok(None),
    }
}

/// Reads the line of a certificate over so many rows.
fn read_cert(alloc: Global, lines: &mut Lines, rows: u64) -> Result<Cert, FileError>
    ensures { Outcome (one_line (plain_rule (IsCertLine rows))) lines.old lines.new result }
{
    let number = lines.number();
    let line = lines.take()?;
    stated(cert_in(alloc, line, rows), number)
}

/// Reads the lines of so many certificates, each over so many rows.
fn read_certs(alloc: Global, lines: &mut Lines, rows: u64, count: u64) -> Result<Certs, FileError>
    ensures { Outcome (certs rows count) lines.old lines.new result }
{
    let mut read = Certs::with_capacity(alloc, count as usize)?;
    for _i in 0..count {
        let cert = read_cert(alloc, lines, rows)?;
        read.push(cert)?;
    }
    Ok(read)
}

/// The list of these integers.
pub(crate) fn ints_of(alloc: Global, integers: &[i128]) -> Result<Ints, NoMemory>
    ensures { IfOk result (λ list. list ≡ integers.now) }
{
    let mut list = Ints::with_capacity(alloc, integers.len())?;
    for integer in integers {
        list.push(*integer)?;
    }
    Ok(list)
}

/// The row of so many weights and a bound that these integers are.
fn row_of(alloc: Global, integers: &[i128], count: usize) -> Result<RowInt, NoMemory>
    requires { length integers.now ≡ count + 1 }
    ensures row { IfOk result (λ row. integers.now ≡ row.a ++ row.b ∷ []) }
    ensures size { IfOk result (λ row. length row.a ≡ count) }
{
    let a = ints_of(alloc, &integers[..count])?;
    Ok(RowInt {
        a,
        b: integers[count],
    })
}

/// Whether one of these integers isn't 0.
fn has_entry(integers: &[i128]) -> bool
    ensures { IsTrue result ↔ (¬ All (λ z. z ≡ pos 0) integers.now) }
{
    integers.iter().any(|z| *z != 0)
}

/// Whether a row weighs some entry, and no number above 1 divides all of its numbers.
fn is_plane(row: &RowInt) -> bool
    requires small { AreSmall row.now.a }
    requires b_small { unsigned_abs row.now.b < 2 ^ 127 }
    ensures { IsTrue result ↔ IsPlane row.now }
{
    has_entry(row.a.as_slice()) && shared_divisor(&row.a, row.b) == 1
}

/// What a row is as a plane.
fn plane_of(row: RowInt, counts: &[u64]) -> PlaneLine
    requires size { length row.a ≡ length counts.now }
    requires small { AreSmall row.a }
    requires b_small { unsigned_abs row.b < 2 ^ 127 }
    ensures { IsPlaneOf counts.now row result }
{
    if !is_plane(&row) {
        return PlaneLine::NoPlane;
    }
    if split_fits(&row, counts) {
        PlaneLine::Plane(row)
    } else {
        PlaneLine::Wide
    }
}

/// What a line behind this word is as that of a plane, where the counts go up to these.
pub(crate) fn plane_in(
    alloc: Global,
    text: &[u8],
    name: &[u8],
    counts: &[u64],
) -> Result<PlaneLine, NoMemory>
    ensures { IfOk result (λ line. ReadsPlane name.now (length counts.now) counts.now text.now line) }
{
    one_integers();
    let Some(integers) = integers_of(alloc, text, name)? else {
        return Ok(PlaneLine::NoRow);
    };
    if integers.len() != counts.len() + 1 {
        return Ok(PlaneLine::NoRow);
    }
    let row = row_of(alloc, integers.as_slice(), counts.len())?;
    Ok(plane_of(row, counts))
}

/// What a line is as that of a leaf, where there are so many laws.
fn leaf_in(text: &[u8], laws: u64) -> LeafLine
    requires { laws ≤ 4598479 }
    ensures { ReadsLeaf laws text.now result }
{
    if text == b"none".as_slice() {
        return LeafLine::Nothing;
    }
    match number_of(text, b"leaf") {
        Natural::Small(number) => if number >= 1 && number <= laws {
            LeafLine::Law(number as u32)
        } else {
            LeafLine::NoLaw
        },
        Natural::Large => LeafLine::NoLaw,
        Natural::Misspelled => LeafLine::NoLeaf,
    }
}

/// How many rows the plant's program has.
fn program_rows(plant: &Plant) -> u64
    ensures rows { result ≡ row_count plant.now }
    ensures few { result ≤ 60 }
{
    u64::from(plant.horizon) * plant.rows.len() as u64 + plant.terminal.len() as u64
}

/// How many rows the box has, with those of the splits above a depth.
fn rows_above(plant: &Plant, depth: u64) -> u64
    requires { depth < 2 ^ 63 }
    ensures rows { result ≡ cell_rows plant.now.n depth }
    ensures few { result ≤ depth + 8 }
{
    2 * u64::from(plant.n) + depth
}

/// Reads the certificates of the leaf at a depth whose line, of this number, is taken.
pub(crate) fn read_leaf(
    alloc: Global,
    lines: &mut Lines,
    plant: &Plant,
    laws: u64,
    depth: u64,
    text: &[u8],
    number: u64,
) -> Result<Node, FileError>
    requires laws_few { laws ≤ 4598479 }
    requires depth_small { depth < 2 ^ 63 }
    ensures { LeafOutcome plant.now laws depth text.now number lines.old lines.new result }
{
    let cell = rows_above(plant, depth);
    let rows = program_rows(plant);
    match leaf_in(text, laws) {
        LeafLine::Law(law) => {
            let certs = read_certs(alloc, lines, cell + 1, rows)?;
            Ok(Node::Law { law, certs })
        }
        LeafLine::Nothing => {
            let cert = read_cert(alloc, lines, cell + rows)?;
            Ok(Node::NoMove { cert })
        }
        LeafLine::NoLaw => Err(FileError::Bad(FileKind::BadNode, number)),
        LeafLine::NoLeaf => Err(FileError::Bad(FileKind::BadLine, number)),
    }
}

/// Reads the node at a depth, whose split is written out.
fn read_written_node(
    alloc: Global,
    lines: &mut Lines,
    plant: &Plant,
    laws: u64,
    counts: &[u64],
    depth: u64,
) -> Result<Node, FileError>
    requires laws_few { laws ≤ 4598479 }
    requires limits { counts.now ≡ limits_of plant.now }
    requires depth_small { depth < 2 ^ 63 }
    ensures { Outcome (written_node_at plant.now laws depth) lines.old lines.new result }
{
    let number = lines.number();
    let line = lines.take()?;
    match plane_in(alloc, line, b"split", counts)? {
        PlaneLine::Plane(row) => Ok(Node::Split(row)),
        PlaneLine::NoPlane => Err(FileError::Bad(FileKind::BadNode, number)),
        PlaneLine::Wide => Err(FileError::Bad(FileKind::OverBound, number)),
        PlaneLine::NoRow => read_leaf(alloc, lines, plant, laws, depth, line, number),
    }
}

/// Reads nodes whose splits are written out until none is owed.
fn read_written_nodes(
    alloc: Global,
    lines: &mut Lines,
    plant: &Plant,
    laws: u64,
    counts: &[u64],
) -> Result<Tree, FileError>
    requires laws_few { laws ≤ 4598479 }
    requires limits { counts.now ≡ limits_of plant.now }
    ensures { Outcome (written_nodes plant.now laws) lines.old lines.new result }
{
    // Depths don't overflow: each node takes two bytes at least.
    let _left = lines.left();
    let mut owed = Depths::of_root(alloc)?;
    let mut tree = Tree::new(alloc);
    while let Some(depth) = owed.next() {
        let node = read_written_node(alloc, lines, plant, laws, counts, depth)?;
        owed.owe_under(&node, depth)?;
        tree.push(node)?;
    }
    Ok(tree)
}

/// Reads a line that is this word, as the one above a tree's nodes.
pub fn read_word(lines: &mut Lines, word: &[u8]) -> Result<(), FileError>
    ensures { Outcome (one_line (plain_rule (IsWord word.now))) lines.old lines.new result }
{
    let number = lines.number();
    let line = lines.take()?;
    if line == word {
        Ok(())
    } else {
        Err(FileError::Bad(FileKind::BadLine, number))
    }
}

/// Reads a tree over so many laws, whose splits are written out.
pub fn read_written_tree(
    alloc: Global,
    lines: &mut Lines,
    plant: &Plant,
    laws: u64,
) -> Result<Tree, FileError>
    requires { laws ≤ 4598479 }
    ensures { Outcome (written_tree plant.now laws) lines.old lines.new result }
{
    let counts = limits(alloc, plant)?;
    read_word(lines, b"tree")?;
    read_written_nodes(alloc, lines, plant, laws, counts.as_slice())
}
