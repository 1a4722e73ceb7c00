//! Controllers laid out in words.

ghost use Rattle.std.specs.Prelude.{◌≡◌, ℕ, ◌+◌, ◌*◌, ◌^◌, ◌<◌, ◌≤◌, ◌↔◌, Err, Some, length, slice_get, OnOk};
ghost use Rattle.mpc_linear.specs.declared.integers.RowInt.{RowInt};
ghost use Rattle.mpc_rows.specs.declared.laws.Law.{Law as LawOfSet};
ghost use Rattle.mpc_rows.specs.declared.trees.Node.TheVariants.{Split};
ghost use Rattle.mpc_controller.specs.Parts.{limits_of, IsNodeFor};
ghost use Rattle.mpc_table.specs.Steps.{AreNoSides};
ghost use Rattle.mpc_block.specs.declared.lines.Width.TheVariants.{Short, Wide};
ghost use Rattle.mpc_block.specs.Words.{words_from};
ghost use Rattle.mpc_block.specs.Block.{width_of, words_each, line_size, line_start, law_place, word_after, whole, form_in, block_size, IsNodeLine, IsBlockOf};
ghost use Rattle.mpc_block.specs.Layouts.{KeepsBefore, IsHeadLine, AreNodesTo, AreInputsTo, AreFormsTo, CanHaveLine, CanHaveForm};

use crate::forms::{denominator, numerators};
use crate::heights::heights;
use crate::lines::{LAYOUT, LINE, Width, line_size, put_line, short_line, wide_line};
use crate::widths::width;
use crate::words::words_of;
use mpc_controller::{Controller, limits};
use mpc_frac::{Frac, NoMemory};
use mpc_plant::Plant;
use mpc_rows::Node;
use mpc_table::{no_sides, table_theorems};
use std::alloc::Global;

/// Why a controller isn't laid out.
#[derive(Clone, Copy, Debug, PartialEq, Eq)]
pub enum LayoutError {
    /// It needs so many words, which is more than there are.
    NoRoom(u128),
    NoMemory,
}

/// The line of a node that leads to this word, whose numbers have one word each.
fn short_node(node: &Node, word: u64) -> [u64; 6]
    requires { CanHaveLine Short node.now }
    ensures { IsNodeLine Short word node.now result }
{
    match node {
        Node::Split(row) => short_line(word, &row.b, row.a.as_slice()),
        Node::Law { law, .. } => [0, *law as u64, word, 0, 0, 0],
        Node::NoMove { .. } => [0, 0, word, 0, 0, 0],
    }
}

/// The line of a node that leads to this word, whose numbers have two words each.
fn wide_node(node: &Node, word: u64) -> [u64; 12]
    requires { CanHaveLine Wide node.now }
    ensures { IsNodeLine Wide word node.now result }
{
    match node {
        Node::Split(row) => wide_line(word, 0, &row.b, row.a.as_slice()),
        Node::Law { law, .. } => [0, *law as u64, word, 0, 0, 0, 0, 0, 0, 0, 0, 0],
        Node::NoMove { .. } => [0, 0, word, 0, 0, 0, 0, 0, 0, 0, 0, 0],
    }
}

/// Writes the line of a node that leads to this word.
fn put_node(words: &mut [u64], start: usize, node: &Node, word: u64, width: Width)
    requires room { start + line_size width ≤ length words.old }
    requires fits { CanHaveLine width node.now }
    ensures written { IsNodeLine width word node.now (words_from words.new start (line_size width)) }
    ensures kept { KeepsBefore start words.old words.new }
{
    match width {
        Width::Short => put_line(words, start, &short_node(node, word)),
        Width::Wide => put_line(words, start, &wide_node(node, word)),
    }
}

/// The word at which the line at a place begins.
fn line_start(width: Width, place: usize) -> usize
    requires { line_size width * place < 2 ^ 63 }
    ensures { result ≡ line_start width place }
{
    LINE + line_size(width) * place
}

/// The place of the line of a law's first input.
fn law_place(controller: &Controller, law: u32) -> usize
    requires from_first { 1 ≤ law }
    requires to_last { law ≤ length controller.now.laws }
    requires small { block_size controller.now < 2 ^ 63 }
    ensures { result ≡ law_place controller.now law }
{
    controller.tree().len() + (law as usize - 1) * controller.plant().p as usize
}

/// The word to which the line of a node leads.
fn word_after(controller: &Controller, node: &Node, side: usize, width: Width) -> u64
    requires width { width ≡ width_of controller.now }
    requires small { block_size controller.now < 2 ^ 63 }
    requires node { IsNodeFor controller.now.plant.n (length controller.now.laws) node.now }
    requires side { (row : RowInt) → node.now ≡ Split row → side < length controller.now.tree }
    ensures { result ≡ word_after controller.now side node.now }
{
    match node {
        Node::Split(_) => line_start(width, side) as u64,
        Node::Law { law, .. } => line_start(width, law_place(controller, *law)) as u64,
        Node::NoMove { .. } => 0,
    }
}

/// Writes the lines of the nodes, behind the head.
fn write_nodes(controller: &Controller, sides: &[usize], width: Width, words: &mut [u64])
    requires room { block_size controller.now ≤ length words.old }
    requires sides { AreNoSides controller.now.tree sides.now }
    requires width { width ≡ width_of controller.now }
    ensures nodes { AreNodesTo controller.now sides.now (length controller.now.tree) words.new }
    ensures kept { KeepsBefore 12 words.old words.new }
{
    let tree = controller.tree();
    for place in 0..tree.len() {
        let node = tree.at(place);
        let word = word_after(controller, node, sides[place], width);
        put_node(words, line_start(width, place), node, word, width);
    }
}

/// Writes the line of the affine form with these coefficients.
fn put_form(words: &mut [u64], start: usize, form: &[Frac], width: Width)
    requires some { 1 ≤ length form.now }
    requires few { length form.now ≤ 5 }
    requires fits { CanHaveForm width form.now }
    requires room { start + line_size width ≤ length words.old }
    ensures written { (n : ℕ) → length form.now ≡ n + 1
        → form_in width n (words_from words.new start (line_size width)) ≡ whole form.now }
    ensures kept { KeepsBefore start words.old words.new }
{
    let den = denominator(form);
    let coefficients = numerators(form, den);
    let others = &coefficients[1..form.len()];
    match width {
        Width::Short => put_line(
            words,
            start,
            &short_line(den as u64, &coefficients[0], others),
        ),
        Width::Wide => {
            let (low, high) = words_of(&(den as i128));
            put_line(
                words,
                start,
                &wide_line(low, high, &coefficients[0], others),
            )
        }
    }
}

/// Writes the lines of the inputs of the law at the index, from 0.
fn write_law(controller: &Controller, index: usize, width: Width, words: &mut [u64])
    requires width { width ≡ width_of controller.now }
    requires law { index < length controller.now.laws }
    requires room { block_size controller.now ≤ length words.old }
    ensures forms { (law : LawOfSet) → slice_get controller.now.laws index ≡ Some law
        → AreInputsTo controller.now law (law_place controller.now (index + 1)) controller.now.plant.p words.new }
    ensures kept { KeepsBefore (line_start width (law_place controller.now (index + 1))) words.old words.new }
{
    table_theorems();
    let law = controller.laws().at(index);
    let place = law_place(controller, index as u32 + 1);
    for input in 0..controller.plant().p {
        put_form(
            words,
            line_start(width, place + input as usize),
            law.moves.row(input),
            width,
        );
    }
}

/// Writes the lines of all laws' inputs, behind those of the nodes.
fn write_laws(controller: &Controller, width: Width, words: &mut [u64])
    requires width { width ≡ width_of controller.now }
    requires room { block_size controller.now ≤ length words.old }
    ensures forms { AreFormsTo controller.now (length controller.now.laws) words.new }
    ensures kept { KeepsBefore (line_start width (length controller.now.tree)) words.old words.new }
{
    for index in 0..controller.laws().len() {
        write_law(controller, index, width, words);
    }
}

/// How many words a number has.
fn words_each(width: Width) -> u64
    ensures { result ≡ words_each width }
{
    match width {
        Width::Short => 1,
        Width::Wide => 2,
    }
}

/// The head of the block of a plant's controller, with the height of its tree and the words of each number.
fn head_line(
    plant: &Plant,
    limits: &[u64],
    size: u64,
    nodes: u64,
    laws: u64,
    height: u64,
    each: u64,
) -> [u64; 12]
    requires { limits.now ≡ limits_of plant.now }
    ensures { IsHeadLine plant.now size nodes laws height each result }
{
    let mut line = [
        LAYOUT,
        size,
        plant.n as u64,
        plant.p as u64,
        0,
        0,
        0,
        0,
        nodes,
        laws,
        height,
        each,
    ];
    line[4..4 + limits.len()].copy_from_slice(limits);
    line
}

/// How many words a controller's block has.
pub fn block_size(controller: &Controller) -> u128
    ensures { result ≡ block_size controller.now }
{
    let forms = controller.laws().len() as u128 * controller.plant().p as u128;
    12 + line_size(width(controller)) as u128 * (controller.tree().len() as u128 + forms)
}

/// Writes the block of a controller, of so many words. Without memory some of it is written.
fn write_block(
    alloc: Global,
    controller: &Controller,
    size: u64,
    words: &mut [u64],
) -> Result<(), NoMemory>
    requires size { size ≡ block_size controller.now }
    requires room { block_size controller.now ≤ length words.old }
    ensures { OnOk result (IsBlockOf words.new controller.now) }
{
    let tree = controller.tree();
    let width = width(controller);
    let limits = limits(alloc, controller.plant())?;
    let sides = no_sides(alloc, tree)?;
    let heights = heights(alloc, tree, sides.as_slice())?;
    let head = head_line(
        controller.plant(),
        limits.as_slice(),
        size,
        tree.len() as u64,
        controller.laws().len() as u64,
        heights[0],
        words_each(width),
    );
    put_line(words, 0, &head);
    write_nodes(controller, sides.as_slice(), width, words);
    write_laws(controller, width, words);
    Ok(())
}

/// Lays a controller out in words, for `reply_in`.
///
/// Where there is no room for its block, nothing is written. Without memory, which is needed on the way
/// alone, some of it may be written.
pub fn lay_out(alloc: Global, controller: &Controller, words: &mut [u64]) -> Result<(), LayoutError>
    ensures ok { OnOk result (IsBlockOf words.new controller.now) }
    ensures no_room { (result ≡ Err (LayoutError.NoRoom (block_size controller.now)))
        ↔ (length words.old < block_size controller.now) }
    ensures told { (size : ℕ) → result ≡ Err (LayoutError.NoRoom size) → size ≡ block_size controller.now }
    ensures unwritten { length words.old < block_size controller.now → words.new ≡ words.old }
{
    let size = block_size(controller);
    if size > words.len() as u128 {
        return Err(LayoutError::NoRoom(size));
    }
    match write_block(alloc, controller, size as u64, words) {
        Ok(()) => Ok(()),
        Err(NoMemory) => Err(LayoutError::NoMemory),
    }
}
