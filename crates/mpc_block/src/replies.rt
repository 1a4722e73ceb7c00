//! Replies from a block.

ghost use Rattle.std.specs.Prelude.{◌≡◌, ℕ, ◌+◌, ◌*◌, ◌<◌, ◌≤◌, ◌↔◌, pos, ◌<ℤ◌, List, length, IsTrue, IsFalse, IsSomeAnd};
ghost use Rattle.mpc_rows.specs.declared.laws.Law.{Law};
ghost use Rattle.mpc_controller.specs.Parts.{Parts};
ghost use Rattle.mpc_controller.specs.Replies.{IsLawNumbered};
ghost use Rattle.mpc_block.specs.declared.lines.Width.TheVariants.{Wide};
ghost use Rattle.mpc_block.specs.Words.{words_from, number_at};
ghost use Rattle.mpc_block.specs.Block.{HasHead, IsFormLine, line_size, law_start, width_of};
ghost use Rattle.mpc_block.specs.Walks.{Serves, FindsLeaf};
ghost use Rattle.mpc_block.specs.BlockReplies.{num_of, den_of, IsMoveOf, BeginWith, IsBlockReply, KeepsMoves, Suits};

use crate::lines::{LAYOUT, LINE, Width, line_of, line_size, number, part, short_sum, wide_sum};
use crate::walks::leaf_start;
use crate::words::words_of;
use mpc_table::{find_outside, table_theorems};

/// A move of one input, as a fraction by the words of its numerator and its denominator, each in two's
/// complement with the low word first. The two may have common divisors.
#[repr(C)]
#[derive(Clone, Copy, Debug, PartialEq, Eq)]
pub struct Move {
    pub num_low: u64,
    pub num_high: u64,
    pub den_low: u64,
    pub den_high: u64,
}

/// What a block replies to counts. Nodes, laws and coordinates are counted from 1.
#[derive(Clone, Copy, Debug, PartialEq, Eq)]
pub enum BlockReply {
    /// The moves are those of this law, which the leaf at this node names.
    Moves { node: u64, law: u64 },
    /// No sequence of moves is admissible, by the leaf at this node.
    Infeasible { node: u64 },
    /// This coordinate is the first whose count is above its limit.
    Outside { coordinate: u32 },
    /// The words are no block, or none of a controller with so many coordinates and inputs.
    BadBlock,
}

/// A leaf: its node, from 1, its law, or 0 for none, and the word at which the law's first line begins.
#[derive(Clone, Copy)]
pub struct Leaf {
    pub node: u64,
    pub law: u64,
    pub start: u64,
}

/// Whether the words begin with a block, by its own head, for so many coordinates and inputs.
#[inline(always)]
fn has_head(words: &[u64], coordinates: usize, inputs: usize) -> bool
    ensures { IsTrue result ↔ HasHead words.now coordinates inputs }
{
    words.len() >= LINE
        && words[0] == LAYOUT
        && words[1] <= words.len() as u64
        && words[2] == coordinates as u64
        && words[3] == inputs as u64
        && coordinates <= 4
        && inputs <= 3
}

/// The leaf to which the walk at these counts comes, in a block whose numbers have this width.
#[inline(always)]
fn find_leaf(words: &[u64], counts: &[u64], width: Width) -> Option<Leaf>
    requires few { length counts.now ≤ 4 }
    requires long { 12 ≤ length words.now }
    ensures { (parts : Parts) → Serves words.now counts.now parts → width ≡ width_of parts
        → IsSomeAnd result (λ found. FindsLeaf words.now counts.now parts found.node found.law found.start) }
{
    let turns = words[10].min(words.len() as u64) + 1;
    let Some(start) = leaf_start(words, counts, turns, width) else {
        return None;
    };
    let size = line_size(width);
    match part(words, start, size) {
        Some(node) => Some(Leaf {
            node: start.saturating_sub(LINE as u64) / size as u64 + 1,
            law: node[1],
            start: node[2],
        }),
        None => None,
    }
}

/// Whether a form's line has a denominator.
#[inline(always)]
fn is_positive(line: &[u64], width: Width) -> bool
    requires { length line.now ≡ line_size width }
    ensures { IsTrue result ↔ (pos 0 <ℤ number_at width line.now 0) }
{
    match width {
        Width::Short => line[0].cast_signed() > 0,
        Width::Wide => number(line, 0) > 0,
    }
}

/// Whether the lines of so many inputs have denominators.
#[inline(always)]
fn are_positive(lines: &[u64], inputs: usize, width: Width) -> bool
    requires { length lines.now ≡ line_size width * inputs }
    ensures { ((input : ℕ) → input < inputs
        → pos 0 <ℤ number_at width (words_from lines.now (line_size width * input) (line_size width)) 0) → IsTrue result }
{
    for i in 0..inputs {
        if !is_positive(line_of(lines, i, width), width) {
            return false;
        }
    }
    true
}

/// The numerator and the denominator of the move by the form in a line.
#[inline(always)]
fn fraction_by(line: &[u64], counts: &[u64], width: Width) -> (i128, i128)
    requires few { length counts.now ≤ 4 }
    requires size { length line.now ≡ line_size width }
    ensures { (parts : Parts) (of_set : Law) (law input : ℕ) (words : List ℕ) → Serves words counts.now parts → width ≡ width_of parts
        → IsLawNumbered parts.laws law of_set → input < parts.plant.p → IsFormLine parts of_set input line.now
        → (step : Move) → num_of step ≡ result.0 → den_of step ≡ result.1 → IsMoveOf of_set counts.now input step }
{
    table_theorems();
    match width {
        Width::Short => {
            let num = short_sum(line[1].cast_signed(), line, counts);
            (i128::from(num), i128::from(line[0].cast_signed()))
        }
        Width::Wide => (wide_sum(number(line, 1), line, counts), number(line, 0)),
    }
}

/// The move by the form in a line.
#[inline(always)]
fn move_by(line: &[u64], counts: &[u64], width: Width) -> Move
    requires few { length counts.now ≤ 4 }
    requires size { length line.now ≡ line_size width }
    ensures { (parts : Parts) (of_set : Law) (law input : ℕ) (words : List ℕ) → Serves words counts.now parts → width ≡ width_of parts
        → IsLawNumbered parts.laws law of_set → input < parts.plant.p → IsFormLine parts of_set input line.now
        → IsMoveOf of_set counts.now input result }
{
    let (num, den) = fraction_by(line, counts, width);
    let (num_low, num_high) = words_of(&num);
    let (den_low, den_high) = words_of(&den);
    Move {
        num_low,
        num_high,
        den_low,
        den_high,
    }
}

/// Writes the moves by the lines from this word on, if they are there.
#[inline(always)]
fn write_all(words: &[u64], start: u64, counts: &[u64], moves: &mut [Move], width: Width) -> bool
    requires few { length counts.now ≤ 4 }
    requires inputs { length moves.old ≤ 3 }
    ensures written { (parts : Parts) (of_set : Law) (law : ℕ) → Serves words.now counts.now parts → width ≡ width_of parts
        → length moves.old ≡ parts.plant.p → 1 ≤ law → IsLawNumbered parts.laws law of_set → start ≡ law_start parts law
        → IsTrue result × BeginWith of_set counts.now parts.plant.p moves.new }
    ensures kept { IsFalse result → moves.new ≡ moves.old }
{
    let inputs = moves.len();
    let Some(lines) = part(words, start, line_size(width) * inputs) else {
        return false;
    };
    if !are_positive(lines, inputs, width) {
        return false;
    }
    for i in 0..inputs {
        moves[i] = move_by(line_of(lines, i, width), counts, width);
    }
    true
}

/// Writes the moves by the lines from this word on, if they are there. One input is a case of its own, whose reply has no loop.
#[inline(always)]
fn write_moves(words: &[u64], start: u64, counts: &[u64], moves: &mut [Move], width: Width) -> bool
    requires few { length counts.now ≤ 4 }
    requires inputs { length moves.old ≤ 3 }
    ensures written { (parts : Parts) (of_set : Law) (law : ℕ) → Serves words.now counts.now parts → width ≡ width_of parts
        → length moves.old ≡ parts.plant.p → 1 ≤ law → IsLawNumbered parts.laws law of_set → start ≡ law_start parts law
        → IsTrue result × BeginWith of_set counts.now parts.plant.p moves.new }
    ensures kept { IsFalse result → moves.new ≡ moves.old }
{
    match moves.len() {
        1 => write_all(words, start, counts, &mut moves[..1], width),
        _ => write_all(words, start, counts, moves, width),
    }
}

/// The reply to counts of a block that has a head for them, and whose numbers have this width.
#[inline(always)]
fn reply_of(words: &[u64], counts: &[u64], moves: &mut [Move], width: Width) -> BlockReply
    requires { HasHead words.now (length counts.now) (length moves.old) }
    ensures reply { (parts : Parts) → Suits words.now counts.now (length moves.old) parts → width ≡ width_of parts
        → IsBlockReply parts counts.now moves.new result }
    ensures kept { KeepsMoves moves.old moves.new result }
{
    table_theorems();
    if let Some(coordinate) = find_outside(&words[4..4 + counts.len()], counts) {
        return BlockReply::Outside { coordinate };
    }
    match find_leaf(words, counts, width) {
        Some(leaf) if leaf.law == 0 => BlockReply::Infeasible { node: leaf.node },
        Some(leaf) if write_moves(words, leaf.start, counts, moves, width) => BlockReply::Moves {
            node: leaf.node,
            law: leaf.law,
        },
        _ => BlockReply::BadBlock,
    }
}

/// The reply to counts of a block whose numbers have this width, if it has a head for them.
#[inline(always)]
fn headed_reply(words: &[u64], counts: &[u64], moves: &mut [Move], width: Width) -> BlockReply
    ensures reply { (parts : Parts) → Suits words.now counts.now (length moves.old) parts → width ≡ width_of parts
        → IsBlockReply parts counts.now moves.new result }
    ensures no_head { ¬ HasHead words.now (length counts.now) (length moves.old)
        → result ≡ BlockReply.BadBlock }
    ensures kept { KeepsMoves moves.old moves.new result }
{
    if !has_head(words, counts.len(), moves.len()) {
        return BlockReply::BadBlock;
    }
    reply_of(words, counts, moves, width)
}

/// The same of a block whose numbers have two words, which is rare. It stands by itself, so that no other reply pays for it.
#[cold]
#[inline(never)]
fn wide_reply(words: &[u64], counts: &[u64], moves: &mut [Move]) -> BlockReply
    ensures reply { (parts : Parts) → Suits words.now counts.now (length moves.old) parts → Wide ≡ width_of parts
        → IsBlockReply parts counts.now moves.new result }
    ensures no_head { ¬ HasHead words.now (length counts.now) (length moves.old)
        → result ≡ BlockReply.BadBlock }
    ensures kept { KeepsMoves moves.old moves.new result }
{
    headed_reply(words, counts, moves, Width::Wide)
}

/// The reply of a block to counts, one a coordinate; where it is `Moves`, they are written, one for each input.
///
/// Whatever the words are, it takes no memory, waits for nobody, and makes no more turns than the block says
/// that its tree is high, and one, and than there are words. But at `Moves` the moves stay as they were.
pub fn reply_in(words: &[u64], counts: &[u64], moves: &mut [Move]) -> BlockReply
    ensures reply { (parts : Parts) → Suits words.now counts.now (length moves.old) parts
        → IsBlockReply parts counts.now moves.new result }
    ensures no_head { ¬ HasHead words.now (length counts.now) (length moves.old)
        → result ≡ BlockReply.BadBlock }
    ensures kept { KeepsMoves moves.old moves.new result }
{
    if words.len() < LINE || words[11] != 1 {
        return wide_reply(words, counts, moves);
    }
    // (the length and the width are constants in each call, so that its loops are unrolled and it has one walk)
    match counts.len() {
        1 => headed_reply(words, &counts[..1], moves, Width::Short),
        2 => headed_reply(words, &counts[..2], moves, Width::Short),
        3 => headed_reply(words, &counts[..3], moves, Width::Short),
        4 => headed_reply(words, &counts[..4], moves, Width::Short),
        _ => headed_reply(words, counts, moves, Width::Short),
    }
}
