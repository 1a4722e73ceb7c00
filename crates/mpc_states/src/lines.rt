//! The reply lines of a program to lines of counts.

ghost use Rattle.std.specs.Prelude.{◌≡◌, ◌≤◌, ◌++◌, ◌∷◌, IfOk, OnOk, MatchBool, Some, None, length, map, decimal, codes};
ghost use Rattle.std.specs.List.{join_with_byte};
ghost use Rattle.std.specs.Str.Lines.{lines};
ghost use Rattle.mpc_space.specs.Vector.{IsSymmetric};
ghost use Rattle.mpc_space.specs.Definite.{IsDefinite};
ghost use Rattle.mpc_space.specs.Matrix.{height};
ghost use Rattle.mpc_frac.specs.Text.{text_of};
ghost use Rattle.mpc_rows.specs.ActiveSets.{IsInBox};
ghost use Rattle.mpc_plant.specs.Trajectory.{point_of};
ghost use Rattle.mpc_online.specs.Shared.{IsPreparedFor};
ghost use Rattle.mpc_states.specs.StateLines.{IsOf, AreStateLines, AddsLine, AddsStateLine};

use mpc_frac::{Frac, NoMemory};
use mpc_online::{Online, OnlineError, Prepared, prepare, run_theorems, solve_prepared};
use mpc_rows::Qp;
use mpc_table::{find_outside, first_line, read_counts};
use mpc_words::{add_number, add_text};
use std::alloc::Global;

/// Puts a number behind the text, and before it a blank unless it is the first.
fn add_next(text: &mut Vec<u8>, value: &Frac, first: bool) -> Result<(), NoMemory>
    ensures { OnOk result (MatchBool first (text.new.items ≡ text.old.items ++ text_of value.now)
        (text.new.items ≡ text.old.items ++ 32 ∷ text_of value.now)) }
{
    if first {
        return value.write(text);
    }
    text.push(b' ').map_err(|_| NoMemory)?;
    value.write(text)
}

/// Puts numbers behind the text, with one blank between two, and a line feed behind them.
fn add_moves(text: &mut Vec<u8>, moves: &[Frac]) -> Result<(), NoMemory>
    ensures { OnOk result (text.new.items ≡ text.old.items ++ (join_with_byte 32 (map text_of moves.now) ++ codes "\n")) }
{
    for i in 0..moves.len() {
        add_next(text, &moves[i], i == 0)?;
    }
    add_text(text, b"\n")
}

/// Puts the line of a count that is above its limit behind the text.
fn add_outside(text: &mut Vec<u8>, coordinate: u32) -> Result<(), NoMemory>
    ensures { OnOk result (text.new.items ≡ text.old.items ++ ((codes "outside " ++ decimal coordinate) ++ codes "\n")) }
{
    add_text(text, b"outside ")?;
    add_number(text, coordinate as u64)?;
    add_text(text, b"\n")
}

/// Puts the line of a grid state behind the text: the first moves of the program's cheapest choice, that there is no choice, or that a number
/// of the run is too wide.
fn add_state_line(
    alloc: Global,
    program: &Qp,
    prepared: &mut Prepared,
    inputs: usize,
    counts: &[u64],
    text: &mut Vec<u8>,
) -> Result<(), NoMemory>
    requires definite { IsDefinite program.now.h.rows }
    requires symmetric { IsSymmetric program.now.h.rows }
    requires prepared { IsPreparedFor program.now prepared.old }
    requires inputs { inputs ≤ height program.now.h }
    requires in_box { IsInBox program.now.counts (point_of counts.now) }
    ensures prepared { IsPreparedFor program.now prepared.new }
    ensures line { OnOk result (AddsStateLine (IsOf program.now inputs) program.now (point_of counts.now) text.old.items text.new.items) }
{
    run_theorems();
    match solve_prepared(alloc, program, prepared, counts) {
        Ok(Online::Best(moves)) => {
            let all = moves.as_slice();
            add_moves(text, &all[..inputs])
        }
        Ok(Online::Refuted(_)) => add_text(text, b"infeasible\n"),
        Err(OnlineError::Wide(_)) => add_text(text, b"too wide\n"),
        Err(OnlineError::NoMemory) => Err(NoMemory),
    }
}

/// Puts the reply line to a line of counts behind the text. `counts` is room for its counts.
fn add_line(
    alloc: Global,
    program: &Qp,
    prepared: &mut Prepared,
    inputs: usize,
    line: &[u8],
    counts: &mut Vec<u64>,
    text: &mut Vec<u8>,
) -> Result<(), NoMemory>
    requires definite { IsDefinite program.now.h.rows }
    requires symmetric { IsSymmetric program.now.h.rows }
    requires prepared { IsPreparedFor program.now prepared.old }
    requires inputs { inputs ≤ height program.now.h }
    ensures prepared { IsPreparedFor program.now prepared.new }
    ensures line { OnOk result (AddsLine (IsOf program.now inputs) program.now (length program.now.counts) line.now text.old.items text.new.items) }
{
    if !read_counts(line, program.counts.len(), counts)? {
        return add_text(text, b"bad line\n");
    }
    let point = counts.as_slice();
    match find_outside(program.counts.as_slice(), point) {
        Some(coordinate) => add_outside(text, coordinate),
        None => add_state_line(alloc, program, prepared, inputs, point, text),
    }
}

/// The reply lines of the text, by what all states of the program share.
fn lines_with(
    alloc: Global,
    program: &Qp,
    prepared: &mut Prepared,
    inputs: usize,
    input: &[u8],
) -> Result<Vec<u8>, NoMemory>
    requires definite { IsDefinite program.now.h.rows }
    requires symmetric { IsSymmetric program.now.h.rows }
    requires prepared { IsPreparedFor program.now prepared.old }
    requires inputs { inputs ≤ height program.now.h }
    ensures { IfOk result (λ text. AreStateLines (IsOf program.now inputs) program.now (length program.now.counts) (lines input.now) text.items) }
{
    let mut text = Vec::new(alloc);
    let mut counts = Vec::new(alloc);
    let mut rest = input;
    while let Some((line, after)) = first_line(rest) {
        add_line(
            alloc,
            program,
            prepared,
            inputs,
            line,
            &mut counts,
            &mut text,
        )?;
        rest = after;
    }
    Ok(text)
}

/// One reply line for each line of the text: `bad line` where it isn't one count for each coordinate of a state, with one blank between two;
/// which is the first count above its limit, or what the program says at the state.
pub(crate) fn state_lines(
    alloc: Global,
    program: &Qp,
    inputs: usize,
    input: &[u8],
) -> Result<Vec<u8>, NoMemory>
    requires definite { IsDefinite program.now.h.rows }
    requires symmetric { IsSymmetric program.now.h.rows }
    requires inputs { inputs ≤ height program.now.h }
    ensures { IfOk result (λ text. AreStateLines (IsOf program.now inputs) program.now (length program.now.counts) (lines input.now) text.items) }
{
    let mut prepared = prepare(alloc, program)?;
    lines_with(alloc, program, &mut prepared, inputs, input)
}
