//! Reply lines to lines of counts.

ghost use Rattle.std.specs.Prelude.{◌≡◌, length, OnOk, IfOk};
ghost use Rattle.std.specs.Str.Lines.{lines};
ghost use Rattle.mpc_controller.specs.Parts.{Parts};
ghost use Rattle.mpc_table.specs.Lookup.{IsTableOf};
ghost use Rattle.mpc_table.specs.ReplyLines.{AreRepliesOf, AddsReply};

use crate::Table;
use crate::counts::read_counts;
use crate::input::first_line;
use mpc_controller::Controller;
use mpc_frac::NoMemory;
use mpc_words::add_text;
use std::alloc::Global;

/// Puts the reply line to a line of counts behind the text. `counts` is room for its counts. Without memory
/// the text is given up: a reply may stand there without its line feed.
fn add_reply(
    text: &mut Vec<u8>,
    table: &Table,
    states: usize,
    line: &[u8],
    counts: &mut Vec<u64>,
) -> Result<(), NoMemory>
    requires { states ≡ length table.now.limits }
    ensures { OnOk result ((parts : Parts) → IsTableOf parts table.now
        → AddsReply parts line.now text.old.items text.new.items) }
{
    if !read_counts(line, states, counts)? {
        return add_text(text, b"bad line\n");
    }
    let point = counts.as_slice();
    let reply = table.reply_at(point);
    table.write_reply(point, &reply, text)?;
    add_text(text, b"\n")
}

/// One reply line for each line of the input, where each state has so many coordinates.
fn reply_lines(
    alloc: Global,
    table: &Table,
    states: usize,
    input: &[u8],
) -> Result<Vec<u8>, NoMemory>
    requires { states ≡ length table.now.limits }
    ensures { IfOk result (λ text. (parts : Parts) → IsTableOf parts table.now
        → AreRepliesOf parts (lines input.now) text.items) }
{
    let mut text = Vec::new(alloc);
    let mut counts = Vec::new(alloc);
    let mut rest = input;
    while let Some((line, after)) = first_line(rest) {
        add_reply(&mut text, table, states, line, &mut counts)?;
        rest = after;
    }
    Ok(text)
}

/// One reply line for each line of counts: `bad line` where it isn't one count for each coordinate of a
/// state, with one blank between two, and else what the controller answers to them.
pub fn replies(alloc: Global, controller: &Controller, counts: &[u8]) -> Result<Vec<u8>, NoMemory>
    ensures { IfOk result (λ text. AreRepliesOf controller.now (lines counts.now) text.items) }
{
    let table = Table::of(alloc, controller)?;
    reply_lines(alloc, &table, controller.plant().n as usize, counts)
}
