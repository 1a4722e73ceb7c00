//! The text of a history of claims and deliveries.

ghost use Rattle.std.specs.Prelude.{◌≡◌, ◌++◌, take, vec_len, OnOk, IfOk};
ghost use Rattle.mpc_trace.specs.Histories.{tag_text, kind_word, kind_end, event_text, history_text};

use mpc_claim::{Event, EventKind, Tag};
use mpc_frac::NoMemory;
use mpc_sets::write_set;
use mpc_words::{add_number, add_text};
use std::alloc::Global;

/// The word for what was found.
fn tag_name(tag: Tag) -> &'static [u8]
    ensures { result.now ≡ tag_text tag }
{
    match tag {
        Tag::Dependent => b"dependent",
        Tag::Unreachable => b"unreachable",
        Tag::Hollow => b"hollow",
        Tag::Region => b"region",
        Tag::Wide => b"wide",
    }
}

/// The word for what happened.
fn kind_name(kind: EventKind) -> &'static [u8]
    ensures { result.now ≡ kind_word kind }
{
    match kind {
        EventKind::Claim => b"claim ",
        EventKind::Done(_) => b"done ",
        EventKind::Drop => b"drop ",
    }
}

/// Puts the end of an event's line behind the text. Without memory a beginning of it may stand there.
fn add_end(text: &mut Vec<u8>, kind: EventKind) -> Result<(), NoMemory>
    ensures text { OnOk result (text.new.items ≡ text.old.items ++ kind_end kind) }
    ensures kept { take (vec_len text.old) text.new.items ≡ text.old.items }
{
    if let EventKind::Done(tag) = kind {
        add_text(text, b" ")?;
        add_text(text, tag_name(tag))?;
    }
    add_text(text, b"\n")
}

/// Puts the line of an event behind the text. Without memory a beginning of it may stand there.
fn add_event(text: &mut Vec<u8>, event: &Event) -> Result<(), NoMemory>
    ensures text { OnOk result (text.new.items ≡ text.old.items ++ event_text event.now) }
    ensures kept { take (vec_len text.old) text.new.items ≡ text.old.items }
{
    add_text(text, kind_name(event.kind))?;
    add_number(text, u64::from(event.worker))?;
    add_text(text, b" ")?;
    write_set(event.set, text)?;
    add_end(text, event.kind)
}

/// The lines of all events.
pub fn history_lines(alloc: Global, events: &[Event]) -> Result<Vec<u8>, NoMemory>
    ensures { IfOk result (λ text. text.items ≡ history_text events.now) }
{
    let mut text = Vec::new(alloc);
    for event in events {
        add_event(&mut text, event)?;
    }
    Ok(text)
}
