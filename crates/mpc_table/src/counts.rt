//! Lines of counts.

ghost use Rattle.std.specs.Prelude.{◌≡◌, ◌≤◌, Some, None, IfOk, OnOk, OnErr, MatchBool, vec_capacity};
ghost use Rattle.mpc_table.specs.CountLine.{count_of, counts_of};

use mpc_frac::NoMemory;
use mpc_words::split_word;

/// The most digits that a count has.
const MAX_DIGITS: usize = 18;

/// The number that 1 to 18 digits stand for.
fn read_count(text: &[u8]) -> Option<u64>
    ensures { result ≡ count_of text.now }
{
    if text.is_empty() {
        return None;
    }
    if text.len() > MAX_DIGITS {
        return None;
    }
    let mut value = 0;
    for digit in text {
        if !digit.is_ascii_digit() {
            return None;
        }
        value = value * 10 + u64::from(*digit - b'0');
    }
    Some(value)
}

/// Room for so many counts. Without memory the list stays as it was.
fn make_room(counts: &mut Vec<u64>, states: usize) -> Result<(), NoMemory>
    ensures items { counts.new.items ≡ counts.old.items }
    ensures room { OnOk result (states ≤ vec_capacity counts.new) }
{
    counts.reserve(states).map_err(|_| NoMemory)
}

/// Reads a line of `states` counts, with one blank between two, into `counts`, and says whether it is
/// one. No more counts than that are kept, however long the line is. Without memory `counts` stays as it
/// was.
pub fn read_counts(line: &[u8], states: usize, counts: &mut Vec<u64>) -> Result<bool, NoMemory>
    ensures known { IfOk result (λ known. MatchBool known (counts_of line.now states ≡ Some counts.new.items)
        (counts_of line.now states ≡ None)) }
    ensures err { OnErr result (counts.new.items ≡ counts.old.items) }
{
    make_room(counts, states)?;
    counts.clear();
    let mut rest = line;
    'words: loop {
        let (word, behind) = split_word(rest);
        if counts.len() == states {
            return Ok(false);
        }
        match read_count(word) {
            Some(count) => counts.push_reserved(count),
            None => return Ok(false),
        }
        match behind {
            Some(after) => rest = after,
            None => return Ok(counts.len() == states),
        }
    }
}
