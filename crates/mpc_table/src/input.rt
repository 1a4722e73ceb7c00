//! The input of a command: its head, and the lines of counts behind the line `states`.

ghost use Rattle.std.specs.Prelude.{◌≡◌, ◌<◌, [], ◌∷◌, MatchOption, length};
ghost use Rattle.std.specs.Str.Lines.{lines, strip_carriage_return};
ghost use Rattle.mpc_table.specs.Cut.{head_of, tail_of};

use mpc_words::{cut_at_line, next_line};

/// What an input is made of.
#[derive(Drop)]
pub struct Sections<'a> {
    /// The plant or controller: all before the first line `states`.
    pub head: &'a [u8],
    /// The lines of counts: all behind that line.
    pub counts: &'a [u8],
}

/// The input, cut at its first line that is exactly `states`.
pub fn cut(input: &[u8]) -> Sections<'_>
    ensures head { result.head.now ≡ head_of input.now }
    ensures counts { result.counts.now ≡ tail_of input.now }
{
    let (head, counts) = cut_at_line(input, b"states".as_slice());
    Sections {
        head,
        counts: counts.unwrap_or(&[]),
    }
}

/// The line without one carriage return at its end.
fn without_return(line: &[u8]) -> &[u8]
    ensures { result.now ≡ strip_carriage_return line.now }
{
    match line {
        [front @ .., b'\r'] => front,
        _ => line,
    }
}

/// The first line of a text, without its end, and the text behind it. A line ends at a line feed, before
/// which one carriage return isn't part of it, or at the end of the text.
pub fn first_line(text: &[u8]) -> Option<(&[u8], &[u8])>
    ensures lines { MatchOption result (lines text.now ≡ [])
        (λ parts. lines text.now ≡ parts.0.now ∷ lines parts.1.now) }
    ensures shorter { MatchOption result (text.now ≡ [])
        (λ parts. length parts.1.now < length text.now) }
{
    if let Some((line, rest)) = next_line(text) {
        return Some((without_return(line), rest));
    }
    if text.is_empty() {
        return None;
    }
    Some((text, &[]))
}
