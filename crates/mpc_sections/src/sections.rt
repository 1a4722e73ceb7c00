//! The sections of an input.

ghost use Rattle.std.specs.Prelude.{◌≡◌, ◌<◌, ◌≤◌, [], ◌∷◌, MatchOption, MatchBool, IfSome, length};
ghost use Rattle.mpc_sections.specs.Sections.{sections_of};

use mpc_words::{cut_at_line, whole_line_theorems};

/// The most plants of an input.
pub(crate) const MOST_PLANTS: usize = 8;

/// The first section of a text, and the text behind the line `next` that ends it, where there is one.
pub(crate) fn split_section(text: &[u8]) -> (&[u8], Option<&[u8]>)
    ensures sections { MatchOption result.1 (sections_of text.now ≡ result.0.now ∷ [])
        (λ behind. sections_of text.now ≡ result.0.now ∷ sections_of behind.now) }
    ensures shorter { IfSome result.1 (λ behind. length behind.now < length text.now) }
{
    whole_line_theorems();
    cut_at_line(text, b"next".as_slice())
}

/// Has a text no more sections than are allowed?
pub(crate) fn are_few(text: &[u8]) -> bool
    ensures { MatchBool result (length (sections_of text.now) ≤ 8) (8 < length (sections_of text.now)) }
{
    let mut rest = text;
    for _ in 0..MOST_PLANTS {
        match split_section(rest).1 {
            Some(behind) => rest = behind,
            None => return true,
        }
    }
    false
}
