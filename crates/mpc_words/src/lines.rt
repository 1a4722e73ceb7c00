//! Lines of a text and words of a line.

ghost use Rattle.std.specs.Prelude.{◌≡◌, ◌<◌, [], ◌∷◌, length, MatchOption, IfSome};
ghost use Rattle.mpc_words.specs.Words.{IsWithout, IsCutAt, words_of};

/// The bytes before the first `byte`, and those behind it.
pub(crate) fn cut_at(text: &[u8], byte: u8) -> Option<(&[u8], &[u8])>
    ensures cut { MatchOption result (IsWithout byte text.now)
        (λ parts. IsCutAt byte text.now parts.0.now parts.1.now) }
    ensures shorter { IfSome result (λ parts. length parts.1.now < length text.now) }
{
    match text.iter().position(|c| *c == byte) {
        Some(place) => Some((&text[..place], &text[place + 1..])),
        None => None,
    }
}

/// The bytes before the first line feed, and those behind it. `None` exactly where there is no line
/// feed.
pub fn next_line(bytes: &[u8]) -> Option<(&[u8], &[u8])>
    ensures cut { MatchOption result (IsWithout 10 bytes.now)
        (λ parts. IsCutAt 10 bytes.now parts.0.now parts.1.now) }
    ensures shorter { IfSome result (λ parts. length parts.1.now < length bytes.now) }
{
    cut_at(bytes, b'\n')
}

/// The first word of a line, and what stands behind the blank that ends it: `None` where the word is
/// the whole line. A word may be empty, as between two blanks.
pub fn split_word(line: &[u8]) -> (&[u8], Option<&[u8]>)
    ensures cut { MatchOption result.1 (IsWithout 32 line.now × (line.now ≡ result.0.now))
        (λ rest. IsCutAt 32 line.now result.0.now rest.now) }
    ensures words { MatchOption result.1 (words_of line.now ≡ result.0.now ∷ [])
        (λ rest. words_of line.now ≡ result.0.now ∷ words_of rest.now) }
    ensures shorter { IfSome result.1 (λ rest. length rest.now < length line.now) }
{
    match cut_at(line, b' ') {
        Some((word, rest)) => (word, Some(rest)),
        None => (line, None),
    }
}
