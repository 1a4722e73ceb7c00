//! Texts cut at a line.

ghost use Rattle.std.specs.Prelude.{◌≡◌, ◌<◌, ◌||◌, ◌++◌, bytes_eq, codes, length, option_map, IfSome};
ghost use Rattle.mpc_words.specs.Words.{IsWord};
ghost use Rattle.mpc_words.specs.WholeLines.{before_line, behind_line, whole_lines};

use crate::lines::next_line;

/// Is a line, without its line feed, exactly the word? One carriage return at its end isn't part of it.
fn is_line(line: &[u8], word: &[u8]) -> bool
    ensures { result ≡ (bytes_eq line.now word.now || bytes_eq line.now (word.now ++ codes "\r")) }
{
    match line.strip_prefix(word) {
        Some(end) => end == b"".as_slice() || end == b"\r".as_slice(),
        None => false,
    }
}

/// The text before the first line that is exactly the word, which is the whole text where there is none,
/// and the text behind that line, where there is one. One carriage return before the line's feed isn't part
/// of it.
pub fn cut_at_line<'a>(text: &'a [u8], word: &[u8]) -> (&'a [u8], Option<&'a [u8]>)
    requires { IsWord word.now }
    ensures before { result.0.now ≡ before_line word.now (whole_lines text.now) }
    ensures behind { option_map (λ rest. rest.now) result.1 ≡ behind_line word.now (whole_lines text.now) }
    ensures shorter { IfSome result.1 (λ rest. length rest.now < length text.now) }
{
    let mut start = 0;
    let mut rest = text;
    while let Some((line, after)) = next_line(rest) {
        if is_line(line, word) {
            return (&text[..start], Some(after));
        }
        start += line.len() + 1;
        rest = after;
    }
    if rest == word {
        return (&text[..start], Some(&[]));
    }
    (text, None)
}
