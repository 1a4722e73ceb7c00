//! The line of the noise.

ghost use Rattle.std.specs.Prelude.{◌≡◌, ◌<◌, [], ◌∷◌, Some, None, MatchOption, IfOk, IfErr, option_map};
ghost use Rattle.std.specs.Str.Lines.{lines, strip_carriage_return};
ghost use Rattle.mpc_tight.specs.Noise.{only_line, sized_numbers, noise_of, IsNoise, IfBadNoise};
ghost use Rattle.mpc_words.specs.Words.{words_of};

use crate::errors::NoiseError;
use mpc_linear::Vector;
use mpc_plant::plain_number;
use mpc_words::{next_line, split_word};
use std::alloc::Global;

/// The line without one carriage return at its end.
fn without_return(line: &[u8]) -> &[u8]
    ensures { result.now ≡ strip_carriage_return line.now }
{
    match line {
        [front @ .., b'\r'] => front,
        _ => line,
    }
}

/// The first line of a text, without its end, and the text behind it.
fn first_line(text: &[u8]) -> Option<(&[u8], &[u8])>
    ensures { MatchOption result (lines text.now ≡ [])
        (λ parts. lines text.now ≡ parts.0.now ∷ lines parts.1.now) }
{
    if let Some((line, rest)) = next_line(text) {
        return Some((without_return(line), rest));
    }
    if text.is_empty() {
        return None;
    }
    Some((text, &[]))
}

/// The line of a text that has one line alone, without its end.
fn line_of(text: &[u8]) -> Option<&[u8]>
    ensures { option_map (λ line. line.now) result ≡ only_line (lines text.now) }
{
    match first_line(text) {
        None => None,
        Some((line, rest)) => match first_line(rest) {
            None => Some(line),
            Some(_) => None,
        },
    }
}

/// The numbers of a line with at least one word, so many as are wanted.
fn numbers(alloc: Global, line: &[u8], count: usize) -> Result<Vector, NoiseError>
    ensures value { IfOk result (λ noise. sized_numbers count (words_of line.now) ≡ Some noise) }
    ensures noise { IfOk result (λ noise. IsNoise noise count) }
    ensures bad { IfErr result (IfBadNoise (sized_numbers count (words_of line.now) ≡ None)) }
{
    let mut noise = Vector::new(alloc);
    let mut rest = line;
    'words: loop {
        let (word, behind) = split_word(rest);
        if noise.len() == count {
            return Err(NoiseError::BadNoise);
        }
        match plain_number(word) {
            Some(number) => noise.push(number)?,
            None => return Err(NoiseError::BadNoise),
        }
        match behind {
            Some(after) => rest = after,
            None => {
                if noise.len() == count {
                    return Ok(noise);
                }
                return Err(NoiseError::BadNoise);
            }
        }
    }
}

/// The noise that a text spells: one line of so many numbers with one blank between two, each `D` or `D/D` with 1 to 18 digits for D, and no
/// denominator 0. The line may end with a line feed, and one carriage return before that isn't part of it.
///
/// `BadNoise` exactly where the text is no such line.
pub fn read_noise(alloc: Global, bytes: &[u8], states: u32) -> Result<Vector, NoiseError>
    ensures value { IfOk result (λ noise. noise_of bytes.now states ≡ Some noise) }
    ensures noise { IfOk result (λ noise. IsNoise noise states) }
    ensures bad { IfErr result (IfBadNoise (noise_of bytes.now states ≡ None)) }
{
    let Some(line) = line_of(bytes) else {
        return Err(NoiseError::BadNoise);
    };
    if !line.is_empty() {
        return numbers(alloc, line, states as usize);
    }
    if states == 0 {
        return Ok(Vector::new(alloc));
    }
    Err(NoiseError::BadNoise)
}
