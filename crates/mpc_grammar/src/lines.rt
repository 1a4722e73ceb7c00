//! The lines of a text, taken one after another.

ghost use Rattle.std.specs.Prelude.{◌≡◌, ◌+◌, ◌^◌, ◌<◌, [], length, Ok, Err, IfOk, IfErr, MatchOption, MatchResult, IsTrue, ◌↔◌};
ghost use Rattle.mpc_words.specs.Words.{IsWithout};
ghost use Rattle.mpc_grammar.specs.Reading.{TakesLine};
ghost use Rattle.mpc_grammar.specs.FileGrammar.{start};
ghost use Rattle.mpc_grammar.specs.declared.errors.FileError.TheVariants.{Bad, NoMemory as NoMoreMemory};
ghost use Rattle.mpc_grammar.specs.declared.errors.FileKind.TheVariants.{BadLine, Truncated};

use crate::errors::{FileError, FileKind};
use mpc_frac::NoMemory;
use mpc_words::next_line;
use std::marker::Model;

/// The bytes of a text from a place on, and the number of the line that they begin with, from 1.
#[derive(Drop)]
pub struct Lines<'a> {
    rest: &'a [u8],
    number: u64,
}

impl<'a> Model for Lines<'a> {
    ghost use Rattle.std.specs.Prelude.{◌+◌, ◌^◌, ◌<◌, length};
    ghost use Rattle.mpc_grammar.specs.Reading.{Cursor};

    ghost Value = { Cursor };

    ghost view = { λ c. record { rest = c.rest.now; number = c.number } };

    ghost invariant = { λ c. c.number + length c.rest.now < 2 ^ 64 };
}

impl<'a> Lines<'a> {
    /// The lines of a text, from its first one on.
    pub fn of(text: &'a [u8]) -> Lines<'a>
        ensures { result ≡ start text.now }
    {
        Lines {
            rest: text,
            number: 1,
        }
    }

    /// The number of the next line.
    pub fn number(&self) -> u64
        ensures { result ≡ self.now.number }
    {
        self.number
    }

    /// How many bytes are left.
    pub fn left(&self) -> usize
        ensures { result ≡ length self.now.rest }
    {
        self.rest.len()
    }

    /// Whether no byte is left.
    pub fn is_at_end(&self) -> bool
        ensures { IsTrue result ↔ (self.now.rest ≡ []) }
    {
        self.rest.is_empty()
    }

    /// The next line, without the line feed that ends it. `Bad` exactly where no line feed follows.
    pub fn take(&mut self) -> Result<&'a [u8], FileError>
        ensures taken { IfOk result (λ line. TakesLine self.old line.now self.new) }
        ensures kind { IfErr result (λ error. error ≡ Bad Truncated self.old.number) }
        ensures cut_off { IfErr result (λ error. IsWithout 10 self.old.rest) }
    {
        match next_line(self.rest) {
            Some((line, rest)) => {
                self.rest = rest;
                self.number += 1;
                Ok(line)
            }
            None => Err(FileError::Bad(FileKind::Truncated, self.number)),
        }
    }
}

/// What a line states, or that the line with this number states nothing.
pub fn stated<T>(found: Result<Option<T>, NoMemory>, number: u64) -> Result<T, FileError>
    ensures { MatchResult found
        (λ it. MatchOption it (result ≡ Err (Bad BadLine number)) (λ x. result ≡ Ok x))
        (λ _. result ≡ Err NoMoreMemory) }
{
    found?.ok_or(FileError::Bad(FileKind::BadLine, number))
}
