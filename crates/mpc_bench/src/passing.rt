//! Systems and answers as they pass to and from a C caller.

ghost use Rattle.std.specs.Prelude.{◌≡◌, ◌+◌, ◌*◌, ◌<◌, IfOk, MatchResult, All, length, map};
ghost use Rattle.mpc_bench.specs.Parts.{value_of, IsReadable};
ghost use Rattle.mpc_bench.specs.Sent.{row_of, sent_system, pair_of, IsReadableRow, IsReadableSystem};
ghost use Rattle.mpc_bench.specs.Codes.{IfUnreadable, no_memory};

use crate::parts::{Parts, parts_of, read};
use crate::systems::{Pair, Side};
use mpc_frac::NoMemory;
use mpc_linear::Vector;
use mpc_rows::{Multipliers, PairPoint, Row, System};
use std::alloc::Global;

/// Why a system isn't read.
#[derive(Clone, Copy, Drop)]
pub(crate) enum SentError {
    Unreadable,
    NoMemory,
}

impl From<NoMemory> for SentError {
    ghost from_gives = { λ _ e. e ≡ no_memory };

    fn from(_error: NoMemory) -> SentError {
        SentError::NoMemory
    }
}

fn read_vector(alloc: Global, parts: &[Parts]) -> Result<Vector, SentError>
    ensures value { IfOk result (λ v. v ≡ map value_of parts.now) }
    ensures readable { MatchResult result (λ _. All IsReadable parts.now) (λ e. IfUnreadable e (¬ All IsReadable parts.now)) }
{
    let mut vector = Vector::new(alloc);
    for part in parts {
        let Some(fraction) = read(part) else {
            return Err(SentError::Unreadable);
        };
        vector.push(fraction)?;
    }
    Ok(vector)
}

fn read_row(alloc: Global, coefficients: &[Parts], side: &Side) -> Result<Row, SentError>
    ensures value { IfOk result (λ r. r ≡ row_of coefficients.now side.now) }
    ensures readable { MatchResult result (λ _. IsReadableRow coefficients.now side.now)
        (λ e. IfUnreadable e (¬ IsReadableRow coefficients.now side.now)) }
{
    let vector = read_vector(alloc, coefficients)?;
    let Some(bound) = read(&side.bound) else {
        return Err(SentError::Unreadable);
    };
    Ok(Row {
        a: vector,
        b: bound,
        strict: side.strict,
    })
}

/// The system with these rows, where there is a coefficient for each unknown of each row.
pub(crate) fn read_system(
    alloc: Global,
    width: u32,
    coefficients: &[Parts],
    sides: &[Side],
) -> Result<System, SentError>
    ensures value { IfOk result (λ s. s ≡ sent_system width coefficients.now sides.now) }
    ensures readable { MatchResult result (λ _. IsReadableSystem width coefficients.now sides.now)
        (λ e. IfUnreadable e (¬ IsReadableSystem width coefficients.now sides.now)) }
{
    if sides.len().checked_mul(width as usize) != Some(coefficients.len()) {
        return Err(SentError::Unreadable);
    }
    read_rows(alloc, width, coefficients, sides)
}

fn read_rows(
    alloc: Global,
    width: u32,
    coefficients: &[Parts],
    sides: &[Side],
) -> Result<System, SentError>
    requires shape { length coefficients.now ≡ length sides.now * width }
    ensures value { IfOk result (λ s. s ≡ sent_system width coefficients.now sides.now) }
    ensures readable { MatchResult result (λ _. IsReadableSystem width coefficients.now sides.now)
        (λ e. IfUnreadable e (¬ IsReadableSystem width coefficients.now sides.now)) }
{
    let mut system = System::new(alloc, width);
    for place in 0..sides.len() {
        let first = place * width as usize;
        let row = read_row(
            alloc,
            &coefficients[first..first + width as usize],
            &sides[place],
        )?;
        system.push(row)?;
    }
    Ok(system)
}

pub(crate) fn put_point(found: &PairPoint, out: &mut [Pair])
    requires { length found.now ≡ length out.old }
    ensures { map pair_of out.new ≡ found.now }
{
    for j in 0..found.len() {
        let pair = found.at(j);
        out[j] = Pair {
            first: parts_of(&pair.0),
            second: parts_of(&pair.1),
        };
    }
}

pub(crate) fn put_multipliers(found: &Multipliers, out: &mut [Parts])
    requires { length found.now ≡ length out.old }
    ensures { map value_of out.new ≡ found.now }
{
    for i in 0..found.len() {
        out[i] = parts_of(found.at(i));
    }
}
