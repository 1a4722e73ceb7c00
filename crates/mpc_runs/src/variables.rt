//! Where the variables of a system stand at a position of a run.

ghost use Rattle.std.specs.Prelude.{◌≡◌, ◌<◌, IfOk, length, true, false};
ghost use Rattle.mpc_rows.specs.Run.{is_unknown};
ghost use Rattle.mpc_runs.specs.Table.{seat_at, in_row, opening_seat, IsOpeningSeats};

use mpc_rows::System;
use std::alloc::{AllocError, Global};

/// Where a variable stands: a basic one in a row, a nonbasic one in a column.
#[derive(Clone, Copy, Drop)]
pub enum Seat {
    Row(usize),
    Column(usize),
}

/// Whether the variable is basic.
#[inline]
pub fn is_basic(seats: &[Seat], variable: usize) -> bool
    requires { variable < length seats.now }
    ensures { result ≡ in_row (seat_at seats.now variable) }
{
    match seats[variable] {
        Seat::Row(_) => true,
        Seat::Column(_) => false,
    }
}

/// The row of the basic variable.
#[inline]
pub fn row_of(seats: &[Seat], variable: usize) -> usize
    requires below { variable < length seats.now }
    requires basic { in_row (seat_at seats.now variable) ≡ true }
    ensures { seat_at seats.now variable ≡ Seat.Row result }
{
    match seats[variable] {
        Seat::Row(row) => row,
        Seat::Column(_) => unreachable!(),
    }
}

/// The column of the nonbasic variable.
#[inline]
pub fn column_of(seats: &[Seat], variable: usize) -> usize
    requires below { variable < length seats.now }
    requires free { in_row (seat_at seats.now variable) ≡ false }
    ensures { seat_at seats.now variable ≡ Seat.Column result }
{
    match seats[variable] {
        Seat::Row(_) => unreachable!(),
        Seat::Column(column) => column,
    }
}

/// Whether the variable is an unknown.
pub fn is_unknown(system: &System, variable: usize) -> bool
    ensures { result ≡ is_unknown system.now variable }
{
    variable < system.unknowns()
}

/// Where the variable stands at first.
fn opening_seat(system: &System, variable: usize) -> Seat
    ensures { result ≡ opening_seat system.now variable }
{
    if is_unknown(system, variable) {
        Seat::Column(variable)
    } else {
        Seat::Row(variable - system.unknowns())
    }
}

/// Where each variable stands at first.
pub fn opening_seats(alloc: Global, system: &System, count: usize) -> Result<Vec<Seat>, AllocError>
    ensures { IfOk result (λ t. IsOpeningSeats system.now count t.items) }
{
    let mut seats = Vec::with_capacity(alloc, count)?;
    for variable in 0..count {
        let seat = opening_seat(system, variable);
        seats.push(seat)?;
    }
    Ok(seats)
}
