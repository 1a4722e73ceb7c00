//! How a run goes that is kept where it ends, and goes on by rows that come behind.

ghost use Rattle.std.specs.Prelude.{◌<◌, ◌≤◌, ◌≡◌, ◌↔◌, IsTrue, IfOk};
ghost use Rattle.mpc_rows.specs.LinearSystem.{height};
ghost use Rattle.mpc_rows.specs.RunWidth.{RunFits};
ghost use Rattle.mpc_simplex.specs.Answer.{HasPoint};
ghost use Rattle.mpc_bench.specs.Courses.{first_rows, IfKept, IfLost};

use mpc_frac::NoMemory;
use mpc_rows::System;
use mpc_simplex::Beginning;
use std::alloc::Global;

/// How a run goes whose first rows are run, and which goes on by the others, one after another.
#[derive(Clone, Copy, Drop)]
pub(crate) enum Course {
    /// Whole numbers don't serve for the first rows.
    NotBegun,
    /// The run of so many rows is kept, and with the next row it isn't.
    Lost(usize),
    /// The run of all rows is kept; whether they have a point.
    Kept(bool),
}

/// The first so many rows, as a system of their own.
fn beginning_of(alloc: Global, system: &System, count: usize) -> Result<System, NoMemory>
    requires { count ≤ height system.now }
    ensures { IfOk result (λ s. s ≡ first_rows system.now count) }
{
    let mut beginning = System::new(alloc, system.width);
    for i in 0..count {
        let row = system.row(i).copy(alloc)?;
        beginning.push(row)?;
    }
    Ok(beginning)
}

/// Runs the first so many rows, and goes on from where that ends by the others, one after another.
pub(crate) fn go_on(alloc: Global, system: &System, first: usize) -> Result<Course, NoMemory>
    requires { first ≤ height system.now }
    ensures answer { IfOk result (λ c. IfKept c (λ yes. IsTrue yes ↔ HasPoint system.now)) }
    ensures fits { IfOk result (λ c. IfKept c (λ _. RunFits system.now)) }
    ensures not_before { IfOk result (λ c. IfLost c (λ n. first ≤ n)) }
    ensures some_left { IfOk result (λ c. IfLost c (λ n. n < height system.now)) }
{
    let beginning = beginning_of(alloc, system, first)?;
    let Some(mut run) = Beginning::begin(alloc, &beginning)? else {
        return Ok(Course::NotBegun);
    };
    for i in first..system.height() {
        let Some(longer) = run.extend(alloc, system.row(i))? else {
            return Ok(Course::Lost(i));
        };
        run = longer;
    }
    Ok(Course::Kept(run.has_point()))
}
