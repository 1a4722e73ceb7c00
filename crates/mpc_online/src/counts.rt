//! Counts as fractions.

ghost use Rattle.std.specs.Prelude.{◌≡◌, IfOk, pos};
ghost use Rattle.mpc_exact.specs.Rational.{int};
ghost use Rattle.mpc_rows.specs.ActiveSets.{extended};
ghost use Rattle.mpc_online.specs.StateRows.{point_of};

use crate::solutions::Stop;
use mpc_frac::{Frac, fit_theorems};
use std::alloc::Global;

/// The count as a fraction.
fn whole(count: u64) -> Frac
    ensures { result ≡ int (pos count) }
{
    if let Ok(short) = i64::try_from(count) {
        return Frac::whole(short);
    }
    fit_theorems();
    Frac::new(count as i128, 1).unwrap()
}

/// The extended counts `(1, t_1, .., t_n)`.
pub fn extended(alloc: Global, counts: &[u64]) -> Result<Vec<Frac>, Stop>
    ensures { IfOk result (λ c. c.items ≡ extended (point_of counts.now)) }
{
    let mut out = Vec::with_capacity(alloc, counts.len().saturating_add(1))?;
    out.push(Frac::whole(1))?;
    for count in counts {
        out.push(whole(*count))?;
    }
    Ok(out)
}
