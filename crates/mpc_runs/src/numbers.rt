//! Lists of fractions.

ghost use Rattle.std.specs.Prelude.{◌≡◌, IfOk, length, pos};
ghost use Rattle.mpc_exact.specs.Rational.{int};

use mpc_frac::Frac;
use std::alloc::{AllocError, Global};

/// (q, r) for `q + d r` at every small enough positive d.
pub type Standing = (Frac, Frac);

pub fn zero() -> Frac
    ensures { result ≡ int (pos 0) }
{
    Frac::whole(0)
}

pub fn zeros(alloc: Global, count: usize) -> Result<Vec<Frac>, AllocError>
    ensures { IfOk result (λ t. length t.items ≡ count) }
{
    vec![in alloc; zero(); count]
}

pub fn zero_pairs(alloc: Global, count: usize) -> Result<Vec<Standing>, AllocError>
    ensures { IfOk result (λ t. length t.items ≡ count) }
{
    vec![in alloc; (zero(), zero()); count]
}
