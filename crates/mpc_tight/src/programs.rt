//! The program of a plant with room for disturbances.

ghost use Rattle.std.specs.Prelude.{IfOk, IfErr};
ghost use Rattle.mpc_condense.specs.Condensed.{IsCondensed};
ghost use Rattle.mpc_tight.specs.Noise.{IsNoise};
ghost use Rattle.mpc_tight.specs.Tightening.{IsCause};
ghost use Rattle.mpc_tight.specs.Tightened.{IsTightened, IsRobustProgram};

use crate::errors::TightError;
use crate::theorems::tight_theorems;
use crate::tightening::tightened;
use mpc_linear::Vector;
use mpc_plant::Plant;
use mpc_rows::Qp;
use std::alloc::Global;

/// The plant's program, tightened so that its rows hold exactly where those of the plant hold whatever disturbance within the noise is added
/// to the state at each step (Witsenhausen, 1968).
///
/// The noise has one number a state, the most by which the disturbance of one step moves it. From the right side of a row `a'x + b'u <= max`
/// at step k the sum of the dots of |a'A^j| with the noise is taken away, for j from 0 to k - 1. All else stays as it is.
///
/// `Wide` names the first row, from 1, with a number of more than 128 bits; either error gives up the program.
pub fn tighten(alloc: Global, plant: &Plant, noise: &Vector, qp: Qp) -> Result<Qp, TightError>
    requires condensed { IsCondensed qp plant.now }
    requires noise { IsNoise noise.now plant.now.n }
    ensures tightened { IfOk result (IsTightened plant.now noise.now qp) }
    ensures robust { IfOk result (λ tight. IsRobustProgram tight plant.now noise.now) }
    ensures cause { IfErr result (IsCause plant.now noise.now qp.w) }
{
    tight_theorems();
    let Qp {
        h,
        f,
        y,
        g,
        w: old,
        counts,
    } = qp;
    let sides = tightened(alloc, plant, noise, &old)?;
    Ok(Qp {
        h,
        f,
        y,
        g,
        w: sides,
        counts,
    })
}
