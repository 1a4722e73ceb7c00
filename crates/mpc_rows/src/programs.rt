//! Quadratic programs with a parameter.

ghost use Rattle.mpc_rows.specs.Program.{IsProgram};

use crate::Counts;
use mpc_frac::NoMemory;
use mpc_linear::Matrix;
use std::alloc::Global;

/// The quadratic program with the cost `z'h z + 2 z'f c + c'y c` and the rows `g z <= w c`, for all `c = (1, t_1, .., t_n)` with t in the
/// box of the counts (Bemporad, Morari, Dua and Pistikopoulos, 2002).
///
/// With s unknowns and m rows, h is s by s, f is s by n + 1, y is n + 1 by n + 1, g is m by s and w is m by n + 1.
#[derive(Drop)]
pub struct Qp {
    pub h: Matrix,
    pub f: Matrix,
    pub y: Matrix,
    pub g: Matrix,
    pub w: Matrix,
    pub counts: Counts,
    pub ghost is_program: { IsProgram h f y g w counts },
}

impl Qp {
    ghost use Rattle.std.specs.Prelude.{◌≡◌, IfOk};

    /// The same program once more.
    pub fn copy(&self, alloc: Global) -> Result<Qp, NoMemory>
        ensures { IfOk result (λ qp. qp ≡ self.now) }
    {
        let hessian = self.h.copy(alloc)?;
        let mixed_cost = self.f.copy(alloc)?;
        let state_cost = self.y.copy(alloc)?;
        let coefficients = self.g.copy(alloc)?;
        let bounds = self.w.copy(alloc)?;
        let counts = self.counts.copy(alloc)?;
        Ok(Qp {
            h: hessian,
            f: mixed_cost,
            y: state_cost,
            g: coefficients,
            w: bounds,
            counts,
        })
    }
}
