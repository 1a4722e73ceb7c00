//! Tests of the pool of several programs.

ghost use Rattle.std.specs.Prelude.{◌≡◌, IfOk, All, vec_len};
ghost use Rattle.mpc_space.specs.Definite.{IsDefinite};
ghost use Rattle.mpc_rows.specs.declared.programs.Qp.{Qp as Program};

use crate::gates::Meeting;
use crate::programs::{is_positive_number, limited, program};
use mpc_claim::Phase;
use mpc_fleet::{FleetError, enumerate_fleet};
use mpc_frac::NoMemory;
use mpc_rows::Qp;
use mpc_workers::OpenGate;
use std::alloc::Global;
use std::test::Fail;

/// The program without rows.
fn free(alloc: Global) -> Result<Qp, NoMemory> {
    program(alloc, [-4, 1], 8, [].as_slice(), [].as_slice())
}

/// Two programs in a list.
fn both(alloc: Global, one: Qp, other: Qp) -> Result<Vec<Qp>, NoMemory>
    requires one { IsDefinite one.h.rows }
    requires other { IsDefinite other.h.rows }
    ensures count { IfOk result (λ v. vec_len v ≡ 2) }
    ensures definite { IfOk result (λ v. All (λ (qp : Program). IsDefinite qp.h.rows) v.items) }
{
    let mut programs = Vec::new(alloc);
    let Ok(()) = programs.push(one) else {
        return Err(NoMemory);
    };
    let Ok(()) = programs.push(other) else {
        return Err(NoMemory);
    };
    Ok(programs)
}

#[test]
fn two_programs_at_once(rt: HostRuntime) -> Result<(), Fail> {
    let one = free(rt.alloc())?;
    let other = limited(rt.alloc())?;
    assert!(rt; is_positive_number(&one.h));
    assert!(rt; is_positive_number(&other.h));
    let programs = both(rt.alloc(), one, other)?;
    let gate = Meeting::new();
    let registries = enumerate_fleet(&rt, rt.alloc(), &programs, 2, &gate)?;
    assert!(rt; gate.has_met());
    assert_eq!(rt; registries.len(), 2);
    for registry in &registries {
        assert!(rt; matches!(registry.phase(), Phase::Finished));
    }
    assert_eq!(rt; registries[0].history().len(), 2);
    assert_eq!(rt; registries[1].history().len(), 6);
    Ok(())
}

#[test]
fn many_workers(rt: HostRuntime) -> Result<(), Fail> {
    let one = limited(rt.alloc())?;
    let other = free(rt.alloc())?;
    assert!(rt; is_positive_number(&one.h));
    assert!(rt; is_positive_number(&other.h));
    let programs = both(rt.alloc(), one, other)?;
    for workers in [1, 8, 32] {
        let registries = enumerate_fleet(&rt, rt.alloc(), &programs, workers, &OpenGate)?;
        assert_eq!(rt; registries.len(), 2);
        assert_eq!(rt; registries[0].history().len(), 6);
        assert_eq!(rt; registries[1].history().len(), 2);
    }
    Ok(())
}

#[test]
fn bad_workers(rt: HostRuntime) {
    let none = Vec::new(rt.alloc());
    for workers in [0, 33] {
        let refused = enumerate_fleet(&rt, rt.alloc(), none.as_slice(), workers, &OpenGate);
        assert!(rt; matches!(refused, Err(FleetError::BadWorkers)));
    }
}
