//! Tests of the greatest entries with which systems are said to fit.

ghost use Rattle.std.specs.Prelude.{◌≡◌, ◌+◌, ◌<◌, ◌≤◌, ◌^◌, IfOk};

use crate::{always_fits, fits_within};
use mpc_scaled::WholeSystem;
use std::alloc::{AllocError, Global};
use std::test::Fail;

/// The row of this entry, and zeros, in two to four unknowns.
fn one_row(alloc: Global, width: u32, entry: i32) -> Result<WholeSystem, AllocError>
    requires some { 2 ≤ width }
    requires few { width ≤ 4 }
    ensures { IfOk result (λ system. system.width ≡ width) }
{
    let mut system = WholeSystem::new(alloc, width)?;
    match width {
        2 => system.push_small(&[entry as i64, 0], 1)?,
        3 => system.push_small(&[entry as i64, 0, 0], 1)?,
        _ => system.push_small(&[entry as i64, 0, 0, 0], 1)?,
    }
    Ok(system)
}

/// Whether rows of this entry fit, in two to four unknowns, and none of one more.
fn is_greatest(alloc: Global, width: u32, entry: u32) -> Result<bool, AllocError>
    requires some { 2 ≤ width }
    requires few { width ≤ 4 }
    requires entry { entry < 2 ^ 30 + 2 ^ 29 }
{
    let small = one_row(alloc, width, entry as i32)?;
    let negative = one_row(alloc, width, -(entry as i32))?;
    let great = one_row(alloc, width, entry as i32 + 1)?;
    Ok(
        always_fits(&small, &negative)
            && !always_fits(&great, &small)
            && !always_fits(&small, &great),
    )
}

#[test]
fn fits_up_to_the_greatest_entry(rt: HostRuntime) -> Result<(), Fail> {
    assert!(rt; is_greatest(rt.alloc(), 2, 1_518_500_249)?);
    assert!(rt; is_greatest(rt.alloc(), 3, 916_015)?);
    assert!(rt; is_greatest(rt.alloc(), 4, 20_936)?);
    Ok(())
}

#[test]
fn fits_within_sizes(rt: HostRuntime) -> Result<(), Fail> {
    assert!(rt; fits_within(2, 1000, 1_518_500_249, 1 << 50));
    assert!(rt; !fits_within(2, 1000, 1_518_500_250, 1 << 50));
    assert!(rt; !fits_within(2, 1000, 1, 1 << 60));
    assert!(rt; fits_within(4, 1000, 20_936, 0));
    assert!(rt; !fits_within(5, 1, 1, 1));
    assert!(rt; !fits_within(0, 1, 1, 1));
    Ok(())
}
