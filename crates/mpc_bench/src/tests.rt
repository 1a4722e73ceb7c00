//! A decision whose numbers fit because each value is formed anew, worked out apart in exact numbers, and a run that is kept and goes on.

ghost use Rattle.std.specs.Prelude.{◌≡◌, IfOk, length};

use crate::parts::{Parts, parts_of};
use crate::systems::{Side, mpc_simplex_go_on};
use mpc_frac::{Frac, NoMemory};
use mpc_linear::Vector;
use mpc_rows::{PairPoint, Row, System};
use mpc_simplex::{Decision, decide};
use std::alloc::Global;
use std::test::Fail;

fn frac(num: i128, den: i128) -> Frac {
    Frac::new(num, den).unwrap_or(Frac::whole(0))
}

/// The row `first x + second y <= bound`.
fn row(alloc: Global, first: Frac, second: Frac, bound: Frac) -> Result<Row, NoMemory>
    ensures { IfOk result (λ r. length r.a ≡ 2) }
{
    let mut coefficients = Vector::new(alloc);
    coefficients.push(first)?;
    coefficients.push(second)?;
    Ok(Row {
        a: coefficients,
        b: bound,
        strict: false,
    })
}

/// A system in two unknowns. A body that carries the values from step to step, and adds to each what
/// the entering variable changes, meets numbers that are too wide on the way.
fn narrow_values(alloc: Global) -> Result<System, NoMemory> {
    let mut system = System::new(alloc, 2);
    system.push(row(alloc, frac(1, 2), Frac::whole(3), Frac::whole(0))?)?;
    let steep = row(
        alloc,
        frac(-3, 307_588_114),
        frac(-747_679_445, 3),
        Frac::whole(-1),
    )?;
    system.push(steep)?;
    system.push(row(alloc, frac(3, 2), Frac::whole(0), frac(-1, 5_562_480))?)?;
    Ok(system)
}

fn first_at(list: &PairPoint, place: usize) -> Option<Frac> {
    if place < list.len() {
        Some(list.at(place).0)
    } else {
        None
    }
}

#[test]
fn forms_each_value_anew(rt: HostRuntime) -> Result<(), Fail> {
    let Ok(Decision::Point(point)) = decide(rt.alloc(), &narrow_values(rt.alloc())?) else {
        panic!(rt; "the system has a point");
    };
    assert_eq!(rt; point.len(), 2);
    assert!(rt; first_at(&point, 0) == Some(frac(-1, 8_343_720)));
    let second = frac(855_476_366_181_361, 213_207_364_892_365_338_048_400);
    assert!(rt; first_at(&point, 1) == Some(second));
    Ok(())
}

fn part(number: i64) -> Parts {
    parts_of(&Frac::whole(number))
}

fn side(bound: i64, strict: bool) -> Side {
    Side {
        bound: part(bound),
        strict,
    }
}

#[test]
fn goes_on_by_further_rows(rt: HostRuntime) -> Result<(), Fail> {
    // 1 <= x and x <= 3, and then x < 2, and then x < 1
    let coefficients = [part(-1), part(1), part(1), part(1)];
    let sides = [
        side(-1, false),
        side(3, false),
        side(2, true),
        side(1, true),
    ];
    let mut kept = 0;
    let three = mpc_simplex_go_on(rt.alloc(), 1, &coefficients[..3], &sides[..3], 1, &mut kept);
    assert_eq!(rt; three, 0);
    assert_eq!(rt; kept, 3);
    let four = mpc_simplex_go_on(rt.alloc(), 1, &coefficients, &sides, 2, &mut kept);
    assert_eq!(rt; four, 1);
    assert_eq!(rt; kept, 4);
    Ok(())
}
