//! A test of decisions against ends that were worked out apart, in exact numbers.

use mpc_frac::{Frac, NoMemory};
use mpc_linear::Vector;
use mpc_rows::{Multipliers, PairPoint, Row, System};
use mpc_simplex::{Decision, SimplexError, decide};
use std::alloc::Global;
use std::test::Fail;

/// A line for each system: its width, its rows, and the end of its run.
const STATED: &str = r"0 | < 77/100; < 77/100 | point
0 | < 0 | refuted 1
1 | | point 0,0
3 | | point 0,0 0,0 0,0
1 | 1 <= 2; -1 < -2 | refuted 1 1
1 | 1 <= 2; -1 <= -2 | point 2,0
1 | 1 <= 5; 1 <= 5; 1 < 3; -1 < -3 | refuted 0 0 1 1
1 | 5/2 <= 0; 9/5 <= 4/3; 0 <= 0; 9/2 <= -2/3 | point -4/27,0
1 | 0 <= 0; 3 <= 0; -1 <= -1 | refuted 0 1 3
1 | -8/3 < -2; -5/3 < -7/4; 5/3 < 7/4; 1/10 < 0 | refuted 0 1 1 0
2 | -4/5 0 < 2/5; -8 0 < -2/3; 0 5 < -1/5 | point 1/12,1/8 -1/25,-1/5
2 | -1 2 < -1; 0 2 < -1; 0 0 < 2; 0 0 < -2 | refuted 0 0 0 1
2 | -2 0 <= 1; -2 0 <= 1; 0 1 <= -1; 0 0 <= 3; -2 0 <= 1; 2 -1 < 1 | point 0,-1/2 -1,0
2 | -1 0 <= 0; 1 0 <= 7; 0 -1 <= 0; 0 1 <= 11; 2 3 < 0 | refuted 2/3 0 1 0 1/3
2 | -1 0 <= 0; 1 0 <= 20; 0 -1 <= 0; 0 1 <= 16; -1 -2 <= -1; 0 2 <= 1; 0 -2 <= -3; 0 -2 < 3 | refuted 0 0 0 0 0 1 1 0
3 | -2 2 0 < 0; -1 0 3 < 3; 3 -3 -1 < -3; 1 0 -3 <= -3; -1 0 3 < 3 | refuted 0 1 0 1 0
4 | 2 3 2 -1 < -3; 2 -3 0 0 < -2; -2 3 0 0 < 2 | refuted 0 1 1
1 | -1 <= 0; 1 <= 5; -466766672430478729/570089566792384844 <= -406388032858463993/20156555970938829; 228289994166291570/1893506912156309 <= 0; 0 <= -401956386648917321/138633006190184344; 0 <= 0 | wide";

fn whole(text: &str) -> i64 {
    text.parse().unwrap_or(0)
}

fn frac(text: &str) -> Frac {
    let (num, den) = text.split_once('/').unwrap_or((text, "1"));
    Frac::new(whole(num) as i128, whole(den) as i128).unwrap_or(Frac::whole(0))
}

fn vector(alloc: Global, text: &str) -> Result<Vector, NoMemory> {
    let mut entries = Vector::new(alloc);
    for word in text.split_whitespace() {
        entries.push(frac(word))?;
    }
    Ok(entries)
}

/// Puts the row behind the others, where it has as many coefficients as there are unknowns.
fn push_row(alloc: Global, system: &mut System, text: &str) -> Result<(), NoMemory> {
    let Some((left, right)) = text.split_once('<') else {
        return Ok(());
    };
    let coefficients = vector(alloc, left)?;
    if coefficients.len() == system.unknowns() {
        system.push(Row {
            a: coefficients,
            b: frac(right.trim_start_matches('=').trim()),
            strict: !right.starts_with('='),
        })?;
    }
    Ok(())
}

fn system(alloc: Global, width: i64, text: &str) -> Result<System, NoMemory> {
    let mut system = System::new(alloc, u32::try_from(width).unwrap_or(0));
    for row in text.split(';') {
        push_row(alloc, &mut system, row)?;
    }
    Ok(system)
}

fn is_pair(pair: &(Frac, Frac), text: &str) -> bool {
    let (first, second) = text.split_once(',').unwrap_or((text, "0"));
    pair.0 == frac(first) && pair.1 == frac(second)
}

fn is_point(point: &PairPoint, text: &str) -> bool {
    let mut count = 0;
    for (j, word) in text.split_whitespace().enumerate() {
        if j >= point.len() || !is_pair(point.at(j), word) {
            return false;
        }
        count = j + 1;
    }
    count == point.len()
}

fn are_multipliers(multipliers: &Multipliers, text: &str) -> bool {
    let mut count = 0;
    for (i, word) in text.split_whitespace().enumerate() {
        if i >= multipliers.len() || *multipliers.at(i) != frac(word) {
            return false;
        }
        count = i + 1;
    }
    count == multipliers.len()
}

fn ends_as(alloc: Global, system: &System, text: &str) -> bool {
    let (kind, numbers) = text.split_once(' ').unwrap_or((text, ""));
    match decide(alloc, system) {
        Ok(Decision::Point(point)) => kind == "point" && is_point(&point, numbers),
        Ok(Decision::Refuted(multipliers)) => {
            kind == "refuted" && are_multipliers(&multipliers, numbers)
        }
        Err(SimplexError::Wide) => kind == "wide",
        Err(SimplexError::NoMemory) => false,
    }
}

/// Whether the system of the line ends as the line says.
fn holds(alloc: Global, line: &str) -> Result<bool, NoMemory> {
    let Some((width, rest)) = line.split_once('|') else {
        return Ok(false);
    };
    let Some((rows, end)) = rest.split_once('|') else {
        return Ok(false);
    };
    let system = system(alloc, whole(width.trim()), rows)?;
    Ok(ends_as(alloc, &system, end.trim()))
}

#[test]
fn ends_as_stated(rt: HostRuntime) -> Result<(), Fail> {
    for line in STATED.lines() {
        assert!(rt; holds(rt.alloc(), line)?);
    }
    Ok(())
}
