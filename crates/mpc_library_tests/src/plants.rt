ghost use Rattle.std.specs.Prelude.{[], ◌∷◌};
ghost use Rattle.mpc_plant.specs.Trajectory.{IsInBox, IsSequence, point_of};

use mpc_frac::Frac;
use mpc_linear::{LinearError, Matrix};
use mpc_plant::{Plant, cost, read_plant, roll};
use std::alloc::Global;
use std::process::Abort;
use std::test::Fail;

/// Ends the test unless the grid has one coordinate, and the count is inside it.
fn assert_inside(rt: &impl Abort, plant: &Plant, count: u64)
    ensures { IsInBox plant.now (point_of (count ∷ [])) }
{
    assert_eq!(rt; plant.grid.len(), 1);
    let axis = plant.grid.at(0);
    assert!(rt; count <= axis.count);
}

/// Ends the test unless there is one move a step, each with one entry an input.
fn assert_sequence(rt: &impl Abort, plant: &Plant, moves: &Matrix)
    ensures { IsSequence plant.now moves.now.rows }
{
    assert_eq!(rt; moves.rows(), plant.horizon);
    assert_eq!(rt; moves.cols(), plant.p);
}

/// The plant of a text.
fn plant_of(alloc: Global, text: &str) -> Result<Plant, Fail> {
    match read_plant(alloc, text.as_bytes()) {
        Ok(plant) => Ok(plant),
        Err(_) => Err(Fail::from("refused")),
    }
}

/// Whether the entries are those of a matrix of one column.
fn is_column(matrix: &Matrix, entries: &[Frac]) -> bool {
    if matrix.cols() != 1 || matrix.rows() as usize != entries.len() {
        return false;
    }
    for i in 0..matrix.rows() {
        if matrix.get(i, 0) != entries[i as usize] {
            return false;
        }
    }
    true
}

/// Whether the move and then zeros, from the count on, lead over these states at this cost.
fn leads(
    rt: &impl Abort,
    alloc: Global,
    plant: &Plant,
    count: u64,
    first: Frac,
    states: &[Frac],
    total: Frac,
) -> Result<bool, Fail> {
    let mut moves = Matrix::zero(alloc, plant.horizon, 1)?;
    moves.set(0, 0, first);
    assert_inside(rt, plant, count);
    assert_sequence(rt, plant, &moves);
    let rolled = roll(alloc, plant, &[count], &moves)?;
    let sum = cost(alloc, plant, &[count], &moves)?;
    Ok(is_column(&rolled, states) && sum == total)
}

// x[1] = x + u from x = t - 4, with the cost x'x + u'u + x[1]'x[1]: at the count 3 the move 1/2 leads from -1 to -1/2.
#[test]
fn scalar_motion(rt: HostRuntime) -> Result<(), Fail> {
    let alloc = rt.alloc();
    let plant = plant_of(
        alloc,
        r#"{"version":1,"horizon":1,"A":[[1]],"B":[[1]],"Q":[[1]],"R":[[1]],"P":[[1]],"grid":[{"low":-4,"step":1,"count":8}]}"#,
    )?;
    let half = Frac::new(1, 2)?;
    let states = [Frac::whole(-1), half.neg()];
    assert!(rt; leads(&rt, alloc, &plant, 3, half, &states, Frac::new(3, 2)?)?);
    Ok(())
}

// x[k+1] = 2 x[k] + u[k] + 3 from x = -1 under the moves 4 and 0: the states 5 and 13. With the targets x = 1 and u = 2 the cost is
// 2 (4 + 16) for the states, 5 (4 + 4) for the moves and 7 times 144 for the end.
#[test]
fn motion_to_a_target(rt: HostRuntime) -> Result<(), Fail> {
    let alloc = rt.alloc();
    let plant = plant_of(
        alloc,
        r#"{"version":2,"horizon":2,"A":[[2]],"B":[[1]],"Q":[[2]],"R":[[5]],"P":[[7]],"drift":[3],"xgoal":[1],"ugoal":[2],"grid":[{"low":-4,"step":1,"count":8}]}"#,
    )?;
    let states = [Frac::whole(-1), Frac::whole(5), Frac::whole(13)];
    assert!(rt;
        leads(
            &rt,
            alloc,
            &plant,
            3,
            Frac::whole(4),
            &states,
            Frac::whole(1088)
        )?
    );
    Ok(())
}

// x[1] = 10^17 x from x = -10^17: the state -10^34 fits, and its square needs more than 128 bits.
#[test]
fn wide_cost(rt: HostRuntime) -> Result<(), Fail> {
    let alloc = rt.alloc();
    let plant = plant_of(
        alloc,
        r#"{"version":1,"horizon":1,"A":[[100000000000000000]],"B":[[1]],"Q":[[1]],"R":[[1]],"P":[[1]],"grid":[{"low":-100000000000000000,"step":1,"count":8}]}"#,
    )?;
    let moves = Matrix::zero(alloc, 1, 1)?;
    assert_inside(&rt, &plant, 0);
    assert_sequence(&rt, &plant, &moves);
    let states = roll(alloc, &plant, &[0], &moves)?;
    assert_eq!(rt; states.rows(), 2);
    let place = match cost(alloc, &plant, &[0], &moves) {
        Err(LinearError::Wide(k)) => Some(k),
        _ => None,
    };
    assert_eq!(rt; place, Some(1));
    Ok(())
}
