use mpc_condense::condense;
use mpc_frac::Frac;
use mpc_linear::Matrix;
use mpc_plant::read_plant;
use mpc_rows::Qp;
use std::alloc::Global;
use std::process::Abort;
use std::test::Fail;

/// The program of the plant that this text spells.
fn program_of(alloc: Global, text: &str) -> Result<Qp, Fail> {
    let Ok(plant) = read_plant(alloc, text.as_bytes()) else {
        return Err(Fail::from("refused"));
    };
    Ok(condense(alloc, &plant)?)
}

/// Whether the matrix has these whole entries, row by row.
fn holds(rt: &impl Abort, matrix: &Matrix, rows: &[[i64; 2]]) -> bool {
    assert_eq!(rt; matrix.rows() as usize, rows.len());
    assert_eq!(rt; matrix.cols(), 2);
    let mut same = true;
    for row in 0..matrix.rows() {
        let [first, second] = rows[row as usize];
        same = same
            && matrix.get(row, 0) == Frac::whole(first)
            && matrix.get(row, 1) == Frac::whole(second);
    }
    same
}

// Over two steps x[1] = x + u + 1 and x[2] = x + u + v + 2 with the targets 2 and 1: the cost from x is
// (x - 2)^2 + (x + u - 1)^2 + (x + u + v)^2 + (u - 1)^2 + (v - 1)^2.
#[test]
fn two_steps(rt: HostRuntime) -> Result<(), Fail> {
    let text =
        "{\"version\":2,\"horizon\":2,\"A\":[[1]],\"B\":[[1]],\"Q\":[[1]],\"R\":[[1]],\"P\":[[1]],\"grid\":[{\"low\":-4,\"step\":1,\"count\":8}],\"drift\":[1],\"xgoal\":[2],\"ugoal\":[1]}";
    let qp = program_of(rt.alloc(), text)?;
    assert!(rt; holds(&rt, &qp.h, [[3, 1], [1, 2]].as_slice()));
    assert!(rt; holds(&rt, &qp.f, [[-10, 2], [-5, 1]].as_slice()));
    assert!(rt; holds(&rt, &qp.y, [[79, -15], [-15, 3]].as_slice()));
    Ok(())
}
