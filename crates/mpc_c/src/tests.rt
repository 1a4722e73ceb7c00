//! Each answer of each call, with values that are worked out by hand.

use crate::{
    mpc_check, mpc_compile, mpc_layout_version, mpc_reply, mpc_safe, mpc_solve, mpc_table_load,
    mpc_table_size, mpc_version,
};
use mpc_block::Move;
use std::alloc::Global;
use std::test::Fail;

/// A tank whose inflow is from -1 to 1, and whose level must end between -1 and 1. The best inflow at the level x, from -2 to 2, is -x/2.
const TANK: &[u8] =
    b"{\"version\":1,\"horizon\":1,\"A\":[[1]],\"B\":[[1]],\"Q\":[[1]],\"R\":[[1]],\"P\":[[1]],\"rows\":[{\"u\":[1],\"max\":1},{\"u\":[-1],\"max\":1}],\"terminal\":[{\"x\":[1],\"max\":1},{\"x\":[-1],\"max\":1}],\"grid\":[{\"low\":-4,\"step\":1,\"count\":8}]}";

/// A tank whose inflow costs nothing.
const FREE: &[u8] =
    b"{\"version\":1,\"horizon\":1,\"A\":[[1]],\"B\":[[1]],\"Q\":[[0]],\"R\":[[0]],\"P\":[[0]],\"grid\":[{\"low\":-4,\"step\":1,\"count\":8}]}";

/// A system with a number of more than 128 bits in its third state.
const WIDE: &[u8] =
    b"{\"version\":1,\"horizon\":4,\"A\":[[\"292111275157638067/812584496488484321\"]],\"B\":[[1]],\"Q\":[[0]],\"R\":[[1]],\"P\":[[1]],\"grid\":[{\"low\":-2,\"step\":1,\"count\":10}]}";

/// A tank with such numbers in the moves from its states.
const FINE: &[u8] =
    b"{\"version\":1,\"horizon\":2,\"A\":[[1]],\"B\":[[1]],\"Q\":[[0]],\"R\":[[1]],\"P\":[[1]],\"grid\":[{\"low\":\"1776773089569325/3197919330147103\",\"step\":\"196586919145386413/234374060396012687\",\"count\":1000000}]}";

/// No move.
const NONE: Move = Move {
    num_low: 7,
    num_high: 7,
    den_low: 7,
    den_high: 7,
};

/// The file of a controller of a system without an inflow, whose level is multiplied by a number in each step, by one law.
fn file(alloc: Global, factor: &str, low: &str, law: &str) -> Result<String, Fail> {
    Ok(format!(in alloc;
        "mpc 1\nsize 1 1 1\nA {factor}\nB 0\nQ 0\nR 1\nP 0\nrows 0\nterminal 0\ngrid {low} 2\nlaws 1\nlaw\nmove {law} 0\ntree\nleaf 1\nend\n"
    )?)
}

/// The text that a call told.
fn front(text: &[u8], size: u64) -> &[u8] {
    let mut end = text.len();
    if size < end as u64 {
        end = size as usize;
    }
    &text[..end]
}

/// A whole number of halves.
fn halves(number: i64) -> Move {
    let (num_low, num_high) = if number < 0 {
        (u64::MAX - (-1 - number) as u64, u64::MAX)
    } else {
        (number as u64, 0)
    };
    Move {
        num_low,
        num_high,
        den_low: 2,
        den_high: 0,
    }
}

#[test]
fn compiles(rt: HostRuntime) -> Result<(), Fail> {
    let alloc: Global = rt.alloc();
    assert_eq!(rt; mpc_version(), 1);
    let mut text = [0; 1000];
    let mut size = 0;
    let code = mpc_compile(alloc, TANK, 1, &mut text, &mut size);
    assert_eq!(rt; code, 0);
    assert_eq!(rt; front(front(&text, size), 6), b"mpc 3\n".as_slice());
    let mut short = [7; 10];
    let mut same = 0;
    let code = mpc_compile(alloc, TANK, 32, &mut short, &mut same);
    assert_eq!(rt; code, 32);
    assert_eq!(rt; same, size);
    assert_eq!(rt; short, [7; 10]);
    assert_eq!(rt; mpc_compile(alloc, TANK, 0, &mut text, &mut size), 2);
    assert_eq!(rt; size, 0);
    assert_eq!(rt; mpc_compile(alloc, TANK, 33, &mut text, &mut size), 2);
    assert_eq!(rt; mpc_compile(alloc, b"{", 1, &mut text, &mut size), 3);
    assert_eq!(rt; front(&text, size), b"bad plant NotJson\n".as_slice());
    assert_eq!(rt; mpc_compile(alloc, FREE, 1, &mut text, &mut size), 4);
    assert_eq!(rt; front(&text, size), b"not definite 1\n".as_slice());
    assert_eq!(rt; mpc_compile(alloc, WIDE, 1, &mut text, &mut size), 5);
    assert_eq!(rt;
        front(&text, size),
        b"too wide condense state 3\n".as_slice()
    );
    let long = vec![in alloc; 0u8; 16_777_217]?;
    assert_eq!(rt; mpc_compile(alloc, &long, 1, &mut text, &mut size), 10);
    assert_eq!(rt; front(&text, size), b"too long\n".as_slice());
    Ok(())
}

#[test]
fn checks(rt: HostRuntime) -> Result<(), Fail> {
    let alloc: Global = rt.alloc();
    let mut text = [0; 100];
    let mut size = 0;
    let still = file(alloc, "1", "-1 1", "0")?;
    assert_eq!(rt; mpc_check(alloc, still.as_bytes(), &mut text, &mut size), 0);
    assert_eq!(rt; front(&text, size), b"accepted\n".as_slice());
    let moving = file(alloc, "1", "-1 1", "1")?;
    assert_eq!(rt;
        mpc_check(alloc, moving.as_bytes(), &mut text, &mut size),
        7
    );
    assert_eq!(rt;
        front(&text, size),
        b"refused law 1 stationary 1\n".as_slice()
    );
    assert_eq!(rt; mpc_check(alloc, b"mpc 4\n", &mut text, &mut size), 6);
    assert_eq!(rt; front(&text, size), b"bad file BadLine 1\n".as_slice());
    let long = vec![in alloc; 0u8; 16_777_217]?;
    assert_eq!(rt; mpc_check(alloc, &long, &mut text, &mut size), 10);
    assert_eq!(rt; mpc_safe(alloc, &long, &mut text, &mut size), 10);
    Ok(())
}

#[test]
fn follows_the_loop(rt: HostRuntime) -> Result<(), Fail> {
    let alloc: Global = rt.alloc();
    let mut text = [0; 100];
    let mut size = 0;
    let still = file(alloc, "1", "-1 1", "0")?;
    assert_eq!(rt; mpc_safe(alloc, still.as_bytes(), &mut text, &mut size), 0);
    assert_eq!(rt; front(&text, size), b"safe\n".as_slice());
    let mut short = [0; 4];
    assert_eq!(rt;
        mpc_safe(alloc, still.as_bytes(), &mut short, &mut size),
        32
    );
    assert_eq!(rt; size, 5);
    let doubling = file(alloc, "2", "-1 1", "0")?;
    assert_eq!(rt;
        mpc_safe(alloc, doubling.as_bytes(), &mut text, &mut size),
        15
    );
    assert_eq!(rt; front(&text, size), b"unsafe leaf 1 low 1\n".as_slice());
    let far = file(
        alloc,
        "2",
        "1000000000000000000000000000000 1/10000000000",
        "0",
    )?;
    assert_eq!(rt; mpc_safe(alloc, far.as_bytes(), &mut text, &mut size), 16);
    assert_eq!(rt; front(&text, size), b"too wide next 1 low 1\n".as_slice());
    Ok(())
}

#[test]
fn lays_out(rt: HostRuntime) -> Result<(), Fail> {
    let alloc: Global = rt.alloc();
    let mut block = [0; 50];
    let mut words = 0;
    let moving = file(alloc, "1", "-1 1", "1")?;
    assert_eq!(rt; mpc_table_size(alloc, moving.as_bytes(), &mut words), 0);
    assert_eq!(rt; words, 24);
    assert_eq!(rt; mpc_table_size(alloc, b"mpc 4\n", &mut words), 6);
    assert_eq!(rt; words, 0);
    assert_eq!(rt;
        mpc_table_load(alloc, b"mpc 4\n", 0, &mut block, &mut words),
        6
    );
    assert_eq!(rt;
        mpc_table_load(alloc, moving.as_bytes(), 1, &mut block, &mut words),
        7
    );
    assert_eq!(rt; words, 0);
    assert_eq!(rt;
        mpc_table_load(alloc, moving.as_bytes(), 0, &mut block[..23], &mut words),
        32
    );
    assert_eq!(rt; words, 24);
    assert_eq!(rt; block, [0; 50]);
    assert_eq!(rt;
        mpc_table_load(alloc, moving.as_bytes(), 0, &mut block, &mut words),
        0
    );
    assert_eq!(rt; words, 24);
    assert_eq!(rt; block[0], mpc_layout_version());
    let mut moves = [NONE];
    assert_eq!(rt; mpc_reply(&block, &[1], &mut moves), 0);
    assert_eq!(rt; moves[0].num_low, moves[0].den_low);
    Ok(())
}

/// Whether the block replies to a count with so many halves.
fn moves_halves(block: &[u64], count: u64, number: i64) -> bool {
    let mut moves = [NONE];
    mpc_reply(block, &[count], &mut moves) == 0 && moves[0] == halves(number)
}

#[test]
fn replies(rt: HostRuntime) -> Result<(), Fail> {
    let alloc: Global = rt.alloc();
    let mut text = [0; 1000];
    let mut size = 0;
    assert_eq!(rt; mpc_compile(alloc, TANK, 1, &mut text, &mut size), 0);
    let mut block = [0; 200];
    let mut words = 0;
    let loaded = mpc_table_load(alloc, front(&text, size), 1, &mut block, &mut words);
    assert_eq!(rt; loaded, 0);
    assert!(rt; moves_halves(&block, 2, 2));
    assert!(rt; moves_halves(&block, 3, 1));
    assert!(rt; moves_halves(&block, 6, -2));
    let mut moves = [NONE];
    assert_eq!(rt; mpc_reply(&block, &[1], &mut moves), 33);
    assert_eq!(rt; mpc_reply(&block, &[9], &mut moves), 34);
    assert_eq!(rt; mpc_reply(&block, &[4, 4], &mut moves), 35);
    assert_eq!(rt; moves, [NONE]);
    let mut four = [NONE, NONE, NONE, NONE];
    assert_eq!(rt; mpc_reply(&block, &[4], &mut four), 35);
    Ok(())
}

#[test]
fn solves(rt: HostRuntime) -> Result<(), Fail> {
    let alloc: Global = rt.alloc();
    let mut moves = [NONE];
    assert_eq!(rt; mpc_solve(alloc, TANK, &[5], &mut moves), 0);
    assert_eq!(rt; moves[0], halves(-1));
    moves = [NONE];
    assert_eq!(rt; mpc_solve(alloc, TANK, &[7], &mut moves), 33);
    assert_eq!(rt; mpc_solve(alloc, TANK, &[9], &mut moves), 34);
    assert_eq!(rt; mpc_solve(alloc, FINE, &[155_006], &mut moves), 36);
    assert_eq!(rt; mpc_solve(alloc, b"{", &[4], &mut moves), 3);
    assert_eq!(rt; mpc_solve(alloc, FREE, &[4], &mut moves), 4);
    assert_eq!(rt; mpc_solve(alloc, WIDE, &[4], &mut moves), 5);
    assert_eq!(rt; mpc_solve(alloc, TANK, &[4, 4], &mut moves), 37);
    assert_eq!(rt; mpc_solve(alloc, TANK, &[4], &mut moves[..0]), 37);
    assert_eq!(rt; moves, [NONE]);
    Ok(())
}
