//! A tank whose level must end between -1 and 1: its controller, laid out, and its replies.

use mpc_block::{BlockReply, LayoutError, Move, block_size, lay_out, reply_in, words_of};
use mpc_file::read_file;
use std::test::Fail;

/// The controller's file. Between the counts 2 and 6 the first law holds, elsewhere no move is admissible.
const TANK: &[u8] = b"mpc 1
size 1 1 1
A 1
B 1
Q 1
R 1
P 1
rows 2
row 0 1 1
row 0 -1 1
terminal 2
last 1 1
last -1 1
grid -4 1 8
laws 5
law
move 2 -1/2
law 1
move 1 0
mult 2 -1
law 2
move -1 0
mult -6 1
law 3
move 5 -1
mult -6 1
law 4
move 3 -1
mult 2 -1
tree
split -1 -2
split 1 6
leaf 1
cert 3 1 5 1
cert 4 1 5 1
cert 4 1 5 1
cert 3 1 5 1
none
cert 4 1 6 1 7 1
none
cert 3 1 4 1 7 1
end
";

/// No move yet.
const NONE: Move = Move {
    num_low: 0,
    num_high: 0,
    den_low: 0,
    den_high: 0,
};

/// Whether the move is so many halves.
fn is_halves(step: Move, halves: i128) -> bool {
    let (num_low, num_high) = words_of(&halves);
    step == Move {
        num_low,
        num_high,
        den_low: 2,
        den_high: 0,
    }
}

/// Whether the block replies to the count as it should.
fn is_right(words: &[u64], count: u64) -> bool {
    let mut moves = [NONE];
    match reply_in(words, &[count], &mut moves) {
        BlockReply::Moves { node, law } => {
            node == 3
                && law == 1
                && 2 <= count
                && count <= 6
                && is_halves(moves[0], 4 - count as i128)
        }
        BlockReply::Infeasible { node } => (count < 2 && node == 5) || (6 < count && node == 4),
        BlockReply::Outside { coordinate } => 8 < count && coordinate == 1,
        BlockReply::BadBlock => false,
    }
}

#[test]
fn replies_from_a_block(rt: HostRuntime) -> Result<(), Fail> {
    let Ok(controller) = read_file(rt.alloc(), TANK) else {
        return Err("file")?;
    };
    assert_eq!(rt; block_size(&controller), 72);
    let mut words = [0; 72];
    assert!(rt; lay_out(rt.alloc(), &controller, &mut words).is_ok());
    for count in 0..10 {
        assert!(rt; is_right(&words, count), "at {count}");
    }
    for end in 0..words.len() {
        let mut moves = [NONE];
        assert_eq!(rt;
            reply_in(&words[..end], &[4], &mut moves),
            BlockReply::BadBlock
        );
        assert_eq!(rt;
            lay_out(rt.alloc(), &controller, &mut words[..end]),
            Err(LayoutError::NoRoom(72))
        );
    }
    Ok(())
}
