//! Moves as they cross to C.

ghost use Rattle.std.specs.Prelude.{◌≡◌, ◌≤◌, length, map, take};
ghost use Rattle.mpc_c.specs.Fractions.{ratio_of, ratio, lowest};

use mpc_block::{Move, words_of};
use mpc_frac::Frac;

/// The move with this numerator and denominator.
fn move_with(num: &i128, den: &i128) -> Move
    ensures { ratio_of result ≡ ratio num.now den.now }
{
    let (num_low, num_high) = words_of(num);
    let (den_low, den_high) = words_of(den);
    Move {
        num_low,
        num_high,
        den_low,
        den_high,
    }
}

/// Writes the first of these numbers, in lowest terms.
pub(crate) fn put_numbers(numbers: &[Frac], moves: &mut [Move])
    requires { length moves.old ≤ length numbers.now }
    ensures { map ratio_of moves.new ≡ map lowest (take (length moves.old) numbers.now) }
{
    for i in 0..moves.len() {
        moves[i] = move_with(&numbers[i].num(), &numbers[i].den());
    }
}
