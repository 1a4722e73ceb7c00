//! The state of a controller's box from which a step leads out of it.

use mpc_files::{Safety, safe_file};
use mpc_frac::Frac;
use std::test::Fail;

/// A tank whose level doubles.
const DOUBLING: &[u8] =
    b"mpc 1\nsize 1 1 1\nA 2\nB 1\nQ 1\nR 1\nP 1\nrows 2\nrow 0 1 1\nrow 0 -1 1\nterminal 0\ngrid -4 1 8\nlaws 3\nlaw\nmove 4 -1\nlaw 1\nmove 1 0\nmult 6 -2\nlaw 2\nmove -1 0\nmult -10 2\ntree\nsplit -1 -3\nsplit 1 5\nleaf 1\ncert 3 1 5 1\ncert 4 1 5 1\nleaf 3\ncert 5 1\ncert 4 1 5 1\nleaf 2\ncert 3 1 4 1\ncert 4 1\nend\n";

#[test]
fn a_state_and_its_step(rt: HostRuntime) -> Result<(), Fail> {
    let alloc = rt.alloc();
    let Ok(Safety::Unsafe(one, point)) = safe_file(&rt, alloc, DOUBLING) else {
        panic!(rt; "the level of 4 leads to 7");
    };
    let half = Frac::new(1, 2)?;
    let near = Frac::new(13, 2)?;
    assert_eq!(rt; point.as_slice(), [(near, half)].as_slice());
    let mut text = Vec::new(alloc);
    one.write(&mut text)?;
    assert_eq!(rt; text.as_slice(), b"4 high 1".as_slice());
    Ok(())
}
