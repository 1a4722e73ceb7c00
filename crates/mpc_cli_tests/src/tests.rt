//! The command on devices that fail, and its workers at a gate.
use std::alloc::Global;
use std::test::Fail;

mod devices;
mod workers;

/// A tank with the levels -4 to 4, and four of them.
const TANK: &[u8] =
    b"{\"version\":1,\"horizon\":1,\"A\":[[1]],\"B\":[[1]],\"Q\":[[1]],\"R\":[[1]],\"P\":[[1]],\"grid\":[{\"low\":-4,\"step\":1,\"count\":8}]}\nstates\n0\n3\n4\n8\n";

/// The tank without recorded states, with its inflow from -1 to 1.
const LIMITED: &[u8] =
    b"{\"version\":1,\"horizon\":1,\"A\":[[1]],\"B\":[[1]],\"Q\":[[1]],\"R\":[[1]],\"P\":[[1]],\"rows\":[{\"u\":[1],\"max\":1},{\"u\":[-1],\"max\":1}],\"grid\":[{\"low\":-4,\"step\":1,\"count\":8}]}";

/// The words between the blanks of a line.
fn split_words(alloc: Global, line: &str) -> Result<Vec<String>, Fail> {
    let mut words = Vec::new(alloc);
    for word in line.split(' ') {
        words.push(String::from_str(alloc, word)?)?;
    }
    Ok(words)
}
