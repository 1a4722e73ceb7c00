//! Numbers by which lines are told from one another.

ghost use Rattle.std.specs.Prelude.{◌≡◌};
ghost use Rattle.mpc_grammar.specs.Digests.{digest};

use std::hash::{FoldHasher, Hasher};

/// A number that tells most lines from one another.
pub fn digest(line: &[u8]) -> u64
    ensures { result ≡ digest line.now }
{
    let mut hasher = FoldHasher::default();
    hasher.write(line);
    hasher.finish()
}
