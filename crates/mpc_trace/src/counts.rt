//! Counts over a history and over a search tree.

ghost use Rattle.std.specs.Prelude.{◌≡◌, IfOk, length};
ghost use Rattle.mpc_claim.specs.History.{claimed_sets, is_claim as is_claim_kind};
ghost use Rattle.mpc_controller.specs.Preorder.{IsTree};
ghost use Rattle.mpc_trace.specs.SearchTree.{IsTreeOf};

use mpc_claim::{Event, EventKind};
use mpc_frac::NoMemory;
use mpc_rows::{Node, Tree};
use std::alloc::Global;

/// Whether something was claimed.
fn is_claim(kind: EventKind) -> bool
    ensures { result ≡ is_claim_kind kind }
{
    match kind {
        EventKind::Claim => true,
        EventKind::Done(_) | EventKind::Drop => false,
    }
}

/// How many claims a history has.
pub fn claim_count(history: &[Event]) -> u64
    ensures { result ≡ length (claimed_sets history.now) }
{
    let mut count = 0;
    for event in history {
        if is_claim(event.kind) {
            count += 1;
        }
    }
    count
}

/// How large a search tree is.
#[derive(Clone, Copy, Debug, PartialEq, Eq)]
pub struct TreeSize {
    /// The number of its leaves.
    pub leaves: u64,
    /// The greatest number of splits above a leaf.
    pub depth: u64,
}

/// The leaves and the depth of a tree. A list says how many splits stand above each node that is still owed, the next one last.
pub fn tree_size(alloc: Global, tree: &Tree) -> Result<TreeSize, NoMemory>
    requires { IsTree tree.now }
    ensures { IfOk result (λ size. IsTreeOf tree.now size.leaves size.depth) }
{
    let mut owed: Vec<u64> = Vec::new(alloc);
    owed.push(0)?;
    let mut leaves = 0;
    let mut depth = 0;
    for node in tree.as_slice() {
        let Some(above) = owed.pop() else {
            unreachable!()
        };
        if let Node::Split(_) = node {
            owed.push(above + 1)?;
            owed.push(above + 1)?;
        } else {
            leaves += 1;
            depth = above.max(depth);
        }
    }
    Ok(TreeSize { leaves, depth })
}
