//! What holds of every search tree, of every controller's replies, and of the bounds on its numbers.

ghost use Rattle.mpc_controller.specs.OneBound.{OneFirstBroken, KeptNotBroken};
ghost use Rattle.mpc_controller.specs.OneLeaf.{OneLeaf};
ghost use Rattle.mpc_controller.specs.ReplyTheorems.{RepliesEverywhere};
ghost use Rattle.mpc_controller.specs.PreorderTheorems.{SplitSpells, LeafSpells, JoinedSpell};
ghost use Rattle.mpc_controller.specs.Paths.{OnePath};
ghost use Rattle.mpc_controller.specs.Ways.{PathOfWay, TurnsOfWay};

/// At each point the walk through a tree ends, and at one leaf only. The call does nothing: its
/// contract is the theorem.
pub fn one_leaf()
    ensures { OneLeaf }
{}

/// A controller replies at each point. The call does nothing: its contract is the theorem.
pub fn replies_everywhere()
    ensures { RepliesEverywhere }
{}

/// Nodes in preorder spell trees one after another: one node more spells one tree less or one more, and
/// the nodes of other trees may stand behind them. The call does nothing: its contract is the theorems.
pub fn preorder_theorems()
    ensures split { SplitSpells }
    ensures leaf { LeafSpells }
    ensures joined { JoinedSpell }
{}

/// One bound is the first that is broken, and none is where all are kept. The call does nothing: its
/// contract is the theorems.
pub fn bound_theorems()
    ensures one_first_broken { OneFirstBroken }
    ensures kept_not_broken { KeptNotBroken }
{}

/// The rows that hold on the path to a node of a search tree are determined by the tree.
pub fn one_path()
    ensures { OnePath }
{}

/// A way turns at splits, and its rows are those of the path to its node.
pub fn way_theorems()
    ensures path { PathOfWay }
    ensures turns { TurnsOfWay }
{}
