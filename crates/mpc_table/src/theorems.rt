//! What holds of every table.

ghost use Rattle.mpc_table.specs.TableTheorems.{OneListEach, MovesEachInput, LeastForms};
ghost use Rattle.mpc_table.specs.ReplyLines.{OneText, RepliesAreRight};

use mpc_controller::one_leaf;

/// A table has one list of forms for each law of its controller, such a law moves each input, and the
/// numerators over a least common denominator are a form. The call does nothing: its contract is the
/// theorems.
#[inline]
pub fn table_theorems()
    ensures one_list_each { OneListEach }
    ensures moves_each_input { MovesEachInput }
    ensures least_forms { LeastForms }
{}

/// Where each reply of a controller to a point of its plant's box is right, its replies to lines are the
/// plant's. The call does nothing: its contract is the theorem.
pub fn right_replies()
    ensures { RepliesAreRight }
{}

/// A controller has one text of replies to given lines. The call does nothing: its contract is the theorem.
pub fn one_text()
    ensures { OneText }
{
    one_leaf();
}
