//! What holds of the hand of a pass.

ghost use Rattle.mpc_turn.specs.HandTheorems.{ClaimFills, ClaimIsInHand, EndEmpties};

use mpc_claim::legal_theorems;

/// A claim that gives a set out puts it into an empty hand, where its ticket may be spent, and its end takes it out
/// again. The call does nothing: its contract is the theorems.
pub fn hand_theorems()
    ensures claimed { ClaimFills }
    ensures in_hand { ClaimIsInHand }
    ensures ended { EndEmpties }
{
    legal_theorems();
}
