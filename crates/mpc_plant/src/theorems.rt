//! What holds of every plant.

ghost use Rattle.mpc_plant.specs.Readings.{OneReading};
ghost use Rattle.mpc_plant.specs.Reply.{OneRightReply};

/// At a state at most one reply is right. The call does nothing: its contract is the theorem.
pub fn one_right_reply()
    ensures { OneRightReply }
{}

/// Bytes are the file of at most one plant, or fail one check first. The call does nothing: its contract is the theorem.
pub fn one_reading()
    ensures { OneReading }
{}
