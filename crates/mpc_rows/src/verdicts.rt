//! Verdicts on active sets.

ghost use Rattle.std.specs.Prelude.{◌≡◌};

use crate::{Law, Place};
use mpc_sets::ActiveSet;
use std::marker::Model;

/// What is found of an active set (Gupta, Bhartiya and Nataraj, 2011).
#[derive(Drop)]
pub enum Verdict {
    /// The set's rows are dependent.
    Dependent,
    /// At no state of the box do some unknowns satisfy all rows, and the set's with equality.
    Unreachable,
    /// The law's region has no state of the box.
    Hollow,
    /// The law, whose region has a state of the box.
    Region(Law),
    /// The first run on the set that forms a number too wide for 128 bits.
    Wide(Place),
}

/// An active set with its verdict. It holds no program: whoever delivers one owes that the verdict
/// is right for the program in question.
#[derive(Drop)]
pub struct Judged {
    set: ActiveSet,
    verdict: Verdict,
}

impl Model for Judged {
    ghost use Rattle.mpc_rows.specs.JudgedSet.{JudgedSet};

    ghost Value = { JudgedSet };

    ghost view = { λ j. record { set = j.set; verdict = j.verdict } };
}

impl Judged {
    /// The set with this verdict.
    pub fn of(set: ActiveSet, verdict: Verdict) -> Judged
        ensures set { result.set ≡ set }
        ensures verdict { result.verdict ≡ verdict }
    {
        Judged { set, verdict }
    }

    /// The set.
    pub fn set(&self) -> ActiveSet
        ensures { result ≡ self.now.set }
    {
        self.set
    }

    /// The verdict on it.
    pub fn verdict(&self) -> &Verdict
        ensures { result.now ≡ self.now.verdict }
    {
        &self.verdict
    }

    /// The verdict alone.
    pub fn into_verdict(self) -> Verdict
        ensures { result ≡ self.verdict }
    {
        let Judged { set: _, verdict } = self;
        verdict
    }
}
