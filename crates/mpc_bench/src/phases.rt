//! The phases on the way from a plant file to a reply, and why a run ends before its reply.

ghost use Rattle.std.specs.Prelude.{◌≡◌, ◌≢◌, ◌≤◌};
ghost use Rattle.mpc_bench.specs.declared.phases.Phase.TheVariants.{Replying};
ghost use Rattle.mpc_bench.specs.Runs.{stop_of};

use mpc_synthesis::SynthesisError;

/// A phase; they stand in the order of a run.
#[derive(Clone, Copy, PartialEq, Eq, Drop)]
pub(crate) enum Phase {
    Reading,
    Deciding,
    Compiling,
    LayingOut,
    Replying,
}

impl Phase {
    /// The phase with this number, counted from 1, and the last one for every other number.
    pub(crate) fn numbered(number: u32) -> Phase
        ensures { result ≢ Replying → number ≤ 4 }
    {
        match number {
            1 => Phase::Reading,
            2 => Phase::Deciding,
            3 => Phase::Compiling,
            4 => Phase::LayingOut,
            _ => Phase::Replying,
        }
    }
}

/// Why a run ends before its reply.
#[derive(Clone, Copy, Drop)]
pub(crate) enum Stop {
    /// The last phase that was asked for is done.
    Asked,
    /// The bytes are no plant file.
    BadPlant,
    /// The Hessian of the plant's program isn't positive definite.
    NotDefinite,
    /// A number needs more than 128 bits.
    TooWide,
    /// Memory ran out.
    NoMemory,
    /// There isn't one count a state, or not room for one number an input.
    OtherSizes,
}

impl From<SynthesisError> for Stop {
    ghost from_gives = { λ error stop. stop ≡ stop_of error };

    fn from(error: SynthesisError) -> Stop {
        match error {
            SynthesisError::NotDefinite(_) => Stop::NotDefinite,
            SynthesisError::TooWide(_) => Stop::TooWide,
            SynthesisError::NoMemory => Stop::NoMemory,
        }
    }
}
