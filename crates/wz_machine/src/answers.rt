//! What the calls of a machine come to.

use crate::questions::Ask;
use std::alloc::{AllocError, AllocFailed};
use thiserror::Error;
use wz_types::{TrapKind, Values};

/// What a tick comes to. Values that are done stand in the order of pushing.
#[derive(Drop)]
pub enum Tick {
    /// No term stands.
    Idle,
    /// The term on top made a step and goes on.
    Went,
    /// It ended with these values and is gone.
    Done(Values),
    /// It trapped and is gone.
    Trapped(TrapKind),
    /// It waits for the answer.
    Asked(Ask),
}

/// The call doesn't fit what stands on top, and nothing has changed.
#[derive(Clone, Copy, Debug, PartialEq, Eq, Error)]
#[error("the machine waits for something else")]
pub struct NotNow;

/// Why no function was entered. The first that applies, in this order.
#[derive(Clone, Copy, Debug, PartialEq, Eq)]
pub enum EnterFault {
    /// The term on top doesn't wait for the host.
    NotNow,
    /// The store has no such function, or its type or body isn't there.
    NoFunction,
    /// The arguments don't fit the function's parameters.
    Unfit,
    NoMemory,
}

/// Why growth wasn't answered.
#[derive(Clone, Copy, Debug, PartialEq, Eq)]
pub enum GrowFault {
    /// No growth is asked for, or what was granted isn't within the limits any more.
    NotNow,
    NoMemory,
}

/// Why a call of the host wasn't answered.
#[derive(Clone, Copy, Debug, PartialEq, Eq)]
pub enum HostFault {
    /// No function of the host is called, or the values don't fit its results.
    NotNow,
    NoMemory,
}

impl From<AllocError> for EnterFault {
    ghost use Rattle.std.specs.Prelude.{◌≡◌};
    ghost use Rattle.wz_machine.specs.declared.answers.EnterFault.TheVariants.{NoMemory};

    ghost from_gives = { λ error fault. fault ≡ NoMemory };

    fn from(_error: AllocError) -> EnterFault {
        EnterFault::NoMemory
    }
}

impl<T: Drop> From<AllocFailed<T>> for EnterFault {
    ghost use Rattle.std.specs.Prelude.{◌≡◌};
    ghost use Rattle.wz_machine.specs.declared.answers.EnterFault.TheVariants.{NoMemory};

    ghost from_gives = { λ error fault. fault ≡ NoMemory };

    fn from(_error: AllocFailed<T>) -> EnterFault {
        EnterFault::NoMemory
    }
}

impl From<AllocError> for GrowFault {
    ghost use Rattle.std.specs.Prelude.{◌≡◌};
    ghost use Rattle.wz_machine.specs.declared.answers.GrowFault.TheVariants.{NoMemory};

    ghost from_gives = { λ error fault. fault ≡ NoMemory };

    fn from(_error: AllocError) -> GrowFault {
        GrowFault::NoMemory
    }
}

impl From<AllocError> for HostFault {
    ghost use Rattle.std.specs.Prelude.{◌≡◌};
    ghost use Rattle.wz_machine.specs.declared.answers.HostFault.TheVariants.{NoMemory};

    ghost from_gives = { λ error fault. fault ≡ NoMemory };

    fn from(_error: AllocError) -> HostFault {
        HostFault::NoMemory
    }
}
