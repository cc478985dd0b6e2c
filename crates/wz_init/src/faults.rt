//! Why a module has no fresh instance, or none behind its initialisation.

use crate::order::Phase;
use std::alloc::AllocError;
use wz_code::NumOp;
use wz_types::TrapKind;

/// The first segment, in the order in which they are copied, that ends past its table or memory
/// (Core Specification, section 4.5.4).
#[derive(Clone, Copy, Debug, PartialEq, Eq)]
pub enum StartFault {
    ElementOutOfBounds { index: u32 },
    DataOutOfBounds { index: u32 },
    NoMemory,
}

impl From<AllocError> for StartFault {
    ghost use Rattle.std.specs.Prelude.{◌≡◌};
    ghost use Rattle.wz_init.specs.declared.faults.StartFault.TheVariants.{NoMemory};

    ghost from_gives = { λ error fault. fault ≡ NoMemory };

    fn from(_error: AllocError) -> StartFault {
        StartFault::NoMemory
    }
}

/// Why the state behind a module's initialisation can't be had.
#[derive(Clone, Copy, PartialEq, Eq)]
pub enum InitFault {
    ElementOutOfBounds { index: u32 },
    DataOutOfBounds { index: u32 },
    /// The phase's function trapped.
    Trap { phase: Phase, kind: TrapKind },
    /// The run hasn't ended after as many ticks as were allowed.
    OutOfFuel,
    ImportCalled { import: u32 },
    /// The result of this float operation is up to the surroundings.
    FloatUsed { op: NumOp },
    TableChanged,
    /// There would be more than 20,000 frames at one time.
    TooManyFrames,
    /// The frames would have more than 4,000,000 locals together.
    TooManyFrameLocals,
    NoMemory,
}

impl From<AllocError> for InitFault {
    ghost use Rattle.std.specs.Prelude.{◌≡◌};
    ghost use Rattle.wz_init.specs.declared.faults.InitFault.TheVariants.{NoMemory};

    ghost from_gives = { λ error fault. fault ≡ NoMemory };

    fn from(_error: AllocError) -> InitFault {
        InitFault::NoMemory
    }
}
