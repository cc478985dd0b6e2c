//! Why a module is refused.

ghost use Rattle.std.specs.Prelude.{◌≡◌};
ghost use Rattle.wz_valid.specs.declared.faults.ValidFault.TheVariants.{NoMemory};

use std::alloc::AllocError;

/// The parts of a module, in the order in which their items are looked at.
#[derive(Clone, Copy, Debug, PartialEq, Eq)]
pub enum Part {
    Import,
    Function,
    Table,
    Memory,
    Global,
    Export,
    Start,
    Element,
    Code,
    DataSegment,
}

/// Why a module isn't valid.
#[derive(Clone, Copy, Debug, PartialEq, Eq)]
pub enum ValidFault {
    /// The first item that isn't ok, by its part and its number there. The start has number 0.
    Invalid { part: Part, index: u32 },
    NoMemory,
}

impl From<AllocError> for ValidFault {
    ghost from_gives = { λ _ fault. fault ≡ NoMemory };

    fn from(_error: AllocError) -> ValidFault {
        ValidFault::NoMemory
    }
}

/// Why a valid module is outside the profile.
#[derive(Clone, Copy, Debug, PartialEq, Eq)]
pub enum OutOfProfile {
    /// The first import that is no function.
    ImportKind { index: u32 },
    /// The pages that all memories start with, which are more than 16,384.
    MemoryTooLarge { pages: u64 },
    /// The entries that the tables up to this one start with, which are more than 10,000,000.
    TableTooLarge { index: u32, entries: u64 },
    /// The first function with more than 50,000 parameters and locals, by its index, imports first.
    TooManyLocals { function: u32, count: u64 },
}
