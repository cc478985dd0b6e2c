//! Why a section was not read.

use std::alloc::{AllocError, AllocFailed};
use wz_bytes::ItemFault;

/// Why no contents of a section were read: the payload spells none, or there was no memory for
/// them.
#[derive(Clone, Copy, Debug, PartialEq, Eq)]
pub enum SectionFault {
    Bad,
    NoMemory,
}

impl From<AllocError> for SectionFault {
    ghost use Rattle.std.specs.Prelude.{◌≡◌};
    ghost use Rattle.wz_decode_sections.specs.declared.fault.SectionFault.TheVariants.{NoMemory};

    ghost from_gives = { λ _ e. e ≡ NoMemory };

    fn from(_error: AllocError) -> SectionFault {
        SectionFault::NoMemory
    }
}

impl<T: Drop> From<AllocFailed<T>> for SectionFault {
    ghost use Rattle.std.specs.Prelude.{◌≡◌};
    ghost use Rattle.wz_decode_sections.specs.declared.fault.SectionFault.TheVariants.{NoMemory};

    ghost from_gives = { λ _ e. e ≡ NoMemory };

    fn from(_error: AllocFailed<T>) -> SectionFault {
        SectionFault::NoMemory
    }
}

impl From<ItemFault> for SectionFault {
    ghost use Rattle.std.specs.Prelude.{◌≡◌};
    ghost use Rattle.wz_decode_sections.specs.Faults.{section_fault};

    ghost from_gives = { λ f e. e ≡ section_fault f };

    fn from(fault: ItemFault) -> SectionFault {
        match fault {
            ItemFault::Bad => SectionFault::Bad,
            ItemFault::NoMemory => SectionFault::NoMemory,
        }
    }
}
