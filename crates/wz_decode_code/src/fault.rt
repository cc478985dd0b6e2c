//! Why no code was read.

ghost use Rattle.std.specs.Prelude.{◌≡◌};
ghost use Rattle.wz_decode_code.specs.declared.fault.CodeFault.TheVariants.{NoMemory};

use std::alloc::{AllocError, AllocFailed};
use wz_bytes::ItemFault;

/// Why no code was read: none is spelled there, or there was no memory for it.
#[derive(Clone, Copy, Debug, PartialEq, Eq)]
pub enum CodeFault {
    Bad,
    NoMemory,
}

impl From<AllocError> for CodeFault {
    ghost from_gives = { λ _ e. e ≡ NoMemory };

    fn from(_e: AllocError) -> CodeFault {
        CodeFault::NoMemory
    }
}

impl<T: Drop> From<AllocFailed<T>> for CodeFault {
    ghost from_gives = { λ _ e. e ≡ NoMemory };

    fn from(_e: AllocFailed<T>) -> CodeFault {
        CodeFault::NoMemory
    }
}

impl From<CodeFault> for ItemFault {
    ghost use Rattle.wz_decode_code.specs.Faults.{item_fault};

    ghost from_gives = { λ f e. e ≡ item_fault f };

    fn from(fault: CodeFault) -> ItemFault {
        match fault {
            CodeFault::Bad => ItemFault::Bad,
            CodeFault::NoMemory => ItemFault::NoMemory,
        }
    }
}
