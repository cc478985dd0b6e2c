//! Why the exports that the settings ask for can't be had.

use std::alloc::AllocError;
use wz_types::Text;

/// The first fault of the exports that the settings name.
#[derive(Drop)]
pub enum ExportFault {
    /// No export has the name of the function that is to run.
    NoInit { name: Text },
    /// The export of this name is no function.
    InitNotFunction { name: Text },
    /// The function has parameters or results.
    InitType { name: Text },
    /// No export has the name that is to be renamed.
    RenameMissing { src: Text },
    /// The export that is to be renamed is no function.
    RenameNotFunction { src: Text },
    /// The export that is to be renamed leaves, since a function that ran was named by it.
    RenameInit { src: Text },
    NoMemory,
}

impl From<AllocError> for ExportFault {
    ghost use Rattle.std.specs.Prelude.{◌≡◌};
    ghost use Rattle.wz_exports.specs.declared.fault.ExportFault.TheVariants.{NoMemory};

    ghost from_gives = { λ error fault. fault ≡ NoMemory };

    fn from(_error: AllocError) -> ExportFault {
        ExportFault::NoMemory
    }
}
