//! Names of files that outlive the call that gave them.

ghost use Rattle.std.specs.Prelude.{◌≡◌, IfOk};
ghost use Rattle.wz_io.specs.World.{name_of};
ghost use Rattle.wz_io.specs.Names.{owned_name};

use crate::FileName;
use std::alloc::{AllocError, Global};

/// A copy of a `FileName`, with the bytes of the path.
#[derive(Drop)]
pub enum OwnedName {
    Standard,
    Path(Vec<u8>),
}

/// A name with its own copy of the path.
pub fn copy_name(alloc: Global, name: FileName<'_>) -> Result<OwnedName, AllocError>
    ensures { IfOk result (λ copy. owned_name copy ≡ name_of name.entry) }
{
    match name {
        FileName::Standard => Ok(OwnedName::Standard),
        FileName::Path(path) => Ok(OwnedName::Path(Vec::from_slice(alloc, path.as_bytes())?)),
    }
}
