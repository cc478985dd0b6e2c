//! Functions that the output must still declare.

ghost use Rattle.std.specs.Prelude.{◌≡◌, IfOk};
ghost use Rattle.wz_module.specs.Meaning.{module_of};
ghost use Rattle.wz_exports.specs.Undeclared.{undeclared_functions};

use crate::kept::Kept;
use crate::references::References;
use std::alloc::{AllocError, Global};
use wz_module::Module;
use wz_snapshot::Recorded;

/// The functions of which a body makes a reference by `ref.func` and which occur in no kept export,
/// no element segment and no reached global, from the lowest on: in the output nothing else would
/// declare them (Core Specification 2.0, section 3.4.10).
pub fn undeclared(
    alloc: Global,
    module: &Module<'_>,
    snapshot: &Recorded,
    kept: &Kept,
) -> Result<Vec<u32>, AllocError>
    ensures { IfOk result (λ functions. functions.items ≡
        undeclared_functions (module_of «module».now) snapshot.now kept.now) }
{
    let mut named = References::new(alloc);
    named.add_bodies(module.bodies())?;
    let mut elsewhere = References::new(alloc);
    elsewhere.add_segments(module.elements())?;
    elsewhere.add_exports(kept)?;
    elsewhere.add_values(snapshot.globals())?;
    named.without(alloc, &elsewhere)
}
