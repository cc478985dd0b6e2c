//! Names of exports, no two of which are the same (Core Specification 2.0, section 3.4.10).

ghost use Rattle.std.specs.Prelude.{IfOk};
ghost use Rattle.wz_module.specs.Meaning.{module_of};
ghost use Rattle.wz_valid.specs.Checking.{AreNamesNew};

use std::alloc::{AllocError, Global};
use std::collections::BTreeSet;
use wz_module::Module;

/// How many exports, from the first on, have names that no earlier one has.
pub fn new_names(alloc: Global, module: &Module<'_>) -> Result<usize, AllocError>
    ensures { IfOk result (λ count. AreNamesNew (module_of «module».now) count) }
{
    let exports = module.exports();
    let mut names = BTreeSet::new(alloc);
    for (index, export) in exports.iter().enumerate() {
        if !names.insert(export.name)? {
            return Ok(index);
        }
    }
    Ok(exports.len())
}
