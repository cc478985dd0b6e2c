//! The types of functions by their indices.

ghost use Rattle.std.specs.Prelude.{◌≡◌, slice_get};
ghost use Rattle.wz_module.specs.Meaning.{module_of};
ghost use Rattle.wz_exports.specs.Functions.{signatures_of, takes_nothing};

use wz_module::{ImportKind, Module};

/// The number of a function's type.
fn signature_number(module: &Module<'_>, index: u32) -> Option<u32>
    ensures { result ≡ slice_get (signatures_of (module_of «module».now)) index }
{
    let mut left = index;
    for import in module.imports() {
        if let ImportKind::Func(number) = import.kind {
            if left == 0 {
                return Some(number);
            }
            left -= 1;
        }
    }
    module.functions().get(left as usize).copied()
}

/// Whether the function is there and has neither parameters nor results.
pub(crate) fn takes_nothing(module: &Module<'_>, index: u32) -> bool
    ensures { result ≡ takes_nothing (module_of «module».now) index }
{
    let Some(number) = signature_number(module, index) else {
        return false;
    };
    match module.types().get(number as usize) {
        Some(kind) => kind.params().is_empty() && kind.results().is_empty(),
        None => false,
    }
}
