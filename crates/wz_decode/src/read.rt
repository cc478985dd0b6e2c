//! Whole modules.

ghost use Rattle.std.specs.Prelude.{◌≡◌, ◌⊎◌, ◌<◌, ◌-◌, ◌^◌, ℕ, length};
ghost use Rattle.std.specs.Prelude.{IfOk, IsErrOf, IsOkUnless};
ghost use Rattle.wz_module.specs.Module.{Module as PlainModule};
ghost use Rattle.wz_module.specs.Meaning.{module_of};
ghost use Rattle.wz_decode.specs.Spelling.{Spells};
ghost use Rattle.wz_decode.specs.Contents.{IsBadSection};
ghost use Rattle.wz_decode.specs.Front.{HasBadCounts};
ghost use Rattle.wz_decode.specs.Causes.{LacksHeader};
ghost use Rattle.wz_decode.specs.declared.fault.DecodeFault.TheVariants.{NotWasm, BadSection};
ghost use Rattle.wz_decode.specs.declared.fault.DecodeFault.TheVariants.{BadCounts, NoMemory};

use crate::counts::counts_agree;
use crate::fault::DecodeFault;
use crate::parts::read_parts;
use std::alloc::Global;
use wz_module::Module;

/// A module that the bytes spell, or a cause why they spell none.
fn read_module(alloc: Global, bytes: &[u8]) -> Result<Module<'_>, DecodeFault>
    requires { length bytes.now < 2 ^ 32 - 1 }
    ensures found { IfOk result (λ m. Spells bytes.now (module_of m)) }
    ensures not_wasm { IsErrOf result NotWasm → LacksHeader bytes.now }
    ensures bad_section { (at : ℕ) → IsErrOf result (BadSection at) → IsBadSection bytes.now at }
    ensures bad_counts { IsErrOf result BadCounts → HasBadCounts bytes.now }
{
    match read_parts(alloc, bytes) {
        Ok(parts) => {
            if !counts_agree(&parts) {
                return Err(DecodeFault::BadCounts);
            }
            Ok(Module::from_parts(parts))
        }
        Err(fault) => Err(fault),
    }
}

/// Reads a module. Names, payloads and the bytes of data segments are borrowed.
///
/// # Errors
///
/// The cause why the bytes spell no module, exactly where they have it; or `NoMemory`.
pub fn decode(alloc: Global, bytes: &[u8]) -> Result<Module<'_>, DecodeFault>
    requires { length bytes.now < 2 ^ 32 - 1 }
    ensures found { IfOk result (λ m. Spells bytes.now (module_of m)) }
    ensures reads { (m : PlainModule) → Spells bytes.now m → IsOkUnless result NoMemory }
    ensures not_wasm { IsErrOf result NotWasm → LacksHeader bytes.now }
    ensures refuses_not_wasm { LacksHeader bytes.now
        → IsErrOf result NotWasm ⊎ IsErrOf result NoMemory }
    ensures bad_section { (at : ℕ) → IsErrOf result (BadSection at) → IsBadSection bytes.now at }
    ensures refuses_bad_section { (at : ℕ) → IsBadSection bytes.now at
        → IsErrOf result (BadSection at) ⊎ IsErrOf result NoMemory }
    ensures bad_counts { IsErrOf result BadCounts → HasBadCounts bytes.now }
    ensures refuses_bad_counts { HasBadCounts bytes.now
        → IsErrOf result BadCounts ⊎ IsErrOf result NoMemory }
{
    // Nothing more is done: the causes exclude each other and a spelled module, so each gives its
    // own answer.
    read_module(alloc, bytes)
}
