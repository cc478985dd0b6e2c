//! The module that the bytes of an input spell.

ghost use Rattle.std.specs.Prelude.{◌≤◌, length, IfOk, IfErr};
ghost use Rattle.wz_io.specs.Reading.{input_limit};
ghost use Rattle.wz_module.specs.Meaning.{module_of};
ghost use Rattle.wz_decode.specs.Spelling.{Spells};
ghost use Rattle.wz_words.specs.Settings.{Settings as PlainSettings};
ghost use Rattle.wz_top.specs.Verdict.{IsRefusedBy, IsAccepted};

use crate::Outcome;
use crate::refusals::{decode_outcome, valid_outcome};
use std::alloc::Global as Heap;
use wz_decode::decode;
use wz_module::Module;
use wz_valid::{profile, validate};

/// The module that the bytes spell.
fn read_module(alloc: Heap, bytes: &[u8]) -> Result<Module<'_>, Outcome>
    requires within { length bytes.now ≤ input_limit }
    ensures spelled { IfOk result (λ m. Spells bytes.now (module_of m)) }
    ensures refused { IfErr result (λ refusal.
        (s : PlainSettings) → IsRefusedBy s bytes.now refusal) }
{
    match decode(alloc, bytes) {
        Ok(module) => Ok(module),
        Err(fault) => Err(decode_outcome(fault)),
    }
}

/// The module that the bytes spell, where it is valid and within the profile.
pub fn accept(alloc: Heap, bytes: &[u8]) -> Result<Module<'_>, Outcome>
    requires within { length bytes.now ≤ input_limit }
    ensures accepted { IfOk result (λ m. IsAccepted bytes.now (module_of m)) }
    ensures refused { IfErr result (λ refusal.
        (s : PlainSettings) → IsRefusedBy s bytes.now refusal) }
{
    let accepted = match read_module(alloc, bytes) {
        Ok(accepted) => accepted,
        Err(refusal) => return Err(refusal),
    };
    if let Err(fault) = validate(alloc, &accepted) {
        return Err(valid_outcome(fault));
    }
    if let Err(cause) = profile(&accepted) {
        return Err(Outcome::Profile(cause));
    }
    Ok(accepted)
}
