//! Reference instructions (Core Specification 2.0, section 4.4.2).

ghost use Rattle.std.specs.Prelude.{◌<◌, ◌≤◌, List, length, slice_get};
ghost use Rattle.wz_code.specs.BodyParts.{BodyParts};
ghost use Rattle.wz_machine.specs.State.{state_of};
ghost use Rattle.wz_machine.specs.PlainSteps.{used, ValueReply};
ghost use Rattle.wz_machine.specs.ReferenceSteps.{ref_null_step, ref_is_null_step, ref_func_step};

use crate::plain::Plain;
use crate::plain::operands::{put, reference_on};
use wz_linear::Linear;
use wz_store::Store;
use wz_types::{RefKind, Reference, Value};

#[inline(always)]
pub(super) fn ref_null(kind: RefKind, own: &mut [Value], have: usize) -> Plain
    requires { have < length own.old }
    ensures { ValueReply result (ref_null_step kind (used have own.old)) have own.old own.new }
{
    put(own, have, Value::Ref(Reference::Null(kind)));
    Plain::Went(have + 1)
}

#[inline(always)]
pub(super) fn ref_is_null(own: &mut [Value], have: usize) -> Plain
    requires { have ≤ length own.old }
    ensures { ValueReply result (ref_is_null_step (used have own.old)) have own.old own.new }
{
    let Some(reference) = reference_on(own, have) else {
        return Plain::NoRule;
    };
    let is_null = match reference {
        Reference::Null(_) => 1,
        Reference::Fn(_) | Reference::Foreign { id: _, sort: _ } => 0,
    };
    put(own, have - 1, Value::I32(is_null));
    Plain::Went(have)
}

#[inline(always)]
pub(super) fn ref_func<M: Linear>(
    index: u32,
    own: &mut [Value],
    have: usize,
    store: &Store<'_, M>,
) -> Plain
    requires { have < length own.old }
    ensures { (bodies : List BodyParts) → ValueReply result
        (ref_func_step index (slice_get (state_of bodies store.now).functions index)
        (used have own.old)) have own.old own.new }
{
    if store.function(index).is_none() {
        return Plain::NoRule;
    }
    put(own, have, Value::Ref(Reference::Fn(index)));
    Plain::Went(have + 1)
}
