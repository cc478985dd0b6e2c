//! Variable instructions (Core Specification 2.0, section 4.4.5).

ghost use Rattle.std.specs.Prelude.{◌<◌, ◌≤◌, length, slice_get};
ghost use Rattle.wz_machine.specs.PlainSteps.{used, ValueReply, LocalReply, StoreReply};
ghost use Rattle.wz_machine.specs.VariableSteps.{local_get_step, local_set_step, local_tee_step};
ghost use Rattle.wz_machine.specs.VariableSteps.{global_get_step, global_set_step};

use crate::plain::Plain;
use crate::plain::operands::{put, value_on};
use wz_linear::Linear;
use wz_store::Store;
use wz_types::Value;

#[inline(always)]
pub(super) fn local_get(index: u32, locals: &[Value], own: &mut [Value], have: usize) -> Plain
    requires { have < length own.old }
    ensures { ValueReply result
        (local_get_step (slice_get locals.now index) (used have own.old)) have own.old own.new }
{
    match locals.get(index as usize) {
        Some(value) => {
            put(own, have, *value);
            Plain::Went(have + 1)
        }
        None => Plain::NoRule,
    }
}

#[inline(always)]
pub(super) fn local_set(index: u32, locals: &mut [Value], own: &[Value], have: usize) -> Plain
    requires { have ≤ length own.now }
    ensures { LocalReply result
        (local_set_step locals.old index (slice_get locals.old index) (used have own.now))
        have own.now locals.old locals.new }
{
    if index as usize >= locals.len() {
        return Plain::NoRule;
    }
    match value_on(own, have) {
        Some(value) => {
            locals[index as usize] = value;
            Plain::Went(have - 1)
        }
        None => Plain::NoRule,
    }
}

#[inline(always)]
pub(super) fn local_tee(index: u32, locals: &mut [Value], own: &[Value], have: usize) -> Plain
    requires { have ≤ length own.now }
    ensures { LocalReply result
        (local_tee_step locals.old index (slice_get locals.old index) (used have own.now))
        have own.now locals.old locals.new }
{
    if index as usize >= locals.len() {
        return Plain::NoRule;
    }
    match value_on(own, have) {
        Some(value) => {
            locals[index as usize] = value;
            Plain::Went(have)
        }
        None => Plain::NoRule,
    }
}

#[inline(always)]
pub(super) fn global_get<M: Linear>(
    index: u32,
    own: &mut [Value],
    have: usize,
    store: &Store<'_, M>,
) -> Plain
    requires { have < length own.old }
    ensures { ValueReply result
        (global_get_step (slice_get store.now.globals index) (used have own.old))
        have own.old own.new }
{
    match store.global(index) {
        Some(value) => {
            put(own, have, value);
            Plain::Went(have + 1)
        }
        None => Plain::NoRule,
    }
}

#[inline(always)]
pub(super) fn global_set<M: Linear>(
    index: u32,
    own: &[Value],
    have: usize,
    store: &mut Store<'_, M>,
) -> Plain
    requires { have ≤ length own.now }
    ensures { StoreReply result
        (global_set_step (length store.old.functions) (length store.old.types) index
        (slice_get store.old.globals index) (used have own.now))
        have own.now store.old store.new }
{
    let Some(kind) = store.global_type(index) else {
        return Plain::NoRule;
    };
    let Some(value) = value_on(own, have) else {
        return Plain::NoRule;
    };
    let types = store.types().len() as u32;
    if !value.fits(kind.value, store.function_count(), types) {
        return Plain::NoRule;
    }
    store.set_global(index, value);
    Plain::Went(have - 1)
}
