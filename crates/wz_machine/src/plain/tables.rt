//! Table instructions (Core Specification 2.0, section 4.4.6), but for table.grow.

ghost use Rattle.std.specs.Prelude.{◌≡◌, ◌<◌, ◌≤◌, length, slice_get};
ghost use Rattle.wz_machine.specs.PlainSteps.{used, ValueReply, StoreReply};
ghost use Rattle.wz_machine.specs.Operands.{reply_of};
ghost use Rattle.wz_machine.specs.TableSteps.{table_get_step, table_set_step, table_size_step};
ghost use Rattle.wz_machine.specs.TableSteps.{table_fill_step, table_copy_step, table_init_step};
ghost use Rattle.wz_machine.specs.TableSteps.{elem_drop_step};

use crate::plain::Plain;
use crate::plain::operands::{number_on, put, reference_on, three_on};
use wz_bulk::Bulk;
use wz_linear::Linear;
use wz_store::Store;
use wz_types::Value;

/// What became of an instruction on a range, above so many values.
pub(super) fn done(answer: Bulk, below: usize) -> Plain
    ensures { result ≡ reply_of below answer }
{
    match answer {
        Bulk::Did => Plain::Went(below),
        Bulk::Trap(kind) => Plain::Trapped(kind),
        Bulk::Stuck => Plain::NoRule,
    }
}

pub(super) fn table_get<M: Linear>(
    table: u32,
    own: &mut [Value],
    have: usize,
    store: &Store<'_, M>,
) -> Plain
    requires { have ≤ length own.old }
    ensures { ValueReply result
        (table_get_step (slice_get store.now.tables table) (used have own.old))
        have own.old own.new }
{
    let Some(at) = number_on(own, have) else {
        return Plain::NoRule;
    };
    match wz_bulk::table_get(store, table, at) {
        Ok(reference) => {
            put(own, have - 1, Value::Ref(reference));
            Plain::Went(have)
        }
        Err(Bulk::Trap(kind)) => Plain::Trapped(kind),
        Err(Bulk::Stuck | Bulk::Did) => Plain::NoRule,
    }
}

pub(super) fn table_set<M: Linear>(
    table: u32,
    own: &[Value],
    have: usize,
    store: &mut Store<'_, M>,
) -> Plain
    requires { have ≤ length own.now }
    ensures { StoreReply result
        (table_set_step table (slice_get store.old.tables table) (used have own.now))
        have own.now store.old store.new }
{
    let Some(reference) = reference_on(own, have) else {
        return Plain::NoRule;
    };
    let Some(at) = number_on(own, have - 1) else {
        return Plain::NoRule;
    };
    done(wz_bulk::table_set(store, table, at, reference), have - 2)
}

pub(super) fn table_size<M: Linear>(
    table: u32,
    own: &mut [Value],
    have: usize,
    store: &Store<'_, M>,
) -> Plain
    requires { have < length own.old }
    ensures { ValueReply result
        (table_size_step (slice_get store.now.tables table) (used have own.old))
        have own.old own.new }
{
    match wz_bulk::table_size(store, table) {
        Some(size) => {
            put(own, have, Value::I32(size));
            Plain::Went(have + 1)
        }
        None => Plain::NoRule,
    }
}

pub(super) fn table_fill<M: Linear>(
    table: u32,
    own: &[Value],
    have: usize,
    store: &mut Store<'_, M>,
) -> Plain
    requires { have ≤ length own.now }
    ensures { StoreReply result
        (table_fill_step table (slice_get store.old.tables table) (used have own.now))
        have own.now store.old store.new }
{
    let Some(len) = number_on(own, have) else {
        return Plain::NoRule;
    };
    let Some(reference) = reference_on(own, have - 1) else {
        return Plain::NoRule;
    };
    let Some(to) = number_on(own, have - 2) else {
        return Plain::NoRule;
    };
    done(
        wz_bulk::table_fill(store, table, to, reference, len),
        have - 3,
    )
}

pub(super) fn table_copy<M: Linear>(
    to_table: u32,
    from_table: u32,
    own: &[Value],
    have: usize,
    store: &mut Store<'_, M>,
) -> Plain
    requires { have ≤ length own.now }
    ensures { StoreReply result
        (table_copy_step to_table (slice_get store.old.tables to_table)
        (slice_get store.old.tables from_table) (used have own.now))
        have own.now store.old store.new }
{
    let Some((to, from, len)) = three_on(own, have) else {
        return Plain::NoRule;
    };
    let answer = wz_bulk::table_copy(store, to_table, from_table, to, from, len);
    done(answer, have - 3)
}

pub(super) fn table_init<M: Linear>(
    segment: u32,
    table: u32,
    own: &[Value],
    have: usize,
    store: &mut Store<'_, M>,
) -> Plain
    requires { have ≤ length own.now }
    ensures { StoreReply result
        (table_init_step table (slice_get store.old.tables table)
        (slice_get store.old.elements segment) (used have own.now))
        have own.now store.old store.new }
{
    let Some((to, from, len)) = three_on(own, have) else {
        return Plain::NoRule;
    };
    let answer = wz_bulk::table_init(store, segment, table, to, from, len);
    done(answer, have - 3)
}

pub(super) fn elem_drop<M: Linear>(
    segment: u32,
    own: &[Value],
    have: usize,
    store: &mut Store<'_, M>,
) -> Plain
    ensures { StoreReply result
        (elem_drop_step segment (slice_get store.old.elements segment) (used have own.now))
        have own.now store.old store.new }
{
    done(wz_bulk::elem_drop(store, segment), have)
}
