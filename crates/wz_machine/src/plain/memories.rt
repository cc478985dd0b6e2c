//! Memory instructions (Core Specification 2.0, section 4.4.7), but for memory.grow.

ghost use Rattle.std.specs.Prelude.{◌≡◌, ◌<◌, ◌≤◌, ◌^◌, ◌+◌, length, slice_get, Some, IfOk, OnErr, IsFalse, if◌then◌else◌};
ghost use Rattle.wz_types.specs.declared.trap.TrapKind.TheVariants.{MemoryBounds};
ghost use Rattle.wz_code.specs.Accesses.{shape_of};
ghost use Rattle.wz_machine.specs.PlainSteps.{used, ValueReply, StoreReply};
ghost use Rattle.wz_machine.specs.declared.plain.Plain.TheVariants.{Went, Trapped};
ghost use Rattle.wz_machine.specs.Operands.{loaded_value};
ghost use Rattle.wz_machine.specs.MemorySteps.{load_step, store_step, bits_of_value};
ghost use Rattle.wz_machine.specs.MemorySteps.{memory_size_step, memory_fill_step};
ghost use Rattle.wz_machine.specs.MemorySteps.{memory_copy_step, memory_init_step, data_drop_step};

use crate::plain::Plain;
use crate::plain::operands::{number_on, put, three_on, value_on};
use crate::plain::tables::done;
use std::alloc::AllocError;
use wz_code::{MemOp, access};
use wz_linear::Linear;
use wz_store::Store;
use wz_types::{TrapKind, ValType, Value};

/// The place that an access goes to: it doesn't wrap.
#[inline(always)]
fn place_of(base: u32, offset: u32) -> u64
    ensures { result ≡ base + offset }
{
    u64::from(base) + u64::from(offset)
}

/// The value that a load makes of the number in memory.
#[inline(always)]
fn loaded(op: MemOp, number: u64) -> Value
    requires loads { IsFalse (shape_of op).store }
    requires narrow { number < 256 ^ (shape_of op).bytes }
    ensures { loaded_value (shape_of op) number ≡ Some result }
{
    match op {
        MemOp::I32Load => Value::I32(number as u32),
        MemOp::I64Load => Value::I64(number),
        MemOp::F32Load => Value::F32(number as u32),
        MemOp::F64Load => Value::F64(number),
        MemOp::I32Load8S => Value::I32(i32::from((number as u8).cast_signed()).cast_unsigned()),
        MemOp::I32Load16S => Value::I32(i32::from((number as u16).cast_signed()).cast_unsigned()),
        MemOp::I32Load8U | MemOp::I32Load16U => Value::I32(number as u32),
        MemOp::I64Load8S => Value::I64(i64::from((number as u8).cast_signed()).cast_unsigned()),
        MemOp::I64Load16S => Value::I64(i64::from((number as u16).cast_signed()).cast_unsigned()),
        MemOp::I64Load32S => Value::I64(i64::from((number as u32).cast_signed()).cast_unsigned()),
        MemOp::I64Load8U | MemOp::I64Load16U | MemOp::I64Load32U => Value::I64(number),
        MemOp::I32Store
        | MemOp::I64Store
        | MemOp::F32Store
        | MemOp::F64Store
        | MemOp::I32Store8
        | MemOp::I32Store16
        | MemOp::I64Store8
        | MemOp::I64Store16
        | MemOp::I64Store32 => unreachable!(),
    }
}

#[inline(always)]
pub(super) fn load<M: Linear>(
    op: MemOp,
    offset: u32,
    memory: u32,
    own: &mut [Value],
    have: usize,
    store: &Store<'_, M>,
) -> Plain
    requires room { have ≤ length own.old }
    requires loads { IsFalse (shape_of op).store }
    ensures { ValueReply result
        (load_step (shape_of op) offset (slice_get store.now.memories memory) (used have own.old))
        have own.old own.new }
{
    let Some(bytes) = store.memory(memory) else {
        return Plain::NoRule;
    };
    let Some(base) = number_on(own, have) else {
        return Plain::NoRule;
    };
    match bytes.load(place_of(base, offset), access(op).bytes) {
        Some(number) => {
            put(own, have - 1, loaded(op, number));
            Plain::Went(have)
        }
        None => Plain::Trapped(TrapKind::MemoryBounds),
    }
}

/// The pattern of a value of this type; None where it is of another one.
#[inline(always)]
fn bits_of(kind: ValType, value: Value) -> Option<u64>
    ensures { result ≡ bits_of_value kind value }
{
    match (kind, value) {
        (ValType::I32, Value::I32(bits)) => Some(u64::from(bits)),
        (ValType::I64, Value::I64(bits)) => Some(bits),
        (ValType::F32, Value::F32(bits)) => Some(u64::from(bits)),
        (ValType::F64, Value::F64(bits)) => Some(bits),
        _ => None,
    }
}

#[inline(always)]
pub(super) fn store_value<M: Linear>(
    op: MemOp,
    offset: u32,
    memory: u32,
    own: &[Value],
    have: usize,
    store: &mut Store<'_, M>,
) -> Result<Plain, AllocError>
    requires { have ≤ length own.now }
    ensures reply { IfOk result (λ reply. StoreReply reply
        (store_step (shape_of op) offset memory (slice_get store.old.memories memory)
        (used have own.now)) have own.now store.old store.new) }
    ensures refused { OnErr result (store.new ≡ store.old) }
{
    let shape = access(op);
    let Some(value) = value_on(own, have) else {
        return Ok(Plain::NoRule);
    };
    let Some(base) = number_on(own, have - 1) else {
        return Ok(Plain::NoRule);
    };
    let Some(bits) = bits_of(shape.value, value) else {
        return Ok(Plain::NoRule);
    };
    match store.memory_mut(memory) {
        Some(bytes) => {
            let done = bytes.store(place_of(base, offset), bits, shape.bytes)?;
            Ok(gone_or_trapped(done, have - 2))
        }
        None => Ok(Plain::NoRule),
    }
}

#[inline(always)]
fn gone_or_trapped(done: bool, below: usize) -> Plain
    ensures { result ≡ (if done then Went below else Trapped MemoryBounds) }
{
    if done {
        Plain::Went(below)
    } else {
        Plain::Trapped(TrapKind::MemoryBounds)
    }
}

pub(super) fn memory_size<M: Linear>(
    memory: u32,
    own: &mut [Value],
    have: usize,
    store: &Store<'_, M>,
) -> Plain
    requires { have < length own.old }
    ensures { ValueReply result
        (memory_size_step (slice_get store.now.memories memory) (used have own.old))
        have own.old own.new }
{
    match store.memory_type(memory) {
        Some(kind) => {
            put(own, have, Value::I32(kind.limits.min));
            Plain::Went(have + 1)
        }
        None => Plain::NoRule,
    }
}

pub(super) fn memory_fill<M: Linear>(
    memory: u32,
    own: &[Value],
    have: usize,
    store: &mut Store<'_, M>,
) -> Result<Plain, AllocError>
    requires { have ≤ length own.now }
    ensures reply { IfOk result (λ reply. StoreReply reply
        (memory_fill_step memory (slice_get store.old.memories memory) (used have own.now))
        have own.now store.old store.new) }
    ensures refused { OnErr result (store.new ≡ store.old) }
{
    let Some((to, bits, len)) = three_on(own, have) else {
        return Ok(Plain::NoRule);
    };
    let byte = (bits % 0x100) as u8;
    Ok(done(
        wz_bulk::memory_fill(store, memory, to, byte, len)?,
        have - 3,
    ))
}

pub(super) fn memory_copy<M: Linear>(
    to_memory: u32,
    from_memory: u32,
    own: &[Value],
    have: usize,
    store: &mut Store<'_, M>,
) -> Result<Plain, AllocError>
    requires { have ≤ length own.now }
    ensures reply { IfOk result (λ reply. StoreReply reply
        (memory_copy_step to_memory (slice_get store.old.memories to_memory)
        (slice_get store.old.memories from_memory) (used have own.now))
        have own.now store.old store.new) }
    ensures refused { OnErr result (store.new ≡ store.old) }
{
    let Some((to, from, len)) = three_on(own, have) else {
        return Ok(Plain::NoRule);
    };
    let answer = wz_bulk::memory_copy(store, to_memory, from_memory, to, from, len)?;
    Ok(done(answer, have - 3))
}

pub(super) fn memory_init<M: Linear>(
    segment: u32,
    memory: u32,
    own: &[Value],
    have: usize,
    store: &mut Store<'_, M>,
) -> Result<Plain, AllocError>
    requires { have ≤ length own.now }
    ensures reply { IfOk result (λ reply. StoreReply reply
        (memory_init_step memory (slice_get store.old.memories memory)
        (slice_get store.old.datas segment) (used have own.now))
        have own.now store.old store.new) }
    ensures refused { OnErr result (store.new ≡ store.old) }
{
    let Some((to, from, len)) = three_on(own, have) else {
        return Ok(Plain::NoRule);
    };
    let answer = wz_bulk::memory_init(store, segment, memory, to, from, len)?;
    Ok(done(answer, have - 3))
}

pub(super) fn data_drop<M: Linear>(
    segment: u32,
    own: &[Value],
    have: usize,
    store: &mut Store<'_, M>,
) -> Plain
    ensures { StoreReply result
        (data_drop_step segment (slice_get store.old.datas segment) (used have own.now))
        have own.now store.old store.new }
{
    done(wz_bulk::data_drop(store, segment), have)
}
