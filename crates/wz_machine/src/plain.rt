//! Plain instructions: those that leave blocks and calls alone and ask nothing (Core Specification
//! 2.0, sections 4.4.1 to 4.4.8).
//!
//! They work in place, on the values of the innermost block, behind which there is room, so that
//! none of them takes memory for the stack. Each group of the standard has a module of its own.

ghost use Rattle.std.specs.Prelude.{◌≡◌, ◌<◌, ℕ, List, length, IfOk, OnErr};
ghost use Rattle.wz_code.specs.declared.instr.Instr.TheVariants.{Access};
ghost use Rattle.wz_code.specs.BodyParts.{BodyParts};
ghost use Rattle.wz_machine.specs.PlainSteps.{site, PlainReply};

pub(crate) mod common;
mod memories;
mod numeric;
pub(crate) mod operands;
mod parametric;
mod references;
mod tables;
mod variables;

use std::alloc::AllocError;
use wz_code::{Body, Instr, MemOp, access};
use wz_linear::Linear;
use wz_store::Store;
use wz_types::{TrapKind, Value};

/// What became of an instruction: the block has so many values of its own now, it trapped, no rule
/// fits, or it is no plain instruction. Where it didn't go, nothing is changed.
#[derive(Clone, Copy, PartialEq, Eq)]
pub(crate) enum Plain {
    Went(usize),
    Trapped(TrapKind),
    NoRule,
    Special,
}

/// A load or a store, on the values of the innermost block and on the store.
#[inline(always)]
fn load_or_store<M: Linear>(
    op: MemOp,
    offset: u32,
    memory: u32,
    own: &mut [Value],
    have: usize,
    store: &mut Store<'_, M>,
) -> Result<Plain, AllocError>
    requires { have < length own.old }
    ensures reply { (body : BodyParts) (align : ℕ) (locals : List Value) →
        IfOk result (λ reply. PlainReply reply body (Access op align offset memory) have
        (site locals own.old store.old) (site locals own.new store.new)) }
    ensures refused { OnErr result ((own.new ≡ own.old) × (store.new ≡ store.old)) }
{
    if access(op).store {
        memories::store_value(op, offset, memory, own, have, store)
    } else {
        Ok(memories::load(op, offset, memory, own, have, store))
    }
}

/// Runs one plain instruction of a body, on the locals of its frame, on the values of the innermost
/// block, of which so many are used, and on the store. An error is a want of memory, and then
/// nothing is changed.
#[inline(never)]
pub(crate) fn run_plain<M: Linear>(
    body: &Body,
    instr: &Instr,
    locals: &mut [Value],
    own: &mut [Value],
    have: usize,
    store: &mut Store<'_, M>,
) -> Result<Plain, AllocError>
    requires { have < length own.old }
    ensures reply { IfOk result (λ reply. PlainReply reply body.now instr.now have
        (site locals.old own.old store.old) (site locals.new own.new store.new)) }
    ensures refused { OnErr result
        (site locals.new own.new store.new ≡ site locals.old own.old store.old) }
{
    match *instr {
        Instr::I32Const(bits) => Ok(numeric::constant(own, have, Value::I32(bits))),
        Instr::I64Const(bits) => Ok(numeric::constant(own, have, Value::I64(bits))),
        Instr::F32Const(bits) => Ok(numeric::constant(own, have, Value::F32(bits))),
        Instr::F64Const(bits) => Ok(numeric::constant(own, have, Value::F64(bits))),
        Instr::Num(op) => Ok(numeric::operation(op, own, have)),
        Instr::RefNull(kind) => Ok(references::ref_null(kind, own, have)),
        Instr::RefIsNull => Ok(references::ref_is_null(own, have)),
        Instr::RefFunc(index) => Ok(references::ref_func(index, own, have, store)),
        Instr::Drop => Ok(parametric::drop_value(own, have)),
        Instr::Select => Ok(parametric::select(own, have)),
        Instr::SelectTyped { first: _, count: _ } => Ok(parametric::select(own, have)),
        Instr::LocalGet(index) => Ok(variables::local_get(index, locals, own, have)),
        Instr::LocalSet(index) => Ok(variables::local_set(index, locals, own, have)),
        Instr::LocalTee(index) => Ok(variables::local_tee(index, locals, own, have)),
        Instr::GlobalGet(index) => Ok(variables::global_get(index, own, have, store)),
        Instr::GlobalSet(index) => Ok(variables::global_set(index, own, have, store)),
        Instr::TableGet(table) => Ok(tables::table_get(table, own, have, store)),
        Instr::TableSet(table) => Ok(tables::table_set(table, own, have, store)),
        Instr::TableSize(table) => Ok(tables::table_size(table, own, have, store)),
        Instr::TableFill(table) => Ok(tables::table_fill(table, own, have, store)),
        Instr::TableCopy { to, from } => Ok(tables::table_copy(to, from, own, have, store)),
        Instr::TableInit { segment, table } => {
            Ok(tables::table_init(segment, table, own, have, store))
        }
        Instr::ElemDrop(segment) => Ok(tables::elem_drop(segment, own, have, store)),
        Instr::Access {
            op,
            align: _,
            offset,
            memory,
        } => load_or_store(op, offset, memory, own, have, store),
        Instr::MemorySize(memory) => Ok(memories::memory_size(memory, own, have, store)),
        Instr::MemoryFill(memory) => memories::memory_fill(memory, own, have, store),
        Instr::MemoryCopy { to, from } => memories::memory_copy(to, from, own, have, store),
        Instr::MemoryInit { segment, memory } => {
            memories::memory_init(segment, memory, own, have, store)
        }
        Instr::DataDrop(segment) => Ok(memories::data_drop(segment, own, have, store)),
        Instr::Nop => Ok(Plain::Went(have)),
        Instr::Unreachable => Ok(Plain::Trapped(TrapKind::Unreachable)),
        Instr::Block { .. }
        | Instr::Loop { .. }
        | Instr::If { .. }
        | Instr::Br(_)
        | Instr::BrIf(_)
        | Instr::BrTable { .. }
        | Instr::Return
        | Instr::Call(_)
        | Instr::CallIndirect { .. }
        | Instr::TableGrow(_)
        | Instr::MemoryGrow(_) => Ok(Plain::Special),
    }
}
