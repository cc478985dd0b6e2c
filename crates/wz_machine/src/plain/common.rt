//! The instructions that are met most, tried in one small match, so that a run of them is fast.
//!
//! What doesn't go here changes nothing, and is left to the full match of `plain`.

ghost use Rattle.std.specs.Prelude.{◌≡◌, ◌<◌, ◌≤◌, ◌+◌, ℕ, List, IsTrue, IsFalse, length};
ghost use Rattle.wz_code.specs.declared.instr.Instr.TheVariants.{Access};
ghost use Rattle.wz_machine.specs.PlainSteps.{site};
ghost use Rattle.wz_machine.specs.Tried.{HasGone, ZeroTaken, PlainTried};
ghost use Rattle.wz_machine.specs.Straight.{changes_table};

use crate::plain::operands::number_on;
use crate::plain::{Plain, load_or_store, numeric, parametric, variables};
use wz_code::{Instr, MemOp};
use wz_linear::Linear;
use wz_store::Store;
use wz_types::Value;

/// Whether an instruction went; then this is how many values are had.
#[inline(always)]
pub(super) fn has_gone(reply: Plain, have: &mut usize) -> bool
    ensures { HasGone result reply have.old have.new }
{
    match reply {
        Plain::Went(now) => {
            *have = now;
            true
        }
        Plain::Trapped(_) | Plain::NoRule | Plain::Special => false,
    }
}

/// A branch that isn't taken: the last value is zero, and it is gone.
#[inline(always)]
fn passes(own: &[Value], have: &mut usize) -> bool
    requires { have.old ≤ length own.now }
    ensures { ZeroTaken result have.old have.new own.now }
{
    match number_on(own, *have) {
        Some(0) => {
            *have -= 1;
            true
        }
        _ => false,
    }
}

/// A load or a store.
#[inline(always)]
fn access_by<M: Linear>(
    op: MemOp,
    offset: u32,
    memory: u32,
    own: &mut [Value],
    have: &mut usize,
    store: &mut Store<'_, M>,
) -> bool
    requires { have.old < length own.old }
    ensures { (align : ℕ) (locals : List Value) → PlainTried result (Access op align offset memory)
        have.old have.new (site locals own.old store.old) (site locals own.new store.new) }
{
    match load_or_store(op, offset, memory, own, *have, store) {
        Ok(reply) => has_gone(reply, have),
        Err(_) => false,
    }
}

/// An arm for each of these accesses, so that each is known where it is worked out.
macro_rules! each {
    (
        $op:ident $offset:ident $memory:ident $own:ident $have:ident $store:ident:
        $($name:ident)*
    ) => {
        match $op {
            $(MemOp::$name => access_by(MemOp::$name, $offset, $memory, $own, $have, $store),)*
            _ => access_by($op, $offset, $memory, $own, $have, $store),
        }
    };
}

/// The same, with an arm for each of those that are met most.
#[inline(always)]
fn accesses<M: Linear>(
    op: MemOp,
    offset: u32,
    memory: u32,
    own: &mut [Value],
    have: &mut usize,
    store: &mut Store<'_, M>,
) -> bool
    requires { have.old < length own.old }
    ensures { (align : ℕ) (locals : List Value) → PlainTried result (Access op align offset memory)
        have.old have.new (site locals own.old store.old) (site locals own.new store.new) }
{
    each! {
        op offset memory own have store:
            I32Load I64Load I32Load8U I32Store I64Store I32Store8
    }
}

/// Tries an instruction: it is one of these and goes on, or nothing is changed.
#[inline(always)]
pub(crate) fn tries<M: Linear>(
    instr: &Instr,
    locals: &mut [Value],
    own: &mut [Value],
    have: &mut usize,
    store: &mut Store<'_, M>,
) -> bool
    requires { have.old < length own.old }
    ensures tried { PlainTried result instr.now have.old have.new
        (site locals.old own.old store.old) (site locals.new own.new store.new) }
    ensures spares { IsTrue result → IsFalse (changes_table instr.now) }
{
    match *instr {
        Instr::I32Const(bits) => has_gone(numeric::constant(own, *have, Value::I32(bits)), have),
        Instr::I64Const(bits) => has_gone(numeric::constant(own, *have, Value::I64(bits)), have),
        Instr::Num(op) => numeric::tries(op, own, have),
        Instr::Drop => has_gone(parametric::drop_value(own, *have), have),
        Instr::Select => has_gone(parametric::select(own, *have), have),
        Instr::LocalGet(index) => has_gone(variables::local_get(index, locals, own, *have), have),
        Instr::LocalSet(index) => has_gone(variables::local_set(index, locals, own, *have), have),
        Instr::LocalTee(index) => has_gone(variables::local_tee(index, locals, own, *have), have),
        Instr::GlobalGet(index) => has_gone(variables::global_get(index, own, *have, store), have),
        Instr::GlobalSet(index) => has_gone(variables::global_set(index, own, *have, store), have),
        Instr::Access {
            op,
            align: _,
            offset,
            memory,
        } => { accesses(op, offset, memory, own, have, store) }
        Instr::BrIf(_) => passes(own, have),
        _ => false,
    }
}
