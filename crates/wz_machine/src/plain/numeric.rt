//! Numeric instructions (Core Specification 2.0, section 4.4.1).

ghost use Rattle.std.specs.Prelude.{◌≡◌, ◌<◌, ◌≤◌, [], ◌∷◌, Some, None, length};
ghost use Rattle.wz_types.specs.declared.types.ValType.TheVariants as type;
ghost use Rattle.wz_code.specs.Numeric.{types_of};
ghost use Rattle.wz_num.specs.Answers.{answer_of};
ghost use Rattle.wz_num.specs.Number.{number};
ghost use Rattle.wz_machine.specs.PlainSteps.{used, ValueReply, AnswerReply, NumberReply};
ghost use Rattle.wz_num.specs.declared.answer.NumAnswer.TheVariants as answer;
ghost use Rattle.wz_types.specs.declared.value.Value.TheVariants as value;
ghost use Rattle.wz_machine.specs.Tried.{NumberTried};
ghost use Rattle.wz_machine.specs.NumericSteps.{const_step};

use crate::plain::Plain;
use crate::plain::common::has_gone;
use crate::plain::operands::{put, value_on};
use wz_code::{NumOp, signature};
use wz_num::{NumResult, one_f32, one_f64, one_i32, one_i64, two_f32, two_f64, two_i32, two_i64};
use wz_types::Value;

#[inline(always)]
pub(super) fn constant(own: &mut [Value], have: usize, value: Value) -> Plain
    requires { have < length own.old }
    ensures { ValueReply result (const_step value (used have own.old)) have own.old own.new }
{
    put(own, have, value);
    Plain::Went(have + 1)
}

/// What an operation makes of one operand.
#[tactic(auto, unfolding(wz_num::specs::Number::number))]
#[inline(always)]
fn of_one(op: NumOp, operand: Value) -> NumResult
    ensures { answer_of result ≡ number op (operand ∷ []) }
{
    match operand {
        Value::I32(a) => one_i32(op, a),
        Value::I64(a) => one_i64(op, a),
        Value::F32(a) => one_f32(op, a),
        Value::F64(a) => one_f64(op, a),
        Value::Ref(_) => NumResult::NoRule,
    }
}

/// What an operation makes of two operands, the first pushed first.
#[tactic(auto, unfolding(wz_num::specs::Number::number))]
#[inline(always)]
fn of_two(op: NumOp, first: Value, second: Value) -> NumResult
    ensures { answer_of result ≡ number op (first ∷ second ∷ []) }
{
    match (first, second) {
        (Value::I32(a), Value::I32(b)) => two_i32(op, a, b),
        (Value::I64(a), Value::I64(b)) => two_i64(op, a, b),
        (Value::F32(a), Value::F32(b)) => two_f32(op, a, b),
        (Value::F64(a), Value::F64(b)) => two_f64(op, a, b),
        _ => NumResult::NoRule,
    }
}

/// Puts this result behind so many values.
#[inline(always)]
fn gives(own: &mut [Value], below: usize, value: Value) -> Plain
    requires { below < length own.old }
    ensures { AnswerReply result (answer.Gives value) below own.old own.new }
{
    put(own, below, value);
    Plain::Went(below + 1)
}

/// The same of an i32: where one lay there, its bits are all that is written.
#[inline(always)]
fn gives_i32(own: &mut [Value], below: usize, bits: u32) -> Plain
    requires { below < length own.old }
    ensures { AnswerReply result (answer.Gives (value.I32 bits)) below own.old own.new }
{
    match &mut own[below] {
        Value::I32(place) => *place = bits,
        place => *place = Value::I32(bits),
    }
    Plain::Went(below + 1)
}

/// The same of an i64.
#[inline(always)]
fn gives_i64(own: &mut [Value], below: usize, bits: u64) -> Plain
    requires { below < length own.old }
    ensures { AnswerReply result (answer.Gives (value.I64 bits)) below own.old own.new }
{
    match &mut own[below] {
        Value::I64(place) => *place = bits,
        place => *place = Value::I64(bits),
    }
    Plain::Went(below + 1)
}

/// Puts an operation's result behind so many values.
#[inline(always)]
fn settled(own: &mut [Value], below: usize, small: NumResult) -> Plain
    requires { below < length own.old }
    ensures { AnswerReply result (answer_of small) below own.old own.new }
{
    match small {
        NumResult::I32(bits) => gives_i32(own, below, bits),
        NumResult::I64(bits) => gives_i64(own, below, bits),
        NumResult::F32(bits) => gives(own, below, Value::F32(bits)),
        NumResult::F64(bits) => gives(own, below, Value::F64(bits)),
        NumResult::Trap(kind) => Plain::Trapped(kind),
        NumResult::Ask => Plain::Special,
        NumResult::NoRule => Plain::NoRule,
    }
}

/// Tries an operation on the two last values, where they are i32.
#[inline(always)]
fn pair_i32(op: NumOp, own: &mut [Value], have: &mut usize) -> bool
    requires room { have.old ≤ length own.old }
    requires operands { (types_of op).second ≡ Some type.I32 }
    ensures { NumberTried result op have.old have.new own.old own.new }
{
    let Some(last) = value_on(own, *have) else {
        return false;
    };
    let Some(first) = value_on(own, *have - 1) else {
        return false;
    };
    match (first, last) {
        (Value::I32(a), Value::I32(b)) => {
            has_gone(settled(own, *have - 2, two_i32(op, a, b)), have)
        }
        _ => false,
    }
}

/// The same, where they are i64.
#[inline(always)]
fn pair_i64(op: NumOp, own: &mut [Value], have: &mut usize) -> bool
    requires room { have.old ≤ length own.old }
    requires operands { (types_of op).second ≡ Some type.I64 }
    ensures { NumberTried result op have.old have.new own.old own.new }
{
    let Some(last) = value_on(own, *have) else {
        return false;
    };
    let Some(first) = value_on(own, *have - 1) else {
        return false;
    };
    match (first, last) {
        (Value::I64(a), Value::I64(b)) => {
            has_gone(settled(own, *have - 2, two_i64(op, a, b)), have)
        }
        _ => false,
    }
}

/// Tries an operation on the last value.
#[inline(always)]
fn single(op: NumOp, own: &mut [Value], have: &mut usize) -> bool
    requires room { have.old ≤ length own.old }
    requires operands { (types_of op).second ≡ None }
    ensures { NumberTried result op have.old have.new own.old own.new }
{
    let Some(last) = value_on(own, *have) else {
        return false;
    };
    has_gone(settled(own, *have - 1, of_one(op, last)), have)
}

/// An arm for each of these operations, so that each is known where it is worked out.
macro_rules! each {
    ($op:ident $own:ident $have:ident $($with:ident: $($name:ident)*;)*) => {
        match $op {
            $($(NumOp::$name => $with(NumOp::$name, $own, $have),)*)*
            _ => false,
        }
    };
}

/// Tries an operation on integers: it goes on, or nothing is changed.
#[inline(always)]
pub(super) fn tries(op: NumOp, own: &mut [Value], have: &mut usize) -> bool
    requires { have.old ≤ length own.old }
    ensures { NumberTried result op have.old have.new own.old own.new }
{
    each! {
        op own have
        pair_i32:
            I32Eq I32Ne I32LtS I32LtU I32GtS I32GtU I32LeS I32LeU I32GeS I32GeU I32Add I32Sub
            I32Mul I32DivS I32DivU I32RemS I32RemU I32And I32Or I32Xor I32Shl I32ShrS I32ShrU
            I32Rotl I32Rotr;
        pair_i64:
            I64Eq I64Ne I64LtS I64LtU I64GtS I64GtU I64LeS I64LeU I64GeS I64GeU I64Add I64Sub
            I64Mul I64DivS I64DivU I64RemS I64RemU I64And I64Or I64Xor I64Shl I64ShrS I64ShrU
            I64Rotl I64Rotr;
        single: I32Eqz I64Eqz I32WrapI64 I64ExtendI32S I64ExtendI32U;
    }
}

pub(super) fn operation(op: NumOp, own: &mut [Value], have: usize) -> Plain
    requires { have ≤ length own.old }
    ensures { NumberReply result op have own.old own.new }
{
    let Some(last) = value_on(own, have) else {
        return Plain::NoRule;
    };
    match signature(op).second {
        None => settled(own, have - 1, of_one(op, last)),
        Some(_) => {
            let Some(first) = value_on(own, have - 1) else {
                return Plain::NoRule;
            };
            settled(own, have - 2, of_two(op, first, last))
        }
    }
}
