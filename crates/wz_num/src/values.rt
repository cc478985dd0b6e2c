//! The operations on values (Core Specification 2.0, section 4.4.1).

ghost use Rattle.std.specs.Prelude.{◌≡◌, [], ◌∷◌};
ghost use Rattle.wz_num.specs.Number.{number};

use crate::answer::NumAnswer;
use crate::patterns::{one_f32, one_f64, one_i32, one_i64, two_f32, two_f64, two_i32, two_i64};
use wz_code::NumOp;
use wz_types::Value;

/// An operation on one operand.
#[tactic(auto, unfolding(crate::specs::Number::number))]
fn eval_one(op: NumOp, operand: Value) -> NumAnswer
    ensures { result ≡ number op (operand ∷ []) }
{
    match operand {
        Value::I32(a) => one_i32(op, a).into(),
        Value::I64(a) => one_i64(op, a).into(),
        Value::F32(a) => one_f32(op, a).into(),
        Value::F64(a) => one_f64(op, a).into(),
        Value::Ref(_) => NumAnswer::Stuck,
    }
}

/// An operation on two operands, the first pushed first.
#[tactic(auto, unfolding(crate::specs::Number::number))]
fn eval_two(op: NumOp, first: Value, second: Value) -> NumAnswer
    ensures { result ≡ number op (first ∷ second ∷ []) }
{
    match (first, second) {
        (Value::I32(a), Value::I32(b)) => two_i32(op, a, b).into(),
        (Value::I64(a), Value::I64(b)) => two_i64(op, a, b).into(),
        (Value::F32(a), Value::F32(b)) => two_f32(op, a, b).into(),
        (Value::F64(a), Value::F64(b)) => two_f64(op, a, b).into(),
        _ => NumAnswer::Stuck,
    }
}

/// The answer of an operation on operands in the order of pushing: `Ask` exactly for the operations
/// on floats that do more than move bits, `Stuck` exactly where the operands aren't of its types.
#[tactic(auto, unfolding(crate::specs::Number::number))]
pub fn eval(op: NumOp, operands: &[Value]) -> NumAnswer
    ensures { result ≡ number op operands.now }
{
    match operands {
        [operand] => eval_one(op, *operand),
        [first, second] => eval_two(op, *first, *second),
        _ => NumAnswer::Stuck,
    }
}
