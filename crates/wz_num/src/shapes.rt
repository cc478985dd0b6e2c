//! Which operands an operation takes (Core Specification 2.0, section 3.3.1).

ghost use Rattle.std.specs.Prelude.{◌≡◌};
ghost use Rattle.wz_code.specs.Numeric.{types_of};
ghost use Rattle.wz_num.specs.Answers.{first_of, second_of};

use wz_code::{NumOp, OpTypes, signature};
use wz_types::ValType;

/// The operands of an operation: one, or two of the same type.
#[derive(Clone, Copy, PartialEq, Eq)]
pub enum OperandShape {
    OneI32,
    OneI64,
    OneF32,
    OneF64,
    TwoI32,
    TwoI64,
    TwoF32,
    TwoF64,
}

/// Which function on patterns answers the operation: each is stuck on the others' operations.
#[inline]
pub fn operand_shape(op: NumOp) -> OperandShape
    ensures first { first_of result ≡ (types_of op).first }
    ensures second { second_of result ≡ (types_of op).second }
{
    let OpTypes {
        first,
        second,
        result: _,
    } = signature(op);
    match (first, second) {
        (ValType::I32, None) => OperandShape::OneI32,
        (ValType::I64, None) => OperandShape::OneI64,
        (ValType::F32, None) => OperandShape::OneF32,
        (ValType::F64, None) => OperandShape::OneF64,
        (ValType::I32, Some(_)) => OperandShape::TwoI32,
        (ValType::I64, Some(_)) => OperandShape::TwoI64,
        (ValType::F32, Some(_)) => OperandShape::TwoF32,
        (ValType::F64, Some(_)) => OperandShape::TwoF64,
        // no operation takes a reference
        (ValType::FuncRef | ValType::ExternRef, _) => unreachable!(),
    }
}
