//! Numeric instructions (Core Specification 2.0, section 3.3.1).

ghost use Rattle.std.specs.Prelude.{IfOk};
ghost use Rattle.wz_types.specs.declared.types.ValType.TheVariants as valtype;
ghost use Rattle.wz_code.specs.Numeric.{types_of};
ghost use Rattle.wz_valid_code.specs.Instructions.{constant_of, operation_rule};
ghost use Rattle.wz_valid_code.specs.Checking.{Followed};

use crate::stack::Stack;
use std::alloc::AllocError;
use wz_code::{NumOp, signature};
use wz_types::ValType;

#[inline]
pub fn i32_const(bits: u32, stack: &mut Stack) -> Result<bool, AllocError>
    ensures { let rule = constant_of valtype.I32 32 bits in
        IfOk result (λ ok. Followed rule stack.old stack.new ok) }
{
    stack.give_one(ValType::I32)
}

#[inline]
pub fn i64_const(bits: u64, stack: &mut Stack) -> Result<bool, AllocError>
    ensures { let rule = constant_of valtype.I64 64 bits in
        IfOk result (λ ok. Followed rule stack.old stack.new ok) }
{
    stack.give_one(ValType::I64)
}

#[inline]
pub fn f32_const(bits: u32, stack: &mut Stack) -> Result<bool, AllocError>
    ensures { let rule = constant_of valtype.F32 32 bits in
        IfOk result (λ ok. Followed rule stack.old stack.new ok) }
{
    stack.give_one(ValType::F32)
}

#[inline]
pub fn f64_const(bits: u64, stack: &mut Stack) -> Result<bool, AllocError>
    ensures { let rule = constant_of valtype.F64 64 bits in
        IfOk result (λ ok. Followed rule stack.old stack.new ok) }
{
    stack.give_one(ValType::F64)
}

#[inline]
pub fn operation(op: NumOp, stack: &mut Stack) -> Result<bool, AllocError>
    ensures { IfOk result (λ ok. Followed (operation_rule (types_of op)) stack.old stack.new ok) }
{
    stack.operation(signature(op))
}
