//! Reference instructions (Core Specification 2.0, section 3.3.2).

ghost use Rattle.std.specs.Prelude.{[], ◌∷◌, IfOk};
ghost use Rattle.wz_types.specs.declared.types.ValType.TheVariants as valtype;
ghost use Rattle.wz_types.specs.Fits.{type_of_kind};
ghost use Rattle.wz_valid_code.specs.Rules.{Exchange, TestReference, rule_if};
ghost use Rattle.wz_valid_code.specs.Context.{may_refer};
ghost use Rattle.wz_valid_code.specs.Checking.{Followed};

use crate::context::Context;
use crate::stack::Stack;
use std::alloc::AllocError;
use wz_types::{RefKind, ValType};

#[inline(never)]
pub fn null(kind: RefKind, stack: &mut Stack) -> Result<bool, AllocError>
    ensures { let rule = Exchange [] (type_of_kind kind ∷ []) in
        IfOk result (λ ok. Followed rule stack.old stack.new ok) }
{
    stack.give_one(ValType::from(kind))
}

#[inline(never)]
pub fn is_null(stack: &mut Stack) -> Result<bool, AllocError>
    ensures { IfOk result (λ ok. Followed TestReference stack.old stack.new ok) }
{
    stack.test_reference()
}

#[inline(never)]
pub fn func(context: &Context<'_>, function: u32, stack: &mut Stack) -> Result<bool, AllocError>
    ensures { let gives = Exchange [] (valtype.FuncRef ∷ []) in
        let rule = rule_if (may_refer context.now function) gives in
        IfOk result (λ ok. Followed rule stack.old stack.new ok) }
{
    if !context.may_refer(function) {
        return Ok(false);
    }
    stack.give_one(ValType::FuncRef)
}
