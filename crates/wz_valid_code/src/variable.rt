//! Variable instructions (Core Specification 2.0, section 3.3.5).

ghost use Rattle.std.specs.Prelude.{IfOk};
ghost use Rattle.wz_code.specs.declared.instr.Instr.TheVariants.{LocalGet, LocalSet, LocalTee, GlobalGet, GlobalSet};
ghost use Rattle.wz_valid_code.specs.Instructions.{plain_rule};
ghost use Rattle.wz_valid_code.specs.ConstantInstructions.{constant_instr_rule};
ghost use Rattle.wz_valid_code.specs.Checking.{Followed};

use crate::context::Context;
use crate::scope::Scope;
use crate::stack::Stack;
use std::alloc::AllocError;

#[inline]
pub fn local_get(scope: &Scope<'_>, index: u32, stack: &mut Stack) -> Result<bool, AllocError>
    ensures { let rule = plain_rule scope.now (LocalGet index) in
        IfOk result (λ ok. Followed rule stack.old stack.new ok) }
{
    match scope.locals.get(index) {
        Some(kind) => stack.give_one(kind),
        None => Ok(false),
    }
}

#[inline]
pub fn local_set(scope: &Scope<'_>, index: u32, stack: &mut Stack) -> Result<bool, AllocError>
    ensures { let rule = plain_rule scope.now (LocalSet index) in
        IfOk result (λ ok. Followed rule stack.old stack.new ok) }
{
    match scope.locals.get(index) {
        Some(kind) => Ok(stack.take_only(kind)),
        None => Ok(false),
    }
}

#[inline]
pub fn local_tee(scope: &Scope<'_>, index: u32, stack: &mut Stack) -> Result<bool, AllocError>
    ensures { let rule = plain_rule scope.now (LocalTee index) in
        IfOk result (λ ok. Followed rule stack.old stack.new ok) }
{
    match scope.locals.get(index) {
        Some(kind) => stack.change_one(kind, kind),
        None => Ok(false),
    }
}

#[inline]
pub fn global_get(scope: &Scope<'_>, index: u32, stack: &mut Stack) -> Result<bool, AllocError>
    ensures { let rule = plain_rule scope.now (GlobalGet index) in
        IfOk result (λ ok. Followed rule stack.old stack.new ok) }
{
    match scope.context.global(index) {
        Some(global) => stack.give_one(global.value),
        None => Ok(false),
    }
}

#[inline]
pub fn global_set(scope: &Scope<'_>, index: u32, stack: &mut Stack) -> Result<bool, AllocError>
    ensures { let rule = plain_rule scope.now (GlobalSet index) in
        IfOk result (λ ok. Followed rule stack.old stack.new ok) }
{
    match scope.context.type_to_set(index) {
        Some(kind) => Ok(stack.take_only(kind)),
        None => Ok(false),
    }
}

/// In a constant expression.
#[inline(never)]
pub fn constant_global_get(
    context: &Context<'_>,
    index: u32,
    stack: &mut Stack,
) -> Result<bool, AllocError>
    ensures { let rule = constant_instr_rule context.now (GlobalGet index) in
        IfOk result (λ ok. Followed rule stack.old stack.new ok) }
{
    match context.constant_global(index) {
        Some(kind) => stack.give_one(kind),
        None => Ok(false),
    }
}
