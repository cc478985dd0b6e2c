//! Table instructions (Core Specification 2.0, section 3.3.6).

ghost use Rattle.std.specs.Prelude.{◌≡◌, IfOk};
ghost use Rattle.wz_code.specs.declared.instr.Instr.TheVariants.{TableGet, TableSet, TableSize, TableGrow, TableFill, TableCopy, TableInit, ElemDrop};
ghost use Rattle.wz_valid_code.specs.Context.{is_one_kind};
ghost use Rattle.wz_valid_code.specs.Instructions.{plain_rule};
ghost use Rattle.wz_valid_code.specs.Checking.{Followed};

use crate::scope::Scope;
use crate::stack::Stack;
use std::alloc::AllocError;
use wz_types::{RefKind, ValType};

fn is_one_kind(a: Option<RefKind>, b: Option<RefKind>) -> bool
    ensures { result ≡ is_one_kind a b }
{
    match (a, b) {
        (Some(RefKind::Func), Some(RefKind::Func)) => true,
        (Some(RefKind::Extern), Some(RefKind::Extern)) => true,
        _ => false,
    }
}

#[inline(never)]
pub fn get(scope: &Scope<'_>, table: u32, stack: &mut Stack) -> Result<bool, AllocError>
    ensures { let rule = plain_rule scope.now (TableGet table) in
        IfOk result (λ ok. Followed rule stack.old stack.new ok) }
{
    match scope.context.table(table) {
        Some(kind) => stack.change_one(ValType::I32, ValType::from(kind)),
        None => Ok(false),
    }
}

#[inline(never)]
pub fn set(scope: &Scope<'_>, table: u32, stack: &mut Stack) -> Result<bool, AllocError>
    ensures { let rule = plain_rule scope.now (TableSet table) in
        IfOk result (λ ok. Followed rule stack.old stack.new ok) }
{
    match scope.context.table(table) {
        Some(kind) => Ok(stack.take_two(ValType::I32, ValType::from(kind))),
        None => Ok(false),
    }
}

#[inline(never)]
pub fn size(scope: &Scope<'_>, table: u32, stack: &mut Stack) -> Result<bool, AllocError>
    ensures { let rule = plain_rule scope.now (TableSize table) in
        IfOk result (λ ok. Followed rule stack.old stack.new ok) }
{
    match scope.context.table(table) {
        Some(_) => stack.give_one(ValType::I32),
        None => Ok(false),
    }
}

#[inline(never)]
pub fn grow(scope: &Scope<'_>, table: u32, stack: &mut Stack) -> Result<bool, AllocError>
    ensures { let rule = plain_rule scope.now (TableGrow table) in
        IfOk result (λ ok. Followed rule stack.old stack.new ok) }
{
    match scope.context.table(table) {
        Some(kind) => stack.exchange(&[ValType::from(kind), ValType::I32], &[ValType::I32]),
        None => Ok(false),
    }
}

#[inline(never)]
pub fn fill(scope: &Scope<'_>, table: u32, stack: &mut Stack) -> Result<bool, AllocError>
    ensures { let rule = plain_rule scope.now (TableFill table) in
        IfOk result (λ ok. Followed rule stack.old stack.new ok) }
{
    match scope.context.table(table) {
        Some(kind) => stack.exchange(&[ValType::I32, ValType::from(kind), ValType::I32], &[]),
        None => Ok(false),
    }
}

#[inline(never)]
pub fn copy(scope: &Scope<'_>, to: u32, from: u32, stack: &mut Stack) -> Result<bool, AllocError>
    ensures { let rule = plain_rule scope.now (TableCopy to from) in
        IfOk result (λ ok. Followed rule stack.old stack.new ok) }
{
    if !is_one_kind(scope.context.table(to), scope.context.table(from)) {
        return Ok(false);
    }
    stack.take_three_i32()
}

#[inline(never)]
pub fn init(
    scope: &Scope<'_>,
    segment: u32,
    table: u32,
    stack: &mut Stack,
) -> Result<bool, AllocError>
    ensures { let rule = plain_rule scope.now (TableInit segment table) in
        IfOk result (λ ok. Followed rule stack.old stack.new ok) }
{
    if !is_one_kind(scope.context.element(segment), scope.context.table(table)) {
        return Ok(false);
    }
    stack.take_three_i32()
}

#[inline(never)]
pub fn elem_drop(scope: &Scope<'_>, segment: u32, stack: &mut Stack) -> Result<bool, AllocError>
    ensures { let rule = plain_rule scope.now (ElemDrop segment) in
        IfOk result (λ ok. Followed rule stack.old stack.new ok) }
{
    match scope.context.element(segment) {
        Some(_) => Ok(true),
        None => Ok(false),
    }
}
