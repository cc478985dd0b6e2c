//! Memory instructions (Core Specification 2.0, section 3.3.7).

ghost use Rattle.std.specs.Prelude.{◌≡◌, IfOk};
ghost use Rattle.wz_code.specs.declared.instr.Instr.TheVariants.{MemorySize, MemoryGrow, MemoryFill, MemoryCopy, MemoryInit, DataDrop};
ghost use Rattle.wz_code.specs.declared.instr.Instr.TheVariants.{Access};
ghost use Rattle.wz_code.specs.Accesses.{shape_of};
ghost use Rattle.wz_valid_code.specs.Instructions.{plain_rule, is_aligned, access_rule, aligned_rule};
ghost use Rattle.wz_valid_code.specs.Checking.{Followed};

use crate::scope::Scope;
use crate::stack::Stack;
use std::alloc::AllocError;
use wz_code::{AccessShape, MemOp, access};
use wz_types::ValType;

/// Whether the alignment is at most the natural one.
fn is_aligned(align: u32, bytes: u32) -> bool
    ensures { result ≡ is_aligned align bytes }
{
    align < 32 && 1u32 << align <= bytes
}

#[inline]
fn shaped_access(shape: AccessShape, stack: &mut Stack) -> Result<bool, AllocError>
    ensures { IfOk result (λ ok. Followed (access_rule shape) stack.old stack.new ok) }
{
    if shape.store {
        Ok(stack.take_two(ValType::I32, shape.value))
    } else {
        stack.change_one(ValType::I32, shape.value)
    }
}

#[inline]
fn aligned_access(op: MemOp, align: u32, stack: &mut Stack) -> Result<bool, AllocError>
    ensures { let rule = aligned_rule align (shape_of op) in
        IfOk result (λ ok. Followed rule stack.old stack.new ok) }
{
    let shape = access(op);
    if !is_aligned(align, shape.bytes) {
        return Ok(false);
    }
    shaped_access(shape, stack)
}

/// A load or a store, at any offset.
#[inline]
pub fn load_or_store(
    scope: &Scope<'_>,
    op: MemOp,
    align: u32,
    offset: u32,
    memory: u32,
    stack: &mut Stack,
) -> Result<bool, AllocError>
    ensures { let rule = plain_rule scope.now (Access op align offset memory) in
        IfOk result (λ ok. Followed rule stack.old stack.new ok) }
{
    if !scope.context.has_memory(memory) {
        return Ok(false);
    }
    aligned_access(op, align, stack)
}

#[inline(never)]
pub fn size(scope: &Scope<'_>, memory: u32, stack: &mut Stack) -> Result<bool, AllocError>
    ensures { let rule = plain_rule scope.now (MemorySize memory) in
        IfOk result (λ ok. Followed rule stack.old stack.new ok) }
{
    if !scope.context.has_memory(memory) {
        return Ok(false);
    }
    stack.give_one(ValType::I32)
}

#[inline(never)]
pub fn grow(scope: &Scope<'_>, memory: u32, stack: &mut Stack) -> Result<bool, AllocError>
    ensures { let rule = plain_rule scope.now (MemoryGrow memory) in
        IfOk result (λ ok. Followed rule stack.old stack.new ok) }
{
    if !scope.context.has_memory(memory) {
        return Ok(false);
    }
    stack.change_one(ValType::I32, ValType::I32)
}

#[inline(never)]
pub fn fill(scope: &Scope<'_>, memory: u32, stack: &mut Stack) -> Result<bool, AllocError>
    ensures { let rule = plain_rule scope.now (MemoryFill memory) in
        IfOk result (λ ok. Followed rule stack.old stack.new ok) }
{
    if !scope.context.has_memory(memory) {
        return Ok(false);
    }
    stack.take_three_i32()
}

#[inline(never)]
pub fn copy(scope: &Scope<'_>, to: u32, from: u32, stack: &mut Stack) -> Result<bool, AllocError>
    ensures { let rule = plain_rule scope.now (MemoryCopy to from) in
        IfOk result (λ ok. Followed rule stack.old stack.new ok) }
{
    if !scope.context.has_memory(to) || !scope.context.has_memory(from) {
        return Ok(false);
    }
    stack.take_three_i32()
}

#[inline(never)]
pub fn init(
    scope: &Scope<'_>,
    segment: u32,
    memory: u32,
    stack: &mut Stack,
) -> Result<bool, AllocError>
    ensures { let rule = plain_rule scope.now (MemoryInit segment memory) in
        IfOk result (λ ok. Followed rule stack.old stack.new ok) }
{
    if !scope.context.has_memory(memory) || !scope.context.has_data(segment) {
        return Ok(false);
    }
    stack.take_three_i32()
}

#[inline(never)]
pub fn data_drop(scope: &Scope<'_>, segment: u32, stack: &mut Stack) -> Result<bool, AllocError>
    ensures { let rule = plain_rule scope.now (DataDrop segment) in
        IfOk result (λ ok. Followed rule stack.old stack.new ok) }
{
    Ok(scope.context.has_data(segment))
}
