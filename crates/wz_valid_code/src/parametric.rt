//! Parametric instructions (Core Specification 2.0, section 3.3.4).

ghost use Rattle.std.specs.Prelude.{◌≡◌, take, drop, IfOk};
ghost use Rattle.wz_valid_code.specs.Rules.{DropOne, SelectOne};
ghost use Rattle.wz_valid_code.specs.Instructions.{select_rule};
ghost use Rattle.wz_valid_code.specs.Checking.{Followed};

use crate::stack::Stack;
use std::alloc::AllocError;
use wz_code::Body;
use wz_types::ValType;

#[inline]
pub fn drop_one(stack: &mut Stack) -> Result<bool, AllocError>
    ensures { IfOk result (λ ok. Followed DropOne stack.old stack.new ok) }
{
    Ok(stack.drop_one())
}

#[inline(never)]
pub fn select(stack: &mut Stack) -> Result<bool, AllocError>
    ensures { IfOk result (λ ok. Followed SelectOne stack.old stack.new ok) }
{
    stack.select_one()
}

/// The types of a select: so many of the body's pool from the first one on.
fn types_of(body: &Body, first: u32, count: u32) -> &[ValType]
    ensures { result.now ≡ take count (drop first body.now.types) }
{
    let pool = body.types();
    let first = pool.len().min(first as usize);
    let rest = &pool[first..];
    let count = rest.len().min(count as usize);
    &rest[..count]
}

/// A select by the one type that is asked for.
fn select_by(types: &[ValType], stack: &mut Stack) -> Result<bool, AllocError>
    ensures { IfOk result (λ ok. Followed (select_rule types.now) stack.old stack.new ok) }
{
    match types {
        [kind] => stack.exchange(&[*kind, *kind, ValType::I32], &[*kind]),
        _ => Ok(false),
    }
}

/// A select with types, which stand in the body's pool.
#[inline(never)]
pub fn select_typed(
    body: &Body,
    first: u32,
    count: u32,
    stack: &mut Stack,
) -> Result<bool, AllocError>
    ensures { let rule = select_rule (take count (drop first body.now.types)) in
        IfOk result (λ ok. Followed rule stack.old stack.new ok) }
{
    select_by(types_of(body, first, count), stack)
}
