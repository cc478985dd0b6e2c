//! Control instructions (Core Specification 2.0, section 3.3.8), each block taken by its type.

ghost use Rattle.std.specs.Prelude.{◌≡◌, [], ◌∷◌, ◌++◌, reverse, take, drop, slice_get, IfOk};
ghost use Rattle.wz_types.specs.declared.types.ValType.TheVariants as valtype;
ghost use Rattle.wz_code.specs.declared.instr.Instr.TheVariants.{Return, Call, CallIndirect};
ghost use Rattle.wz_valid_code.specs.Rules.{Exchange, Stop, Choose, rule_from};
ghost use Rattle.wz_valid_code.specs.Instructions.{plain_rule, labels_at};
ghost use Rattle.wz_valid_code.specs.Context.{shape_type};
ghost use Rattle.wz_valid_code.specs.Blocks.{block_rule, if_rule};
ghost use Rattle.wz_valid_code.specs.Checking.{Followed, each_offered};

use crate::labels::{Label, label_at};
use crate::scope::Scope;
use crate::stack::Stack;
use std::alloc::AllocError;
use wz_code::{Body, Shape};
use wz_types::ValType;

#[inline(never)]
pub fn unreachable(stack: &mut Stack) -> Result<bool, AllocError>
    ensures { IfOk result (λ ok. Followed (Stop []) stack.old stack.new ok) }
{
    Ok(stack.stop(&[]))
}

/// A block or a loop, which takes and gives what its type says.
#[inline(never)]
pub fn block(scope: &Scope<'_>, shape: Shape, stack: &mut Stack) -> Result<bool, AllocError>
    ensures { let rule = block_rule (shape_type scope.now.context shape) in
        IfOk result (λ ok. Followed rule stack.old stack.new ok) }
{
    match scope.context.shape_type(shape) {
        Some(kind) => stack.exchange(kind.params, kind.results),
        None => Ok(false),
    }
}

/// An if, which takes its condition besides.
#[inline(never)]
pub fn if_else(scope: &Scope<'_>, shape: Shape, stack: &mut Stack) -> Result<bool, AllocError>
    ensures { let rule = if_rule (shape_type scope.now.context shape) in
        IfOk result (λ ok. Followed rule stack.old stack.new ok) }
{
    match scope.context.shape_type(shape) {
        Some(kind) => stack.exchange_on(kind.params, kind.results),
        None => Ok(false),
    }
}

#[inline(never)]
pub fn br(labels: &[Label<'_>], label: u32, stack: &mut Stack) -> Result<bool, AllocError>
    ensures { let rule = rule_from (slice_get (reverse labels.now) label) (λ types. Stop types) in
        IfOk result (λ ok. Followed rule stack.old stack.new ok) }
{
    match label_at(labels, label) {
        Some(types) => Ok(stack.stop(types)),
        None => Ok(false),
    }
}

#[inline(never)]
pub fn br_if(labels: &[Label<'_>], label: u32, stack: &mut Stack) -> Result<bool, AllocError>
    ensures { let found = slice_get (reverse labels.now) label in
        let rule = rule_from found (λ types. Exchange (types ++ valtype.I32 ∷ []) types) in
        IfOk result (λ ok. Followed rule stack.old stack.new ok) }
{
    match label_at(labels, label) {
        Some(types) => stack.exchange_on(types, types),
        None => Ok(false),
    }
}

/// The labels of a br_table but its last: so many of the body's pool from the first one on.
#[inline(never)]
pub fn labels_of(body: &Body, first: u32, count: u32) -> &[u32]
    ensures { result.now ≡ take count (drop first body.now.labels) }
{
    let pool = body.labels();
    let first = pool.len().min(first as usize);
    let rest = &pool[first..];
    let count = rest.len().min(count as usize);
    &rest[..count]
}

/// Whether each of these labels is there, has so many types, and could take them.
fn all_offered(labels: &[Label<'_>], numbers: &[u32], count: usize, stack: &Stack) -> bool
    ensures { let labels = reverse labels.now in
        result ≡ each_offered labels numbers.now count stack.now.items stack.now.dead }
{
    for number in numbers {
        let Some(types) = label_at(labels, *number) else {
            return false;
        };
        if types.len() != count || !stack.offers(types) {
            return false;
        }
    }
    true
}

/// A br_table to the label `last` and the others in `numbers`.
#[inline(never)]
pub fn br_table(labels: &[Label<'_>], numbers: &[u32], last: u32, stack: &mut Stack) -> bool
    ensures { let found = labels_at (reverse labels.now) (last ∷ numbers.now) in
        Followed (rule_from found (λ lists. Choose lists)) stack.old stack.new result }
{
    let Some(types) = label_at(labels, last) else {
        return false;
    };
    if !stack.take_one(ValType::I32) || !stack.offers(types) {
        return false;
    }
    if !all_offered(labels, numbers, types.len(), stack) {
        return false;
    }
    stack.set_dead();
    true
}

#[inline(never)]
pub fn return_all(scope: &Scope<'_>, stack: &mut Stack) -> Result<bool, AllocError>
    ensures { IfOk result (λ ok. Followed (plain_rule scope.now Return) stack.old stack.new ok) }
{
    Ok(stack.stop(scope.results))
}

#[inline(never)]
pub fn call(scope: &Scope<'_>, function: u32, stack: &mut Stack) -> Result<bool, AllocError>
    ensures { let rule = plain_rule scope.now (Call function) in
        IfOk result (λ ok. Followed rule stack.old stack.new ok) }
{
    match scope.context.function_type(function) {
        Some(kind) => stack.exchange(kind.params, kind.results),
        None => Ok(false),
    }
}

#[inline(never)]
pub fn call_indirect(
    scope: &Scope<'_>,
    signature: u32,
    table: u32,
    stack: &mut Stack,
) -> Result<bool, AllocError>
    ensures { let rule = plain_rule scope.now (CallIndirect signature table) in
        IfOk result (λ ok. Followed rule stack.old stack.new ok) }
{
    if !scope.context.is_function_table(table) {
        return Ok(false);
    }
    match scope.context.type_by_number(signature) {
        Some(kind) => stack.exchange_on(kind.params, kind.results),
        None => Ok(false),
    }
}
