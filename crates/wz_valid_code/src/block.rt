//! One block by itself, where each block that it names is taken by its type (Core Specification
//! 2.0, sections 3.3.8 and 3.3.9). `follow` says of which group each instruction is; the groups'
//! files are named as in the standard.

ghost use Rattle.std.specs.Prelude.{◌≡◌, [], reverse, IfOk, MatchBool};
ghost use Rattle.wz_code.specs.Trees.{leaf_in};
ghost use Rattle.wz_valid_code.specs.Operands.{pushed};
ghost use Rattle.wz_valid_code.specs.Rules.{Lead};
ghost use Rattle.wz_valid_code.specs.Blocks.{outer_rule, outer_rules};
ghost use Rattle.wz_valid_code.specs.Checking.{Followed};

use crate::control::{block, call_indirect, labels_of};
use crate::labels::Label;
use crate::scope::Scope;
use crate::stack::Stack;
use crate::{control, memory, numeric, parametric, reference, table, variable};
use std::alloc::AllocError;
use wz_code::{Body, Instr};
use wz_types::ValType;

/// Follows one instruction, or says that the stack doesn't fit it.
fn follow(
    scope: &Scope<'_>,
    labels: &[Label<'_>],
    body: &Body,
    instr: Instr,
    stack: &mut Stack,
) -> Result<bool, AllocError>
    ensures { let labels = reverse labels.now in
        let rule = outer_rule scope.now labels (λ i. leaf_in body.now i) instr in
        IfOk result (λ ok. Followed rule stack.old stack.new ok) }
{
    match instr {
        // numeric
        Instr::I32Const(bits) => numeric::i32_const(bits, stack),
        Instr::I64Const(bits) => numeric::i64_const(bits, stack),
        Instr::F32Const(bits) => numeric::f32_const(bits, stack),
        Instr::F64Const(bits) => numeric::f64_const(bits, stack),
        Instr::Num(op) => numeric::operation(op, stack),
        // reference
        Instr::RefNull(kind) => reference::null(kind, stack),
        Instr::RefIsNull => reference::is_null(stack),
        Instr::RefFunc(function) => reference::func(scope.context, function, stack),
        // parametric
        Instr::Drop => parametric::drop_one(stack),
        Instr::Select => parametric::select(stack),
        Instr::SelectTyped { first, count } => parametric::select_typed(body, first, count, stack),
        // variable
        Instr::LocalGet(index) => variable::local_get(scope, index, stack),
        Instr::LocalSet(index) => variable::local_set(scope, index, stack),
        Instr::LocalTee(index) => variable::local_tee(scope, index, stack),
        Instr::GlobalGet(index) => variable::global_get(scope, index, stack),
        Instr::GlobalSet(index) => variable::global_set(scope, index, stack),
        // table
        Instr::TableGet(table) => table::get(scope, table, stack),
        Instr::TableSet(table) => table::set(scope, table, stack),
        Instr::TableSize(table) => table::size(scope, table, stack),
        Instr::TableGrow(table) => table::grow(scope, table, stack),
        Instr::TableFill(table) => table::fill(scope, table, stack),
        Instr::TableCopy { to, from } => table::copy(scope, to, from, stack),
        Instr::TableInit { segment, table } => table::init(scope, segment, table, stack),
        Instr::ElemDrop(segment) => table::elem_drop(scope, segment, stack),
        // memory
        Instr::Access {
            op,
            align,
            offset,
            memory,
        } => memory::load_or_store(scope, op, align, offset, memory, stack),
        Instr::MemorySize(memory) => memory::size(scope, memory, stack),
        Instr::MemoryGrow(memory) => memory::grow(scope, memory, stack),
        Instr::MemoryFill(memory) => memory::fill(scope, memory, stack),
        Instr::MemoryCopy { to, from } => memory::copy(scope, to, from, stack),
        Instr::MemoryInit { segment, memory } => memory::init(scope, segment, memory, stack),
        Instr::DataDrop(segment) => memory::data_drop(scope, segment, stack),
        // control
        Instr::Nop => Ok(true),
        Instr::Unreachable => control::unreachable(stack),
        Instr::Block { shape, .. } | Instr::Loop { shape, .. } => block(scope, shape, stack),
        Instr::If { shape, .. } => control::if_else(scope, shape, stack),
        Instr::Br(label) => control::br(labels, label, stack),
        Instr::BrIf(label) => control::br_if(labels, label, stack),
        Instr::BrTable { first, count, last } => {
            Ok(control::br_table(labels, labels_of(body, first, count), last, stack))
        }
        Instr::Return => control::return_all(scope, stack),
        Instr::Call(function) => control::call(scope, function, stack),
        Instr::CallIndirect { signature, table } => call_indirect(scope, signature, table, stack),
    }
}

/// Whether the instructions of one block lead from what it takes to what it gives.
pub fn check_block(
    scope: &Scope<'_>,
    labels: &[Label<'_>],
    body: &Body,
    code: &[Instr],
    before: &[ValType],
    results: &[ValType],
    stack: &mut Stack,
) -> Result<bool, AllocError>
    ensures { let labels = reverse labels.now in
        let rules = outer_rules scope.now labels (λ i. leaf_in body.now i) code.now in
        let leads = Lead rules (pushed before.now []) results.now in
        IfOk result (λ ok. MatchBool ok leads (leads → ⊥)) }
{
    stack.clear();
    stack.give(before)?;
    for instr in code {
        if !follow(scope, labels, body, *instr, stack)? {
            return Ok(false);
        }
    }
    if !stack.take(results) {
        return Ok(false);
    }
    Ok(stack.is_empty())
}
