//! Whether a constant expression is typed (Core Specification 2.0, section 3.3.10).

ghost use Rattle.std.specs.Prelude.{◌≡◌, ◌∷◌, [], IfOk, OnOk, MatchBool, Err};
ghost use Rattle.wz_code.specs.BodyParts.{block_at};
ghost use Rattle.wz_code.specs.Trees.{tree_of};
ghost use Rattle.wz_valid_code.specs.Rules.{Lead};
ghost use Rattle.wz_valid_code.specs.Context.{HasTypes};
ghost use Rattle.wz_valid_code.specs.Typing.{IsConstant};
ghost use Rattle.wz_valid_code.specs.Blocks.{constant_rules};
ghost use Rattle.wz_valid_code.specs.ConstantInstructions.{constant_instr_rule};
ghost use Rattle.wz_valid_code.specs.Checking.{Followed};

use crate::body::{BodyFault, code_of};
use crate::context::Context;
use crate::stack::Stack;
use crate::{numeric, reference, variable};
use std::alloc::{AllocError, Global};
use wz_code::{Body, Instr, laws};
use wz_types::ValType;

/// Follows one instruction of a constant expression.
fn follow_constant(
    context: &Context<'_>,
    instr: Instr,
    stack: &mut Stack,
) -> Result<bool, AllocError>
    ensures { let rule = constant_instr_rule context.now instr in
        IfOk result (λ ok. Followed rule stack.old stack.new ok) }
{
    match instr {
        // numeric
        Instr::I32Const(bits) => numeric::i32_const(bits, stack),
        Instr::I64Const(bits) => numeric::i64_const(bits, stack),
        Instr::F32Const(bits) => numeric::f32_const(bits, stack),
        Instr::F64Const(bits) => numeric::f64_const(bits, stack),
        Instr::Num(_) => Ok(false),
        // reference
        Instr::RefNull(kind) => reference::null(kind, stack),
        Instr::RefFunc(function) => reference::func(context, function, stack),
        Instr::RefIsNull => Ok(false),
        // parametric
        Instr::Drop | Instr::Select | Instr::SelectTyped { .. } => Ok(false),
        // variable
        Instr::GlobalGet(index) => variable::constant_global_get(context, index, stack),
        Instr::GlobalSet(_) => Ok(false),
        Instr::LocalGet(_) | Instr::LocalSet(_) | Instr::LocalTee(_) => Ok(false),
        // table
        Instr::TableGet(_) | Instr::TableSet(_) | Instr::TableSize(_) => Ok(false),
        Instr::TableGrow(_) | Instr::TableFill(_) | Instr::TableCopy { .. } => Ok(false),
        Instr::TableInit { .. } | Instr::ElemDrop(_) => Ok(false),
        // memory
        Instr::Access { .. } | Instr::MemorySize(_) | Instr::MemoryGrow(_) => Ok(false),
        Instr::MemoryFill(_) | Instr::MemoryCopy { .. } => Ok(false),
        Instr::MemoryInit { .. } | Instr::DataDrop(_) => Ok(false),
        // control
        Instr::Nop | Instr::Unreachable => Ok(false),
        Instr::Block { .. } | Instr::Loop { .. } | Instr::If { .. } => Ok(false),
        Instr::Br(_) | Instr::BrIf(_) | Instr::BrTable { .. } | Instr::Return => Ok(false),
        Instr::Call(_) | Instr::CallIndirect { .. } => Ok(false),
    }
}

/// Whether constant instructions lead to one value of this type.
fn leads_to(
    alloc: Global,
    context: &Context<'_>,
    kind: ValType,
    code: &[Instr],
) -> Result<bool, AllocError>
    ensures { let leads = Lead (constant_rules context.now code.now) [] (kind ∷ []) in
        IfOk result (λ ok. MatchBool ok leads (leads → ⊥)) }
{
    let mut stack = Stack::new(alloc);
    for instr in code {
        if !follow_constant(context, *instr, &mut stack)? {
            return Ok(false);
        }
    }
    if !stack.take_one(kind) {
        return Ok(false);
    }
    Ok(stack.is_empty())
}

fn is_constant(
    alloc: Global,
    context: &Context<'_>,
    kind: ValType,
    body: &Body,
) -> Result<bool, AllocError>
    ensures { let constant = IsConstant context.now (tree_of body.now 0) kind in
        IfOk result (λ ok. MatchBool ok constant (constant → ⊥)) }
{
    // the tree of block 0 is its instructions
    laws::tree_of_block();
    // blocks name later ones alone, as that law asks
    let _kept = body.block_count();
    let leads = leads_to(alloc, context, kind, code_of(body, Some(0)))?;
    Ok(leads)
}

/// Checks an expression: it is refused as untyped exactly where it isn't constant, or doesn't give
/// just one value of type `kind`.
pub fn check_constant(
    alloc: Global,
    context: &Context<'_>,
    kind: ValType,
    body: &Body,
) -> Result<(), BodyFault>
    requires { HasTypes context.now }
    ensures constant { OnOk result (IsConstant context.now (tree_of body.now 0) kind) }
    ensures untyped { let constant = IsConstant context.now (tree_of body.now 0) kind in
        result ≡ Err BodyFault.Untyped → constant → ⊥ }
{
    match is_constant(alloc, context, kind, body) {
        Ok(true) => Ok(()),
        Ok(false) => Err(BodyFault::Untyped),
        Err(_) => Err(BodyFault::NoMemory),
    }
}
