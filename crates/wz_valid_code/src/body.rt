//! Whether a body is typed (Core Specification 2.0, sections 3.3.9 and 3.4.1).

ghost use Rattle.std.specs.Prelude.{◌≡◌, ◌∷◌, [], ◌<◌, ◌^◌, length, IfOk, OnOk, MatchBool, IsTrue, Err, reverse};
ghost use Rattle.wz_code.specs.declared.instr.Instr.{Instr};
ghost use Rattle.wz_code.specs.Trees.{Leaf, leaf_in, tree_of};
ghost use Rattle.wz_code.specs.BlockRule.{IsBody};
ghost use Rattle.wz_valid_code.specs.Context.{HasTypes};
ghost use Rattle.wz_valid_code.specs.Typing.{IsTyped, IsBodyTyped};
ghost use Rattle.wz_valid_code.specs.Blocks.{arm_at, inner_in};
ghost use Rattle.wz_valid_code.specs.Waiting.{labels_in, IsLed, Grown};

use crate::block::check_block;
use crate::context::Context;
use crate::labels::Label;
use crate::locals::Locals;
use crate::scope::Scope;
use crate::stack::Stack;
use crate::waiting::{WaitingBlock, add_all};
use std::alloc::{AllocError, Global};
use wz_code::{Body, Instr, laws};
use wz_types::FuncType;

/// Why a body or an expression isn't accepted.
#[derive(Clone, Copy, Debug, PartialEq, Eq)]
pub enum BodyFault {
    /// No typing exists.
    Untyped,
    /// There is no memory for the check.
    NoMemory,
}

pub fn code_of(body: &Body, block: Option<u32>) -> &[Instr]
    ensures code { result.now ≡ arm_at body.now.blocks block }
{
    match block {
        Some(number) => match body.block(number) {
            Some(code) => code,
            None => &[],
        },
        None => &[],
    }
}

fn enter<'c>(labels: &mut Vec<Label<'c>>, next: &WaitingBlock<'c>) -> Result<(), AllocError>
    ensures { OnOk result (labels.new.items ≡ labels_in labels.old.items next.now) }
{
    labels.truncate(next.depth);
    labels.push(Label { types: next.label })?;
    Ok(())
}

/// Whether the block that is taken up is typed by itself; what it names then waits.
fn turn<'c>(
    scope: &Scope<'c>,
    body: &Body,
    next: &WaitingBlock<'c>,
    labels: &mut Vec<Label<'c>>,
    waiting: &mut Vec<WaitingBlock<'c>>,
    stack: &mut Stack,
) -> Result<bool, AllocError>
    ensures within { IfOk result (λ _. labels.new.items ≡ labels_in labels.old.items next.now) }
    ensures led { let leaf : Instr → Leaf = λ i. leaf_in body.now i in
        let led = IsLed scope.now leaf body.now.blocks labels.old.items next.now in
        IfOk result (λ ok. MatchBool ok led (led → ⊥)) }
    ensures grown { let inside = labels_in labels.old.items next.now in
        let code = arm_at body.now.blocks next.now.block in
        let named = inner_in scope.now (reverse inside) code in
        IfOk result (λ ok. IsTrue ok → Grown inside waiting.old.items waiting.new.items named) }
{
    enter(labels, next)?;
    let code = code_of(body, next.block);
    if !check_block(
        scope,
        labels.as_slice(),
        body,
        code,
        next.before,
        next.results,
        stack,
    )? {
        return Ok(false);
    }
    add_all(scope, labels.as_slice(), code, waiting)?;
    Ok(true)
}

/// Takes up one block after another, the last added first.
fn is_typed(alloc: Global, scope: &Scope<'_>, body: &Body) -> Result<bool, AllocError>
    ensures { let results = scope.now.results in
        let typed = IsTyped scope.now (results ∷ []) (tree_of body.now 0) [] results in
        IfOk result (λ ok. MatchBool ok typed (typed → ⊥)) }
{
    // the tree of a block is its instructions, each with the trees of the blocks that it names
    laws::tree_of_block();
    // blocks name later ones alone, as that law asks
    let _kept = body.block_count();
    let mut labels: Vec<Label<'_>> = Vec::new(alloc);
    let mut waiting: Vec<WaitingBlock<'_>> = Vec::new(alloc);
    let mut stack = Stack::new(alloc);
    waiting.push(WaitingBlock {
        block: Some(0),
        depth: 0,
        before: &[],
        results: scope.results,
        label: scope.results,
    })?;
    while let Some(next) = waiting.pop() {
        if !turn(scope, body, &next, &mut labels, &mut waiting, &mut stack)? {
            return Ok(false);
        }
    }
    Ok(true)
}

fn is_body_typed(
    alloc: Global,
    context: &Context<'_>,
    kind: &FuncType,
    body: &Body,
) -> Result<bool, AllocError>
    ensures { let typed = IsBodyTyped context.now kind.now body.now in
        IfOk result (λ ok. MatchBool ok typed (typed → ⊥)) }
{
    // the body has fewer than 2^32 runs of locals
    let _kept = body.block_count();
    let scope = Scope {
        context,
        locals: Locals::new(alloc, kind.params(), body.locals())?,
        results: kind.results(),
    };
    is_typed(alloc, &scope, body)
}

/// Checks the body of a function of type `kind`: it is refused as untyped exactly where no typing
/// of it exists. The number of locals costs nothing, only the number of their runs does.
pub fn check_body(
    alloc: Global,
    context: &Context<'_>,
    kind: &FuncType,
    body: &Body,
) -> Result<(), BodyFault>
    requires { HasTypes context.now }
    ensures typed { OnOk result (IsBodyTyped context.now kind.now body.now) }
    ensures untyped { let typed = IsBodyTyped context.now kind.now body.now in
        result ≡ Err BodyFault.Untyped → typed → ⊥ }
{
    match is_body_typed(alloc, context, kind, body) {
        Ok(true) => Ok(()),
        Ok(false) => Err(BodyFault::Untyped),
        Err(_) => Err(BodyFault::NoMemory),
    }
}
