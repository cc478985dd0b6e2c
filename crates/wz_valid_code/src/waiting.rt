//! The blocks of a body that wait to be checked.

ghost use Rattle.std.specs.Prelude.{◌≡◌, reverse, OnOk};
ghost use Rattle.wz_valid_code.specs.Context.{shape_type};
ghost use Rattle.wz_valid_code.specs.Blocks.{inner_from, inner_of, inner_in};
ghost use Rattle.wz_valid_code.specs.Waiting.{Grown};

use crate::labels::Label;
use crate::scope::Scope;
use std::alloc::AllocError;
use std::marker::Model;
use wz_code::{Instr, Shape};
use wz_types::ValType;

/// A block that waits, or an arm that was left out, within `depth` others.
#[derive(Drop)]
pub struct WaitingBlock<'c> {
    pub block: Option<u32>,
    pub depth: usize,
    pub before: &'c [ValType],
    pub results: &'c [ValType],
    pub label: &'c [ValType],
}

impl<'c> Model for WaitingBlock<'c> {
    ghost use Rattle.wz_valid_code.specs.Waiting.{WaitingBlock as TheBlock};

    ghost Value = { TheBlock };

    ghost view = { λ w. record {
      block = w.block;
      depth = w.depth;
      before = w.before.now;
      results = w.results.now;
      label = w.label.now;
    } };
}

fn add_block<'c>(
    scope: &Scope<'c>,
    labels: &[Label<'c>],
    shape: Shape,
    again: bool,
    block: Option<u32>,
    waiting: &mut Vec<WaitingBlock<'c>>,
) -> Result<(), AllocError>
    ensures { let kind = shape_type scope.now.context shape in
        let named = inner_from (reverse labels.now) kind again block in
        OnOk result (Grown labels.now waiting.old.items waiting.new.items named) }
{
    match scope.context.shape_type(shape) {
        Some(kind) => {
            waiting.push(WaitingBlock {
                block,
                depth: labels.len(),
                before: kind.params,
                results: kind.results,
                label: if again { kind.params } else { kind.results },
            })?;
            Ok(())
        }
        // the instruction that names it has no rule then
        None => Ok(()),
    }
}

/// Adds the blocks that an instruction names.
fn add_of<'c>(
    scope: &Scope<'c>,
    labels: &[Label<'c>],
    instr: Instr,
    waiting: &mut Vec<WaitingBlock<'c>>,
) -> Result<(), AllocError>
    ensures { let named = inner_of scope.now (reverse labels.now) instr in
        OnOk result (Grown labels.now waiting.old.items waiting.new.items named) }
{
    match instr {
        Instr::Block { shape, body } => add_block(scope, labels, shape, false, Some(body), waiting),
        Instr::Loop { shape, body } => add_block(scope, labels, shape, true, Some(body), waiting),
        Instr::If { shape, yes, no } => {
            add_block(scope, labels, shape, false, Some(yes), waiting)?;
            add_block(scope, labels, shape, false, no, waiting)?;
            Ok(())
        }
        // one that names a block and was forgotten here has no rule either, so it is never typed
        _ => Ok(()),
    }
}

/// Adds the blocks that these instructions name.
pub fn add_all<'c>(
    scope: &Scope<'c>,
    labels: &[Label<'c>],
    code: &[Instr],
    waiting: &mut Vec<WaitingBlock<'c>>,
) -> Result<(), AllocError>
    ensures { let named = inner_in scope.now (reverse labels.now) code.now in
        OnOk result (Grown labels.now waiting.old.items waiting.new.items named) }
{
    for instr in code {
        add_of(scope, labels, *instr, waiting)?;
    }
    Ok(())
}
