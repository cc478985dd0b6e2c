//! The stacks of one term (Core Specification 2.0, section 4.2.14): open blocks and calls, and one
//! list of values for locals and operands.

ghost use Rattle.std.specs.Prelude.{◌≡◌, IfOk};
ghost use Rattle.wz_code.specs.BodyParts.{block_at};
ghost use Rattle.wz_code.specs.BlockRule.{IsBody};
ghost use Rattle.wz_machine.specs.Stacks.{stacks_term, started, IsStartOf};

use crate::room::{MOST, make_room, put, put_locals};
use std::alloc::{AllocError, Global};
use std::marker::Model;
use wz_code::{Body, Instr};
use wz_types::Value;

/// What is open: a call, a block, or a loop with its instructions.
#[derive(Clone, Copy)]
pub(crate) enum Kind<'m> {
    Call,
    Block,
    Loop(&'m [Instr]),
}

/// A block or a call that is open. Heights and places count values from the bottom of the stacks.
#[derive(Clone, Copy)]
pub(crate) struct Opened<'m> {
    pub kind: Kind<'m>,
    pub body: &'m Body,
    /// What is left of its instructions, behind the end of what is open within it.
    pub rest: &'m [Instr],
    /// How many values a branch to it takes along; of a call, how many results it has.
    pub arity: usize,
    /// Where all that belongs to it begins: a call's locals, a block's own values.
    pub base: usize,
    /// Where its function's locals begin and end.
    pub locals_at: usize,
    pub locals_end: usize,
    /// Where its own values begin.
    pub height: usize,
    /// How many blocks of its function are open around it.
    pub depth: usize,
    /// How many frames there are with its own, and how many locals these have.
    pub frames: usize,
    pub frame_locals: usize,
}

/// The stacks of one term. Of `values` the first `have` are used, so that an instruction finds
/// room without a push.
#[derive(Drop)]
pub(crate) struct Stacks<'m> {
    pub top: Opened<'m>,
    pub outer: Vec<Opened<'m>>,
    pub values: Vec<Value>,
    pub have: usize,
}

impl<'m> Model for Stacks<'m> {
    ghost use Rattle.std.specs.Prelude.{◌≤◌, length, map, reverse, take};
    ghost use Rattle.wz_machine.specs.Stacks.{StackParts, IsStacked};

    ghost Value = { StackParts };

    ghost use Rattle.wz_machine.specs.Kept.{stack_parts, AreKept};

    ghost view = { λ s. stack_parts s.top s.outer.items s.values.items s.have };

    ghost invariant = { λ s. AreKept s.top s.outer.items s.values.items s.have };
}

/// The instructions of a body's block, or none where there is no such block.
#[inline(always)]
pub(crate) fn code_of<'m>(body: &'m Body, number: u32) -> &'m [Instr]
    ensures code { result.now ≡ block_at body.now.blocks number }
    ensures kept { IsBody body.now }
{
    match body.block(number) {
        Some(code) => code,
        None => &[],
    }
}

impl<'m> Stacks<'m> {
    /// The stacks of a call from outside.
    pub fn start(
        alloc: Global,
        body: &'m Body,
        arguments: &[Value],
        results: usize,
    ) -> Result<Stacks<'m>, AllocError>
        ensures started { IfOk result (λ s. s ≡ started body.now results arguments.now) }
        ensures term { IfOk result (λ s.
            IsStartOf (stacks_term s) body.now results arguments.now) }
    {
        let code = code_of(body, 0);
        let stacks = Stacks::begin(alloc, body, code, arguments, results)?;
        Ok(stacks)
    }

    fn begin(
        alloc: Global,
        body: &'m Body,
        code: &'m [Instr],
        arguments: &[Value],
        results: usize,
    ) -> Result<Stacks<'m>, AllocError>
        requires { code.now ≡ block_at body.now.blocks 0 }
        ensures { IfOk result (λ s. s ≡ started body.now results arguments.now) }
    {
        let mut values = Vec::new(alloc);
        make_room(&mut values, 0, arguments.len())?;
        put(&mut values, 0, arguments);
        let have = put_locals(&mut values, arguments.len(), body.locals())?;
        if have > MOST {
            return Err(AllocError);
        }
        let top = Opened {
            kind: Kind::Call,
            body,
            rest: code,
            arity: results,
            base: 0,
            locals_at: 0,
            locals_end: have,
            height: have,
            depth: 0,
            frames: 1,
            frame_locals: have,
        };
        Ok(Stacks {
            top,
            outer: Vec::new(alloc),
            values,
            have,
        })
    }
}
