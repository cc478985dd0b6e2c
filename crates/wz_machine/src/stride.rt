//! One step of a term's stacks, whatever instruction stands in front.

ghost use Rattle.std.specs.Prelude.{◌≡◌, [], ◌∷◌, IfOk, OnErr, MatchOption};
ghost use Rattle.wz_store.specs.Made.{StoreState};
ghost use Rattle.wz_machine.specs.State.{state_of};
ghost use Rattle.wz_machine.specs.Outcomes.{Answer};
ghost use Rattle.wz_machine.specs.Stacks.{StackParts, stacks_term};
ghost use Rattle.wz_machine.specs.Step.{step};
ghost use Rattle.wz_machine.specs.Turns.{Turned};
ghost use Rattle.wz_machine.specs.PlainSteps.{count_of};
ghost use Rattle.wz_machine.specs.PlainTurns.{IsSpecialTurn};
ghost use Rattle.wz_machine.specs.Asks.{AskTurned};
ghost use Rattle.wz_machine.specs.Strides.{Strode};

use crate::asking::AskTurn;
use crate::plain::Plain;
use crate::stacks::Stacks;
use crate::standing::Pending;
use crate::straight::is_control;
use crate::turn::Turn;
use std::alloc::AllocError;
use wz_code::{Body, Instr, NumOp, signature};
use wz_linear::Linear;
use wz_store::Store;
use wz_types::TrapKind;

/// What a step comes to: the term went on; it is done, with so many values from a place on; it
/// traps; no rule fits; or it waits as soon as it is stepped over the instruction: then `have`
/// values stay, and the last `count` of them are the question's operands.
#[derive(Clone, Copy)]
pub(crate) enum Stride<'m> {
    Went,
    Ends {
        at: usize,
        count: usize,
    },
    Trapped(TrapKind),
    NoRule,
    Asks {
        pending: Pending<'m>,
        count: usize,
        rest: &'m [Instr],
        have: usize,
    },
}

#[inline(always)]
fn of_turn<'m>(turn: Turn) -> Stride<'m>
    ensures { (answer : Answer) (s : StoreState) (before now : StackParts) →
        Turned answer before turn now → Strode answer s before result now s }
{
    match turn {
        Turn::Went => Stride::Went,
        Turn::Ends { at, count } => Stride::Ends { at, count },
        Turn::Trapped(kind) => Stride::Trapped(kind),
        Turn::NoRule => Stride::NoRule,
    }
}

#[inline(always)]
fn of_asking<'m>(turn: AskTurn<'m>, rest: &'m [Instr]) -> Stride<'m>
    ensures { (answer : Answer) (s : StoreState) (before now : StackParts) →
        AskTurned answer before rest.now turn.entry now → Strode answer s before result now s }
{
    match turn {
        AskTurn::Went => Stride::Went,
        AskTurn::Asks {
            pending,
            count,
            have,
        } => Stride::Asks {
            pending,
            count,
            rest,
            have,
        },
        AskTurn::Trapped(kind) => Stride::Trapped(kind),
        AskTurn::NoRule => Stride::NoRule,
    }
}

/// The first instruction and those behind it.
#[inline(always)]
pub(crate) fn split<'m>(code: &'m [Instr]) -> Option<(Instr, &'m [Instr])>
    ensures { MatchOption result (code.now ≡ []) (λ parts. code.now ≡ parts.0 ∷ parts.1.now) }
{
    let (first, rest) = code.split_first()?;
    Some((*first, rest))
}

/// How many operands an operation takes.
fn operand_count(op: NumOp) -> usize
    ensures { result ≡ count_of op }
{
    match signature(op).second {
        Some(_) => 2,
        None => 1,
    }
}

impl<'m> Stacks<'m> {
    /// One step of the term, where no plain instruction stands in front.
    #[inline(always)]
    fn special<M: Linear>(
        &mut self,
        instr: Instr,
        rest: &'m [Instr],
        bodies: &'m [Body],
        store: &Store<'m, M>,
    ) -> Result<Stride<'m>, AllocError>
        requires next { self.old.top.rest ≡ instr ∷ rest.now }
        requires special { IsSpecialTurn instr self.old }
        ensures strode { IfOk result (λ stride.
            Strode (step (state_of bodies.now store.now) (stacks_term self.old))
            store.now self.old stride self.new store.now) }
        ensures refused { OnErr result (self.new ≡ self.old) }
    {
        let types = store.types();
        match instr {
            Instr::Block { shape, body } => Ok(of_turn(self.block(types, shape, body, rest)?)),
            Instr::Loop { shape, body } => Ok(of_turn(self.begin_loop(types, shape, body, rest)?)),
            Instr::If { shape, yes, no } => Ok(of_turn(self.choose(types, shape, yes, no, rest)?)),
            Instr::Br(label) => Ok(of_turn(self.br(label, rest))),
            Instr::BrIf(label) => Ok(of_turn(self.br_if(label, rest))),
            Instr::BrTable { first, count, last } => {
                Ok(of_turn(self.br_table(first, count, last, rest)))
            }
            Instr::Return => Ok(of_turn(self.return_back(rest))),
            Instr::Call(function) => Ok(of_asking(self.call(rest, function, bodies, store)?, rest)),
            Instr::MemoryGrow(memory) => Ok(of_asking(self.memory_grow(rest, memory, store), rest)),
            Instr::TableGrow(table) => Ok(of_asking(self.table_grow(rest, table, store), rest)),
            Instr::Num(op) => Ok(of_asking(self.ask_float(rest, op, operand_count(op)), rest)),
            Instr::CallIndirect { signature, table } => Ok(of_asking(
                self.call_indirect(rest, signature, table, bodies, store)?,
                rest,
            )),
            Instr::Unreachable
            | Instr::Nop
            | Instr::RefNull(_)
            | Instr::RefIsNull
            | Instr::RefFunc(_)
            | Instr::Drop
            | Instr::Select
            | Instr::SelectTyped { .. }
            | Instr::LocalGet(_)
            | Instr::LocalSet(_)
            | Instr::LocalTee(_)
            | Instr::GlobalGet(_)
            | Instr::GlobalSet(_)
            | Instr::TableGet(_)
            | Instr::TableSet(_)
            | Instr::TableInit { .. }
            | Instr::ElemDrop(_)
            | Instr::TableCopy { .. }
            | Instr::TableSize(_)
            | Instr::TableFill(_)
            | Instr::Access { .. }
            | Instr::MemorySize(_)
            | Instr::MemoryInit { .. }
            | Instr::DataDrop(_)
            | Instr::MemoryCopy { .. }
            | Instr::MemoryFill(_)
            | Instr::I32Const(_)
            | Instr::I64Const(_)
            | Instr::F32Const(_)
            | Instr::F64Const(_) => Ok(Stride::NoRule),
        }
    }

    /// One step of the term.
    #[inline(always)]
    pub fn stride<M: Linear>(
        &mut self,
        bodies: &'m [Body],
        store: &mut Store<'m, M>,
    ) -> Result<Stride<'m>, AllocError>
        ensures strode { IfOk result (λ stride.
            Strode (step (state_of bodies.now store.old) (stacks_term self.old))
            store.old self.old stride self.new store.new) }
        ensures refused { OnErr result (self.new ≡ self.old) }
        ensures kept { OnErr result (store.new ≡ store.old) }
    {
        let top = self.innermost();
        let Some((instr, rest)) = split(top.rest) else {
            return Ok(of_turn(self.finish()));
        };
        if is_control(&instr) {
            let stride = self.special(instr, rest, bodies, store)?;
            return Ok(stride);
        }
        match self.plain_turn(&instr, rest, store)? {
            Plain::Went(_) => Ok(Stride::Went),
            Plain::Trapped(kind) => Ok(Stride::Trapped(kind)),
            Plain::NoRule => Ok(Stride::NoRule),
            Plain::Special => {
                let stride = self.special(instr, rest, bodies, store)?;
                Ok(stride)
            }
        }
    }
}
