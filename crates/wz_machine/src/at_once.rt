//! Control steps (Core Specification 2.0, sections 4.4.8 to 4.4.10) whose answer is one bit:
//! whether the step was made and the term goes on. Where it wasn't, nothing is changed.
//!
//! They are the steps that a run meets most, so each is a small function that answers in a
//! register.

ghost use Rattle.std.specs.Prelude.{◌≡◌, ◌∷◌, List, IfOk, OnErr};
ghost use Rattle.wz_types.specs.FunctionType.{FunctionType};
ghost use Rattle.wz_code.specs.declared.instr.Instr.{Instr};
ghost use Rattle.wz_machine.specs.State.{state_of};
ghost use Rattle.wz_machine.specs.Outcomes.{Answer};
ghost use Rattle.wz_machine.specs.Stacks.{StackParts, stacks_term};
ghost use Rattle.wz_machine.specs.Step.{step};
ghost use Rattle.wz_machine.specs.Turns.{Turned, TurnedByTypes};
ghost use Rattle.wz_machine.specs.Asks.{AskTurned};
ghost use Rattle.wz_machine.specs.AtOnce.{MadeBy, MadeAnywhere, MadeByTypes, SparesTables};

use crate::asking::AskTurn;
use crate::stacks::Stacks;
use crate::stride::split;
use crate::turn::Turn;
use std::alloc::AllocError;
use wz_code::{Body, Instr, Shape};
use wz_linear::Linear;
use wz_store::Store;
use wz_types::FuncType;

#[inline(always)]
fn went(turn: Turn) -> bool
    ensures { (answer : Answer) (before now : StackParts) → Turned answer before turn now →
        MadeBy answer result before now }
{
    match turn {
        Turn::Went => true,
        Turn::Ends { at: _, count: _ } => false,
        Turn::Trapped(_) => false,
        Turn::NoRule => false,
    }
}

/// The same of a step that memory may be refused to.
#[inline(always)]
fn went_if(turn: Result<Turn, AllocError>) -> bool
    ensures { (types : List FunctionType) (before now : StackParts) →
        IfOk turn (λ t. TurnedByTypes types before t now) → OnErr turn (now ≡ before) →
        MadeByTypes types result before now }
{
    match turn {
        Ok(turn) => went(turn),
        Err(_) => false,
    }
}

/// The same of a call.
#[inline(always)]
fn called(turn: Result<AskTurn<'_>, AllocError>) -> bool
    ensures { (answer : Answer) (before now : StackParts) (rest : List Instr) →
        IfOk turn.entry (λ t. AskTurned answer before rest t now) →
        OnErr turn.entry (now ≡ before) →
        MadeBy answer result before now }
{
    match turn {
        Ok(AskTurn::Went) => true,
        Ok(
            AskTurn::Asks {
                pending: _,
                count: _,
                have: _,
            },
        ) => false,
        Ok(AskTurn::Trapped(_)) => false,
        Ok(AskTurn::NoRule) => false,
        Err(_) => false,
    }
}

impl<'m> Stacks<'m> {
    #[inline(never)]
    fn br_at_once(&mut self, label: u32, rest: &'m [Instr]) -> bool
        requires { self.old.top.rest ≡ Instr.Br label ∷ rest.now }
        ensures { MadeAnywhere result self.old self.new }
    {
        went(self.br(label, rest))
    }

    #[inline(never)]
    fn br_if_at_once(&mut self, label: u32, rest: &'m [Instr]) -> bool
        requires { self.old.top.rest ≡ Instr.BrIf label ∷ rest.now }
        ensures { MadeAnywhere result self.old self.new }
    {
        went(self.br_if(label, rest))
    }

    #[inline(never)]
    fn br_table_at_once(&mut self, first: u32, count: u32, last: u32, rest: &'m [Instr]) -> bool
        requires { self.old.top.rest ≡ Instr.BrTable first count last ∷ rest.now }
        ensures { MadeAnywhere result self.old self.new }
    {
        went(self.br_table(first, count, last, rest))
    }

    #[inline(never)]
    fn return_at_once(&mut self, rest: &'m [Instr]) -> bool
        requires { self.old.top.rest ≡ Instr.Return ∷ rest.now }
        ensures { MadeAnywhere result self.old self.new }
    {
        went(self.return_back(rest))
    }

    #[inline(never)]
    fn block_at_once(
        &mut self,
        types: &[FuncType],
        shape: Shape,
        body: u32,
        rest: &'m [Instr],
    ) -> bool
        requires { self.old.top.rest ≡ Instr.Block shape body ∷ rest.now }
        ensures { MadeByTypes types.now result self.old self.new }
    {
        went_if(self.block(types, shape, body, rest))
    }

    #[inline(never)]
    fn loop_at_once(
        &mut self,
        types: &[FuncType],
        shape: Shape,
        body: u32,
        rest: &'m [Instr],
    ) -> bool
        requires { self.old.top.rest ≡ Instr.Loop shape body ∷ rest.now }
        ensures { MadeByTypes types.now result self.old self.new }
    {
        went_if(self.begin_loop(types, shape, body, rest))
    }

    #[inline(always)]
    fn if_at_once(
        &mut self,
        types: &[FuncType],
        shape: Shape,
        first: u32,
        second: Option<u32>,
        rest: &'m [Instr],
    ) -> bool
        requires { self.old.top.rest ≡ Instr.If shape first second ∷ rest.now }
        ensures { MadeByTypes types.now result self.old self.new }
    {
        went_if(self.choose(types, shape, first, second, rest))
    }

    #[inline(always)]
    fn call_at_once<M: Linear>(
        &mut self,
        function: u32,
        rest: &'m [Instr],
        bodies: &'m [Body],
        store: &Store<'m, M>,
    ) -> bool
        requires { self.old.top.rest ≡ Instr.Call function ∷ rest.now }
        ensures { MadeBy (step (state_of bodies.now store.now) (stacks_term self.old))
            result self.old self.new }
    {
        called(self.call(rest, function, bodies, store))
    }

    /// One step of the term, where a control instruction is in front.
    #[inline(always)]
    pub fn at_once<M: Linear>(&mut self, bodies: &'m [Body], store: &Store<'m, M>) -> bool
        ensures made { MadeBy (step (state_of bodies.now store.now) (stacks_term self.old))
            result self.old self.new }
        ensures spares { SparesTables result self.old }
    {
        let top = self.innermost();
        let Some((instr, rest)) = split(top.rest) else {
            return false;
        };
        let types = store.types();
        match instr {
            Instr::If { shape, yes, no } => self.if_at_once(types, shape, yes, no, rest),
            Instr::Block { shape, body } => self.block_at_once(types, shape, body, rest),
            Instr::Loop { shape, body } => self.loop_at_once(types, shape, body, rest),
            Instr::Br(label) => self.br_at_once(label, rest),
            Instr::BrIf(label) => self.br_if_at_once(label, rest),
            Instr::BrTable { first, count, last } => {
                self.br_table_at_once(first, count, last, rest)
            }
            Instr::Return => self.return_at_once(rest),
            Instr::Call(function) => self.call_at_once(function, rest, bodies, store),
            _ => false,
        }
    }
}
