//! Control instructions, but for the calls (Core Specification 2.0, section 4.4.8).

ghost use Rattle.std.specs.Prelude.{◌≡◌, ◌+◌, ◌-◌, ◌≤◌, ◌∷◌, length, map, take, drop, slice_get, unwrap_or, option_map, IfOk, OnErr, MatchBool, MatchOption};
ghost use Rattle.wz_code.specs.BodyParts.{block_at};
ghost use Rattle.wz_code.specs.BlockRule.{IsBody};
ghost use Rattle.wz_code.specs.Trees.{code_in, tree_of, arm_of};
ghost use Rattle.wz_machine.specs.BlockSteps.{block_type};
ghost use Rattle.wz_machine.specs.Turns.{TurnedAnywhere, TurnedByTypes, EntryTurned, NoNumber, HasFrontNumber, own_of};
ghost use Rattle.wz_machine.specs.Turns.{arm_chosen};

use crate::stacks::{Kind, Stacks, code_of};
use crate::stride::split;
use crate::turn::Turn;
use std::alloc::AllocError;
use wz_code::{Instr, Shape};
use wz_types::{FuncType, Value};

/// How many parameters and results a block of this shape has, where its type is there.
#[inline]
fn counts_of(types: &[FuncType], shape: Shape) -> Option<(usize, usize)>
    ensures { result ≡ option_map
        (λ type. (length type.params, length type.results)) (block_type types.now shape) }
{
    match shape {
        Shape::Empty => Some((0, 0)),
        Shape::One(_) => Some((0, 1)),
        Shape::Index(number) => {
            let kind = types.get(number as usize)?;
            Some((kind.params().len(), kind.results().len()))
        }
    }
}

/// The label of this number among those that a `br_table` has in the pool, or its last one.
#[inline]
fn listed(labels: &[u32], first: u32, count: u32, number: u32, last: u32) -> u32
    ensures { result ≡
        unwrap_or (slice_get (take count (drop first labels.now)) number) last }
{
    if number >= count {
        return last;
    }
    match labels.get(first as usize + number as usize) {
        Some(label) => *label,
        None => last,
    }
}

impl<'m> Stacks<'m> {
    /// The last value of the innermost block, where it is a number of 32 bits.
    #[inline]
    fn number(&self) -> Option<u32>
        ensures { MatchOption result (NoNumber (own_of self.now (length self.now.values)))
            (λ n. HasFrontNumber self.now n) }
    {
        if self.have <= self.top.height {
            return None;
        }
        match self.values[self.have - 1] {
            Value::I32(number) => Some(number),
            Value::I64(_) | Value::F32(_) | Value::F64(_) | Value::Ref(_) => None,
        }
    }

    /// Enters a block of this shape, with what the block around has of so many values.
    #[inline(always)]
    fn enter(
        &mut self,
        types: &[FuncType],
        shape: Shape,
        loops: bool,
        code: &'m [Instr],
        rest: &'m [Instr],
        have: usize,
    ) -> Result<Turn, AllocError>
        requires own { self.old.top.height ≤ have }
        requires values { have ≤ length self.old.values }
        ensures turned { IfOk result (λ turn.
            EntryTurned self.old types.now shape loops code.now rest.now have turn self.new) }
        ensures refused { OnErr result (self.new ≡ self.old) }
    {
        let Some(counts) = counts_of(types, shape) else {
            return Ok(Turn::NoRule);
        };
        let top = self.innermost();
        if have - top.height < counts.0 {
            return Ok(Turn::NoRule);
        }
        if loops {
            self.push_block(rest, Kind::Loop(code), code, have, counts.0, counts.0)?;
            return Ok(Turn::Went);
        }
        self.push_block(rest, Kind::Block, code, have, counts.0, counts.1)?;
        Ok(Turn::Went)
    }

    /// The instructions of a block of the innermost entry's body.
    #[inline(never)]
    fn block_code(&self, number: u32) -> &'m [Instr]
        ensures code { result.now ≡ block_at self.now.top.body.blocks number }
        ensures kept { IsBody self.now.top.body }
    {
        code_of(self.top.body, number)
    }

    /// The labels that its `br_table` instructions name.
    #[inline]
    fn labels(&self) -> &'m [u32]
        ensures { result.now ≡ self.now.top.body.labels }
    {
        self.top.body.labels()
    }

    pub fn br(&mut self, label: u32, rest: &'m [Instr]) -> Turn
        requires { self.old.top.rest ≡ Instr.Br label ∷ rest.now }
        ensures { TurnedAnywhere self.old result self.new }
    {
        let have = self.used();
        self.jump(label as usize, have)
    }

    pub fn br_if(&mut self, label: u32, rest: &'m [Instr]) -> Turn
        requires { self.old.top.rest ≡ Instr.BrIf label ∷ rest.now }
        ensures { TurnedAnywhere self.old result self.new }
    {
        let have = self.used();
        let Some(number) = self.number() else {
            return Turn::NoRule;
        };
        if number == 0 {
            self.step_over(rest, have - 1);
            return Turn::Went;
        }
        self.jump(label as usize, have - 1)
    }

    pub fn br_table(&mut self, first: u32, count: u32, last: u32, rest: &'m [Instr]) -> Turn
        requires { self.old.top.rest ≡ Instr.BrTable first count last ∷ rest.now }
        ensures { TurnedAnywhere self.old result self.new }
    {
        let have = self.used();
        let Some(number) = self.number() else {
            return Turn::NoRule;
        };
        let label = listed(self.labels(), first, count, number, last);
        self.jump(label as usize, have - 1)
    }

    pub fn return_back(&mut self, rest: &'m [Instr]) -> Turn
        requires { self.old.top.rest ≡ Instr.Return ∷ rest.now }
        ensures { TurnedAnywhere self.old result self.new }
    {
        let have = self.used();
        self.go_back(have)
    }

    pub fn block(
        &mut self,
        types: &[FuncType],
        shape: Shape,
        body: u32,
        rest: &'m [Instr],
    ) -> Result<Turn, AllocError>
        requires { self.old.top.rest ≡ Instr.Block shape body ∷ rest.now }
        ensures turned { IfOk result (λ turn. TurnedByTypes types.now self.old turn self.new) }
        ensures refused { OnErr result (self.new ≡ self.old) }
    {
        let have = self.used();
        let code = self.block_code(body);
        let turn = self.enter(types, shape, false, code, rest, have)?;
        Ok(turn)
    }

    pub fn begin_loop(
        &mut self,
        types: &[FuncType],
        shape: Shape,
        body: u32,
        rest: &'m [Instr],
    ) -> Result<Turn, AllocError>
        requires { self.old.top.rest ≡ Instr.Loop shape body ∷ rest.now }
        ensures turned { IfOk result (λ turn. TurnedByTypes types.now self.old turn self.new) }
        ensures refused { OnErr result (self.new ≡ self.old) }
    {
        let have = self.used();
        let code = self.block_code(body);
        let turn = self.enter(types, shape, true, code, rest, have)?;
        Ok(turn)
    }

    /// The instructions of an if's second arm.
    #[inline(always)]
    fn arm_code(&self, number: Option<u32>) -> &'m [Instr]
        ensures { code_in self.now.top.body result.now ≡
            arm_of (λ n. tree_of self.now.top.body n) number }
    {
        match number {
            Some(number) => self.block_code(number),
            None => &[],
        }
    }

    /// The instructions of the arm that this number chooses.
    #[inline(always)]
    fn chosen(&self, number: u32, first: u32, second: Option<u32>) -> &'m [Instr]
        ensures { code_in self.now.top.body result.now ≡ arm_chosen number
            (tree_of self.now.top.body first)
            (arm_of (λ n. tree_of self.now.top.body n) second) }
    {
        if number == 0 {
            return self.arm_code(second);
        }
        self.block_code(first)
    }

    #[inline(always)]
    pub fn choose(
        &mut self,
        types: &[FuncType],
        shape: Shape,
        first: u32,
        second: Option<u32>,
        rest: &'m [Instr],
    ) -> Result<Turn, AllocError>
        requires { self.old.top.rest ≡ Instr.If shape first second ∷ rest.now }
        ensures turned { IfOk result (λ turn. TurnedByTypes types.now self.old turn self.new) }
        ensures refused { OnErr result (self.new ≡ self.old) }
    {
        let have = self.used();
        let Some(number) = self.number() else {
            return Ok(Turn::NoRule);
        };
        let code = self.chosen(number, first, second);
        let turn = self.enter(types, shape, false, code, rest, have - 1)?;
        Ok(turn)
    }
}
