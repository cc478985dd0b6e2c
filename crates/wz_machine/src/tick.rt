//! A tick: one step of the topmost term (Core Specification 2.0, section 4.4).

ghost use Rattle.std.specs.Prelude.{◌≡◌, ◌≤◌, ◌+◌, [], length, option_map, MatchOption, IsSome, IfOk, OnOk, OnErr};
ghost use Rattle.wz_store.specs.Changes.{range_of};
ghost use Rattle.wz_machine.specs.Replies.{question_event, tick_reply};
ghost use Rattle.wz_machine.specs.Stacks.{last_values};
ghost use Rattle.wz_machine.specs.Standings.{question_of, values_in, work_term, standing_of};
ghost use Rattle.wz_machine.specs.Standings.{stack_of, IsStanding};
ghost use Rattle.wz_machine.specs.Keeping.{asking_of, work_parts, standing_parts};
ghost use Rattle.wz_machine.specs.Machines.{machine_state, machine_stack, IsReplied};
ghost use Rattle.wz_machine.specs.State.{state_of};
ghost use Rattle.wz_machine.specs.Terms.{Runs};
ghost use Rattle.wz_machine.specs.Stacks.{stacks_term};
ghost use Rattle.wz_machine.specs.TypedSteps.{StepHasRule, IsNotStuck};
ghost use Rattle.wz_machine.specs.Ticks.{asked_event, event_of, tick_event, asking_with, running, is_over};
ghost use Rattle.wz_machine.specs.Ticks.{StandingTicked, TopTicked, StackTicked};

use crate::answers::Tick;
use crate::machine::Machine;
use crate::questions::{Ask, Growth};
use crate::stacks::Stacks;
use crate::standing::{Pending, Standing, Work};
use crate::stride::Stride;
use crate::waiting::drop_top;
use std::alloc::{AllocError, Global};
use wz_code::Body;
use wz_linear::Linear;
use wz_store::Store;
use wz_types::{Value, Values};

/// The question as it is asked, with its operands.
fn ask_of(alloc: Global, pending: Pending<'_>, operands: &[Value]) -> Result<Ask, AllocError>
    ensures { IfOk result (λ ask. asked_event ask ≡
        question_event (question_of (asking_of pending.entry) operands.now)) }
{
    match pending {
        Pending::Float(op) => Ok(Ask::Float {
            op,
            operands: Values::new(alloc, operands)?,
        }),
        Pending::Memory { index, by } => Ok(Ask::Grow(Growth::Memory { index, by })),
        Pending::Table {
            index,
            by,
            value: _,
        } => Ok(Ask::Grow(Growth::Table { index, by })),
        Pending::Host { target, kind: _ } => Ok(Ask::Host {
            target,
            args: Values::new(alloc, operands)?,
        }),
    }
}

/// What a tick of one term answers, and what the term waits for then, with how many operands.
#[derive(Drop)]
struct Ticked<'m> {
    tick: Tick,
    question: Option<Pending<'m>>,
    count: usize,
}

impl<'m> Stacks<'m> {
    /// So many values from a place on.
    fn range(&self, at: usize, count: usize) -> &[Value]
        requires { at + count ≤ length self.now.values }
        ensures { result.now ≡ range_of self.now.values at count }
    {
        &self.values[at..at + count]
    }

    /// A tick of a term that runs.
    fn tick<M: Linear>(
        &mut self,
        alloc: Global,
        bodies: &'m [Body],
        store: &mut Store<'m, M>,
    ) -> Result<Ticked<'m>, AllocError>
        requires rule { StepHasRule (state_of bodies.now store.old)
            (Runs (stacks_term self.old)) }
        ensures ticked { IfOk result (λ ticked. StandingTicked bodies.now store.old
            (running self.old) ticked.tick
            (asking_with self.new (option_map (λ pending. asking_of pending) ticked.question)
            ticked.count) store.new) }
        ensures standing { IfOk result (λ ticked. IsStanding
            (asking_with self.new (option_map (λ pending. asking_of pending) ticked.question)
            ticked.count)) }
        ensures refused { OnErr result (self.new ≡ self.old) }
        ensures kept { OnErr result (store.new ≡ store.old) }
    {
        let tick = match self.stride(bodies, store)? {
            Stride::Went => Tick::Went,
            Stride::Ends { at, count } => Tick::Done(Values::new(alloc, self.range(at, count))?),
            Stride::Trapped(kind) => Tick::Trapped(kind),
            // the step has a rule
            Stride::NoRule => unreachable!(),
            Stride::Asks {
                pending,
                count,
                rest,
                have,
            } => {
                let ask = ask_of(alloc, pending, self.range(have - count, count))?;
                self.step_over(rest, have);
                return Ok(Ticked {
                    tick: Tick::Asked(ask),
                    question: Some(pending),
                    count,
                });
            }
        };
        Ok(Ticked {
            tick,
            question: None,
            count: 0,
        })
    }
}

/// A tick of a term that waits for nothing.
fn tick_work<'m, M: Linear>(
    alloc: Global,
    bodies: &'m [Body],
    work: &mut Work<'m>,
    store: &mut Store<'m, M>,
) -> Result<Ticked<'m>, AllocError>
    requires rule { StepHasRule (state_of bodies.now store.old)
        (Runs (work_term (work_parts work.old))) }
    ensures ticked { IfOk result (λ ticked. StandingTicked bodies.now store.old
        (standing_parts work.old None 0) ticked.tick
        (standing_parts work.new ticked.question ticked.count) store.new) }
    ensures standing { IfOk result (λ ticked.
        IsStanding (standing_parts work.new ticked.question ticked.count)) }
    ensures refused { OnErr result (work.new ≡ work.old) }
    ensures kept { OnErr result (store.new ≡ store.old) }
{
    match work {
        Work::Stacks(stacks) => {
            let ticked = stacks.tick(alloc, bodies, store)?;
            Ok(ticked)
        }
        Work::Values(values) => {
            let done = Values::new(alloc, values.as_slice())?;
            Ok(Ticked {
                tick: Tick::Done(done),
                question: None,
                count: 0,
            })
        }
    }
}

/// Whether the term is gone then.
fn is_over(tick: &Tick) -> bool
    ensures { result ≡ is_over tick.now }
{
    match tick {
        Tick::Done(_) | Tick::Trapped(_) => true,
        Tick::Idle | Tick::Went | Tick::Asked(_) => false,
    }
}

impl<'m> Standing<'m> {
    /// The operands of the question.
    fn operands(&self) -> &[Value]
        requires { IsSome self.now.question }
        ensures { result.now ≡ last_values self.now.count (values_in self.now.work) }
    {
        match &self.work {
            Work::Stacks(stacks) => stacks.last(self.count),
            Work::Values(values) => values.as_slice(),
        }
    }

    /// A tick of this term, which stays here even if it is over.
    fn tick<M: Linear>(
        &mut self,
        alloc: Global,
        bodies: &'m [Body],
        store: &mut Store<'m, M>,
    ) -> Result<Tick, AllocError>
        requires rule { StepHasRule (state_of bodies.now store.old) (standing_of self.old) }
        ensures ticked { IfOk result (λ tick.
            StandingTicked bodies.now store.old self.old tick self.new store.new) }
        ensures refused { OnErr result (self.new ≡ self.old) }
        ensures kept { OnErr result (store.new ≡ store.old) }
    {
        if let Some(pending) = self.question() {
            let ask = ask_of(alloc, pending, self.operands())?;
            return Ok(Tick::Asked(ask));
        }
        let ticked = tick_work(alloc, bodies, &mut self.work, store)?;
        let Ticked {
            tick,
            question,
            count,
        } = ticked;
        self.question = question;
        self.count = count;
        Ok(tick)
    }
}

/// A tick of the topmost term, which stays there even if it is over; none where no term stands.
fn tick_last<'m, M: Linear>(
    alloc: Global,
    bodies: &'m [Body],
    standings: &mut Vec<Standing<'m>>,
    store: &mut Store<'m, M>,
) -> Result<Option<Tick>, AllocError>
    requires rule { IsNotStuck (state_of bodies.now store.old) (stack_of standings.old.items) }
    ensures ticked { IfOk result (λ tick. MatchOption tick
        ((standings.old.items ≡ []) × (standings.new.items ≡ []) × (store.new ≡ store.old))
        (λ tick. TopTicked bodies.now store.old (stack_of standings.old.items) tick
        (stack_of standings.new.items) store.new)) }
    ensures refused { OnErr result (standings.new.items ≡ standings.old.items) }
    ensures kept { OnErr result (store.new ≡ store.old) }
    ensures len { length standings.new.items ≡ length standings.old.items }
{
    match standings.last_mut() {
        Some(top) => {
            let tick = top.tick(alloc, bodies, store)?;
            Ok(Some(tick))
        }
        None => Ok(None),
    }
}

/// A tick of the stack of terms.
fn tick_top<'m, M: Linear>(
    alloc: Global,
    bodies: &'m [Body],
    standings: &mut Vec<Standing<'m>>,
    store: &mut Store<'m, M>,
) -> Result<Tick, AllocError>
    requires rule { IsNotStuck (state_of bodies.now store.old) (stack_of standings.old.items) }
    ensures ticked { IfOk result (λ tick. StackTicked bodies.now store.old
        (stack_of standings.old.items) tick (stack_of standings.new.items) store.new) }
    ensures refused { OnErr result (standings.new.items ≡ standings.old.items) }
    ensures kept { OnErr result (store.new ≡ store.old) }
    ensures len { length standings.new.items ≤ length standings.old.items }
{
    let Some(tick) = tick_last(alloc, bodies, standings, store)? else {
        return Ok(Tick::Idle);
    };
    if is_over(&tick) {
        drop_top(standings);
        return Ok(tick);
    }
    Ok(tick)
}

impl<'m, M: Linear> Machine<'m, M> {
    /// One step of the topmost term, which isn't stuck.
    pub(crate) fn make_tick(&mut self) -> Result<Tick, AllocError>
        requires rule { IsNotStuck (machine_state self.old) (machine_stack self.old) }
        ensures reply { OnOk result (IsReplied self.old self.new
            (tick_reply (machine_state self.old) (machine_stack self.old))) }
        ensures event { IfOk result (λ tick. event_of tick ≡
            tick_event (machine_state self.old) (machine_stack self.old)) }
        ensures refused { OnErr result (self.new ≡ self.old) }
    {
        let alloc = self.alloc;
        let bodies = self.bodies;
        let tick = tick_top(alloc, bodies, &mut self.standings, &mut self.store)?;
        Ok(tick)
    }
}
