//! Many steps of one term at once.

ghost use Rattle.std.specs.Prelude.{◌≡◌, ◌≤◌, length, IfOk, OnErr};
ghost use Rattle.wz_machine.specs.State.{State, state_of};
ghost use Rattle.wz_machine.specs.Terms.{Term};
ghost use Rattle.wz_machine.specs.Frames.{frame_count, local_count};
ghost use Rattle.wz_machine.specs.Next.{next};
ghost use Rattle.wz_machine.specs.Stacks.{stacks_term};
ghost use Rattle.wz_machine.specs.Standings.{work_term, standing_of, stack_of};
ghost use Rattle.wz_machine.specs.Machines.{machine_state, machine_stack};
ghost use Rattle.wz_machine.specs.Keeping.{work_parts};
ghost use Rattle.wz_machine.specs.Advance.{head_changes_table, StepsOn, IsStepOn, IsOnward};
ghost use Rattle.wz_machine.specs.Advance.{IsAdvance, StandingAdvanced, StackAdvanced};
ghost use Rattle.wz_machine.specs.Advance.{IsAdvancePart, StandingAdvancedPart, StackAdvancedPart};

use crate::machine::Machine;
use crate::stacks::Stacks;
use crate::standing::{Standing, Work};
use crate::straight::is_table_change;
use crate::stride::Stride;
use std::alloc::AllocError;
use wz_code::Body;
use wz_linear::Linear;
use wz_store::Store;

/// How many steps were made, and whether the last of them entered a function.
#[derive(Clone, Copy)]
pub struct Advance {
    pub made: u64,
    pub entered: bool,
}

/// What one more step comes to: none is made, since it would change a table or not go on; or it
/// went on, and entered no function, or one.
#[derive(Clone, Copy)]
pub(crate) enum Onward {
    Halts,
    Went,
    Entered,
}

impl<'m> Stacks<'m> {
    /// Whether the instruction that comes next changes a table.
    fn meets_table(&self) -> bool
        ensures { result ≡ head_changes_table (next (stacks_term self.now)) }
    {
        let top = self.innermost();
        match top.rest.split_first() {
            Some((instr, _)) => is_table_change(instr),
            None => false,
        }
    }

    /// What a step that was made comes to, by how many frames and locals there were before.
    #[inline(always)]
    fn made(&self, frames: u64, locals: u64) -> Onward
        ensures { (s after : State) (term : Term) → frames ≡ frame_count term →
            locals ≡ local_count term → StepsOn s term after (stacks_term self.now) →
            IsOnward result s term after (stacks_term self.now) }
    {
        if self.frames() > frames {
            return Onward::Entered;
        }
        if self.frame_locals() > locals {
            return Onward::Entered;
        }
        Onward::Went
    }

    /// One step more, whatever instruction stands in front: whether it goes on and changes no
    /// table, and was made.
    #[inline(never)]
    fn step_on<M: Linear>(
        &mut self,
        bodies: &'m [Body],
        store: &mut Store<'m, M>,
    ) -> Result<bool, AllocError>
        ensures stepped { IfOk result (λ made. IsStepOn made
            (state_of bodies.now store.old) (stacks_term self.old)
            (state_of bodies.now store.new) (stacks_term self.new)) }
        ensures refused { OnErr result (self.new ≡ self.old) }
        ensures kept { OnErr result (store.new ≡ store.old) }
    {
        if self.meets_table() {
            return Ok(false);
        }
        match self.stride(bodies, store)? {
            Stride::Went => Ok(true),
            Stride::Ends { at: _, count: _ } => Ok(false),
            Stride::Trapped(_) => Ok(false),
            Stride::NoRule => Ok(false),
            Stride::Asks {
                pending: _,
                count: _,
                rest: _,
                have: _,
            } => Ok(false),
        }
    }

    /// One step more, where it goes on and changes no table. Those that are met most are made at
    /// once.
    #[inline(always)]
    fn onward<M: Linear>(
        &mut self,
        bodies: &'m [Body],
        store: &mut Store<'m, M>,
    ) -> Result<Onward, AllocError>
        ensures stepped { IfOk result (λ onward. IsOnward onward
            (state_of bodies.now store.old) (stacks_term self.old)
            (state_of bodies.now store.new) (stacks_term self.new)) }
        ensures refused { OnErr result (self.new ≡ self.old) }
        ensures kept { OnErr result (store.new ≡ store.old) }
    {
        if self.ends() {
            return Ok(Onward::Went);
        }
        let frames = self.frames();
        let locals = self.frame_locals();
        if self.at_once(bodies, store) {
            return Ok(self.made(frames, locals));
        }
        if self.step_on(bodies, store)? {
            return Ok(self.made(frames, locals));
        }
        Ok(Onward::Halts)
    }

    /// Makes at most so many steps that plainly go on, the last of which may enter a function.
    #[inline(never)]
    pub fn advance<M: Linear>(
        &mut self,
        limit: u64,
        bodies: &'m [Body],
        store: &mut Store<'m, M>,
        count: &mut u64,
    ) -> Result<bool, AllocError>
        ensures advanced { IfOk result (λ entered. IsAdvance entered limit count.new
            (state_of bodies.now store.old) (stacks_term self.old)
            (state_of bodies.now store.new) (stacks_term self.new)) }
        ensures limited { IfOk result (λ _. count.new ≤ limit) }
        ensures refused { OnErr result (IsAdvancePart limit
            (state_of bodies.now store.old) (stacks_term self.old)
            (state_of bodies.now store.new) (stacks_term self.new)) }
    {
        let mut left = limit;
        while left > 0 {
            let spare = self.run(left as usize, store)?;
            left = spare as u64;
            if left == 0 {
                *count = limit;
                return Ok(false);
            }
            match self.onward(bodies, store)? {
                Onward::Went => left -= 1,
                Onward::Halts => {
                    *count = limit - left;
                    return Ok(false);
                }
                Onward::Entered => {
                    *count = limit - left + 1;
                    return Ok(true);
                }
            }
        }
        *count = limit;
        Ok(false)
    }
}

/// Many steps of a term that waits for nothing.
#[inline(always)]
fn advance_work<'m, M: Linear>(
    limit: u64,
    bodies: &'m [Body],
    work: &mut Work<'m>,
    store: &mut Store<'m, M>,
    count: &mut u64,
) -> Result<bool, AllocError>
    ensures advanced { IfOk result (λ entered. IsAdvance entered limit count.new
        (state_of bodies.now store.old) (work_term (work_parts work.old))
        (state_of bodies.now store.new) (work_term (work_parts work.new))) }
    ensures limited { IfOk result (λ _. count.new ≤ limit) }
    ensures refused { OnErr result (IsAdvancePart limit
        (state_of bodies.now store.old) (work_term (work_parts work.old))
        (state_of bodies.now store.new) (work_term (work_parts work.new))) }
{
    match work {
        Work::Stacks(stacks) => {
            let entered = stacks.advance(limit, bodies, store, count)?;
            Ok(entered)
        }
        Work::Values(_) => {
            *count = 0;
            Ok(false)
        }
    }
}

impl<'m> Standing<'m> {
    /// Many steps of this term; none where it waits.
    #[inline(always)]
    fn advance<M: Linear>(
        &mut self,
        limit: u64,
        bodies: &'m [Body],
        store: &mut Store<'m, M>,
        count: &mut u64,
    ) -> Result<bool, AllocError>
        ensures advanced { IfOk result (λ entered. StandingAdvanced entered limit count.new
            (state_of bodies.now store.old) (standing_of self.old)
            (state_of bodies.now store.new) (standing_of self.new)) }
        ensures limited { IfOk result (λ _. count.new ≤ limit) }
        ensures refused { OnErr result (StandingAdvancedPart limit
            (state_of bodies.now store.old) (standing_of self.old)
            (state_of bodies.now store.new) (standing_of self.new)) }
    {
        if let Some(_) = self.question() {
            *count = 0;
            return Ok(false);
        }
        let entered = advance_work(limit, bodies, &mut self.work, store, count)?;
        Ok(entered)
    }
}

/// Many steps of the topmost term; none where no term stands.
#[inline(always)]
fn advance_top<'m, M: Linear>(
    limit: u64,
    bodies: &'m [Body],
    standings: &mut Vec<Standing<'m>>,
    store: &mut Store<'m, M>,
    count: &mut u64,
) -> Result<bool, AllocError>
    ensures advanced { IfOk result (λ entered. StackAdvanced entered limit count.new
        (state_of bodies.now store.old) (stack_of standings.old.items)
        (state_of bodies.now store.new) (stack_of standings.new.items)) }
    ensures limited { IfOk result (λ _. count.new ≤ limit) }
    ensures refused { OnErr result (StackAdvancedPart limit
        (state_of bodies.now store.old) (stack_of standings.old.items)
        (state_of bodies.now store.new) (stack_of standings.new.items)) }
    ensures len { length standings.new.items ≡ length standings.old.items }
{
    match standings.last_mut() {
        Some(top) => {
            let entered = top.advance(limit, bodies, store, count)?;
            Ok(entered)
        }
        None => {
            *count = 0;
            Ok(false)
        }
    }
}

impl<'m, M: Linear> Machine<'m, M> {
    /// At most so many steps of the topmost term that plainly go on.
    #[inline(always)]
    pub(crate) fn make_steps(&mut self, limit: u64) -> Result<Advance, AllocError>
        ensures advanced { IfOk result (λ done. StackAdvanced done.entered limit done.made
            (machine_state self.old) (machine_stack self.old)
            (machine_state self.new) (machine_stack self.new)) }
        ensures limited { IfOk result (λ done. done.made ≤ limit) }
        ensures refused { OnErr result (StackAdvancedPart limit
            (machine_state self.old) (machine_stack self.old)
            (machine_state self.new) (machine_stack self.new)) }
        ensures bodies { self.new.bodies ≡ self.old.bodies }
    {
        let bodies = self.bodies;
        let mut made = 0;
        let entered = advance_top(
            limit,
            bodies,
            &mut self.standings,
            &mut self.store,
            &mut made,
        )?;
        Ok(Advance { made, entered })
    }
}
