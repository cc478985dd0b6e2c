//! The instruction that the next tick reduces.

ghost use Rattle.std.specs.Prelude.{◌≡◌, length};
ghost use Rattle.wz_machine.specs.Next.{next, standing_next};
ghost use Rattle.wz_machine.specs.Stacks.{stacks_term};
ghost use Rattle.wz_machine.specs.Standings.{standing_of, stack_of};
ghost use Rattle.wz_machine.specs.Machines.{machine_stack};
ghost use Rattle.wz_machine.specs.Peeks.{Shows, stack_next};

use crate::machine::Machine;
use crate::stacks::Stacks;
use crate::standing::{Standing, Work};
use crate::stride::split;
use wz_code::Instr;
use wz_linear::Linear;

impl<'m> Stacks<'m> {
    /// The first instruction of what is left of the innermost block.
    fn first(&self) -> Option<Instr>
        ensures { Shows result (next (stacks_term self.now)) }
    {
        let top = self.innermost();
        match split(top.rest) {
            Some((instr, _)) => Some(instr),
            None => None,
        }
    }
}

impl<'m> Standing<'m> {
    fn first(&self) -> Option<Instr>
        ensures { Shows result (standing_next (standing_of self.now)) }
    {
        if self.question().is_some() {
            return None;
        }
        match &self.work {
            Work::Stacks(stacks) => stacks.first(),
            Work::Values(_) => None,
        }
    }
}

/// The instruction of the topmost term, which is the last.
fn first_of(standings: &[Standing<'_>]) -> Option<Instr>
    ensures { Shows result (stack_next (stack_of standings.now)) }
{
    match standings.last() {
        Some(top) => top.first(),
        None => None,
    }
}

impl<'m, M: Linear> Machine<'m, M> {
    /// The instruction that the next tick reduces; none where it leaves a block or a function at
    /// its end, where the topmost term is values alone or waits, or where no term stands.
    pub fn peek(&self) -> Option<Instr>
        ensures { Shows result (stack_next (machine_stack self.now)) }
    {
        first_of(&self.standings)
    }
}
