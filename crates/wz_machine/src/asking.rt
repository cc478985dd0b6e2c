//! Steps that ask the surroundings: growth, and float operations whose result isn't determined
//! (Core Specification 2.0, sections 4.4.1, 4.4.6 and 4.4.7).

ghost use Rattle.std.specs.Prelude.{◌≡◌, ◌≤◌, ◌+◌, [], ◌∷◌, ◌++◌, ℕ, List, length, drop, reverse};
ghost use Rattle.wz_code.specs.declared.instr.Instr.TheVariants.{MemoryGrow, TableGrow, Num};
ghost use Rattle.wz_code.specs.BodyParts.{BodyParts};
ghost use Rattle.wz_machine.specs.State.{State, state_of};
ghost use Rattle.wz_machine.specs.Step.{step};
ghost use Rattle.wz_machine.specs.Stacks.{stacks_term};
ghost use Rattle.wz_machine.specs.Asks.{AskTurned, AsksFloat, failed_growth};
ghost use Rattle.wz_machine.specs.Opening.{stepped};
ghost use Rattle.wz_machine.specs.Asks.{top_number, top_growth};

use crate::growing::{memory_room, table_room};
use crate::stacks::Stacks;
use crate::standing::Pending;
use wz_code::{Instr, NumOp};
use wz_linear::Linear;
use wz_store::Store;
use wz_types::{Reference, TrapKind, Value};

/// What a step comes to that may ask: the term went on; it waits with a question, whose operands
/// are the last `count` of the first `have` values, and the stacks stand before the instruction
/// yet; it traps; or no rule fits.
#[derive(Clone, Copy)]
pub(crate) enum AskTurn<'m> {
    Went,
    Asks {
        pending: Pending<'m>,
        count: usize,
        have: usize,
    },
    Trapped(TrapKind),
    NoRule,
}

/// The last value, where it is a number of 32 bits.
pub(crate) fn number_in(own: &[Value]) -> Option<u32>
    ensures { result ≡ top_number (reverse own.now) }
{
    match own.last()? {
        Value::I32(bits) => Some(*bits),
        Value::I64(_) | Value::F32(_) | Value::F64(_) | Value::Ref(_) => None,
    }
}

/// The two last values, where they are a reference and a number of 32 bits above it.
fn growth_in(own: &[Value]) -> Option<(u32, Reference)>
    ensures { result ≡ top_growth (reverse own.now) }
{
    match own {
        [.., Value::Ref(reference), Value::I32(by)] => Some((*by, *reference)),
        _ => None,
    }
}

impl<'m> Stacks<'m> {
    /// What the innermost block has of its own.
    #[inline]
    pub fn own(&self) -> &[Value]
        ensures { result.now ≡ drop self.now.top.height self.now.values }
    {
        &self.values[self.top.height..self.have]
    }

    /// Goes behind an instruction, where so many values stay.
    #[inline]
    pub fn step_over(&mut self, rest: &'m [Instr], have: usize)
        requires values { have ≤ length self.old.values }
        requires own { self.old.top.height ≤ have }
        ensures { self.new ≡ stepped self.old rest.now have }
    {
        self.top.rest = rest;
        self.have = have;
    }

    /// Goes behind an instruction whose growth fails, with -1 in the place of its operands.
    fn fail_growth(&mut self, rest: &'m [Instr], count: usize)
        requires operands { self.old.top.height + count ≤ length self.old.values }
        requires some { 1 ≤ count }
        ensures { self.new ≡ failed_growth self.old rest.now count }
    {
        self.replace(count, &[Value::I32(u32::MAX)]).unwrap();
        let have = self.have;
        self.step_over(rest, have);
    }

    /// `memory.grow`: asks within the limits, and fails past them.
    pub fn memory_grow<M: Linear>(
        &mut self,
        rest: &'m [Instr],
        memory: u32,
        store: &Store<'_, M>,
    ) -> AskTurn<'m>
        requires { self.old.top.rest ≡ MemoryGrow memory ∷ rest.now }
        ensures { (bodies : List BodyParts) → AskTurned
            (step (state_of bodies store.now) (stacks_term self.old))
            self.old rest.now result self.new }
    {
        let Some(by) = number_in(self.own()) else {
            return AskTurn::NoRule;
        };
        match memory_room(store, memory, by) {
            None => AskTurn::NoRule,
            Some(false) => {
                self.fail_growth(rest, 1);
                AskTurn::Went
            }
            Some(true) => {
                let have = self.have;
                let pending = Pending::Memory { index: memory, by };
                AskTurn::Asks {
                    pending,
                    count: 1,
                    have,
                }
            }
        }
    }

    /// `table.grow`: asks within the limits, and fails past them.
    pub fn table_grow<M: Linear>(
        &mut self,
        rest: &'m [Instr],
        table: u32,
        store: &Store<'_, M>,
    ) -> AskTurn<'m>
        requires { self.old.top.rest ≡ TableGrow table ∷ rest.now }
        ensures { (bodies : List BodyParts) → AskTurned
            (step (state_of bodies store.now) (stacks_term self.old))
            self.old rest.now result self.new }
    {
        let Some((by, value)) = growth_in(self.own()) else {
            return AskTurn::NoRule;
        };
        match table_room(store, table, by, value) {
            None => AskTurn::NoRule,
            Some(false) => {
                self.fail_growth(rest, 2);
                AskTurn::Went
            }
            Some(true) => {
                let have = self.have;
                let pending = Pending::Table {
                    index: table,
                    by,
                    value,
                };
                AskTurn::Asks {
                    pending,
                    count: 2,
                    have,
                }
            }
        }
    }

    /// A float operation whose result the surroundings answer.
    pub fn ask_float(&self, rest: &'m [Instr], op: NumOp, count: usize) -> AskTurn<'m>
        requires code { self.now.top.rest ≡ Num op ∷ rest.now }
        requires asks { AsksFloat op count self.now }
        ensures { (st : State) → AskTurned
            (step st (stacks_term self.now)) self.now rest.now result self.now }
    {
        AskTurn::Asks {
            pending: Pending::Float(op),
            count,
            have: self.have,
        }
    }
}
