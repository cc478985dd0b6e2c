//! The machine: a store, and the stack of terms that are computed over it.

ghost use Rattle.std.specs.Prelude.{◌≡◌, ◌≤◌, ◌^◌, ◌↔◌, [], IsTrue, IsErr, OnOk, OnErr};
ghost use Rattle.std.specs.Borrow.{sem};
ghost use Rattle.wz_machine.specs.Lending.{LendsStore};
ghost use Rattle.wz_machine.specs.Frames.{frames_in_all, locals_in_all};
ghost use Rattle.wz_machine.specs.Replies.{fits_in, all_fit_in, function_reply, float_reply, grow_reply, return_reply, abort_reply};
ghost use Rattle.wz_machine.specs.State.{state_of};
ghost use Rattle.wz_machine.specs.Machines.{machine_state, machine_stack, IsReplied};
ghost use Rattle.wz_machine.specs.TypedState.{IsStateTyped, state_context};
ghost use Rattle.wz_machine.specs.TypedMachines.{HoldsTyped};
ghost use Rattle.wz_machine.specs.Refusals.{enter_refusal, is_refusal, refusal_of, Answers};

use crate::answers::{EnterFault, GrowFault, HostFault, NotNow};
use crate::callee::{all_fit, callee_at};
use crate::counts::{frame_locals_in, frames_in};
use crate::growing::found_size;
use crate::questions::FloatReply;
use crate::standing::Standing;
use crate::waiting;
use std::alloc::Global;
use std::marker::Model;
use wz_code::{Body, signature};
use wz_linear::Linear;
use wz_store::Store;
use wz_types::{ValType, Value};

/// More terms than this are refused as if there were no memory for them.
const MOST_TERMS: usize = 0x8000_0000;

/// A machine over a store of any form `S`: the store, and a stack of terms, of which a lower one
/// waits for the host while an upper one runs.
///
/// Contracts see it as the record of the bodies, the store and the terms.
#[derive(Drop)]
pub struct MachineOver<'m, S> {
    pub(crate) alloc: Global,
    pub(crate) bodies: &'m [Body],
    pub(crate) store: S,
    /// The topmost is the last.
    pub(crate) standings: Vec<Standing<'m>>,
}

/// A machine over an instance.
pub type Machine<'m, M> = MachineOver<'m, Store<'m, M>>;

impl<'m, S> Model for MachineOver<'m, S> {
    ghost use Rattle.std.specs.Prelude.{◌^◌, ◌≤◌, length, reverse};
    ghost use Rattle.wz_machine.specs.Machines.{MachinePartsOver};

    ghost Value = { MachinePartsOver S };

    ghost view = { λ m. record {
      bodies = m.bodies.now;
      store = m.store;
      standings = reverse m.standings.items;
    } };

    ghost invariant = { λ m. length m.standings.items ≤ 2 ^ 31 };
}

impl<'m, S> MachineOver<'m, S> {
    /// The store for writing. Whoever changes it shows anew what held of it.
    #[inline]
    pub fn store_mut(&mut self) -> &mut S
        ensures* lent { sem 𝓛 (LendsStore S.row self.entry result) }
        ensures value { result.now ≡ self.old.store }
    {
        &mut self.store
    }
}

impl<'m, M: Linear> Machine<'m, M> {
    /// A machine in which no term stands. It takes no memory.
    pub fn new(alloc: Global, bodies: &'m [Body], store: Store<'m, M>) -> Machine<'m, M>
        ensures bodies { result.bodies ≡ bodies.now }
        ensures store { result.store ≡ store.entry }
        ensures stack { machine_stack result ≡ [] }
        ensures typed { IsStateTyped (state_context (state_of bodies.now store.entry))
            (state_of bodies.now store.entry) → HoldsTyped result }
    {
        Machine {
            alloc,
            bodies,
            store,
            standings: Vec::new(alloc),
        }
    }

    #[inline]
    pub fn store(&self) -> &Store<'m, M>
        ensures { result.now ≡ self.now.store }
    {
        &self.store
    }

    pub fn into_store(self) -> Store<'m, M>
        ensures { result ≡ self.entry.store }
    {
        let Machine {
            alloc: _,
            bodies: _,
            store,
            standings: _,
        } = self;
        store
    }

    /// How many frames there are in all terms.
    pub fn frames(&self) -> u64
        ensures { result ≡ frames_in_all (machine_stack self.now) }
    {
        frames_in(&self.standings)
    }

    /// How many locals these have, parameters among them.
    pub fn frame_locals(&self) -> u64
        ensures { result ≡ locals_in_all (machine_stack self.now) }
    {
        frame_locals_in(&self.standings)
    }

    /// The term of a call on top.
    pub(crate) fn put_call(&mut self, function: u32, args: &[Value]) -> Result<(), EnterFault>
        ensures reply { OnOk result (IsReplied self.old self.new
            (function_reply (machine_state self.old) (machine_stack self.old) function args.now)) }
        ensures faults { Answers EnterFault.NoMemory
            (enter_refusal (machine_state self.old) (machine_stack self.old) function args.now)
            result }
        ensures refused { OnErr result (self.new ≡ self.old) }
    {
        if !waiting::may_enter(&self.standings) {
            return Err(EnterFault::NotNow);
        }
        let Some(callee) = callee_at(self.bodies, &self.store, function) else {
            return Err(EnterFault::NoFunction);
        };
        if !self.all_fit(args, callee.kind.params()) {
            return Err(EnterFault::Unfit);
        }
        if self.standings.len() >= MOST_TERMS {
            return Err(EnterFault::NoMemory);
        }
        let standing = waiting::enter(self.alloc, callee, args)?;
        self.standings.push(standing)?;
        Ok(())
    }

    /// The result of a float operation, or a trap, which ends the term.
    pub(crate) fn put_float(&mut self, reply: FloatReply) -> Result<(), NotNow>
        ensures reply { OnOk result (IsReplied self.old self.new
            (float_reply (machine_state self.old) (machine_stack self.old) reply)) }
        ensures not_now { IsErr result ↔ IsTrue (is_refusal
            (float_reply (machine_state self.old) (machine_stack self.old) reply).event) }
        ensures refused { OnErr result (self.new ≡ self.old) }
    {
        let Some(op) = waiting::float_question(&self.standings) else {
            return Err(NotNow);
        };
        match reply {
            FloatReply::Gives(value) => {
                if !self.fits(value, signature(op).result) {
                    return Err(NotNow);
                }
                waiting::answer_top(&mut self.standings, &[value]).unwrap();
            }
            FloatReply::Trap => waiting::drop_top(&mut self.standings),
        }
        Ok(())
    }

    /// The size that a growth finds.
    pub(crate) fn put_size(&mut self, granted: bool) -> Result<(), GrowFault>
        ensures reply { OnOk result (IsReplied self.old self.new
            (grow_reply (machine_state self.old) (machine_stack self.old) granted)) }
        ensures faults { Answers GrowFault.NoMemory (refusal_of GrowFault.NotNow
            (grow_reply (machine_state self.old) (machine_stack self.old) granted).event)
            result }
        ensures refused { OnErr result (self.new ≡ self.old) }
    {
        let question = waiting::top_question(&self.standings);
        let Some(size) = found_size(&mut self.store, question, granted)? else {
            return Err(GrowFault::NotNow);
        };
        waiting::answer_top(&mut self.standings, &[Value::I32(size)]).unwrap();
        Ok(())
    }

    /// What a function of the host gives.
    pub(crate) fn put_results(&mut self, values: &[Value]) -> Result<(), HostFault>
        ensures reply { OnOk result (IsReplied self.old self.new
            (return_reply (machine_state self.old) (machine_stack self.old) values.now)) }
        ensures faults { Answers HostFault.NoMemory (refusal_of HostFault.NotNow
            (return_reply (machine_state self.old) (machine_stack self.old) values.now).event)
            result }
        ensures refused { OnErr result (self.new ≡ self.old) }
    {
        let Some(kind) = waiting::host_question(&self.standings) else {
            return Err(HostFault::NotNow);
        };
        if !self.all_fit(values, kind.results()) {
            return Err(HostFault::NotNow);
        }
        waiting::answer_top(&mut self.standings, values)?;
        Ok(())
    }

    /// A term that waits for the host is gone.
    pub(crate) fn drop_waiting(&mut self) -> Result<(), NotNow>
        ensures reply { OnOk result (IsReplied self.old self.new
            (abort_reply (machine_stack self.old))) }
        ensures not_now { IsErr result ↔
            IsTrue (is_refusal (abort_reply (machine_stack self.old)).event) }
        ensures refused { OnErr result (self.new ≡ self.old) }
    {
        match waiting::host_question(&self.standings) {
            Some(_) => {
                waiting::drop_top(&mut self.standings);
                Ok(())
            }
            None => Err(NotNow),
        }
    }

    /// Whether the value fits the type in this instance.
    fn fits(&self, value: Value, kind: ValType) -> bool
        ensures { result ≡ fits_in (machine_state self.now) value kind }
    {
        let types = self.store.types().len() as u32;
        value.fits(kind, self.store.function_count(), types)
    }

    /// Whether the values fit the types in this instance.
    fn all_fit(&self, values: &[Value], kinds: &[ValType]) -> bool
        ensures { result ≡ all_fit_in (machine_state self.now) values.now kinds.now }
    {
        let types = self.store.types().len() as u32;
        all_fit(values, kinds, self.store.function_count(), types)
    }
}
