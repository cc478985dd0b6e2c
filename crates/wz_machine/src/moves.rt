//! What is done with a machine from outside (Core Specification 2.0, section 4.5.5): calls, steps
//! and answers. Each of them keeps a machine typed, and no step of a typed one is stuck (section
//! 7.5, soundness).

ghost use Rattle.std.specs.Prelude.{◌≡◌, ◌≤◌, ◌↔◌, IsTrue, IsErr, IfOk, OnOk, OnErr};
ghost use Rattle.wz_machine.specs.Replies.{tick_reply, function_reply};
ghost use Rattle.wz_machine.specs.Replies.{float_reply, grow_reply, return_reply, abort_reply};
ghost use Rattle.wz_machine.specs.Machines.{machine_state, machine_stack, IsReplied};
ghost use Rattle.wz_machine.specs.Ticks.{event_of, tick_event};
ghost use Rattle.wz_machine.specs.Advance.{StackAdvanced, StackAdvancedPart};
ghost use Rattle.wz_machine.specs.Refusals.{enter_refusal, is_refusal, refusal_of, Answers};
ghost use Rattle.wz_machine.specs.TypedMachines.{HoldsTyped};

use crate::advance::Advance;
use crate::answers::{EnterFault, GrowFault, HostFault, NotNow, Tick};
use crate::machine::Machine;
use crate::questions::FloatReply;
use std::alloc::AllocError;
use wz_linear::Linear;
use wz_num::laws::operands_are_served;
use wz_types::Value;

impl<'m, M: Linear> Machine<'m, M> {
    /// Makes one step of the topmost term, and answers what it comes to; a question that stands is
    /// answered again.
    pub fn tick(&mut self) -> Result<Tick, AllocError>
        requires typed { HoldsTyped self.old }
        ensures reply { OnOk result (IsReplied self.old self.new
            (tick_reply (machine_state self.old) (machine_stack self.old))) }
        ensures event { IfOk result (λ tick. event_of tick ≡
            tick_event (machine_state self.old) (machine_stack self.old)) }
        ensures refused { OnErr result (self.new ≡ self.old) }
        ensures typed { HoldsTyped self.new }
    {
        // so a step of a typed term has a rule, and keeps the typing
        operands_are_served();
        self.make_tick()
    }

    /// Makes at most so many steps of the topmost term that plainly go on, and says how many and
    /// whether the last of them entered a function. It ends early only there, and before a step
    /// that changes a table or doesn't go on. Where memory is refused, some of the steps were made.
    #[inline]
    pub fn advance(&mut self, limit: u64) -> Result<Advance, AllocError>
        requires typed { HoldsTyped self.old }
        ensures advanced { IfOk result (λ done. StackAdvanced done.entered limit done.made
            (machine_state self.old) (machine_stack self.old)
            (machine_state self.new) (machine_stack self.new)) }
        ensures limited { IfOk result (λ done. done.made ≤ limit) }
        ensures refused { OnErr result (StackAdvancedPart limit
            (machine_state self.old) (machine_stack self.old)
            (machine_state self.new) (machine_stack self.new)) }
        ensures bodies { self.new.bodies ≡ self.old.bodies }
        ensures typed { HoldsTyped self.new }
    {
        // so each step of a typed term keeps the typing
        operands_are_served();
        self.make_steps(limit)
    }

    /// Puts the term of a call on top (section 4.5.5): a frame, or for an import the question for
    /// the host's function.
    pub fn enter(&mut self, function: u32, args: &[Value]) -> Result<(), EnterFault>
        ensures reply { OnOk result (IsReplied self.old self.new
            (function_reply (machine_state self.old) (machine_stack self.old) function args.now)) }
        ensures faults { Answers EnterFault.NoMemory
            (enter_refusal (machine_state self.old) (machine_stack self.old) function args.now)
            result }
        ensures refused { OnErr result (self.new ≡ self.old) }
        ensures typed { HoldsTyped self.old → HoldsTyped self.new }
    {
        // so a call keeps the typing
        operands_are_served();
        self.put_call(function, args)
    }

    /// Answers the question for the result of a float operation; a trap ends the term. It takes no
    /// memory.
    pub fn answer_float(&mut self, reply: FloatReply) -> Result<(), NotNow>
        requires typed { HoldsTyped self.old }
        ensures reply { OnOk result (IsReplied self.old self.new
            (float_reply (machine_state self.old) (machine_stack self.old) reply)) }
        ensures not_now { IsErr result ↔ IsTrue (is_refusal
            (float_reply (machine_state self.old) (machine_stack self.old) reply).event) }
        ensures refused { OnErr result (self.new ≡ self.old) }
        ensures typed { HoldsTyped self.new }
    {
        // so an answer keeps the typing
        operands_are_served();
        self.put_float(reply)
    }

    /// Answers the question for growth. What is granted is made here, if it is within the limits of
    /// this moment.
    pub fn answer_grow(&mut self, granted: bool) -> Result<(), GrowFault>
        requires typed { HoldsTyped self.old }
        ensures reply { OnOk result (IsReplied self.old self.new
            (grow_reply (machine_state self.old) (machine_stack self.old) granted)) }
        ensures faults { Answers GrowFault.NoMemory (refusal_of GrowFault.NotNow
            (grow_reply (machine_state self.old) (machine_stack self.old) granted).event)
            result }
        ensures refused { OnErr result (self.new ≡ self.old) }
        ensures typed { HoldsTyped self.new }
    {
        // so an answer keeps the typing
        operands_are_served();
        self.put_size(granted)
    }

    /// Answers the call of a function of the host with what it gives.
    pub fn answer_host(&mut self, values: &[Value]) -> Result<(), HostFault>
        requires typed { HoldsTyped self.old }
        ensures reply { OnOk result (IsReplied self.old self.new
            (return_reply (machine_state self.old) (machine_stack self.old) values.now)) }
        ensures faults { Answers HostFault.NoMemory (refusal_of HostFault.NotNow
            (return_reply (machine_state self.old) (machine_stack self.old) values.now).event)
            result }
        ensures refused { OnErr result (self.new ≡ self.old) }
        ensures typed { HoldsTyped self.new }
    {
        // so an answer keeps the typing
        operands_are_served();
        self.put_results(values)
    }

    /// Takes a term away that waits for the host, whose function never returns. It takes no memory.
    pub fn abort(&mut self) -> Result<(), NotNow>
        ensures reply { OnOk result (IsReplied self.old self.new
            (abort_reply (machine_stack self.old))) }
        ensures not_now { IsErr result ↔
            IsTrue (is_refusal (abort_reply (machine_stack self.old)).event) }
        ensures refused { OnErr result (self.new ≡ self.old) }
        ensures typed { HoldsTyped self.old → HoldsTyped self.new }
    {
        // so what stands below stays typed
        operands_are_served();
        self.drop_waiting()
    }
}
