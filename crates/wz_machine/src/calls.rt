//! Calls (Core Specification 2.0, sections 4.4.8 and 4.4.10).

ghost use Rattle.std.specs.Prelude.{◌≡◌, ◌≤◌, ◌<◌, ◌+◌, [], ◌∷◌, ◌++◌, length, take, Some, vec_len, vec_capacity, OnOk, OnErr, IfOk};
ghost use Rattle.wz_types.specs.Zeros.{zeros_of};
ghost use Rattle.wz_code.specs.BlockRule.{IsBody};
ghost use Rattle.wz_valid_code.specs.Context.{locals_of_runs};
ghost use Rattle.wz_code.specs.declared.instr.Instr.TheVariants.{Call};
ghost use Rattle.wz_machine.specs.State.{state_of};
ghost use Rattle.wz_machine.specs.CallSteps.{call_step};
ghost use Rattle.wz_machine.specs.Step.{step};
ghost use Rattle.wz_machine.specs.Stacks.{stacks_term};
ghost use Rattle.wz_machine.specs.Turns.{own_of};
ghost use Rattle.wz_machine.specs.Callees.{callable_in};
ghost use Rattle.wz_machine.specs.Asks.{AskTurned, OutcomeTurned};
ghost use Rattle.wz_machine.specs.Calling.{with_call};

use crate::asking::AskTurn;
use crate::callee::{Callee, CalleeCode, callee_at};
use crate::questions::HostTarget;
use crate::room::{MOST, move_down, put_locals};
use crate::stacks::{Kind, Opened, Stacks, code_of};
use crate::standing::Pending;
use std::alloc::AllocError;
use wz_code::{Body, Instr};
use wz_linear::Linear;
use wz_store::Store;
use wz_types::{ValType, Value};

/// Puts the locals of these runs behind the first `have` of the used values, in the place of the
/// others, and answers how many they are. Where it is refused, all used values stay.
#[inline(always)]
fn put_called(
    values: &mut Vec<Value>,
    used: usize,
    have: usize,
    runs: &[(u32, ValType)],
    most: usize,
) -> Result<usize, AllocError>
    requires used { used ≤ length values.old.items }
    requires have { have ≤ used }
    ensures used { IfOk result (λ count. have + count ≤ length values.new.items) }
    ensures few { IfOk result (λ count. count ≤ most) }
    ensures count { IfOk result (λ count. count ≡ length (zeros_of (locals_of_runs runs.now))) }
    ensures put { IfOk result (λ count. take (have + count) values.new.items ≡
        take have values.old.items ++ zeros_of (locals_of_runs runs.now)) }
    ensures kept { OnErr result (take used values.new.items ≡ take used values.old.items) }
    ensures longer { length values.old.items ≤ length values.new.items }
{
    if runs.is_empty() {
        return Ok(0);
    }
    let now = put_locals(values, used, runs)?;
    if now < used || now - used > most {
        return Err(AllocError);
    }
    move_down(values, have, used, now - used);
    Ok(now - used)
}

/// Pushes an entry where there is room for it.
fn push_within<'m>(outer: &mut Vec<Opened<'m>>, around: Opened<'m>)
    requires { vec_len outer.old < vec_capacity outer.old }
    ensures { outer.new.items ≡ outer.old.items ++ around.entry ∷ [] }
{
    outer.push_reserved(around);
}

impl<'m> Stacks<'m> {
    /// Enters a call of this body, whose arguments are the last `params` of the first `have`
    /// values.
    #[inline(always)]
    pub fn push_call(
        &mut self,
        rest: &'m [Instr],
        body: &'m Body,
        have: usize,
        params: usize,
        results: usize,
    ) -> Result<(), AllocError>
        requires values { have ≤ length self.old.values }
        requires own { self.old.top.height + params ≤ have }
        ensures entered { OnOk result (self.new ≡
            with_call self.old rest.now body.now have params results) }
        ensures refused { OnErr result (self.new ≡ self.old) }
        ensures body { IsBody body.now }
    {
        let code = code_of(body, 0);
        let frames = self.top.frames;
        let frame_locals = self.top.frame_locals;
        if frames >= MOST || params > MOST - frame_locals {
            return Err(AllocError);
        }
        self.outer.reserve(1)?;
        let most = MOST - frame_locals - params;
        let zeros = put_called(&mut self.values, self.have, have, body.locals(), most)?;
        self.top.rest = rest;
        push_within(&mut self.outer, self.top);
        self.top = Opened {
            kind: Kind::Call,
            body,
            rest: code,
            arity: results,
            base: have - params,
            locals_at: have - params,
            locals_end: have + zeros,
            height: have + zeros,
            depth: 0,
            frames: frames + 1,
            frame_locals: frame_locals + (params + zeros),
        };
        self.have = have + zeros;
        Ok(())
    }

    /// Calls this function with the last of the first `have` values as arguments: its frame is
    /// entered, or the host's function is asked for.
    #[inline(always)]
    pub fn call_callee(
        &mut self,
        rest: &'m [Instr],
        callee: Callee<'m>,
        have: usize,
    ) -> Result<AskTurn<'m>, AllocError>
        requires values { have ≤ length self.old.values }
        requires own { self.old.top.height ≤ have }
        ensures turned { IfOk result (λ turn. OutcomeTurned self.old rest.now
            (call_step (Some (callable_in callee.entry)) (own_of self.old have)) turn self.new) }
        ensures refused { OnErr result (self.new ≡ self.old) }
    {
        let params = callee.kind.params().len();
        if have - self.top.height < params {
            return Ok(AskTurn::NoRule);
        }
        match callee.code {
            CalleeCode::Own(body) => {
                let results = callee.kind.results().len();
                self.push_call(rest, body, have, params, results)?;
                Ok(AskTurn::Went)
            }
            CalleeCode::Import(number) => {
                let pending = Pending::Host {
                    target: HostTarget::Import(number),
                    kind: callee.kind,
                };
                Ok(AskTurn::Asks {
                    pending,
                    count: params,
                    have,
                })
            }
        }
    }

    /// `call x`.
    #[inline(always)]
    pub fn call<M: Linear>(
        &mut self,
        rest: &'m [Instr],
        function: u32,
        bodies: &'m [Body],
        store: &Store<'m, M>,
    ) -> Result<AskTurn<'m>, AllocError>
        requires { self.old.top.rest ≡ Call function ∷ rest.now }
        ensures turned { IfOk result (λ turn. AskTurned
            (step (state_of bodies.now store.now) (stacks_term self.old)) self.old rest.now turn
            self.new) }
        ensures refused { OnErr result (self.new ≡ self.old) }
    {
        let have = self.have;
        match callee_at(bodies, store, function) {
            Some(callee) => self.call_callee(rest, callee, have),
            None => Ok(AskTurn::NoRule),
        }
    }
}
