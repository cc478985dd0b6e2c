//! One plain instruction on the machine's stacks.

ghost use Rattle.std.specs.Prelude.{◌≡◌, ◌≤◌, ◌<◌, ◌+◌, ◌-◌, ◌∷◌, length, IfOk, OnErr};
ghost use Rattle.wz_machine.specs.PlainSteps.{PlainReply};
ghost use Rattle.wz_machine.specs.Running.{site_of, AreInOrder, SameApart};
ghost use Rattle.wz_machine.specs.PlainTurns.{PlainTurned};

use crate::plain::{Plain, run_plain};
use crate::room::make_room;
use crate::run::Places;
use crate::stacks::Stacks;
use std::alloc::AllocError;
use wz_code::{Body, Instr};
use wz_linear::Linear;
use wz_store::Store;
use wz_types::Value;

/// Runs a plain instruction where the locals and own values lie at these places.
#[inline(always)]
fn plain_in<M: Linear>(
    body: &Body,
    instr: &Instr,
    places: Places,
    values: &mut [Value],
    have: usize,
    store: &mut Store<'_, M>,
) -> Result<Plain, AllocError>
    requires order { AreInOrder places have }
    requires room { have < length values.old }
    ensures reply { IfOk result (λ reply. PlainReply reply body.now instr.now
        (have - places.height) (site_of places values.old store.old)
        (site_of places values.new store.new)) }
    ensures refused { OnErr result
        (site_of places values.new store.new ≡ site_of places values.old store.old) }
    ensures apart { SameApart places values.old values.new }
{
    let (lower, own) = values.split_at_mut(places.height);
    let locals = &mut lower[places.locals_at..places.locals_end];
    run_plain(body, instr, locals, own, have - places.height, store)
}

impl<'m> Stacks<'m> {
    /// Runs the instruction that comes next, with this code behind it.
    pub fn plain_turn<M: Linear>(
        &mut self,
        instr: &Instr,
        rest: &'m [Instr],
        store: &mut Store<'_, M>,
    ) -> Result<Plain, AllocError>
        requires { self.old.top.rest ≡ instr.now ∷ rest.now }
        ensures turned { IfOk result (λ reply.
            PlainTurned reply instr.now store.old self.old store.new self.new) }
        ensures refused { OnErr result ((self.new ≡ self.old) × (store.new ≡ store.old)) }
    {
        let top = self.top;
        make_room(&mut self.values, self.have, 1)?;
        let places = Places {
            locals_at: top.locals_at,
            locals_end: top.locals_end,
            height: top.height,
        };
        let reply = plain_in(top.body, instr, places, &mut self.values, self.have, store)?;
        match reply {
            Plain::Went(now) => {
                self.top.rest = rest;
                self.have = top.height + now;
                Ok(Plain::Went(now))
            }
            Plain::Trapped(kind) => Ok(Plain::Trapped(kind)),
            Plain::NoRule => Ok(Plain::NoRule),
            Plain::Special => Ok(Plain::Special),
        }
    }
}
