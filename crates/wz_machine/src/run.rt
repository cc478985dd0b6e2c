//! Runs of plain instructions on the machine's stacks.

ghost use Rattle.std.specs.Prelude.{◌≡◌, ◌≤◌, ◌+◌, ◌-◌, length, List, IfOk, OnErr};
ghost use Rattle.wz_code.specs.BodyParts.{BodyParts};
ghost use Rattle.wz_machine.specs.State.{state_of};
ghost use Rattle.wz_machine.specs.Stacks.{stacks_term};
ghost use Rattle.wz_machine.specs.Kept.{entry_of};
ghost use Rattle.wz_machine.specs.Straight.{point};
ghost use Rattle.wz_machine.specs.Laps.{LapsTo};
ghost use Rattle.wz_machine.specs.Running.{site_of, AreInOrder, SameApart};
ghost use Rattle.wz_machine.specs.Advance.{Reaches};

use crate::laps::{Halt, laps};
use crate::room::make_room;
use crate::stacks::{Opened, Stacks};
use std::alloc::AllocError;
use wz_linear::Linear;
use wz_store::Store;
use wz_types::Value;

/// Where a function's locals begin and end among the values, and where the own values of its
/// innermost block begin.
#[derive(Clone, Copy)]
pub(crate) struct Places {
    pub locals_at: usize,
    pub locals_end: usize,
    pub height: usize,
}

/// Runs the innermost entry where its locals and own values lie at these places.
#[inline(always)]
fn run_in<'m, M: Linear>(
    top: &Opened<'m>,
    limit: usize,
    places: Places,
    values: &mut [Value],
    have: usize,
    store: &mut Store<'_, M>,
) -> Halt<'m>
    requires order { AreInOrder places have }
    requires room { have + length top.now.rest.now ≤ length values.old }
    ensures ran { LapsTo (entry_of top.now) (limit - result.left)
        (point top.now.rest.now (have - places.height) (site_of places values.old store.old))
        (point result.rest.now result.have (site_of places values.new store.new)) }
    ensures apart { SameApart places values.old values.new }
    ensures limited { result.left ≤ limit }
    ensures room { places.height + result.have ≤ length values.new }
{
    let (lower, own) = values.split_at_mut(places.height);
    let locals = &mut lower[places.locals_at..places.locals_end];
    laps(top, limit, locals, own, have - places.height, store)
}

impl<'m> Stacks<'m> {
    /// Makes at most so many steps that stay in the innermost block, on these stacks and on the
    /// store, and says how many are left. An error is a want of room for values, and then nothing
    /// is changed.
    pub fn run<M: Linear>(
        &mut self,
        limit: usize,
        store: &mut Store<'_, M>,
    ) -> Result<usize, AllocError>
        ensures ran { IfOk result (λ left. (bodies : List BodyParts) → Reaches (limit - left)
            (state_of bodies store.old) (stacks_term self.old)
            (state_of bodies store.new) (stacks_term self.new)) }
        ensures limited { IfOk result (λ left. left ≤ limit) }
        ensures refused { OnErr result (self.new ≡ self.old) }
        ensures kept { OnErr result (store.new ≡ store.old) }
    {
        if self.top.rest.is_empty() {
            return Ok(limit);
        }
        make_room(&mut self.values, self.have, self.top.rest.len())?;
        let places = Places {
            locals_at: self.top.locals_at,
            locals_end: self.top.locals_end,
            height: self.top.height,
        };
        let halt = run_in(&self.top, limit, places, &mut self.values, self.have, store);
        self.top.rest = halt.rest;
        self.have = self.top.height + halt.have;
        Ok(halt.left)
    }
}
