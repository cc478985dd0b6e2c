//! The operands of a question, which are the last values until it is answered.

ghost use Rattle.std.specs.Prelude.{◌≡◌, ◌≤◌, ◌+◌, length, reverse, OnOk, OnErr, IsOk};
ghost use Rattle.wz_machine.specs.Stacks.{IsStacked, stacks_term, last_values, without, with_values};
ghost use Rattle.wz_machine.specs.Replies.{put as put_in_term};

use crate::room::{make_room, put};
use crate::stacks::Stacks;
use std::alloc::AllocError;
use wz_types::Value;

impl<'m> Stacks<'m> {
    /// The last so many values, in the order of pushing.
    pub fn last(&self, count: usize) -> &[Value]
        requires { count ≤ length self.now.values }
        ensures { result.now ≡ last_values count self.now.values }
    {
        &self.values[self.have - count..self.have]
    }

    /// Puts these values in the place of the last so many, which the innermost block has. It takes
    /// no memory where there are no more of them.
    #[tactic(auto, using(crate::proofs::PutLemmas::stacks_put))]
    pub fn replace(&mut self, count: usize, values: &[Value]) -> Result<(), AllocError>
        requires { self.old.top.height + count ≤ length self.old.values }
        ensures done { OnOk result (self.new ≡ with_values values.now (without count self.old)) }
        ensures put { OnOk result (stacks_term self.new ≡
            put_in_term (reverse values.now) (stacks_term (without count self.old))) }
        ensures in_place { length values.now ≤ count → IsOk result }
        ensures refused { OnErr result (self.new ≡ self.old) }
    {
        self.exchange(count, values)?;
        Ok(())
    }

    fn exchange(&mut self, count: usize, values: &[Value]) -> Result<(), AllocError>
        requires { self.old.top.height + count ≤ length self.old.values }
        ensures done { OnOk result (self.new ≡ with_values values.now (without count self.old)) }
        ensures in_place { length values.now ≤ count → IsOk result }
        ensures refused { OnErr result (self.new ≡ self.old) }
        ensures stacked { IsStacked self.old }
    {
        if values.len() > count {
            make_room(&mut self.values, self.have, values.len() - count)?;
        }
        let kept = self.have - count;
        put(&mut self.values, kept, values);
        self.have = kept + values.len();
        Ok(())
    }
}
