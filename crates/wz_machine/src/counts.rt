//! How many frames and locals a term has.

ghost use Rattle.std.specs.Prelude.{◌≡◌, ◌≤◌, ◌^◌, length};
ghost use Rattle.wz_machine.specs.Frames.{frame_count, local_count, term_of, frames_in_all, locals_in_all};
ghost use Rattle.wz_machine.specs.Stacks.{stacks_term, IsStacked};
ghost use Rattle.wz_machine.specs.Standings.{standing_of, stack_of};

use crate::stacks::Stacks;
use crate::standing::{Standing, Work};

impl<'m> Stacks<'m> {
    /// How many frames there are. The innermost entry keeps the count.
    #[tactic(auto, using(crate::proofs::CountLemmas::frames_counted))]
    pub fn frames(&self) -> u64
        ensures count { result ≡ frame_count (stacks_term self.now) }
        ensures few { result ≤ 2 ^ 32 }
        ensures top { result ≡ self.now.top.frames }
        ensures stacked { IsStacked self.now }
    {
        self.top.frames as u64
    }

    /// How many locals these have.
    #[tactic(auto, using(crate::proofs::CountLemmas::locals_counted))]
    pub fn frame_locals(&self) -> u64
        ensures count { result ≡ local_count (stacks_term self.now) }
        ensures few { result ≤ 2 ^ 32 }
        ensures top { result ≡ self.now.top.frame_locals }
        ensures stacked { IsStacked self.now }
    {
        self.top.frame_locals as u64
    }
}

impl<'m> Standing<'m> {
    /// How many frames the term has.
    #[tactic(auto, using(crate::proofs::CountLemmas::frames_standing))]
    fn frames(&self) -> u64
        ensures count { result ≡ frame_count (term_of (standing_of self.now)) }
        ensures few { result ≤ 2 ^ 32 }
    {
        let _ = &self.count;
        match &self.work {
            Work::Stacks(stacks) => stacks.frames(),
            Work::Values(_) => 0,
        }
    }

    /// How many locals these have.
    #[tactic(auto, using(crate::proofs::CountLemmas::locals_standing))]
    fn frame_locals(&self) -> u64
        ensures count { result ≡ local_count (term_of (standing_of self.now)) }
        ensures few { result ≤ 2 ^ 32 }
    {
        let _ = &self.count;
        match &self.work {
            Work::Stacks(stacks) => stacks.frame_locals(),
            Work::Values(_) => 0,
        }
    }
}

/// How many frames these terms have.
pub(crate) fn frames_in(standings: &[Standing<'_>]) -> u64
    requires { length standings.now ≤ 2 ^ 31 }
    ensures { result ≡ frames_in_all (stack_of standings.now) }
{
    // mostly one term stands
    if let [only] = standings {
        return only.frames();
    }
    let mut count = 0;
    for standing in standings {
        count += standing.frames();
    }
    count
}

/// How many locals all these frames have.
pub(crate) fn frame_locals_in(standings: &[Standing<'_>]) -> u64
    requires { length standings.now ≤ 2 ^ 31 }
    ensures { result ≡ locals_in_all (stack_of standings.now) }
{
    // mostly one term stands
    if let [only] = standings {
        return only.frame_locals();
    }
    let mut count = 0;
    for standing in standings {
        count += standing.frame_locals();
    }
    count
}
