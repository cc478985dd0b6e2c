//! What a run asks of the machine that makes its ticks.

ghost use Rattle.std.specs.Prelude.{◌≡◌, ◌≤◌, ◌∷◌, [], List, IfOk, OnOk};
ghost use Rattle.wz_code.specs.BodyParts.{BodyParts};
ghost use Rattle.wz_machine.specs.State.{State};
ghost use Rattle.wz_machine.specs.Terms.{Standing, Runs};
ghost use Rattle.wz_machine.specs.Next.{next};
ghost use Rattle.wz_machine.specs.Advance.{head_changes_table};
ghost use Rattle.wz_machine.specs.Frames.{frame_count, local_count};
ghost use Rattle.wz_machine.specs.Replies.{put};
ghost use Rattle.wz_machine.specs.TypedTerms.{IsMachineTyped};
ghost use Rattle.wz_store.specs.Changes.{applied};
ghost use Rattle.wz_init.specs.Run.{is_granted, granted_growth, growth_value};
ghost use Rattle.wz_store.specs.State.{pages_together};
ghost use Rattle.wz_init.specs.Turns.{top_term, IsAlone, IsEntered, IsTicked, IsAskedHere};
ghost use Rattle.wz_init.specs.Turns.{HasAdvanced, TakesNothing};

use crate::turn::{Entered, Turned};
use std::alloc::AllocError;
use wz_machine::Advance;

/// A machine with one term.
pub(crate) trait Steps {
    ghost state: { Self → State };

    /// The terms, the topmost first.
    ghost stack: { Self → List Standing };

    /// What the module's own functions do.
    ghost bodies: { Self → List BodyParts };

    /// Puts the term of a function that takes nothing on the empty stack.
    fn enter(&mut self, function: u32) -> Result<Entered, AllocError>
        requires empty { stack self.old ≡ [] }
        requires takes { TakesNothing (state self.old) function }
        requires typed { IsMachineTyped (state self.old) (stack self.old) }
        ensures entered { IfOk result (λ entered. IsEntered (state self.old) function entered
            (state self.new) (stack self.new)) }
        ensures typed { OnOk result (IsMachineTyped (state self.new) (stack self.new)) }
        ensures bodies { OnOk result (bodies self.new ≡ bodies self.old) };

    /// Whether the next tick would change a table.
    fn would_change_table(&self) -> bool
        requires { IsAlone (stack self.now) }
        ensures { result ≡ head_changes_table (next (top_term (stack self.now))) };

    fn tick(&mut self) -> Result<Turned, AllocError>
        requires alone { IsAlone (stack self.old) }
        requires typed { IsMachineTyped (state self.old) (stack self.old) }
        ensures ticked { IfOk result (λ turned. IsTicked (state self.old)
            (top_term (stack self.old)) turned (state self.new) (stack self.new)) }
        ensures typed { OnOk result (IsMachineTyped (state self.new) (stack self.new)) }
        ensures bodies { OnOk result (bodies self.new ≡ bodies self.old) };

    /// Makes up to so many ticks that plainly go on, and says how many, and whether the last of
    /// them entered a function.
    fn advance(&mut self, limit: u64) -> Result<Advance, AllocError>
        requires alone { IsAlone (stack self.old) }
        requires typed { IsMachineTyped (state self.old) (stack self.old) }
        ensures limit { IfOk result (λ done. done.made ≤ limit) }
        ensures made { IfOk result (λ done. HasAdvanced done (state self.old)
            (top_term (stack self.old)) (state self.new) (stack self.new)) }
        ensures typed { OnOk result (IsMachineTyped (state self.new) (stack self.new)) }
        ensures bodies { OnOk result (bodies self.new ≡ bodies self.old) };

    fn frames(&self) -> u64
        requires { IsAlone (stack self.now) }
        ensures { result ≡ frame_count (top_term (stack self.now)) };

    fn frame_locals(&self) -> u64
        requires { IsAlone (stack self.now) }
        ensures { result ≡ local_count (top_term (stack self.now)) };

    /// The pages of all memories together.
    fn pages(&self) -> u64
        ensures { result ≡ pages_together (state self.now).memories };

    /// Answers the question whether a memory grows, by the rule for growth in a run.
    fn answer_growth(&mut self, index: u32, by: u32, granted: bool) -> Result<(), AllocError>
        requires asked { IsAskedHere (state self.old) (stack self.old) index by }
        requires granted { granted ≡ is_granted (state self.old) by }
        requires typed { IsMachineTyped (state self.old) (stack self.old) }
        ensures state { OnOk result
            (state self.new ≡ applied (granted_growth (state self.old) index by) (state self.old)) }
        ensures stack { OnOk result (stack self.new ≡
            Runs (put (growth_value (state self.old) index by ∷ [])
            (top_term (stack self.old))) ∷ []) }
        ensures typed { OnOk result (IsMachineTyped (state self.new) (stack self.new)) }
        ensures bodies { OnOk result (bodies self.new ≡ bodies self.old) };
}
