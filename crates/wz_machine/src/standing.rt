//! A term in a machine, which runs or waits for an answer.

ghost use Rattle.std.specs.Prelude.{◌≡◌, ◌≤◌, ◌^◌, [], length, reverse, IfOk, OnOk, OnErr, IsOk, IsSome, IsNone};
ghost use Rattle.std.specs.Option.{option_map};

use crate::questions::HostTarget;
use crate::stacks::Stacks;
use std::alloc::AllocError;
use std::marker::Model;
use wz_code::NumOp;
use wz_types::{FuncType, Reference, Value};

/// What a term waits for, without its operands.
#[derive(Clone, Copy)]
pub(crate) enum Pending<'m> {
    Float(NumOp),
    Memory {
        index: u32,
        by: u32,
    },
    /// The new entries hold this reference.
    Table {
        index: u32,
        by: u32,
        value: Reference,
    },
    Host {
        target: HostTarget,
        kind: &'m FuncType,
    },
}

/// A frame and all within it, or values alone, in the order of pushing.
#[derive(Drop)]
pub(crate) enum Work<'m> {
    Stacks(Stacks<'m>),
    Values(Vec<Value>),
}

/// A term that runs, or one that waits for the answer to a question. The question's operands are
/// the last values until then, so that one value in their place takes no memory.
#[derive(Drop)]
pub(crate) struct Standing<'m> {
    pub work: Work<'m>,
    pub question: Option<Pending<'m>>,
    /// How many operands the question has.
    pub count: usize,
}

impl<'m> Model for Standing<'m> {
    ghost use Rattle.wz_machine.specs.Standings.{StandingParts, IsStanding};

    ghost Value = { StandingParts };

    ghost use Rattle.wz_machine.specs.Keeping.{standing_parts};

    ghost view = { λ s. standing_parts s.work s.question s.count };

    ghost invariant = { λ s. IsStanding (standing_parts s.work s.question s.count) };
}

impl<'m> Standing<'m> {
    ghost use Rattle.wz_machine.specs.Terms.{Runs};
    ghost use Rattle.wz_machine.specs.Frames.{frame_count, local_count, term_of};
    ghost use Rattle.wz_machine.specs.Replies.{put};
    ghost use Rattle.wz_machine.specs.Standings.{standing_of, rest_of, TakesOne};
    ghost use Rattle.wz_machine.specs.Keeping.{asking_of};

    /// The question that it waits with.
    #[inline]
    pub fn question(&self) -> Option<Pending<'m>>
        ensures { option_map (λ pending. asking_of pending) result ≡ self.now.question }
    {
        self.question
    }

    /// Puts these values where the operands were, and goes on.
    pub fn answer(&mut self, values: &[Value]) -> Result<(), AllocError>
        requires { IsSome self.old.question }
        ensures answered { OnOk result
            (standing_of self.new ≡ Runs (put (reverse values.now) (rest_of self.old))) }
        ensures in_place { TakesOne self.old.question → length values.now ≤ 1 → IsOk result }
        ensures refused { OnErr result (self.new ≡ self.old) }
    {
        match &mut self.work {
            Work::Stacks(stacks) => stacks.replace(self.count, values)?,
            Work::Values(own) => *own = Vec::from_slice(*own.allocator(), values)?,
        }
        self.question = None;
        self.count = 0;
        Ok(())
    }
}
