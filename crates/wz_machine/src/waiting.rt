//! The stack of terms, whose topmost is the last, and which may wait for an answer.

ghost use Rattle.std.specs.Prelude.{◌≡◌, ◌≤◌, length, reverse, map, OnOk, OnErr, IsOk, IsSome, IfOk, Some};
ghost use Rattle.std.specs.Option.{option_map};
ghost use Rattle.wz_machine.specs.Entered.{entered_callable};
ghost use Rattle.wz_machine.specs.Replies.{may_enter as may_enter_stack};
ghost use Rattle.wz_machine.specs.Callees.{callable_in};
ghost use Rattle.wz_machine.specs.Standings.{stack_of, standing_of, asking_of_top, TakesOne};
ghost use Rattle.wz_machine.specs.Keeping.{asking_of};
ghost use Rattle.wz_machine.specs.Waiting.{answered_stack, below_top, float_in, host_in};

use crate::callee::{Callee, CalleeCode};
use crate::questions::HostTarget;
use crate::stacks::Stacks;
use crate::standing::{Pending, Standing, Work};
use std::alloc::{AllocError, Global};
use wz_code::NumOp;
use wz_types::{FuncType, Value};

/// What the topmost term waits for.
pub(crate) fn top_question<'m>(standings: &[Standing<'m>]) -> Option<Pending<'m>>
    ensures { option_map (λ pending. asking_of pending) result ≡
        asking_of_top (stack_of standings.now) }
{
    let top = standings.last()?;
    top.question()
}

/// The float operation whose result it waits for.
pub(crate) fn float_question(standings: &[Standing<'_>]) -> Option<NumOp>
    ensures { result ≡ float_in (asking_of_top (stack_of standings.now)) }
{
    match top_question(standings)? {
        Pending::Float(op) => Some(op),
        Pending::Memory { .. } | Pending::Table { .. } | Pending::Host { .. } => None,
    }
}

/// The type of the host's function that it waits for.
pub(crate) fn host_question<'m>(standings: &[Standing<'m>]) -> Option<&'m FuncType>
    ensures { option_map (λ kind. kind.now) result ≡
        host_in (asking_of_top (stack_of standings.now)) }
{
    match top_question(standings)? {
        Pending::Host { target: _, kind } => Some(kind),
        Pending::Float(_) | Pending::Memory { .. } | Pending::Table { .. } => None,
    }
}

/// Whether no term stands, or the topmost waits for the host.
pub(crate) fn may_enter(standings: &[Standing<'_>]) -> bool
    ensures { result ≡ may_enter_stack (stack_of standings.now) }
{
    match top_question(standings) {
        None => standings.is_empty(),
        Some(Pending::Host { .. }) => true,
        Some(Pending::Float(_) | Pending::Memory { .. } | Pending::Table { .. }) => false,
    }
}

/// Puts these values into the topmost term, which waits, in the place of its operands.
pub(crate) fn answer_top(
    standings: &mut Vec<Standing<'_>>,
    values: &[Value],
) -> Result<(), AllocError>
    requires { IsSome (asking_of_top (stack_of standings.old.items)) }
    ensures answered { OnOk result (stack_of standings.new.items ≡
        answered_stack (reverse values.now) (stack_of standings.old.items)) }
    ensures in_place { TakesOne (asking_of_top (stack_of standings.old.items)) →
        length values.now ≤ 1 → IsOk result }
    ensures refused { OnErr result (standings.new.items ≡ standings.old.items) }
    ensures len { length standings.new.items ≡ length standings.old.items }
{
    match standings.last_mut() {
        Some(top) => top.answer(values),
        None => Ok(()),
    }
}

/// Takes the topmost term away.
pub(crate) fn drop_top(standings: &mut Vec<Standing<'_>>)
    ensures stack { stack_of standings.new.items ≡ below_top (stack_of standings.old.items) }
    ensures len { length standings.new.items ≤ length standings.old.items }
{
    standings.pop();
}

/// The term of a call from outside: a frame, or the question for the host's function.
pub(crate) fn enter<'m>(
    alloc: Global,
    callee: Callee<'m>,
    args: &[Value],
) -> Result<Standing<'m>, AllocError>
    ensures { IfOk result (λ standing. entered_callable (Some (callable_in callee.entry)) args.now ≡
        Some (standing_of standing)) }
{
    match callee.code {
        CalleeCode::Own(body) => {
            let results = callee.kind.results().len();
            let stacks = Stacks::start(alloc, body, args, results)?;
            Ok(Standing {
                work: Work::Stacks(stacks),
                question: None,
                count: 0,
            })
        }
        CalleeCode::Import(import) => {
            let values = Vec::from_slice(alloc, args)?;
            let count = values.len();
            let question = Pending::Host {
                target: HostTarget::Import(import),
                kind: callee.kind,
            };
            Ok(Standing {
                work: Work::Values(values),
                question: Some(question),
                count,
            })
        }
    }
}
