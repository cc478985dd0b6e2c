//! Runs of plain instructions that go on from the innermost loop's beginning each time that a
//! branch to it comes, so that a turn of a short loop costs no more than its instructions.

ghost use Rattle.std.specs.Prelude.{◌≡◌, ◌≤◌, ◌<◌, ◌+◌, ◌-◌, length, MatchBool, MatchOption};
ghost use Rattle.wz_machine.specs.Kept.{entry_of};
ghost use Rattle.wz_machine.specs.PlainSteps.{site};
ghost use Rattle.wz_machine.specs.Straight.{point};
ghost use Rattle.wz_machine.specs.Laps.{ConditionHolds, BranchesBack, Repeats, LapsTo};

use crate::plain::operands::number_on;
use crate::stacks::{Kind, Opened};
use crate::straight::straight;
use wz_code::Instr;
use wz_linear::Linear;
use wz_store::Store;
use wz_types::Value;

/// Where a run came to: how many instructions of its limit are left, how many values the block has
/// then, and what is left of its instructions.
#[derive(Clone, Copy)]
pub(crate) struct Halt<'m> {
    pub left: usize,
    pub have: usize,
    pub rest: &'m [Instr],
}

/// Whether the last of so many values is a condition that holds.
#[inline(always)]
fn holds(own: &[Value], have: usize) -> bool
    requires { have ≤ length own.now }
    ensures { MatchBool result (ConditionHolds have own.now) (Unit {0}) }
{
    match number_on(own, have) {
        Some(number) => number != 0,
        None => false,
    }
}

/// Whether the instruction branches to the innermost label.
#[inline(always)]
fn branches_back(instr: &Instr, own: &[Value], have: usize) -> bool
    requires { have ≤ length own.now }
    ensures { MatchBool result (BranchesBack instr.now have own.now) (Unit {0}) }
{
    match *instr {
        Instr::Br(label) => label == 0,
        Instr::BrIf(label) => label == 0 && holds(own, have),
        _ => false,
    }
}

/// The innermost loop's instructions, where the next one branches to it and takes no values along,
/// and there is room for them.
#[inline(always)]
fn again<'m>(
    top: &Opened<'m>,
    code: &[Instr],
    left: usize,
    own: &[Value],
    have: usize,
) -> Option<&'m [Instr]>
    requires { have ≤ length own.now }
    ensures repeats { MatchOption result (Unit {0})
        (λ again. Repeats (entry_of top.now) code.now have own.now again.now) }
    ensures left { MatchOption result (Unit {0}) (λ again. 0 < left) }
{
    if left == 0 {
        return None;
    }
    let (instr, _) = code.split_first()?;
    if !branches_back(instr, own, have) {
        return None;
    }
    if top.arity > 0 {
        return None;
    }
    match top.kind {
        Kind::Loop(code) if code.len() <= own.len() => Some(code),
        Kind::Loop(_) | Kind::Call | Kind::Block => None,
    }
}

/// Runs at most so many instructions of the innermost entry.
#[inline(always)]
pub(crate) fn laps<'m, M: Linear>(
    top: &Opened<'m>,
    limit: usize,
    locals: &mut [Value],
    own: &mut [Value],
    have: usize,
    store: &mut Store<'_, M>,
) -> Halt<'m>
    requires { have + length top.now.rest.now ≤ length own.old }
    ensures ran { LapsTo (entry_of top.now) (limit - result.left)
        (point top.now.rest.now have (site locals.old own.old store.old))
        (point result.rest.now result.have (site locals.new own.new store.new)) }
    ensures limited { result.left ≤ limit }
    ensures room { result.have ≤ length own.new }
{
    let mut code = top.rest;
    let mut left = limit;
    let mut now = have;
    loop {
        let pause = straight(top.body, code, left, locals, own, now, store);
        (_, code) = code.split_at(pause.made);
        left -= pause.made;
        now = pause.have;
        let Some(first) = again(top, code, left, own, now) else {
            return Halt {
                left,
                have: now,
                rest: code,
            };
        };
        code = first;
        left -= 1;
        now = 0;
    }
}
