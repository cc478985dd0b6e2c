//! The run of one function, with fuel and limits.

ghost use Rattle.std.specs.Prelude.{◌≡◌, ◌<◌, ◌≤◌, ◌+◌, ◌-◌, ℕ, suc, [], ◌∷◌, IfOk, IfErr, OnOk};
ghost use Rattle.std.specs.Bool.{OnTrue, OnFalse};
ghost use Rattle.wz_store.specs.Changes.{applied};
ghost use Rattle.wz_machine.specs.Terms.{Runs};
ghost use Rattle.wz_machine.specs.Replies.{put};
ghost use Rattle.wz_machine.specs.TypedTerms.{IsMachineTyped};
ghost use Rattle.wz_init.specs.Run.{Returned, granted_growth, growth_value, run_from, run};
ghost use Rattle.wz_init.specs.Turns.{top_term, IsAlone, IsWithinLimits, IsRunning, HasEnded};
ghost use Rattle.wz_init.specs.Turns.{IsAskedHere, IsBeyond, IsTurned, IsRound, StopsBy};
ghost use Rattle.wz_init.specs.Turns.{FunctionsAreSmall, TakesNothing};

use crate::faults::InitFault;
use crate::order::Phase;
use crate::stepping::Steps;
use crate::turn::{Entered, Round, Turned};

/// How many frames there are at one time at most.
const FRAMES_LIMIT: u64 = 20_000;

/// How many locals all frames have together at most.
const LOCALS_LIMIT: u64 = 4_000_000;

/// How many pages all memories have together at most.
const PAGES_LIMIT: u64 = 16_384;

fn check_limits<S: Steps>(machine: &S) -> Result<(), InitFault>
    requires { IsAlone (S.stack machine.now) }
    ensures within { OnOk result (IsWithinLimits (top_term (S.stack machine.now))) }
    ensures beyond { IfErr result (λ fault. IsBeyond (top_term (S.stack machine.now)) fault) }
{
    if machine.frames() > FRAMES_LIMIT {
        return Err(InitFault::TooManyFrames);
    }
    if machine.frame_locals() > LOCALS_LIMIT {
        return Err(InitFault::TooManyFrameLocals);
    }
    Ok(())
}

/// Grants the growth where all memories together stay within the limit.
fn grow<S: Steps>(machine: &mut S, index: u32, by: u32) -> Result<(), InitFault>
    requires asked { IsAskedHere (S.state machine.old) (S.stack machine.old) index by }
    requires typed { IsMachineTyped (S.state machine.old) (S.stack machine.old) }
    ensures state { OnOk result (S.state machine.new ≡
        applied (granted_growth (S.state machine.old) index by) (S.state machine.old)) }
    ensures stack { OnOk result (S.stack machine.new ≡
        Runs (put (growth_value (S.state machine.old) index by ∷ [])
        (top_term (S.stack machine.old))) ∷ []) }
    ensures typed { OnOk result (IsMachineTyped (S.state machine.new) (S.stack machine.new)) }
    ensures bodies { OnOk result (S.bodies machine.new ≡ S.bodies machine.old) }
    ensures refused { IfErr result (λ fault. fault ≡ InitFault.NoMemory) }
{
    let pages = machine.pages();
    let granted = pages <= PAGES_LIMIT && u64::from(by) <= PAGES_LIMIT - pages;
    machine.answer_growth(index, by, granted)?;
    Ok(())
}

/// One tick, of which it says whether the term goes on, or its function returned.
fn turn<S: Steps>(machine: &mut S, phase: Phase) -> Result<bool, InitFault>
    requires { IsRunning (S.state machine.old) (S.stack machine.old) }
    ensures running { IfOk result (λ on. OnTrue on
        (IsRunning (S.state machine.new) (S.stack machine.new))) }
    ensures ended { IfOk result (λ on. OnFalse on
        (HasEnded (S.state machine.new) (S.stack machine.new))) }
    ensures bodies { OnOk result (S.bodies machine.new ≡ S.bodies machine.old) }
    ensures turned { (fuel ticks : ℕ) → IfOk result (λ on. IsTurned on (S.state machine.old)
        (top_term (S.stack machine.old)) (S.state machine.new) (S.stack machine.new)
        fuel ticks) }
    ensures stopped { (fuel ticks : ℕ) → IfErr result (λ fault. StopsBy phase
        (run_from (suc fuel) ticks (S.state machine.old) (top_term (S.stack machine.old)))
        fault) }
{
    if machine.would_change_table() {
        return Err(InitFault::TableChanged);
    }
    match machine.tick()? {
        Turned::Went => match check_limits(machine) {
            Ok(()) => Ok(true),
            Err(fault) => Err(fault),
        },
        Turned::Ended => Ok(false),
        Turned::Memory { index, by } => {
            grow(machine, index, by)?;
            Ok(true)
        }
        Turned::Trapped(kind) => Err(InitFault::Trap { phase, kind }),
        Turned::Float(op) => Err(InitFault::FloatUsed { op }),
        Turned::Table => Err(InitFault::TableChanged),
        Turned::Import(import) => Err(InitFault::ImportCalled { import }),
        // no reference to a function of the host ever came in
        Turned::Foreign(_) => unreachable!(),
    }
}

/// As many ticks as plainly go on; where none of them entered a function, then one more, if there
/// is fuel for it.
fn round<S: Steps>(machine: &mut S, phase: Phase, fuel: u64) -> Result<Round, InitFault>
    requires running { IsRunning (S.state machine.old) (S.stack machine.old) }
    requires some { 0 < fuel }
    ensures bodies { OnOk result (S.bodies machine.new ≡ S.bodies machine.old) }
    ensures went { IfOk result (λ round. IsRound round fuel (S.state machine.old)
        (top_term (S.stack machine.old)) (S.state machine.new) (S.stack machine.new)) }
    ensures stopped { (ticks : ℕ) → IfErr result (λ fault. StopsBy phase
        (run_from fuel ticks (S.state machine.old) (top_term (S.stack machine.old))) fault) }
{
    let done = machine.advance(fuel)?;
    let left = fuel - done.made;
    if done.entered {
        match check_limits(machine) {
            Ok(()) => return Ok(Round::Goes(left)),
            Err(fault) => return Err(fault),
        }
    }
    if left == 0 {
        return Ok(Round::Goes(0));
    }
    match turn(machine, phase) {
        Ok(true) => Ok(Round::Goes(left - 1)),
        Ok(false) => Ok(Round::Returned(left - 1)),
        Err(fault) => Err(fault),
    }
}

/// Runs the only term to its end, and gives the fuel that is left.
pub(crate) fn run_term<S: Steps>(machine: &mut S, phase: Phase, fuel: u64) -> Result<u64, InitFault>
    requires { IsRunning (S.state machine.old) (S.stack machine.old) }
    ensures bodies { OnOk result (S.bodies machine.new ≡ S.bodies machine.old) }
    ensures left { IfOk result (λ left. left ≤ fuel) }
    ensures ended { OnOk result (HasEnded (S.state machine.new) (S.stack machine.new)) }
    ensures returned { (ticks : ℕ) → IfOk result (λ left.
        run_from fuel ticks (S.state machine.old) (top_term (S.stack machine.old))
        ≡ Returned (S.state machine.new) left (ticks + (fuel - left))) }
    ensures stopped { (ticks : ℕ) → IfErr result (λ fault. StopsBy phase
        (run_from fuel ticks (S.state machine.old) (top_term (S.stack machine.old))) fault) }
{
    let mut left = fuel;
    while left > 0 {
        match round(machine, phase, left) {
            Ok(Round::Goes(rest)) => left = rest,
            Ok(Round::Returned(rest)) => return Ok(rest),
            Err(fault) => return Err(fault),
        }
    }
    Err(InitFault::OutOfFuel)
}

/// Runs a function that takes nothing to its end, and gives the fuel that is left.
pub(crate) fn run_function<S: Steps>(
    machine: &mut S,
    phase: Phase,
    function: u32,
    fuel: u64,
) -> Result<u64, InitFault>
    requires ended { HasEnded (S.state machine.old) (S.stack machine.old) }
    requires small { FunctionsAreSmall (S.state machine.old) }
    requires takes { TakesNothing (S.state machine.old) function }
    ensures bodies { OnOk result (S.bodies machine.new ≡ S.bodies machine.old) }
    ensures left { IfOk result (λ left. left ≤ fuel) }
    ensures ended { OnOk result (HasEnded (S.state machine.new) (S.stack machine.new)) }
    ensures returned { (ticks : ℕ) → IfOk result (λ left.
        run (S.state machine.old) function fuel ticks
        ≡ Returned (S.state machine.new) left (ticks + (fuel - left))) }
    ensures stopped { (ticks : ℕ) → IfErr result (λ fault. StopsBy phase
        (run (S.state machine.old) function fuel ticks) fault) }
{
    match machine.enter(function)? {
        Entered::Own => run_term(machine, phase, fuel),
        Entered::Import(import) => Err(InitFault::ImportCalled { import }),
    }
}
