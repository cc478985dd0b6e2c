//! The run of all phases by one fuel.

ghost use Rattle.std.specs.Prelude.{◌≡◌, ◌≤◌, ◌+◌, ◌-◌, ◌++◌, ℕ, List, [], ◌∷◌, IfOk, IfErr, OnOk};
ghost use Rattle.wz_init.specs.declared.order.Phase.{Phase};
ghost use Rattle.wz_init.specs.Reached.{IsSound};
ghost use Rattle.wz_init.specs.Ready.{Reached, IsFaultOf, phase_of, phases, phases_run};
ghost use Rattle.wz_init.specs.Turns.{HasEnded, FunctionsAreSmall, PhaseTakesNothing};
ghost use Rattle.wz_init.specs.Turns.{PhasesTakeNothing, KeepsTakingNothing};

use crate::faults::InitFault;
use crate::order::{Phase, RunOrder};
use crate::run::run_function;
use crate::stepping::Steps;

/// Runs the function of a phase, if there is one, and gives the fuel that is left.
fn run_phase<S: Steps>(
    machine: &mut S,
    phase: Phase,
    function: Option<u32>,
    fuel: u64,
) -> Result<u64, InitFault>
    requires ended { HasEnded (S.state machine.old) (S.stack machine.old) }
    requires sound { IsSound (S.state machine.old) }
    requires small { FunctionsAreSmall (S.state machine.old) }
    requires takes { PhaseTakesNothing (S.state machine.old) function }
    ensures bodies { OnOk result (S.bodies machine.new ≡ S.bodies machine.old) }
    ensures left { IfOk result (λ left. left ≤ fuel) }
    ensures ended { OnOk result (HasEnded (S.state machine.new) (S.stack machine.new)) }
    ensures sound { OnOk result (IsSound (S.state machine.new)) }
    ensures small { OnOk result (FunctionsAreSmall (S.state machine.new)) }
    ensures taken { OnOk result
        (KeepsTakingNothing (S.state machine.old) (S.state machine.new)) }
    ensures returned { (ticks : ℕ) (later : List (Phase × ℕ)) → IfOk result (λ left.
        phases_run (phase_of phase function ++ later) (S.state machine.old) fuel ticks
        ≡ phases_run later (S.state machine.new) left (ticks + (fuel - left))) }
    ensures stopped { (ticks : ℕ) (later : List (Phase × ℕ)) → IfErr result (λ fault.
        IsFaultOf
        (phases_run (phase_of phase function ++ later) (S.state machine.old) fuel ticks)
        fault) }
{
    match function {
        Some(function) => run_function(machine, phase, function, fuel),
        None => Ok(fuel),
    }
}

/// Runs the start function, the reactor's and the one that initialises, each where there is one,
/// and gives the ticks that were made.
pub(crate) fn run_phases<S: Steps>(
    machine: &mut S,
    start: Option<u32>,
    order: &RunOrder,
) -> Result<u64, InitFault>
    requires ended { HasEnded (S.state machine.old) (S.stack machine.old) }
    requires sound { IsSound (S.state machine.old) }
    requires small { FunctionsAreSmall (S.state machine.old) }
    requires takes { PhasesTakeNothing (S.state machine.old) start order.now }
    ensures bodies { OnOk result (S.bodies machine.new ≡ S.bodies machine.old) }
    ensures reached { IfOk result (λ ticks.
        phases_run (phases start order.now) (S.state machine.old) order.now.fuel 0
        ≡ Reached (S.state machine.new) ticks) }
    ensures refused { IfErr result (λ fault. IsFaultOf
        (phases_run (phases start order.now) (S.state machine.old) order.now.fuel 0) fault) }
{
    let first = match run_phase(machine, Phase::Start, start, order.fuel) {
        Ok(left) => left,
        Err(fault) => return Err(fault),
    };
    let second = match run_phase(machine, Phase::Reactor, order.reactor, first) {
        Ok(left) => left,
        Err(fault) => return Err(fault),
    };
    match run_phase(machine, Phase::Init, Some(order.function), second) {
        Ok(left) => Ok(order.fuel - left),
        Err(fault) => Err(fault),
    }
}
