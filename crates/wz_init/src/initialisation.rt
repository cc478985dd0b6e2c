//! Instantiation and the run of all phases.

ghost use Rattle.std.specs.Prelude.{◌≡◌, Some, IfOk, IfErr};
ghost use Rattle.wz_module.specs.Meaning.{module_of};
ghost use Rattle.wz_module.specs.Module.{Module as ModuleRecord};
ghost use Rattle.wz_valid.specs.Validity.{IsValid};
ghost use Rattle.wz_valid.specs.Profile.{IsInProfile};
ghost use Rattle.wz_machine.specs.Machines.{machine_state, machine_stack};
ghost use Rattle.wz_init.specs.Instances.{Fresh, Instance};
ghost use Rattle.wz_init.specs.Instantiation.{fresh};
ghost use Rattle.wz_init.specs.States.{state_in};
ghost use Rattle.wz_init.specs.Plain.{IsUnfit};
ghost use Rattle.wz_init.specs.Ready.{IsReached, IsRefused, IsFaultOf, ready_from};
ghost use Rattle.wz_init.specs.Orders.{IsRunnable};
ghost use Rattle.wz_init.specs.declared.order.RunOrder.{RunOrder};

use crate::bytes::datas_hold_bytes;
use crate::faults::{InitFault, StartFault};
use crate::instantiation::instantiate;
use crate::laws;
use crate::order::RunOrder;
use crate::phases::run_phases;
use std::alloc::Global;
use wz_linear::Linear;
use wz_machine::Machine;
use wz_module::Module;
use wz_store::{Reached, Store};

/// A module without a fresh instance is never ready.
fn never_ready(fault: StartFault) -> InitFault
    ensures { (m : ModuleRecord) (order : RunOrder) (made : Fresh) → IsUnfit made fault
        → IsFaultOf (ready_from m order made) result }
{
    match fault {
        StartFault::ElementOutOfBounds { index } => InitFault::ElementOutOfBounds { index },
        StartFault::DataOutOfBounds { index } => InitFault::DataOutOfBounds { index },
        StartFault::NoMemory => InitFault::NoMemory,
    }
}

/// Runs the phases over a fresh store.
fn run_store<'m, M: Linear>(
    alloc: Global,
    module: &'m Module<'m>,
    store: Store<'m, M>,
    order: &RunOrder,
) -> Result<Reached<'m, M>, InitFault>
    requires valid { IsValid (module_of «module».now) }
    requires profile { IsInProfile (module_of «module».now) }
    requires runnable { IsRunnable (module_of «module».now) order.now }
    requires fresh { let m = module_of «module».now in fresh m ≡ Instance (state_in m store) }
    ensures reached { IfOk result (λ reached.
        IsReached (module_of «module».now) order.now reached.store reached.ticks) }
    ensures refused { IfErr result (λ fault.
        IsRefused (module_of «module».now) order.now fault) }
{
    wz_valid::laws::valid_items();
    laws::reached_states();
    laws::states_by_bodies();
    laws::states_are_typed();
    datas_hold_bytes(module);
    let mut machine = Machine::new(alloc, module.bodies(), store);
    match run_phases(&mut machine, module.start(), order) {
        Ok(ticks) => Ok(Reached {
            store: machine.into_store(),
            ticks,
        }),
        Err(fault) => Err(fault),
    }
}

/// The instance of a module as the run of its start function and of the functions of the order
/// leaves it: all by one fuel, and each where the one before has stopped. Each fault says where
/// and why the run ended; `OutOfFuel` that it hasn't ended after as many ticks as the fuel.
///
/// The functions of the order are there and are of type [] to []. So no run is stuck.
pub fn initialise<'m, M: Linear>(
    alloc: Global,
    module: &'m Module<'m>,
    order: &RunOrder,
) -> Result<Reached<'m, M>, InitFault>
    requires valid { IsValid (module_of «module».now) }
    requires profile { IsInProfile (module_of «module».now) }
    requires runnable { IsRunnable (module_of «module».now) order.now }
    ensures reached { IfOk result (λ reached.
        IsReached (module_of «module».now) order.now reached.store reached.ticks) }
    ensures refused { IfErr result (λ fault.
        IsRefused (module_of «module».now) order.now fault) }
{
    match instantiate(alloc, module) {
        Ok(store) => run_store(alloc, module, store, order),
        Err(fault) => Err(never_ready(fault)),
    }
}
