//! Instances called from outside, move by move: the one that an initialisation leaves, and the
//! fresh one of the output of the same module. Both are seen to do the same.

mod cases;
mod moves;

ghost use Rattle.std.specs.Prelude.{◌≢◌, ℕ, List, AllPairs, IfOk};
ghost use Rattle.wz_module.specs.Meaning.{module_of};
ghost use Rattle.wz_machine.specs.TypedState.{IsStateTyped, state_context};
ghost use Rattle.wz_init.specs.States.{state_in};
ghost use Rattle.wz_words.specs.Settings.{settings_of};
ghost use Rattle.wz_top.specs.Verdict.{IsAccepted};

use super::running::module;
use super::sections::{
    ASKING_INPUT, ASKING_OUTPUT, COPYING_INPUT, COPYING_OUTPUT, EXPORT, FUNCTION, TABLES_INPUT,
    TABLES_OUTPUT, TYPES,
};
use crate::turn::accept;
use cases::{ASKING, COPYING, Session, TABLES};
use moves::observe;
use std::alloc::Global;
use std::process::Abort;
use std::test::Fail;
use wz_exports::keep;
use wz_init::{RunOrder, initialise, instantiate};
use wz_io::INPUT_LIMIT;
use wz_io::laws::limit_is_named;
use wz_linear::Linear;
use wz_machine::Machine;
use wz_module::Module;
use wz_paged::PagedMemory;
use wz_store::Store;
use wz_words::{Settings, read_words};

/// The settings of no words.
fn settings(alloc: Global) -> Result<Settings, Fail>
    ensures { IfOk result (λ s. AllPairs (λ x y. x.dst ≢ y.dst) (settings_of s).renames) }
{
    wz_exports::laws::renames_differ();
    match read_words(alloc, &[]) {
        Ok(settings) => Ok(settings),
        Err(_) => Err(Fail::from("no words are at fault")),
    }
}

/// The instance that the initialisation of a module leaves.
fn initialised<'m>(alloc: Global, accepted: &'m Module<'m>) -> Result<Store<'m, PagedMemory>, Fail>
    requires { (bytes : List ℕ) × IsAccepted bytes (module_of «accepted».now) }
    ensures { IfOk result (λ store. let s = state_in (module_of «accepted».now) store in
        IsStateTyped (state_context s) s) }
{
    wz_init::laws::states_are_typed();
    let settings = settings(alloc)?;
    let Ok(kept) = keep(alloc, accepted, &settings) else {
        return Err(Fail::from("the module has no initialisation"));
    };
    let order = RunOrder {
        reactor: kept.reactor(),
        function: kept.function(),
        fuel: settings.fuel,
    };
    match initialise::<PagedMemory>(alloc, accepted, &order) {
        Ok(reached) => Ok(reached.store),
        Err(_) => Err(Fail::from("the initialisation ends in no state")),
    }
}

/// The instance that a module has before any function runs.
fn fresh<'m>(alloc: Global, accepted: &'m Module<'m>) -> Result<Store<'m, PagedMemory>, Fail>
    requires { (bytes : List ℕ) × IsAccepted bytes (module_of accepted.now) }
    ensures { IfOk result (λ store. let s = state_in (module_of «accepted».now) store in
        IsStateTyped (state_context s) s) }
{
    wz_init::laws::states_are_typed();
    match instantiate::<PagedMemory>(alloc, accepted) {
        Ok(store) => Ok(store),
        Err(_) => Err(Fail::from("the module has no instance")),
    }
}

/// Behind its initialisation a module is seen to do this.
fn goes_on(
    rt: &impl Abort,
    alloc: Global,
    accepted: &Module<'_>,
    session: &Session,
) -> Result<(), Fail>
    requires { (bytes : List ℕ) × IsAccepted bytes (module_of accepted.now) }
{
    // a store with the module's bodies is a state of the module
    wz_init::laws::states_by_bodies();
    let store = initialised(alloc, accepted)?;
    let mut machine = Machine::new(alloc, accepted.bodies(), store);
    observe(rt, &mut machine, session)
}

/// Fresh, a module is seen to do this.
fn begins(
    rt: &impl Abort,
    alloc: Global,
    accepted: &Module<'_>,
    session: &Session,
) -> Result<(), Fail>
    requires { (bytes : List ℕ) × IsAccepted bytes (module_of accepted.now) }
{
    // a store with the module's bodies is a state of the module
    wz_init::laws::states_by_bodies();
    let store = fresh(alloc, accepted)?;
    let mut machine = Machine::new(alloc, accepted.bodies(), store);
    observe(rt, &mut machine, session)
}

/// The input behind its initialisation is seen to do this.
fn input_goes_on(
    rt: &impl Abort,
    alloc: Global,
    input: &[u8],
    session: &Session,
) -> Result<(), Fail> {
    limit_is_named();
    assert!(rt; input.len() <= INPUT_LIMIT);
    let Ok(accepted) = accept(alloc, input) else {
        return Err(Fail::from("the input isn't accepted"));
    };
    goes_on(rt, alloc, &accepted, session)
}

/// The output's fresh instance is seen to do this.
fn output_begins(
    rt: &impl Abort,
    alloc: Global,
    output: &[u8],
    session: &Session,
) -> Result<(), Fail> {
    limit_is_named();
    assert!(rt; output.len() <= INPUT_LIMIT);
    let Ok(accepted) = accept(alloc, output) else {
        return Err(Fail::from("the output isn't accepted"));
    };
    begins(rt, alloc, &accepted, session)
}

/// Both are seen to do the same.
fn agree(
    rt: &impl Abort,
    alloc: Global,
    input: &[&[u8]],
    output: &[&[u8]],
    sessions: &[Session],
) -> Result<(), Fail> {
    let input = module(alloc, input)?;
    let output = module(alloc, output)?;
    for session in sessions {
        input_goes_on(rt, alloc, &input, session)?;
        output_begins(rt, alloc, &output, session)?;
    }
    Ok(())
}

#[test]
fn the_output_goes_on_as_the_input_would(rt: HostRuntime) -> Result<(), Fail> {
    agree(&rt, rt.alloc(), COPYING_INPUT, COPYING_OUTPUT, &COPYING)
}

#[test]
fn questions_are_asked_and_answered(rt: HostRuntime) -> Result<(), Fail> {
    agree(&rt, rt.alloc(), ASKING_INPUT, ASKING_OUTPUT, &ASKING)
}

#[test]
fn tables_are_changed(rt: HostRuntime) -> Result<(), Fail> {
    agree(&rt, rt.alloc(), TABLES_INPUT, TABLES_OUTPUT, &TABLES)
}

// Stores at the last byte of the largest memory.
static LARGEST: [&[u8]; 5] = [
    TYPES,
    FUNCTION,
    b"\x05\x05\x01\0\x80\x80\x01",
    EXPORT,
    b"\x0A\x0F\x01\x0D\0\x41\xFF\xFF\xFF\xFF\x03\x41\x07\x3A\0\0\x0B",
];

/// Fails where another page than the last one was ever written.
fn is_last_page_touched(rt: &impl Abort, memory: &PagedMemory) {
    for page in 0..16_384u32 {
        assert!(rt; page < memory.size_pages());
        assert_eq!(rt; memory.untouched(page), page < 16_383, "page {page}");
    }
}

/// The initialisation makes the last page alone.
fn makes_last_page(rt: &impl Abort, alloc: Global, accepted: &Module<'_>) -> Result<(), Fail>
    requires { (bytes : List ℕ) × IsAccepted bytes (module_of accepted.now) }
{
    let store = initialised(alloc, accepted)?;
    let Some(memory) = store.memory(0) else {
        return Err(Fail::from("there is no memory"));
    };
    is_last_page_touched(rt, memory);
    Ok(())
}

#[test]
fn pages_that_are_not_written_are_not_made(rt: HostRuntime) -> Result<(), Fail> {
    limit_is_named();
    let input = module(rt.alloc(), &LARGEST)?;
    assert!(rt; input.len() <= INPUT_LIMIT);
    let Ok(accepted) = accept(rt.alloc(), &input) else {
        return Err(Fail::from("the module isn't accepted"));
    };
    makes_last_page(&rt, rt.alloc(), &accepted)
}
