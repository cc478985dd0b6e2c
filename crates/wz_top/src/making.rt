//! What is made of a module that was accepted: its exports are kept, it runs, and the output is
//! written.

ghost use Rattle.std.specs.Prelude.{◌≡◌, ◌≢◌, ◌<◌, ◌^◌, ℕ, List, AllPairs, sum};
ghost use Rattle.wz_io.specs.World.{World, name_of};
ghost use Rattle.wz_module.specs.Meaning.{module_of};
ghost use Rattle.wz_words.specs.Settings.{settings_of};
ghost use Rattle.wz_top.specs.Making.{IsRun, IsMade};
ghost use Rattle.wz_top.specs.Verdict.{IsAccepted};
ghost use Rattle.wz_top.specs.Words.{output_name};

use crate::deliver::deliver;
use crate::refusals::{export_outcome, init_outcome};
use crate::{Outcome, Report};
use std::alloc::{AllocError, Global};
use wz_exports::{Kept, keep};
use wz_init::{RunOrder, initialise};
use wz_io::{FileName, Files, OpenFault};
use wz_module::Module;
use wz_paged::PagedMemory;
use wz_rewrite::prepare;
use wz_snapshot::{Recorded, snapshot};
use wz_store::Reached;
use wz_words::{OutputTo, Settings};

/// Keeps the exports, runs the module and writes the output.
pub fn make<F: Files>(
    alloc: Global,
    accepted: &Module<'_>,
    settings: &Settings,
    files: &mut F,
) -> Outcome
    requires accepted { (bytes : List ℕ) × IsAccepted bytes (module_of accepted.now) }
    requires renames { AllPairs (λ x y. x.dst ≢ y.dst) (settings_of settings.now).renames }
    ensures made { (bytes : List ℕ) → IsAccepted bytes (module_of accepted.now)
        → IsMade (settings_of settings.now) bytes result (F.world files.old) (F.world files.new) }
    ensures reads { (F.world files.new).reads ≡ (F.world files.old).reads }
{
    let kept = match keep(alloc, accepted, settings) {
        Ok(kept) => kept,
        Err(fault) => return export_outcome(fault),
    };
    let order = RunOrder {
        reactor: kept.reactor(),
        function: kept.function(),
        fuel: settings.fuel,
    };
    let reached = match initialise::<PagedMemory>(alloc, accepted, &order) {
        Ok(reached) => reached,
        Err(fault) => return init_outcome(fault),
    };
    write_out(alloc, accepted, settings, &kept, &reached, files)
}

/// Records what was reached, and writes the output.
fn write_out<F: Files>(
    alloc: Global,
    accepted: &Module<'_>,
    settings: &Settings,
    kept: &Kept,
    reached: &Reached<'_, PagedMemory>,
    files: &mut F,
) -> Outcome
    requires run { (bytes : List ℕ) × IsRun (settings_of settings.now) bytes
        (module_of accepted.now) kept.now reached.now.store reached.now.ticks }
    ensures made { (bytes : List ℕ) → IsRun (settings_of settings.now) bytes
        (module_of accepted.now) kept.now reached.now.store reached.now.ticks
        → IsMade (settings_of settings.now) bytes result (F.world files.old) (F.world files.new) }
    ensures reads { (F.world files.new).reads ≡ (F.world files.old).reads }
{
    // For the proof: what a run reaches is within the limits of what is recorded and written.
    wz_init::laws::reached_states();
    wz_snapshot::laws::chosen_segments();
    wz_rewrite::laws::input_is_spelled();
    let recorded = match snapshot(alloc, reached) {
        Ok(recorded) => recorded,
        Err(AllocError) => return Outcome::NoMemory,
    };
    let mut output = match prepare(alloc, accepted, &recorded, kept) {
        Ok(output) => output,
        Err(AllocError) => return Outcome::NoMemory,
    };
    let pages = pages_together(&recorded);
    let chosen = recorded.segments();
    let segments = chosen.len() as u32;
    match deliver(files, file_name(&settings.output), &mut output, reached) {
        Ok(bytes) => Outcome::Done(Report {
            ticks: reached.ticks,
            pages,
            segments,
            bytes,
        }),
        Err(OpenFault::Failed) => Outcome::OutputFault,
        Err(OpenFault::NoMemory) => Outcome::NoMemory,
    }
}

/// The pages of all memories.
fn pages_together(recorded: &Recorded) -> u32
    requires { sum recorded.now.pages < 2 ^ 32 }
    ensures { result ≡ sum recorded.now.pages }
{
    recorded.pages().iter().sum()
}

/// The name of the output.
fn file_name(output: &OutputTo) -> FileName<'_>
    ensures { name_of result ≡ output_name output.now }
{
    match output {
        OutputTo::Standard => FileName::Standard,
        OutputTo::Path(path) => FileName::Path(path.as_str()),
    }
}
