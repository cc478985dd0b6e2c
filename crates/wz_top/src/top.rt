//! The top call.

ghost use Rattle.std.specs.Prelude.{◌≡◌, ◌≢◌, ◌+◌, ◌≤◌, ◌⊎◌, Ok, IfOk, All, AllPairs, IsUtf8};
ghost use Rattle.wz_io.specs.World.{World, Said};
ghost use Rattle.wz_io.specs.Reading.{input_limit};
ghost use Rattle.wz_words.specs.Settings.{settings_of};
ghost use Rattle.wz_words.specs.Faults.{settings};
ghost use Rattle.wz_top.specs.Asked.{Asks, Asked, Ran, OnDone, OnRefusal, OnInputFault};
ghost use Rattle.wz_top.specs.Asked.{OnOutputFault, OnUnfinished, Stays, IsTold, IsAnswer};
ghost use Rattle.wz_top.specs.Asked.{IsComplete};
ghost use Rattle.wz_top.specs.Devices.{IsSmallSample};
ghost use Rattle.wz_top.specs.PreInitialised.{OnPreInitialised, NoRunIsStuck};
ghost use Rattle.wz_top.specs.Saying.{SaysAll, SaysFirst};
ghost use Rattle.wz_top.specs.Texts.{text};
ghost use Rattle.wz_top.specs.Words.{is_reported, wants_report, is_sample};

use crate::Outcome;
use crate::fetch::obtain;
use crate::laws::{bytes_ask_once, no_run_is_stuck, output_is_pre_initialised, renames_are_short};
use crate::making::make;
use crate::refusals::usage_outcome;
use crate::texts::print_outcome;
use crate::turn::accept;
use std::alloc::Global;
use wz_exports::laws::renames_differ;
use wz_io::{Files, ReadAll, Sink};
use wz_types::Text;
use wz_words::{InputFrom, Rename, Settings, read_words};

/// Pre-initialises the module that the words name, writes the module that starts in the state
/// that was reached, and puts the line that tells how the run ended.
///
/// Nothing is written before the run succeeded. A sink that fails changes no outcome.
pub fn wizer<F: Files, E: Sink>(
    alloc: Global,
    words: &[Text],
    files: &mut F,
    messages: &mut E,
) -> Outcome
    // What was asked for was written, and the report is its own.
    ensures done { OnDone result (Asks words.now (F.world files.old).told)
        (F.world files.old) (F.world files.new) }

    // What was written is the input, pre-initialised: a valid module that starts nothing and has
    // the kept exports, whose fresh instance is the state that the run reached, and of which in
    // every session the same is seen as of that state.
    ensures headline { OnPreInitialised result (settings words.now)
        (F.world files.old) (F.world files.new) }

    // A refusal comes only where it is asked for, and what is asked for is answered.
    ensures refusal { OnRefusal result (Asks words.now (F.world files.old).told) }
    ensures answer { IsTold (settings words.now) (F.world files.old).told →
        (asked : Asked) → Asks words.now (F.world files.old).told asked → IsAnswer asked result }

    // No run is stuck, whatever the input.
    ensures never_stuck { IfOk (settings words.now) (λ s. NoRunIsStuck s) }

    // A fault comes only where that device failed, and for the output only where one is asked for.
    ensures input_fault { OnInputFault result (settings words.now)
        (F.world files.old) (F.world files.new) }
    ensures output_fault { OnOutputFault result (Asks words.now (F.world files.old).told)
        (F.world files.old) (F.world files.new) }

    // What stays, and what an output holds that wasn't finished.
    ensures stays { Stays result (settings words.now) (F.world files.old) (F.world files.new) }
    ensures unfinished { OnUnfinished result (Asks words.now (F.world files.old).told)
        (F.world files.old) (F.world files.new) }

    // What can be done is done, but for want of memory.
    ensures complete { IsTold (settings words.now) (F.world files.old).told →
        IsComplete result (settings words.now) (Asks words.now (F.world files.old).told)
        (F.world files.old) (F.world files.new) }
    ensures reads { (F.world files.new).reads ≤ (F.world files.old).reads + input_limit + 2 }

    // The line of the outcome, or some first bytes of it where the sink failed.
    ensures messages { let line = text result (is_reported (settings words.now)) in
        SaysAll line (E.said messages.old) (E.said messages.new)
        ⊎ SaysFirst line (E.said messages.old) (E.said messages.new) }
{
    // For the proof: no run is stuck.
    no_run_is_stuck();
    let (outcome, report) = run(alloc, words, files);
    say(&outcome, report, messages);
    outcome
}

/// Puts the line of the outcome; where that fails, nothing is left to be told.
fn say<E: Sink>(outcome: &Outcome, report: bool, messages: &mut E)
    ensures { SaysAll (text outcome.now report) (E.said messages.old) (E.said messages.new)
        ⊎ SaysFirst (text outcome.now report) (E.said messages.old) (E.said messages.new) }
{
    let _all = print_outcome(outcome, report, messages);
}

/// The outcome, and whether its report is to be printed.
fn run<F: Files>(alloc: Global, words: &[Text], files: &mut F) -> (Outcome, bool)
    ensures ran { Ran result.0 (settings words.now) (F.world files.old) (F.world files.new) }
    ensures headline { OnPreInitialised result.0 (settings words.now)
        (F.world files.old) (F.world files.new) }
    ensures report { text result.0 result.1 ≡ text result.0 (is_reported (settings words.now)) }
    ensures reads { (F.world files.new).reads ≤ (F.world files.old).reads + input_limit + 2 }
{
    // For the proof: no two renames are to one name, all are short, and what is asked for is
    // the input, pre-initialised.
    renames_differ();
    renames_are_short();
    output_is_pre_initialised();
    let settings = match read_words(alloc, words) {
        Ok(settings) => settings,
        Err(fault) => return (usage_outcome(fault), false),
    };
    names_are_texts(&settings.renames);
    let report = wants_report(&settings);
    (carry_out(alloc, &settings, files), report)
}

/// The names that renames give are UTF-8. It does nothing: each is a text by its type.
fn names_are_texts(renames: &[Rename])
    ensures { All (λ rename. IsUtf8 rename.dst) renames.now }
{
    for rename in renames {
        let _text = rename.dst.as_str();
    }
}

/// Whether the report is printed: where it is asked for, and always for a sample.
fn wants_report(settings: &Settings) -> bool
    ensures { result ≡ wants_report (settings_of settings.now) }
{
    settings.report || is_sample(&settings.input)
}

fn is_sample(input: &InputFrom) -> bool
    ensures { result ≡ is_sample input.now }
{
    match input {
        InputFrom::Standard => false,
        InputFrom::Path(_) => false,
        InputFrom::Sample(_) => true,
    }
}

/// The steps from opening the input to closing the output.
fn carry_out<F: Files>(alloc: Global, settings: &Settings, files: &mut F) -> Outcome
    requires small { IsSmallSample settings.now.input }
    requires renames { AllPairs (λ x y. x.dst ≢ y.dst) (settings_of settings.now).renames }
    ensures ran { Ran result (Ok (settings_of settings.now))
        (F.world files.old) (F.world files.new) }
    ensures reads { (F.world files.new).reads ≤ (F.world files.old).reads + input_limit + 2 }
{
    // For the proof: what is found is what was asked for.
    bytes_ask_once();
    let bytes = match obtain(alloc, files, &settings.input) {
        Ok(bytes) => bytes,
        Err(ReadAll::Failed) => return Outcome::InputFault,
        Err(ReadAll::TooLong) => return Outcome::InputTooLong,
        Err(ReadAll::NoMemory) => return Outcome::NoMemory,
    };
    let accepted = match accept(alloc, &bytes) {
        Ok(accepted) => accepted,
        Err(refusal) => return refusal,
    };
    make(alloc, &accepted, settings, files)
}
