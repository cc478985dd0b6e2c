//! Laws of the definitions that the contract of the top call cites.

ghost use Rattle.wz_top.specs.Samples.{SamplesAreShort};
ghost use Rattle.wz_top.specs.FreshOutput.{OutputStartsAsReached};
ghost use Rattle.wz_top.specs.PreInitialised.{RenamesAreShort, OutputIsWritten};
ghost use Rattle.wz_top.specs.PreInitialised.{OutputIsPreInitialised, NoRunIsStuck};
ghost use Rattle.wz_top.specs.Verdict.{OneVerdict};
ghost use Rattle.wz_words.specs.Settings.{Settings};

use wz_decode::laws as decode_laws;
use wz_valid::laws as valid_laws;

/// Bytes ask for one thing at most: one refusal, or one output with its report.
pub fn bytes_ask_once()
    ensures { OneVerdict }
{
    // For the proof: bytes spell one module, and each step has one cause at most.
    decode_laws::at_most_one();
    decode_laws::one_cause();
    valid_laws::one_cause();
}

/// No sample that words ask for is longer than the limit on inputs, so none is refused for it.
pub fn samples_are_short()
    ensures { SamplesAreShort }
{}

/// The output of a valid module within the profile starts where the module's run ended: its fresh
/// instance is the state that was reached, perhaps with more segments behind, which are empty.
pub fn output_starts_as_reached()
    ensures { OutputStartsAsReached }
{
    // For the proof: what is constant has a value, and chosen ranges lie within and cover.
    valid_laws::valid_items();
    wz_plan::laws::ranges_of_plan();
    wz_snapshot::laws::chosen_segments();
}

/// The renames that words ask for have few bytes together.
pub fn renames_are_short()
    ensures { RenamesAreShort }
{}

/// Of a module that bytes spell, which is valid and within the profile, the bytes that are written
/// for the state that its run reached spell the module that is to be written. It is valid, within
/// the profile, starts nothing and has the kept exports.
pub fn output_is_written()
    ensures { OutputIsWritten }
{
    // For the proof: what a run reaches has the module's types, and the chosen ranges are few.
    wz_init::laws::reached_states();
    wz_init::laws::states_are_typed();
    wz_snapshot::laws::chosen_segments();
    wz_plan::laws::ranges_of_plan();
    wz_rewrite::laws::input_is_spelled();
    wz_rewrite::laws::state_has_types();
    wz_rewrite::laws::output_is_valid();
    wz_rewrite::laws::output_is_spelled();
}

/// Bytes that ask for an output ask for themselves, pre-initialised: the output is a valid module
/// that starts where the run ended, and in no session is there anything else to be seen of it.
pub fn output_is_pre_initialised()
    ensures { OutputIsPreInitialised }
{
    // For the proof: what is written is valid, its further segments aren't seen, and what is typed
    // is never stuck.
    wz_init::laws::states_are_typed();
    wz_init::laws::sessions_are_never_stuck();
    output_is_written();
    output_starts_as_reached();
    wz_machine::laws::typed_states();
    wz_machine::laws::more_segments_are_not_seen();
    wz_machine::laws::never_stuck();
}

/// No run of a module that is accepted is stuck, whatever the settings.
pub fn no_run_is_stuck()
    ensures { (s : Settings) → NoRunIsStuck s }
{
    // For the proof: a step of a valid module has a rule.
    wz_init::laws::states_are_typed();
}
