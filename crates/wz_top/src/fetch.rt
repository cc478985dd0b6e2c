//! The bytes of the input: opened and read, or made as a sample.

ghost use Rattle.std.specs.Prelude.{◌≡◌, ◌≤◌, ◌<◌, ◌+◌, ℕ, List, IfOk, IsErrOf};
ghost use Rattle.std.specs.Prelude.{IsOkUnless, length, Some};
ghost use Rattle.wz_io.specs.World.{World, HasFailed, name_of};
ghost use Rattle.wz_io.specs.Reading.{input_limit};
ghost use Rattle.wz_io.specs.declared.files.Side.TheVariants.{Input};
ghost use Rattle.wz_words.specs.Faults.{sample_limit};
ghost use Rattle.wz_gen.specs.Sample.{sample_bytes};
ghost use Rattle.wz_top.specs.Devices.{IsInput, IsInputFrom, HasInputFailed, OnlyRead};
ghost use Rattle.wz_top.specs.Devices.{IsReadUnless, IsSmallSample};
ghost use Rattle.wz_top.specs.Words.{input_name};

use std::alloc::{AllocError, Global};
use wz_gen::sample;
use wz_io::{FileName, Files, INPUT_LIMIT, OpenFault, ReadAll, laws, read_all};
use wz_words::InputFrom;

/// All bytes of the input of that name.
fn fetch<F: Files>(alloc: Global, files: &mut F, name: FileName<'_>) -> Result<Vec<u8>, ReadAll>
    ensures bytes { IfOk result (λ read.
        IsInput (F.world files.old).told (name_of name.entry) read.items) }
    ensures within { IfOk result (λ read. length read.items ≤ input_limit) }
    ensures too_long { IsErrOf result ReadAll.TooLong →
        (bytes : List ℕ) × IsInput (F.world files.old).told (name_of name.entry) bytes
        × (input_limit < length bytes) }
    ensures failed { IsErrOf result ReadAll.Failed →
        HasFailed Input (name_of name.entry) (F.world files.old) (F.world files.new) }
    ensures only_read { OnlyRead (F.world files.old) (F.world files.new) }
    ensures current { IsReadUnless result (Some (name_of name.entry))
        (F.world files.old) (F.world files.new) }
    ensures reads { (F.world files.new).reads ≤ (F.world files.old).reads + input_limit + 2 }
{
    // For the proof: the limit is the number that the clauses cite.
    laws::limit_is_named();
    match files.open_input(name) {
        Ok(()) => read_all(alloc, files, INPUT_LIMIT),
        Err(OpenFault::Failed) => Err(ReadAll::Failed),
        Err(OpenFault::NoMemory) => Err(ReadAll::NoMemory),
    }
}

/// The sample module of a number, which is never too long.
#[tactic(auto, using(crate::proofs::SampleSize::sample_short))]
fn draw(alloc: Global, number: u32) -> Result<Vec<u8>, ReadAll>
    requires { number ≤ sample_limit }
    ensures bytes { IfOk result (λ made. made.items ≡ sample_bytes number) }
    ensures within { IfOk result (λ made. length made.items ≤ input_limit) }
    ensures memory { IsOkUnless result ReadAll.NoMemory }
{
    match sample(alloc, number) {
        Ok(made) => Ok(made),
        Err(AllocError) => Err(ReadAll::NoMemory),
    }
}

/// The bytes of the input that the settings name. A sample opens nothing.
pub fn obtain<F: Files>(alloc: Global, files: &mut F, input: &InputFrom) -> Result<Vec<u8>, ReadAll>
    requires { IsSmallSample input.now }
    ensures bytes { IfOk result (λ read.
        IsInputFrom (F.world files.old).told input.now read.items) }
    ensures within { IfOk result (λ read. length read.items ≤ input_limit) }
    ensures too_long { IsErrOf result ReadAll.TooLong →
        (bytes : List ℕ) × IsInputFrom (F.world files.old).told input.now bytes
        × (input_limit < length bytes) }
    ensures failed { IsErrOf result ReadAll.Failed →
        HasInputFailed input.now (F.world files.old) (F.world files.new) }
    ensures only_read { OnlyRead (F.world files.old) (F.world files.new) }
    ensures current { IsReadUnless result (input_name input.now)
        (F.world files.old) (F.world files.new) }
    ensures reads { (F.world files.new).reads ≤ (F.world files.old).reads + input_limit + 2 }
{
    match input {
        InputFrom::Standard => fetch(alloc, files, FileName::Standard),
        InputFrom::Path(path) => fetch(alloc, files, FileName::Path(path.as_str())),
        InputFrom::Sample(number) => draw(alloc, *number),
    }
}
