//! The settings that a draft asks for.

ghost use Rattle.std.specs.Prelude.{◌≡◌, IfOk, IfErr, option_copied};
ghost use Rattle.wz_words.specs.Settings.{settings_of, is_stream, input_or_sample, output_of};
ghost use Rattle.wz_words.specs.Draft.{draft_asks};
ghost use Rattle.wz_words.specs.DraftViews.{draft_view};

use crate::draft::WordsDraft;
use crate::options::is_text;
use crate::renames::copied;
use crate::settings::{InputFrom, OutputTo, Settings, Usage};
use std::alloc::Global;

/// The export that is run where none is named.
const DEFAULT_FUNCTION: &str = "wizer.initialize";

/// How many ticks a run may make where no number is given.
const DEFAULT_FUEL: u64 = 10_000_000_000;

/// Whether a path stands for the standard stream.
fn is_stream_path(path: &str) -> bool
    ensures { result ≡ is_stream path.now }
{
    is_text(path, "-")
}

fn input_from(alloc: Global, sample: Option<u32>, operand: Option<&str>) -> Result<InputFrom, Usage>
    ensures ok { IfOk result (λ i. i ≡ input_or_sample sample (option_copied operand.entry)) }
    ensures err { IfErr result (λ usage. usage ≡ Usage.NoMemory) }
{
    if let Some(number) = sample {
        return Ok(InputFrom::Sample(number));
    }
    match operand {
        None => Ok(InputFrom::Standard),
        Some(path) => {
            if is_stream_path(path) {
                Ok(InputFrom::Standard)
            } else {
                Ok(InputFrom::Path(copied(alloc, path)?))
            }
        }
    }
}

fn output_to(alloc: Global, path: Option<&str>) -> Result<OutputTo, Usage>
    ensures ok { IfOk result (λ o. o ≡ output_of (option_copied path.entry)) }
    ensures err { IfErr result (λ usage. usage ≡ Usage.NoMemory) }
{
    match path {
        None => Ok(OutputTo::Standard),
        Some(path) => {
            if is_stream_path(path) {
                Ok(OutputTo::Standard)
            } else {
                Ok(OutputTo::Path(copied(alloc, path)?))
            }
        }
    }
}

/// The settings that the draft asks for.
pub fn finish(alloc: Global, draft: WordsDraft<'_>) -> Result<Settings, Usage>
    ensures ok { IfOk result (λ s. settings_of s ≡ draft_asks (draft_view draft.entry)) }
    ensures err { IfErr result (λ usage. usage ≡ Usage.NoMemory) }
{
    Ok(Settings {
        input: input_from(alloc, draft.sample, draft.operand)?,
        output: output_to(alloc, draft.output)?,
        function: copied(alloc, draft.function.unwrap_or(DEFAULT_FUNCTION))?,
        fuel: draft.fuel.unwrap_or(DEFAULT_FUEL),
        keep_init: draft.keep_init,
        reactor: draft.reactor,
        report: draft.report,
        prune: false,
        renames: draft.renames.list,
    })
}
