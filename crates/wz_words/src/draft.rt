//! What was read of the command line so far.

ghost use Rattle.std.specs.Prelude.{◌≡◌, OnOk};
ghost use Rattle.wz_words.specs.Parts.{FlagPart};
ghost use Rattle.wz_words.specs.Draft.{flag_in, is_read, empty_draft};
ghost use Rattle.wz_words.specs.Views.{AreSound, flag_view, valued_view};
ghost use Rattle.wz_words.specs.DraftViews.{draft_view, operand_part, option_part};
ghost use Rattle.wz_words.specs.DraftViews.{DraftTakes, DraftTakesValue, ReadsNumber};

use crate::left::PlacedWord;
use crate::numbers::number_at_most;
use crate::options::{FlagName, ValuedName};
use crate::renames::RenamesSoFar;
use crate::settings::Usage;
use std::alloc::Global;

/// The highest number of a sample.
const SAMPLE_LIMIT: u64 = 1_000_000;

/// What each option, flag and operand gave.
#[derive(Drop)]
pub struct WordsDraft<'w> {
    pub operand: Option<&'w str>,
    pub output: Option<&'w str>,
    pub function: Option<&'w str>,
    pub fuel: Option<u64>,
    pub sample: Option<u32>,
    pub keep_init: bool,
    pub reactor: bool,
    pub report: bool,
    pub renames: RenamesSoFar<'w>,
}

fn number_of(limit: u64, word: PlacedWord<'_>) -> Result<u64, Usage>
    ensures { ReadsNumber limit word.entry.at word.entry.text.now result }
{
    match number_at_most(limit, word.text) {
        Some(number) => Ok(number),
        None => Err(Usage::BadNumber { at: word.at }),
    }
}

impl<'w> WordsDraft<'w> {
    pub fn new(alloc: Global) -> WordsDraft<'w>
        ensures empty { draft_view result ≡ empty_draft }
        ensures sound { AreSound result.renames }
    {
        WordsDraft {
            operand: None,
            output: None,
            function: None,
            fuel: None,
            sample: None,
            keep_init: false,
            reactor: false,
            report: false,
            renames: RenamesSoFar::new(alloc),
        }
    }

    pub fn take_operand(&mut self, word: PlacedWord<'w>) -> Result<(), Usage>
        requires { AreSound self.old.renames }
        ensures takes { DraftTakes self.old (operand_part word.entry) result self.new }
        ensures sound { OnOk result (AreSound self.new.renames) }
    {
        if self.operand.is_some() || self.sample.is_some() {
            return Err(Usage::ExtraWord { at: word.at });
        }
        self.operand = Some(word.text);
        Ok(())
    }

    fn has_flag(&self, flag: FlagName) -> bool
        ensures { result ≡ flag_in (draft_view self.now) (flag_view flag) }
    {
        match flag {
            FlagName::KeepInit => self.keep_init,
            FlagName::Reactor => self.reactor,
            FlagName::Report => self.report,
        }
    }

    pub fn take_flag(&mut self, at: usize, flag: FlagName) -> Result<(), Usage>
        requires { AreSound self.old.renames }
        ensures takes { DraftTakes self.old (FlagPart at (flag_view flag)) result self.new }
        ensures sound { OnOk result (AreSound self.new.renames) }
    {
        if self.has_flag(flag) {
            return Err(Usage::RepeatedOption { at });
        }
        match flag {
            FlagName::KeepInit => self.keep_init = true,
            FlagName::Reactor => self.reactor = true,
            FlagName::Report => self.report = true,
        }
        Ok(())
    }

    /// Whether an option that comes once was read.
    fn has_option(&self, option: ValuedName) -> bool
        ensures { result ≡ is_read (draft_view self.now) (valued_view option) }
    {
        match option {
            ValuedName::Output => self.output.is_some(),
            ValuedName::Function => self.function.is_some(),
            ValuedName::RenameFunction => false,
            ValuedName::Fuel => self.fuel.is_some(),
            ValuedName::SampleNumber => self.sample.is_some(),
        }
    }

    fn take_value(
        &mut self,
        alloc: Global,
        option: ValuedName,
        word: PlacedWord<'w>,
    ) -> Result<(), Usage>
        requires { AreSound self.old.renames }
        ensures takes { DraftTakesValue self.old option word.entry result self.new }
        ensures sound { OnOk result (AreSound self.new.renames) }
    {
        match option {
            ValuedName::Output => self.output = Some(word.text),
            ValuedName::Function => self.function = Some(word.text),
            ValuedName::RenameFunction => self.renames.add(alloc, word.at, word.text)?,
            ValuedName::Fuel => self.fuel = Some(number_of(u64::MAX, word)?),
            ValuedName::SampleNumber => {
                self.sample = Some(number_of(SAMPLE_LIMIT, word)? as u32);
            }
        }
        Ok(())
    }

    /// Takes an option with its value, which is missing where no word follows.
    pub fn take_option(
        &mut self,
        alloc: Global,
        at: usize,
        option: ValuedName,
        value: Option<PlacedWord<'w>>,
    ) -> Result<(), Usage>
        requires { AreSound self.old.renames }
        ensures takes { DraftTakes self.old (option_part at option value.entry) result self.new }
        ensures sound { OnOk result (AreSound self.new.renames) }
    {
        if self.has_option(option) {
            return Err(Usage::RepeatedOption { at });
        }
        if matches!(option, ValuedName::SampleNumber) && self.operand.is_some() {
            return Err(Usage::ExtraWord { at });
        }
        match value {
            Some(word) => self.take_value(alloc, option, word),
            None => Err(Usage::MissingValue { at }),
        }
    }
}
