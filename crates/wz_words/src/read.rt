//! The words, read from left to right.

ghost use Rattle.std.specs.Prelude.{◌≡◌, ◌⊎◌, ◌+◌, ◌≤◌, IfErr, IfOk, OnOk};
ghost use Rattle.wz_words.specs.Faults.{settings};
ghost use Rattle.wz_words.specs.Reader.{IsUnderWay, ReadsOn, outcome_of, outcome_with};
ghost use Rattle.wz_words.specs.Settings.{settings_of};

use crate::draft::WordsDraft;
use crate::finish::finish;
use crate::left::{PlacedWord, WordsLeft};
use crate::options::{WordForm, form_of};
use crate::settings::{Settings, Usage};
use std::alloc::Global;
use wz_types::Text;

/// The words that are left, and what was read before.
#[derive(Drop)]
pub struct Reader<'w> {
    pub draft: WordsDraft<'w>,
    pub left: WordsLeft<'w>,
    /// `--` was read.
    pub ended: bool,
}

impl<'w> Reader<'w> {
    /// Reads a word that was just taken, and the next one where that is its value.
    fn read_word(&mut self, alloc: Global, word: PlacedWord<'w>) -> Result<(), Usage>
        requires going { IsUnderWay self.old }
        requires place { self.old.left.at ≡ word.at + 1 }
        ensures reads { ReadsOn (outcome_with word.entry self.old) result (outcome_of self.new) }
        ensures going { OnOk result (IsUnderWay self.new) }
        ensures onward { self.old.left.at ≤ self.new.left.at }
        ensures words { self.new.left.words.now ≡ self.old.left.words.now }
    {
        match form_of(self.ended, word.text) {
            WordForm::Operand => self.draft.take_operand(word),
            WordForm::EndsOptions => {
                self.ended = true;
                Ok(())
            }
            WordForm::Flag(flag) => self.draft.take_flag(word.at, flag),
            WordForm::TakesNext(option) => {
                let value = self.left.next();
                self.draft.take_option(alloc, word.at, option, value)
            }
            WordForm::HasValue(option, text) => {
                let value = PlacedWord { at: word.at, text };
                self.draft.take_option(alloc, word.at, option, Some(value))
            }
            WordForm::Unknown => Err(Usage::UnknownOption { at: word.at }),
        }
    }
}

/// Reads the words of the command line, without the program's own name: what a run is to do, or
/// the first word at fault, by its place.
///
/// # Errors
///
/// The fault of the words, exactly where they have one; or `NoMemory`.
pub fn read_words(alloc: Global, words: &[Text]) -> Result<Settings, Usage>
    ensures asked { IfOk result (λ s. settings words.now ≡ Ok (settings_of s)) }
    ensures fault { IfErr result (λ u. (u ≡ Usage.NoMemory) ⊎ (settings words.now ≡ Err u)) }
{
    let mut reader = Reader {
        draft: WordsDraft::new(alloc),
        left: WordsLeft { words, at: 0 },
        ended: false,
    };
    while let Some(word) = reader.left.next() {
        reader.read_word(alloc, word)?;
    }
    finish(alloc, reader.draft)
}
