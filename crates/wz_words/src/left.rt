//! The words that weren't read yet.

ghost use Rattle.std.specs.Prelude.{◌≡◌, ◌+◌, ◌≤◌, length, [], ◌∷◌, IfNone, IfSome, OnSome};
ghost use Rattle.wz_words.specs.Left.{words_left};

use wz_types::Text;

/// A word, with its place.
#[derive(Clone, Copy)]
pub struct PlacedWord<'w> {
    pub at: usize,
    pub text: &'w str,
}

/// The words from a place on.
#[derive(Drop)]
pub struct WordsLeft<'w> {
    pub words: &'w [Text],
    pub at: usize,
}

impl<'w> WordsLeft<'w> {
    /// The next word, if there is one.
    pub fn next(&mut self) -> Option<PlacedWord<'w>>
        requires { self.old.at ≤ length self.old.words.now }
        ensures none { IfNone result (words_left self.old ≡ []) }
        ensures some { IfSome result (λ word. word.at ≡ self.old.at) }
        ensures front { IfSome result
            (λ w. words_left self.old ≡ w.text.now ∷ words_left self.new) }
        ensures at { OnSome result (self.new.at ≡ self.old.at + 1) }
        ensures stays { IfNone result (self.new.at ≡ self.old.at) }
        ensures within { self.new.at ≤ length self.new.words.now }
        ensures words { self.new.words.now ≡ self.old.words.now }
    {
        let at = self.at;
        if at < self.words.len() {
            self.at += 1;
            Some(PlacedWord {
                at,
                text: self.words[at].as_str(),
            })
        } else {
            None
        }
    }
}
