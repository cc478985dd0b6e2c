//! A word of the command line, or a name of a module.

ghost use Rattle.std.specs.Prelude.{◌≡◌, IfOk};

use std::alloc::{AllocError, Global};
use std::marker::Model;

/// A text that owns its UTF-8 bytes.
#[derive(Drop)]
pub struct Text {
    text: String,
}

impl Model for Text {
    ghost use Rattle.std.specs.Prelude.{ℕ, List, string_bytes};

    ghost Value = { List ℕ };

    ghost view = { λ t. string_bytes t.text };
}

impl Text {
    /// Copies the text.
    pub fn new(alloc: Global, text: &str) -> Result<Text, AllocError>
        ensures copied { IfOk result (λ t. t ≡ text.now) }
    {
        Ok(Text {
            text: String::from_str(alloc, text)?,
        })
    }

    pub fn as_str(&self) -> &str
        ensures bytes { result.now ≡ self.now }
    {
        self.text.as_str()
    }
}
