//! The labels around an instruction, and what a `br_table` finds there.

ghost use Rattle.std.specs.Prelude.{◌≡◌, slice_get, reverse};
ghost use Rattle.std.specs.Option.{option_map};

use std::marker::Model;
use wz_types::ValType;

/// What a branch to a block takes along.
#[derive(Drop)]
pub struct Label<'c> {
    pub types: &'c [ValType],
}

impl<'c> Model for Label<'c> {
    ghost use Rattle.std.specs.Prelude.{List};
    ghost use Rattle.wz_types.specs.declared.types.ValType.{ValType};

    ghost Value = { List ValType };

    ghost view = { λ l. l.types.now };
}

/// The types of a label, counted from the innermost, which stands last.
pub fn label_at<'c>(labels: &[Label<'c>], number: u32) -> Option<&'c [ValType]>
    ensures { option_map (λ types. types.now) result ≡ slice_get (reverse labels.now) number }
{
    let number = number as usize;
    if number < labels.len() {
        let label = &labels[labels.len() - 1 - number];
        Some(label.types)
    } else {
        None
    }
}
