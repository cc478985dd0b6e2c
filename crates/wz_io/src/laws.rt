//! Laws of the meanings, for the proofs of other crates.

ghost use Rattle.std.specs.Prelude.{◌≡◌};
ghost use Rattle.wz_io.specs.Laws.{CreatedIsWritten, AppendedIsWritten, WritesAreWritten, WritesAreJoined};
ghost use Rattle.wz_io.specs.Reading.{input_limit};

use crate::INPUT_LIMIT;

/// An output that was just created holds no bytes yet.
pub fn created_is_written()
    ensures { CreatedIsWritten }
{}

/// What one more write adds to an output comes behind what was written to it.
pub fn appended_is_written()
    ensures { AppendedIsWritten }
{}

/// What `write_all` adds to an output comes behind what was written to it.
pub fn writes_are_written()
    ensures { WritesAreWritten }
{}

/// Two pieces written after each other are one piece.
pub fn writes_are_joined()
    ensures { WritesAreJoined }
{}

/// The limit on inputs is the number that contracts cite.
pub fn limit_is_named()
    ensures { INPUT_LIMIT ≡ input_limit }
{}
