//! What holds of settings and of undeclared functions, for the proofs of the crates above.
//!
//! These functions do nothing: what they ensure speaks of lists alone.

ghost use Rattle.wz_exports.specs.Laws.{NewNamesDiffer, RenamedDiffer, RefsAreFound};

/// The renames of settings that were read differ in their new names, and in the exports that
/// they rename.
pub fn renames_differ()
    ensures to { NewNamesDiffer }
    ensures from { RenamedDiffer }
{}

/// Each function that a body names is declared elsewhere, or it is undeclared.
pub fn references_are_found()
    ensures { RefsAreFound }
{}
