//! What a bulk or table instruction answers.

use wz_types::TrapKind;

/// How a call on the store ended: as the standard says, by a trap, or where no rule fits.
#[derive(Clone, Copy, Debug, PartialEq, Eq)]
pub enum Bulk {
    /// The store was changed.
    Did,
    /// The computation is aborted, and nothing was changed.
    Trap(TrapKind),
    /// There is no such table, memory or segment, or a reference is not of the table's kind.
    /// Nothing was changed. Code that is valid never gets here.
    Stuck,
}
