//! What a step of one term comes to, in a small answer.

use wz_types::TrapKind;

/// What a step comes to that asks nothing: the term went on; it is done, with so many values from a
/// place of its stacks on; it traps; or no rule fits.
#[derive(Clone, Copy)]
pub(crate) enum Turn {
    Went,
    Ends { at: usize, count: usize },
    Trapped(TrapKind),
    NoRule,
}
