//! What a tick comes to, as a run asks for it.

use wz_code::NumOp;
use wz_types::TrapKind;

/// What a tick of the only term came to.
#[derive(Clone, Copy, PartialEq, Eq)]
pub(crate) enum Turned {
    Went,
    /// The function returned.
    Ended,
    Trapped(TrapKind),
    /// It asks for the result of a float operation.
    Float(NumOp),
    /// It asks whether a memory grows by so many pages.
    Memory { index: u32, by: u32 },
    /// It asks whether a table grows.
    Table,
    /// It calls the function of the host that is this import, or that a reference refers to.
    Import(u32),
    Foreign(u32),
}

/// What many ticks came to: the term goes on, or its function returned, with so much fuel left.
#[derive(Clone, Copy, PartialEq, Eq)]
pub(crate) enum Round {
    Goes(u64),
    Returned(u64),
}

/// What entering a function comes to: its term runs, or it is this import.
#[derive(Clone, Copy, PartialEq, Eq)]
pub(crate) enum Entered {
    Own,
    Import(u32),
}
