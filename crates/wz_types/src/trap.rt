//! Traps (Core Specification 2.0, section 4.2.2).

/// Why a computation was aborted: the causes that chapter 4 of the Core Specification names.
#[derive(Clone, Copy, Debug, PartialEq, Eq)]
pub enum TrapKind {
    Unreachable,
    DivideByZero,
    IntegerOverflow,
    MemoryBounds,
    TableBounds,
    UndefinedElement,
    UninitializedElement,
    IndirectType,
    /// A float operation was answered by a trap.
    Float,
    /// The host gave up a call.
    Host,
}
