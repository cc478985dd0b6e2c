//! Chosen data segments.

/// A range of a memory that becomes an active data segment (WebAssembly Core Specification, section
/// 5.5.14): the memory's number, the first place, and the length in bytes.
#[derive(Clone, Copy, Debug, PartialEq, Eq)]
pub struct ChosenSegment {
    pub memory: u32,
    pub at: u32,
    pub len: u32,
}
