//! Why bytes are no module.

/// Why no module was read. The first that applies, in this order.
#[derive(Clone, Copy, Debug, PartialEq, Eq)]
pub enum DecodeFault {
    /// The first eight bytes aren't those that a module begins with.
    NotWasm,
    /// The sections before this one are in the grammar and in order, and this one isn't, custom
    /// sections counted.
    BadSection { at: u32 },
    /// All sections are in the grammar and in order, but the counts of their items don't agree.
    BadCounts,
    NoMemory,
}
