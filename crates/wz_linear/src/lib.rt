//! Linear memories, seen as lists of bytes.
//!
//! `Linear` says what each call on a memory means, and nothing of how the memory is kept.
//! `PlainMemory` keeps it in one vector, and its writes are never refused for memory.
//!
//! What a memory holds after a write is stated in `laws` over lists of bytes, so for every memory:
//! cite `read_after_write` for ranges, `byte_after_write` for places, `load_after_store` for
//! numbers, `write_after_write` for two writes, `read_after_growth` for growth and for new
//! memories.
#![tactic(auto)]

pub mod laws;
mod memory;
mod plain;

pub use memory::{Linear, MAX_PAGES, PAGE_SIZE};
pub use plain::{PlainMemory, fill_range, number_at, put_number, put_slice};

#[cfg(test)]
mod tests;
