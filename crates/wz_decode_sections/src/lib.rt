//! The contents of sections, from bytes.
//!
//! `specs` has a module for each section of 5.5 of the WebAssembly Core Specification 2.0, which
//! says which payloads spell which items, production by production. Each call takes a whole
//! payload. It gives the items that the payload spells, or `Bad` exactly where it spells none. No
//! list reserves more than a few items by a count before they are read, and nothing recurs by a
//! count or by a depth.
//!
//! What to cite:
//! - the meaning of what was read: `found` and `bad` of each call;
//! - that a payload spells at most one list of items, and a reading gives what it spells: `laws`.
#![tactic(auto)]

mod code_fault;
mod data;
mod fault;
mod forms;
mod items;
pub mod laws;
mod sections;
mod segments;
mod spans;
#[cfg(test)]
mod tests;
mod types;

pub use fault::SectionFault;
pub use sections::{
    read_code, read_data, read_data_count, read_elements, read_exports, read_functions,
    read_globals, read_imports, read_memories, read_start, read_tables, read_types,
};
pub use spans::element_spans;
