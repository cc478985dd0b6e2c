//! The contents of sections as bytes, every number spelled as short as it can be.
//!
//! `specs` has a module for each section that is written anew, and says beside the productions of
//! chapter 5 of the WebAssembly Core Specification 2.0 which bytes are written. Each call appends
//! just these bytes, or finds no memory and leaves the output as it was.
//!
//! What to cite:
//! - what was written: the clauses `ok` and `err` of each call;
//! - that these bytes spell what was given, by the grammar of `wz_decode_sections`: `laws`.
#![tactic(auto)]

mod append;
mod datas;
mod elements;
mod exports;
mod globals;
pub mod laws;
mod memories;
mod sections;
#[cfg(test)]
mod tests;

pub use datas::{DataSlot, put_data};
pub use elements::put_elements;
pub use exports::put_export;
pub use globals::put_globals;
pub use memories::put_memories;
pub use sections::{put_count, put_section};
