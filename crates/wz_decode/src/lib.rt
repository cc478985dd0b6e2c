//! Whole modules, from bytes.
//!
//! `specs.Spelling` says which bytes spell which module, as section 5.5.16 of the WebAssembly Core
//! Specification 2.0 does: the header, sections in order, and the rules between them. `decode`
//! gives the module that the bytes spell, or the one of three causes why they spell none, want of
//! memory aside. A custom section costs its entry in the list and the look at its name; nothing
//! recurs by a count or by a depth.
//!
//! What to cite:
//! - the meaning of what was read: `found` of `decode`; that a spelled module is: `reads`;
//! - why nothing was: `not_wasm`, `bad_section`, `bad_counts`; that each cause gives its answer:
//!   `refuses_not_wasm`, `refuses_bad_section`, `refuses_bad_counts`;
//! - that bytes spell one module at most, and have at most one front of so many sections; that the
//!   causes exclude each other and a spelled module; that a front which is all of the bytes is a
//!   module's: `laws`.
#![tactic(auto)]

mod code;
mod counts;
mod declarations;
mod definitions;
mod fault;
pub mod laws;
mod parts;
mod read;
#[cfg(test)]
mod tests;

pub use fault::DecodeFault;
pub use read::decode;
