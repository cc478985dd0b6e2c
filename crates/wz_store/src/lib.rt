//! The state of an instance: types, functions, globals, tables, memories and segments, by number.
//!
//! A `Store` is seen as seven plain lists (`specs/State.antt`), generic over how a memory is kept.
//! What changes it is said once, as a `Change` and what that does (`specs/Changes.antt`): the
//! setters here, the table and memory instructions and the machine's step all cite it. A `&mut`
//! that is handed out leaves the store with what was written through it (`specs/Lending.antt`).
#![tactic(auto)]

mod function;
mod memory;
mod parts;
mod reached;
mod store;
mod table;

pub use function::Function;
pub use reached::Reached;
pub use store::Store;
pub use table::TableInstance;

#[cfg(test)]
mod tests;
