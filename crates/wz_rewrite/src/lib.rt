//! The output: the input's module as it is to start from the state that its run reached.
//!
//! What the output is stands in `specs` twice: as a module (`Output.output_module`, over the parts
//! of `Parts`) and as bytes (`Output.output_bytes`, over the sections of `Sections`), section 2.5
//! and chapter 5 of the WebAssembly Core Specification 2.0. `Output.rewritten` and
//! `rewritten_module` are these for a state that was reached and kept exports.
//!
//! `prepare` cuts it into pieces, so that it never stands in memory as a whole, and
//! `Output::write_to` writes these through one buffer.
//!
//! What to cite:
//! - that the pieces are the output's bytes, and which ranges and which contents of the input they
//!   have: the clauses of `prepare`;
//! - that these bytes spell that module, and that a module that was read is what `prepare` asks
//!   for: `laws`.
#![tactic(auto)]

mod contents;
mod dropped;
mod elements;
mod gathering;
pub mod laws;
mod made;
mod output;
mod piece;
mod pieces;
mod places;
mod preparing;
mod slots;
mod sources;

pub use output::Output;
pub use piece::Piece;
pub use preparing::prepare;

#[cfg(test)]
mod tests;
