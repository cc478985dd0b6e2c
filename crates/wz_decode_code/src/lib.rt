//! Code from bytes: expressions and the entries of the code section become bodies.
//!
//! `specs.Instructions`, `specs.Code` and `specs.Entry` say which bytes spell which tree, as sections
//! 5.4 and 5.5.13 of the WebAssembly Core Specification 2.0 do. `read_body` and `read_expr` answer
//! `Bad` exactly where the bytes spell nothing, and else a body whose tree and locals the bytes spell.
//! Blocks that are open are kept in a list, so that no nesting is too deep, and no memory is taken by
//! a count that the bytes may not have.
//!
//! All readers work on the cursor. Instructions are read by the groups of the standard, each in its
//! own file: control, reference, parametric, variable, table, memory, numeric; `instr` says which
//! opcode is of which group, and `pools` has the two with a vector in them.
//!
//! What to cite:
//! - the meaning of what was read: `found` and `bad` of `read_expr` and `read_body`;
//! - a decoder by steps, whose readings are functions of bytes: `exact` of `read_expr`, and the same
//!   clause of `take_type` and `take_kind`;
//! - such an equation is a spelling and back: `laws::reading_is_exact`;
//! - one meaning: `laws::at_most_one`.
#![tactic(auto)]

mod blocks;
mod control;
mod entry;
mod expr;
mod fault;
mod instr;
pub mod laws;
mod memory;
mod numeric;
mod operands;
mod parametric;
mod pools;
mod reference;
mod table;
#[cfg(test)]
mod tests;
mod token;
mod types;
mod variable;

pub use entry::read_body;
pub use expr::read_expr;
pub use fault::CodeFault;
pub use types::{take_kind, take_type};
