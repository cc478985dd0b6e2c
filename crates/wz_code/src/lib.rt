//! Instructions, their tables, and bodies in numbered blocks.
//!
//! `signature`, `opcode`, `from_opcode`, `access` and `access_from_opcode` are the rows of one
//! table each. A `Body` is seen by contracts as its lists; what it means is a tree of instructions,
//! which `tree_of` gives. `laws` says what the tree of a block is, what stands at a place of a
//! block, and what each call of a `BodyBuilder` does to the trees. `walk_body` shows each
//! instruction once.
#![tactic(auto)]

mod accesses;
mod body;
mod builder;
mod instr;
pub mod laws;
mod numeric;
mod order;
mod walk;

pub use accesses::{AccessShape, MemOp, access, access_from_opcode};
pub use body::Body;
pub use builder::BodyBuilder;
pub use instr::{Instr, Shape};
pub use numeric::{NumOp, OpTypes, from_opcode, opcode, signature};
pub use walk::{Walk, walk_body};

#[cfg(test)]
mod tests;
