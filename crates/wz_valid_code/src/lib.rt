//! Typing of function bodies and of constant expressions.
//!
//! `IsTyped` says when instructions are typed: where stacks between them exist to which the rule of
//! each instruction leads. `rule_of` is the table of the rules, in the standard's order.
//! `check_body` accepts a body exactly where a typing exists, and `check_constant` an expression
//! exactly where it is constant. Each instruction is looked at twice at most, and nothing calls
//! itself. `laws` says that the typing of a tree is that of its blocks, which parts of a context
//! typing rests on (none that a run changes), and that it stays in a wider context.
#![tactic(auto)]

mod block;
mod body;
mod constant;
mod context;
mod control;
mod labels;
pub mod laws;
mod locals;
mod memory;
mod numeric;
mod parametric;
mod reference;
mod scope;
mod stack;
mod table;
mod variable;
mod waiting;

pub use body::{BodyFault, check_body};
pub use constant::check_constant;
pub use context::Context;

#[cfg(test)]
mod tests;
