//! The whole tool as one call: `wizer` takes the words of the command line, the files and a sink
//! for messages, and answers how the run ended.
//!
//! Its contract is the product's promise: which answer comes when, what is written, and what
//! stays. `Asks` says what words and input ask for, step by step in the order of the run; the
//! clauses of `wizer` say that this is what is answered and written, but for a device that failed
//! and for want of memory.
#![tactic(auto)]

mod deliver;
mod fetch;
pub mod laws;
mod making;
mod outcome;
mod pieces;
mod refusals;
#[cfg(test)]
mod tests;
mod texts;
mod top;
mod turn;

pub use outcome::{Outcome, Report};
pub use texts::print_outcome;
pub use top::wizer;
