//! The machine: one step of a term, sessions of moves, and the laws that proofs of other crates
//! rest on.
//!
//! `specs/` is the definition, after chapter 4 of the Core Specification. `State`, `Terms` and
//! `Outcomes` say on what a step works and what it comes to. Each group of instructions has a
//! module of its own (`NumericSteps`, `ReferenceSteps`, `ParametricSteps`, `VariableSteps`,
//! `TableSteps`, `MemorySteps`, `ControlSteps`, `CallSteps`), and `InstrSteps` one line for each
//! instruction. `BlockSteps` has blocks, labels and frames, `Step` the step, `Next` the
//! instruction that it reduces, `Entered` the term of a call. `Moves`, `Replies`, `Accesses` and
//! `Sessions` are what is done with an instance from outside, and what is seen of it. `Leaves`,
//! `Within`, `Contexts` and `Flat` are what the laws speak of. `TypedState`, `TypedTerms`,
//! `TypedSteps` and `TypedStores` say when all that is typed (section 7.5, soundness), and
//! `TypedLaws` that it stays so and is never stuck.
#![tactic(auto)]

mod advance;
mod answers;
mod asking;
mod at_once;
mod blocks;
mod branches;
mod callee;
mod calls;
mod control;
mod counts;
mod growing;
mod indirect;
mod laps;
pub mod laws;
mod machine;
mod moves;
mod operands;
mod peek;
mod plain;
mod plain_turn;
mod questions;
mod room;
mod run;
mod stacks;
mod standing;
mod straight;
mod stride;
mod tick;
mod turn;
mod waiting;

pub use advance::Advance;
pub use answers::{EnterFault, GrowFault, HostFault, NotNow, Tick};
pub use machine::{Machine, MachineOver};
pub use questions::{Ask, FloatReply, Growth, HostTarget};
pub use straight::is_table_change;
