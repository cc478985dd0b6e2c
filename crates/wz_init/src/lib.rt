//! A module's instance: as it is made, and as its initialisation leaves it.
//!
//! `specs/` is the definition, after section 4.5 of the Core Specification. `Functions`,
//! `Constants` and `Allocation` say what an instance begins with, `Instantiation` what its active
//! segments make of it (`fresh`), `Run` what the run of a function comes to with fuel and limits,
//! and `Ready` the run of all phases. `States` says how a store is a state of the module.
#![tactic(auto)]

mod allocation;
mod bytes;
mod constants;
mod faults;
mod initialisation;
mod instantiation;
pub mod laws;
mod order;
mod phases;
mod run;
mod segments;
mod stepping;
mod ticking;
mod turn;

pub use faults::{InitFault, StartFault};
pub use initialisation::initialise;
pub use instantiation::instantiate;
pub use order::{Phase, RunOrder};
