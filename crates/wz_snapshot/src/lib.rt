//! What is recorded of the state that a run reached: the output is written from it.
//!
//! `snapshot` gives just `recorded` of the state (`specs/Recorded.antt`): the globals' values, the
//! memories' sizes, the ranges of the memories that become data segments, and which element and
//! data segments are empty. It reads each page of a memory once, untouched ones not at all.
#![tactic(auto)]

pub mod laws;
mod memories;
mod parts;
mod recorded;
mod segment;
mod taking;

pub use recorded::Recorded;
pub use segment::ChosenSegment;
pub use taking::snapshot;

#[cfg(test)]
mod tests;
