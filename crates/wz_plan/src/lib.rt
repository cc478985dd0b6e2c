//! Which ranges of a memory are written as data segments.
//!
//! `Scan` finds the runs of non-zero bytes in a memory that is pushed in pieces, and `choose`
//! merges those between which the gap isn't worth a segment of its own. For the runs of a scan its
//! answer is `plan` of the bytes, which speaks of the bytes alone.
//!
//! In `laws`, cite `plan_by_scan` for scans in pieces, `ranges_of_plan` for what the ranges of a
//! plan hold, how they lie and how many there are, `cost_of_plan` for what they cost, and
//! `runs_of_bytes` for the runs.
#![tactic(auto)]

mod choice;
mod lanes;
pub mod laws;
mod ranges;
mod runs;
mod scan;

pub use choice::choose;
pub use runs::{Run, next_run};
pub use scan::Scan;

#[cfg(test)]
mod tests;
