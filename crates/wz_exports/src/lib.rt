//! The exports of the output, and why there may be none.
//!
//! `keep` gives `kept` of a module and the settings (`specs/Kept.antt`): the list of kept exports
//! with the functions that run, or the first fault.
#![tactic(auto)]

mod fault;
mod keeping;
mod kept;
pub mod laws;
mod names;
mod references;
mod signatures;
mod undeclaring;

pub use fault::ExportFault;
pub use keeping::keep;
pub use kept::Kept;
pub use undeclaring::undeclared;

#[cfg(test)]
mod tests;
