//! Whether a module is valid (chapter 3 of the WebAssembly Core Specification 2.0), and whether it
//! is within this tool's profile.
//!
//! `IsItemOk` is the rule of each item, `IsValid` says that every item is ok, `IsInProfile` what
//! else the tool asks for. `validate` says whether a module is valid, or which item is the first
//! that isn't ok. `profile` says whether a valid module is within the profile, or the first cause
//! why it isn't. `laws` says what holds of valid modules, and that both answers are exact.
#![tactic(auto)]

mod checker;
mod declared;
mod faults;
#[cfg(test)]
mod hand_made;
mod item_rules;
pub mod laws;
mod limits;
mod named_rules;
mod names;
mod profile_rules;
mod spaces;
#[cfg(test)]
mod tests;
mod typed_rules;
mod validity;

pub use faults::{OutOfProfile, Part, ValidFault};
pub use profile_rules::profile;
pub use validity::validate;
