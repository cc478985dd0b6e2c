//! The sample module of a number, for users who have no module at hand: its initialisation function
//! stores that many bytes at places that look random, and then the number into a global.
//!
//! `sample_bytes` says which bytes it is, section by section; `sample` gives them.
#![tactic(auto)]

mod sample_module;
#[cfg(test)]
mod tests;

pub use sample_module::sample;
