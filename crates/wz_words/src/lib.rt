//! The words of the command line: what a run is to do, or the first word that is at fault.
//!
//! `settings` says it of the words alone, by the rules of the options; `read_words` gives it.
#![tactic(auto)]

mod draft;
mod finish;
mod left;
mod numbers;
mod options;
mod read;
mod renames;
mod settings;
#[cfg(test)]
mod tests;

pub use read::read_words;
pub use settings::{InputFrom, OutputTo, Rename, Settings, Usage};
