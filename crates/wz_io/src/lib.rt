//! Files and streams behind traits: one input or one output at a time, and a sink for messages.
//!
//! A trait's meaning is a plain record, `World` for `Files` and `Said` for `Sink`, with a count of
//! faults that never falls. What each call does to it is one record of named parts: `Opens`,
//! `Reads`, `Creates`, `Writes`, `Closes`, `Puts`. A call answers `Failed` only where the count
//! rose. `HasFailed` says that one input or output failed. The laws of `laws` join the pieces that
//! are written to an output.
//!
//! `read_all` gives all that is left of an input, and `write_all` writes all of a piece. `MemFiles`
//! and `MemSink` tell everything and fail where they are asked to. `OsFiles` and `StdSink` are the
//! edge to real files and streams: they tell no bytes.
#![tactic(auto)]

mod files;
pub mod laws;
mod mem_files;
mod mem_sink;
mod memory;
mod names;
mod os_files;
mod place;
mod plan;
mod reading;
mod std_sink;
mod stream;
mod writing;

pub use files::{Failed, FileName, Files, OpenFault, Side, Sink};
pub use mem_files::MemFiles;
pub use mem_sink::MemSink;
pub use os_files::OsFiles;
pub use plan::CallKind;
pub use reading::{INPUT_LIMIT, ReadAll, read_all};
pub use std_sink::StdSink;
pub use writing::write_all;

#[cfg(test)]
mod tests;
