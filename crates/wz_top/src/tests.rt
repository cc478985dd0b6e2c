//! The tool over files in memory: what goes through, what is refused, and devices that fail.
//!
//! Each file has its subject's cases in tables, and the message of a failed assertion names the
//! case. `running` has what they share, and `sections` the sections that many modules have.

mod bodies;
mod compiled;
mod devices;
mod large;
mod memory;
mod outputs;
mod published;
mod refusals;
mod running;
mod runs;
mod samples;
mod sections;
mod sessions;
