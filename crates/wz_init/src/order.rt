//! What is to be run.

/// The functions that are run behind the start function, by their indices, and for how many ticks
/// all of them together at most.
#[derive(Clone, Copy, Debug, PartialEq, Eq)]
pub struct RunOrder {
    pub reactor: Option<u32>,
    pub function: u32,
    pub fuel: u64,
}

/// The parts of a run: the module's start function, a reactor's, and the one that initialises.
#[derive(Clone, Copy, Debug, PartialEq, Eq)]
pub enum Phase {
    Start,
    Reactor,
    Init,
}
