//! The table instructions, and the memory instructions on whole ranges, on a store.
//!
//! What each makes of a state is said in `specs/TableEffects.antt` and `specs/MemoryEffects.antt`:
//! a change, a trap, or that no rule fits. Each call answers so and leaves the state so. A trap
//! leaves everything as it was.
#![tactic(auto)]

mod bulk;
pub mod laws;
mod memories;
mod range;
mod tables;

pub use bulk::Bulk;
pub use memories::{data_drop, memory_copy, memory_fill, memory_init};
pub use tables::{
    elem_drop, table_copy, table_fill, table_get, table_grow, table_init, table_set, table_size,
};

#[cfg(test)]
mod tests;
