//! What the items of a module are looked at with (Core Specification 2.0, section 3.4.10).

use std::alloc::Global;
use wz_module::Module;
use wz_valid_code::Context;

/// A module, and what its own lists say of it.
#[derive(Drop)]
pub struct Checker<'c, 'm> {
    pub alloc: Global,
    pub module: &'c Module<'m>,
    /// C. It serves for globals too: constant expressions read imported globals alone.
    pub context: Context<'c>,
    /// How many exports, from the first on, have names that no earlier one has.
    pub new_names: usize,
}
