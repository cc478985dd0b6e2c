//! What a run leaves.

use crate::store::Store;
use wz_linear::Linear;

/// The state that a run reached, and how many ticks it took.
#[derive(Drop)]
pub struct Reached<'m, M: Linear> {
    pub store: Store<'m, M>,
    pub ticks: u64,
}
