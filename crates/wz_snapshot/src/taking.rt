//! The snapshot of a state.

ghost use Rattle.std.specs.Prelude.{◌≡◌, ◌≤◌, length, IfOk};
ghost use Rattle.wz_snapshot.specs.Recorded.{recorded};
ghost use Rattle.wz_store.specs.State.{pages_together};

use crate::memories::planned_segments;
use crate::parts::{empty_data, empty_elements, global_values, memory_pages};
use crate::recorded::Recorded;
use std::alloc::{AllocError, Global};
use wz_linear::Linear;
use wz_store::Reached;

/// What the output is written from: the values of the globals, the sizes of the memories, the
/// ranges of them that become data segments, and which segments are empty.
pub fn snapshot<M: Linear>(alloc: Global, reached: &Reached<'_, M>) -> Result<Recorded, AllocError>
    requires few { length reached.now.store.memories ≤ 100 }
    requires small { pages_together reached.now.store.memories ≤ 16384 }
    ensures { IfOk result (λ r. r ≡ recorded reached.now.store) }
{
    let store = &reached.store;
    Ok(Recorded {
        globals: global_values(alloc, store)?,
        pages: memory_pages(alloc, store)?,
        segments: planned_segments(alloc, store)?,
        empty_elements: empty_elements(alloc, store)?,
        empty_data: empty_data(alloc, store)?,
    })
}
