//! Globals, sizes of memories, and empty segments.

ghost use Rattle.std.specs.Prelude.{◌≡◌, map, IfOk};
ghost use Rattle.wz_store.specs.State.{pages_of};
ghost use Rattle.wz_snapshot.specs.Recorded.{has_no_items};

use std::alloc::{AllocError, Global};
use wz_linear::Linear;
use wz_store::Store;
use wz_types::Value;

pub(crate) fn global_values<M: Linear>(
    alloc: Global,
    store: &Store<'_, M>,
) -> Result<Vec<Value>, AllocError>
    ensures { IfOk result (λ values. values.items ≡ map (λ g. g.content) store.now.globals) }
{
    let mut values = Vec::new(alloc);
    for at in 0..store.global_count() {
        if let Some(value) = store.global(at) {
            values.push(value)?;
        }
    }
    Ok(values)
}

pub(crate) fn memory_pages<M: Linear>(
    alloc: Global,
    store: &Store<'_, M>,
) -> Result<Vec<u32>, AllocError>
    ensures { IfOk result (λ pages. pages.items ≡ map pages_of store.now.memories) }
{
    let mut pages = Vec::new(alloc);
    for at in 0..store.memory_count() {
        if let Some(kind) = store.memory_type(at) {
            pages.push(kind.limits.min)?;
        }
    }
    Ok(pages)
}

pub(crate) fn empty_elements<M: Linear>(
    alloc: Global,
    store: &Store<'_, M>,
) -> Result<Vec<bool>, AllocError>
    ensures { IfOk result (λ empty. empty.items ≡
        map (λ e. has_no_items e.items) store.now.elements) }
{
    let mut empty = Vec::new(alloc);
    for at in 0..store.element_count() {
        if let Some(items) = store.element(at) {
            empty.push(items.is_empty())?;
        }
    }
    Ok(empty)
}

pub(crate) fn empty_data<M: Linear>(
    alloc: Global,
    store: &Store<'_, M>,
) -> Result<Vec<bool>, AllocError>
    ensures { IfOk result (λ empty. empty.items ≡ map has_no_items store.now.datas) }
{
    let mut empty = Vec::new(alloc);
    for at in 0..store.segment_count() {
        if let Some(bytes) = store.segment(at) {
            empty.push(bytes.is_empty())?;
        }
    }
    Ok(empty)
}
