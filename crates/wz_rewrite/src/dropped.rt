//! Passive element segments that a run dropped.

ghost use Rattle.std.specs.Prelude.{◌≡◌, ◌^◌, ◌<◌, length, map, slice_index_or, false, IfOk};
ghost use Rattle.wz_module.specs.Views.{elem_mode_of, init_of, elem_of};
ghost use Rattle.wz_snapshot.specs.Recorded.{has_no_items};
ghost use Rattle.wz_rewrite.specs.Dropped.{is_empty_at, is_passive, was_dropped, dropped_from};

use std::alloc::{AllocError, Global};
use wz_module::{Elem, ElemItems, ElemMode};

/// Of marks, that of this number; where there is none, the segment isn't empty.
pub(crate) fn is_empty_at(marks: &[bool], number: usize) -> bool
    ensures { result ≡ is_empty_at marks.now number }
{
    match marks.get(number) {
        Some(empty) => *empty,
        None => false,
    }
}

fn is_passive(mode: &ElemMode) -> bool
    ensures { result ≡ is_passive (elem_mode_of mode.now) }
{
    match mode {
        ElemMode::Passive => true,
        ElemMode::Active { .. } | ElemMode::Declarative => false,
    }
}

fn has_no_items(items: &ElemItems) -> bool
    ensures { result ≡ has_no_items (init_of items.now) }
{
    match items {
        ElemItems::Funcs(indices) => indices.is_empty(),
        ElemItems::Exprs(bodies) => bodies.is_empty(),
    }
}

/// Whether a segment that is empty or not in the state was dropped.
fn was_dropped(segment: &Elem, empty: bool) -> bool
    ensures { result ≡ was_dropped (elem_of segment.now) empty }
{
    is_passive(&segment.mode) && (!has_no_items(&segment.items) && empty)
}

/// The numbers of the element segments that were dropped. Marks say which are empty in the state.
pub(crate) fn dropped_numbers(
    alloc: Global,
    segments: &[Elem],
    marks: &[bool],
) -> Result<Vec<u32>, AllocError>
    requires { length segments.now < 2 ^ 32 }
    ensures { IfOk result (λ dropped. dropped.items ≡
        dropped_from marks.now 0 (map elem_of segments.now)) }
{
    let mut dropped = Vec::new(alloc);
    for (number, segment) in segments.iter().enumerate() {
        if was_dropped(segment, is_empty_at(marks, number)) {
            dropped.push(number as u32)?;
        }
    }
    Ok(dropped)
}
