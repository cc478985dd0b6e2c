//! Snapshots of small states, over a memory in one vector.

use crate::parts::memory_pages;
use crate::{ChosenSegment, Recorded, snapshot};
use std::alloc::Global;
use std::process::Abort;
use std::test::Fail;
use wz_linear::{Linear, PlainMemory};
use wz_store::{Reached, Store};
use wz_types::{FuncType, GlobalType, Limits, MemType, RefKind, Reference, ValType, Value};

/// The snapshot of a state with one memory of at most 16,384 pages.
fn snapshot_of(
    rt: &impl Abort,
    alloc: Global,
    reached: &Reached<'_, PlainMemory>,
) -> Result<Recorded, Fail> {
    let pages = memory_pages(alloc, &reached.store)?;
    assert!(rt; pages.len() == 1);
    assert!(rt; pages[0] <= 16_384);
    Ok(snapshot(alloc, reached)?)
}

/// A state with a global, a page, an element segment and an empty data segment.
fn small_state<'m>(
    rt: &impl Abort,
    alloc: Global,
    types: &'m [FuncType],
) -> Result<Reached<'m, PlainMemory>, Fail> {
    assert!(rt; types.len() < 9);
    let mut store = Store::new(alloc, types);
    let kind = GlobalType {
        value: ValType::I32,
        mutable: true,
    };
    store.add_global(kind, Value::I32(7))?;
    let limits = Limits { min: 1, max: None };
    store.add_memory(MemType { limits })?;
    assert!(rt; store.element_count() < 9);
    store.add_element(RefKind::Func, [Reference::Fn(0)].to_vec(alloc)?)?;
    assert!(rt; store.segment_count() < 9);
    store.add_data(&[])?;
    Ok(Reached { store, ticks: 3 })
}

#[test]
fn ranges_are_planned_and_the_rest_is_told(rt: HostRuntime) -> Result<(), Fail> {
    let alloc = rt.alloc();
    let segment = |at: u32, len: u32| ChosenSegment { memory: 0, at, len };
    // Which bytes of the page are 1, and the segments.
    let rows: [(&str, &[u64], &[ChosenSegment]); 3] = [
        ("zeros", &[], &[]),
        (
            "gaps of 8 and of 9",
            &[0, 9, 19],
            &[segment(0, 10), segment(19, 1)],
        ),
        ("the last byte", &[65_535], &[segment(65_535, 1)]),
    ];
    for (name, places, segments) in rows {
        let mut reached = small_state(&rt, alloc, &[])?;
        for place in places {
            if let Some(memory) = reached.store.memory_mut(0) {
                memory.fill(*place, 1, 1)?;
            }
        }
        let recorded = snapshot_of(&rt, alloc, &reached)?;
        assert!(rt; recorded.segments() == segments, "{name}");
        assert!(rt; recorded.globals() == [Value::I32(7)].as_slice(), "{name}");
        assert!(rt; recorded.pages() == [1].as_slice(), "{name}");
        assert!(rt; recorded.empty_elements() == [false].as_slice(), "{name}");
        assert!(rt; recorded.empty_data() == [true].as_slice(), "{name}");
    }
    Ok(())
}
