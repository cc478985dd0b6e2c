//! The instructions at the bounds of their ranges, as tables, over memories in one vector.

use crate::{
    Bulk, data_drop, elem_drop, memory_copy, memory_fill, memory_init, table_copy, table_fill,
    table_get, table_grow, table_init, table_set, table_size,
};
use std::alloc::{AllocError, Global};
use std::process::Abort;
use std::test::Fail;
use wz_linear::{Linear, PlainMemory};
use wz_store::Store;
use wz_types::{Limits, MemType, RefKind, Reference, TableType, TrapKind};

/// A memory instruction. What it names comes first, then to where, from where, and how many.
#[derive(Clone, Copy)]
enum OnMemory {
    /// With bytes of 9.
    Fill(u32, u32, u32),
    Copy(u32, u32, u32, u32, u32),
    Init(u32, u32, u32, u32, u32),
    DropData(u32),
}

/// A table instruction, in the same order; what is written stands before how many.
#[derive(Clone, Copy)]
enum OnTable {
    Set(u32, u32, Reference),
    Fill(u32, u32, Reference, u32),
    Copy(u32, u32, u32, u32, u32),
    Init(u32, u32, u32, u32, u32),
    DropElements(u32),
}

const DID: Bulk = Bulk::Did;

const STUCK: Bulk = Bulk::Stuck;

/// Past the end of a memory or a data segment.
const NO_BYTE: Bulk = Bulk::Trap(TrapKind::MemoryBounds);

/// Past the end of a table or an element segment.
const NO_ENTRY: Bulk = Bulk::Trap(TrapKind::TableBounds);

const NULL: Reference = Reference::Null(RefKind::Func);

const OBJECT: Reference = Reference::Null(RefKind::Extern);

const SEVENTH: Reference = Reference::Fn(7);

/// The data segments: the first one is there, the second one is dropped.
const DATA: &[u8] = &[1, 2, 3, 4, 5, 6, 7, 8];

/// What memory 0 begins with before an instruction, the lowest byte first; memory 1 has zeros.
const BYTES: u64 = 0x0807_0605_0403_0201;

/// The numbers of the functions in the tables of functions before an instruction, 0 for null.
const FIRST: [u32; 4] = [1, 2, 3, 4];

const SECOND: [u32; 4] = [0; 4];

/// Instructions on two memories of a page, the answer, and what the memories then begin with.
const MEMORY_ROWS: [(OnMemory, Bulk, u64, u64); 32] = [
    // overlapping, upwards and downwards
    (OnMemory::Copy(0, 0, 2, 0, 6), DID, 0x0605_0403_0201_0201, 0),
    (OnMemory::Copy(0, 0, 0, 2, 6), DID, 0x0807_0807_0605_0403, 0),
    // nothing at the end, and past it
    (OnMemory::Copy(0, 0, 65_536, 0, 0), DID, BYTES, 0),
    (OnMemory::Copy(0, 0, 0, 65_536, 0), DID, BYTES, 0),
    (OnMemory::Copy(0, 0, 65_537, 0, 0), NO_BYTE, BYTES, 0),
    (OnMemory::Copy(0, 0, 0, 65_537, 0), NO_BYTE, BYTES, 0),
    // one too many, and a sum that doesn't wrap
    (OnMemory::Copy(0, 0, 65_535, 0, 2), NO_BYTE, BYTES, 0),
    (
        OnMemory::Copy(0, 0, 0, u32::MAX, u32::MAX),
        NO_BYTE,
        BYTES,
        0,
    ),
    // into another memory: all, nothing, one too many on either side
    (OnMemory::Copy(1, 0, 0, 0, 8), DID, BYTES, BYTES),
    (OnMemory::Copy(1, 0, 65_536, 65_536, 0), DID, BYTES, 0),
    (OnMemory::Copy(1, 0, 0, 65_529, 8), NO_BYTE, BYTES, 0),
    (OnMemory::Copy(1, 0, 65_529, 0, 8), NO_BYTE, BYTES, 0),
    // no such source, no such target, neither
    (OnMemory::Copy(0, 2, 0, 0, 0), STUCK, BYTES, 0),
    (OnMemory::Copy(2, 0, 0, 0, 0), STUCK, BYTES, 0),
    (OnMemory::Copy(2, 2, 0, 0, 0), STUCK, BYTES, 0),
    // within, nothing at the end and past it, one too many, no such memory
    (OnMemory::Fill(0, 1, 2), DID, 0x0807_0605_0409_0901, 0),
    (OnMemory::Fill(0, 65_536, 0), DID, BYTES, 0),
    (OnMemory::Fill(0, 65_537, 0), NO_BYTE, BYTES, 0),
    (OnMemory::Fill(0, 0, 65_537), NO_BYTE, BYTES, 0),
    (OnMemory::Fill(2, 0, 0), STUCK, BYTES, 0),
    // the end of a segment; nothing from its end, from past it, and to the end of a memory
    (OnMemory::Init(0, 1, 0, 6, 2), DID, BYTES, 0x0807),
    (OnMemory::Init(0, 1, 0, 8, 0), DID, BYTES, 0),
    (OnMemory::Init(0, 1, 0, 9, 0), NO_BYTE, BYTES, 0),
    (OnMemory::Init(0, 1, 65_536, 8, 0), DID, BYTES, 0),
    (OnMemory::Init(0, 1, 65_529, 0, 8), NO_BYTE, BYTES, 0),
    // nothing and one of a dropped segment
    (OnMemory::Init(1, 1, 0, 0, 0), DID, BYTES, 0),
    (OnMemory::Init(1, 1, 0, 0, 1), NO_BYTE, BYTES, 0),
    // no such memory and no such segment, before bounds
    (OnMemory::Init(0, 2, 0, 9, 9), STUCK, BYTES, 0),
    (OnMemory::Init(2, 1, 0, 9, 9), STUCK, BYTES, 0),
    // a segment, one that was dropped before, and one that isn't there
    (OnMemory::DropData(0), DID, BYTES, 0),
    (OnMemory::DropData(1), DID, BYTES, 0),
    (OnMemory::DropData(2), STUCK, BYTES, 0),
];

/// Instructions on two tables of four functions and one of an object, the answer, and the functions
/// that then stand in the first two.
const TABLE_ROWS: [(OnTable, Bulk, [u32; 4], [u32; 4]); 34] = [
    // overlapping, upwards and downwards, and into another table
    (OnTable::Copy(0, 0, 1, 0, 3), DID, [1, 1, 2, 3], SECOND),
    (OnTable::Copy(0, 0, 0, 1, 3), DID, [2, 3, 4, 4], SECOND),
    (OnTable::Copy(1, 0, 1, 0, 2), DID, FIRST, [0, 1, 2, 0]),
    // nothing at the end, to past it and from past it, one too many
    (OnTable::Copy(0, 0, 4, 4, 0), DID, FIRST, SECOND),
    (OnTable::Copy(0, 0, 5, 0, 0), NO_ENTRY, FIRST, SECOND),
    (OnTable::Copy(1, 0, 0, 5, 0), NO_ENTRY, FIRST, SECOND),
    (OnTable::Copy(1, 0, 3, 0, 2), NO_ENTRY, FIRST, SECOND),
    // of another kind, no such source and no such target, before bounds
    (OnTable::Copy(2, 0, 0, 9, 9), STUCK, FIRST, SECOND),
    (OnTable::Copy(0, 3, 0, 9, 9), STUCK, FIRST, SECOND),
    (OnTable::Copy(3, 0, 0, 9, 9), STUCK, FIRST, SECOND),
    // within, nothing at the end and past it, one too many
    (OnTable::Fill(0, 1, SEVENTH, 2), DID, [1, 7, 7, 4], SECOND),
    (OnTable::Fill(0, 4, NULL, 0), DID, FIRST, SECOND),
    (OnTable::Fill(0, 5, NULL, 0), NO_ENTRY, FIRST, SECOND),
    (OnTable::Fill(0, 3, NULL, 2), NO_ENTRY, FIRST, SECOND),
    // of another kind, before bounds; a table of objects with each kind; no such table
    (OnTable::Fill(0, 9, OBJECT, 9), STUCK, FIRST, SECOND),
    (OnTable::Fill(2, 0, OBJECT, 1), DID, FIRST, SECOND),
    (OnTable::Fill(2, 0, NULL, 1), STUCK, FIRST, SECOND),
    (OnTable::Fill(3, 0, NULL, 0), STUCK, FIRST, SECOND),
    // within, nothing at the end, from past it, one too many
    (OnTable::Init(0, 1, 1, 2, 2), DID, FIRST, [0, 3, 4, 0]),
    (OnTable::Init(0, 1, 4, 4, 0), DID, FIRST, SECOND),
    (OnTable::Init(0, 1, 0, 5, 0), NO_ENTRY, FIRST, SECOND),
    (OnTable::Init(0, 1, 3, 0, 2), NO_ENTRY, FIRST, SECOND),
    // nothing and one of a dropped segment
    (OnTable::Init(1, 1, 0, 0, 0), DID, FIRST, SECOND),
    (OnTable::Init(1, 1, 0, 0, 1), NO_ENTRY, FIRST, SECOND),
    // of another kind, no such segment and no such table, before bounds
    (OnTable::Init(0, 2, 0, 9, 9), STUCK, FIRST, SECOND),
    (OnTable::Init(2, 1, 0, 9, 9), STUCK, FIRST, SECOND),
    (OnTable::Init(0, 3, 0, 9, 9), STUCK, FIRST, SECOND),
    // a segment, one that was dropped before, and one that isn't there
    (OnTable::DropElements(0), DID, FIRST, SECOND),
    (OnTable::DropElements(1), DID, FIRST, SECOND),
    (OnTable::DropElements(2), STUCK, FIRST, SECOND),
    // one entry: the last one, one past it, of another kind before bounds, no such table
    (OnTable::Set(0, 3, NULL), DID, [1, 2, 3, 0], SECOND),
    (OnTable::Set(0, 4, NULL), NO_ENTRY, FIRST, SECOND),
    (OnTable::Set(0, 9, OBJECT), STUCK, FIRST, SECOND),
    (OnTable::Set(3, 0, NULL), STUCK, FIRST, SECOND),
];

/// What the entry at a place of a table is.
const ENTRIES: [(u32, u32, Result<Reference, Bulk>); 4] = [
    (0, 3, Ok(Reference::Fn(4))),
    (2, 0, Ok(OBJECT)),
    (0, 4, Err(NO_ENTRY)),
    (3, 9, Err(STUCK)),
];

/// By how many a table grows and with what, the answer, and how many entries it then has.
const GROWTHS: [(u32, u32, Reference, Bulk, Option<u32>); 5] = [
    (2, 0, OBJECT, DID, Some(1)),
    (2, 2, NULL, STUCK, Some(1)),
    (2, 2, OBJECT, DID, Some(3)),
    (1, 1, NULL, DID, Some(5)),
    (3, 0, NULL, STUCK, None),
];

/// Four functions, or one object.
fn table_of(kind: RefKind) -> TableType {
    let min = match kind {
        RefKind::Func => 4,
        RefKind::Extern => 1,
    };
    let limits = Limits { min, max: None };
    TableType { kind, limits }
}

/// Adds a segment of functions 1 to 4, and one of data.
fn add_segments(
    rt: &impl Abort,
    alloc: Global,
    store: &mut Store<'_, PlainMemory>,
) -> Result<(), Fail> {
    let items = [1, 2, 3, 4].map(Reference::Fn);
    assert!(rt; store.element_count() < 9);
    store.add_element(RefKind::Func, items.to_vec(alloc)?)?;
    assert!(rt; store.segment_count() < 9);
    store.add_data(DATA)?;
    Ok(())
}

/// Adds two tables of functions and one of an object.
fn add_tables(rt: &impl Abort, store: &mut Store<'_, PlainMemory>) -> Result<(), Fail> {
    for kind in [RefKind::Func, RefKind::Func, RefKind::Extern] {
        assert!(rt; store.table_count() < 9);
        store.add_table(table_of(kind))?;
    }
    Ok(())
}

/// Adds a memory of a page, and a segment of each kind.
fn add_memory(
    rt: &impl Abort,
    alloc: Global,
    store: &mut Store<'_, PlainMemory>,
) -> Result<(), Fail> {
    let limits = Limits { min: 1, max: None };
    assert!(rt; store.memory_count() < 9);
    store.add_memory(MemType { limits })?;
    add_segments(rt, alloc, store)
}

/// Copies the first segments into the first memory and table, and drops the second ones.
fn fill_and_drop(store: &mut Store<'_, PlainMemory>) -> Result<(), AllocError> {
    memory_init(store, 0, 0, 0, 0, 8)?;
    table_init(store, 0, 0, 0, 0, 4);
    data_drop(store, 1);
    elem_drop(store, 1);
    Ok(())
}

/// Two memories of a page, two tables of functions and one of an object, and two segments of each
/// kind, of which the second ones are dropped.
fn instance<'m>(rt: &impl Abort, alloc: Global) -> Result<Store<'m, PlainMemory>, Fail> {
    let mut store = Store::new(alloc, &[]);
    add_tables(rt, &mut store)?;
    add_memory(rt, alloc, &mut store)?;
    add_memory(rt, alloc, &mut store)?;
    fill_and_drop(&mut store)?;
    Ok(store)
}

fn on_memory(store: &mut Store<'_, PlainMemory>, call: OnMemory) -> Result<Bulk, AllocError> {
    match call {
        OnMemory::Fill(memory, to, len) => memory_fill(store, memory, to, 9, len),
        OnMemory::Copy(target, source, to, from, len) => {
            memory_copy(store, target, source, to, from, len)
        }
        OnMemory::Init(segment, memory, to, from, len) => {
            memory_init(store, segment, memory, to, from, len)
        }
        OnMemory::DropData(segment) => Ok(data_drop(store, segment)),
    }
}

fn on_table(store: &mut Store<'_, PlainMemory>, call: OnTable) -> Bulk {
    match call {
        OnTable::Set(table, at, value) => table_set(store, table, at, value),
        OnTable::Fill(table, to, value, len) => table_fill(store, table, to, value, len),
        OnTable::Copy(target, source, to, from, len) => {
            table_copy(store, target, source, to, from, len)
        }
        OnTable::Init(segment, table, to, from, len) => {
            table_init(store, segment, table, to, from, len)
        }
        OnTable::DropElements(segment) => elem_drop(store, segment),
    }
}

/// The first eight bytes of a memory, the lowest first.
fn begins_with(store: &Store<'_, PlainMemory>, memory: u32) -> Option<u64> {
    store.memory(memory)?.load(0, 8)
}

/// Whether just these functions stand in a table; 0 for null.
fn has_functions(store: &Store<'_, PlainMemory>, table: u32, numbers: [u32; 4]) -> bool {
    let entry = |number: u32| {
        if number == 0 {
            NULL
        } else {
            Reference::Fn(number)
        }
    };
    store.table(table) == Some(numbers.map(entry).as_slice())
}

#[test]
fn memory_instructions(rt: HostRuntime) -> Result<(), Fail> {
    for (row, (call, answer, first, second)) in MEMORY_ROWS.iter().enumerate() {
        let mut store = instance(&rt, rt.alloc())?;
        assert!(rt; on_memory(&mut store, *call)? == *answer, "row {row}");
        let found = [begins_with(&store, 0), begins_with(&store, 1)];
        assert!(rt; found == [Some(*first), Some(*second)], "bytes, row {row}");
    }
    Ok(())
}

#[test]
fn table_instructions(rt: HostRuntime) -> Result<(), Fail> {
    for (row, (call, answer, first, second)) in TABLE_ROWS.iter().enumerate() {
        let mut store = instance(&rt, rt.alloc())?;
        assert!(rt; on_table(&mut store, *call) == *answer, "row {row}");
        assert!(rt; has_functions(&store, 0, *first), "table 0, row {row}");
        assert!(rt; has_functions(&store, 1, *second), "table 1, row {row}");
    }
    Ok(())
}

/// Grows a table without a maximum.
fn grow(
    rt: &impl Abort,
    store: &mut Store<'_, PlainMemory>,
    table: u32,
    by: u32,
    value: Reference,
) -> Result<Bulk, AllocError> {
    if let Some(kind) = store.table_type(table) {
        assert!(rt; kind.limits.max == None && kind.limits.min < 10 && by < 10);
    }
    table_grow(store, table, by, value)
}

#[test]
fn entries(rt: HostRuntime) -> Result<(), Fail> {
    let store = instance(&rt, rt.alloc())?;
    for (row, (table, at, answer)) in ENTRIES.iter().enumerate() {
        assert!(rt; table_get(&store, *table, *at) == *answer, "row {row}");
    }
    Ok(())
}

#[test]
fn growth(rt: HostRuntime) -> Result<(), Fail> {
    let mut store = instance(&rt, rt.alloc())?;
    for (row, (table, by, value, answer, size)) in GROWTHS.iter().enumerate() {
        assert!(rt;
            grow(&rt, &mut store, *table, *by, *value)? == *answer,
            "row {row}"
        );
        assert!(rt; table_size(&store, *table) == *size, "size, row {row}");
    }
    Ok(())
}
