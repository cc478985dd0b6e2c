//! A store by its calls, over a memory in one vector.

ghost use Rattle.std.specs.Prelude.{◌≡◌, ◌<◌, length};

use crate::{Function, Store};
use std::alloc::Global;
use std::process::Abort;
use std::test::Fail;
use wz_linear::{Linear, PlainMemory};
use wz_types::{
    FuncType, GlobalType, Limits, MemType, RefKind, Reference, TableType, ValType, Value,
};

/// A list of a store.
#[derive(Clone, Copy)]
enum Part {
    Functions,
    Globals,
    Tables,
    Memories,
    Elements,
    Segments,
}

/// A call that changes an item, by its number.
#[derive(Clone, Copy)]
enum Setter {
    Global(u32, u32),
    Element(u32),
    Segment(u32),
}

const DATA: &[u8] = &[1, 2, 3];

const OWN: Function = Function::Own {
    signature: 0,
    body: 0,
};

const COUNTER: GlobalType = GlobalType {
    value: ValType::I32,
    mutable: true,
};

const NULL: Reference = Reference::Null(RefKind::Func);

const FUNCTION: Reference = Reference::Fn(0);

/// How many items each list of a store has, and the last one's number.
const COUNTS: [(Part, u32, u32); 6] = [
    (Part::Functions, 1, 0),
    (Part::Globals, 2, 1),
    (Part::Tables, 1, 0),
    (Part::Memories, 1, 0),
    (Part::Elements, 1, 0),
    (Part::Segments, 1, 0),
];

/// Calls one after the other and their answers; then the globals, and how many items the element
/// segment and the data segment have.
const SETTERS: [(Setter, bool, [u32; 2], [usize; 2]); 8] = [
    (Setter::Global(1, 9), true, [7, 9], [1, 3]),
    (Setter::Global(2, 5), false, [7, 9], [1, 3]),
    (Setter::Element(1), false, [7, 9], [1, 3]),
    (Setter::Element(0), true, [7, 9], [0, 3]),
    (Setter::Element(0), true, [7, 9], [0, 3]),
    (Setter::Segment(1), false, [7, 9], [0, 3]),
    (Setter::Segment(0), true, [7, 9], [0, 0]),
    (Setter::Segment(0), true, [7, 9], [0, 0]),
];

/// By how many entries a table of one grows, one after the other, and how many it then has.
const GROWTHS: [(u32, u32); 3] = [(0, 1), (1, 2), (2, 4)];

fn limits(min: u32, max: u32) -> Limits {
    let max = Some(max);
    Limits { min, max }
}

fn table_type(min: u32) -> TableType {
    let limits = limits(min, 3);
    TableType {
        kind: RefKind::Func,
        limits,
    }
}

/// Adds a function of type 0, two globals, a table and a memory.
fn add_items(store: &mut Store<'_, PlainMemory>) -> Result<(), Fail>
    requires functions { length store.old.functions ≡ 0 }
    requires globals { length store.old.globals ≡ 0 }
    requires tables { length store.old.tables ≡ 0 }
    requires memories { length store.old.memories ≡ 0 }
{
    store.add_function(OWN)?;
    store.add_global(COUNTER, Value::I32(7))?;
    store.add_global(COUNTER, Value::I32(8))?;
    store.add_table(table_type(1))?;
    let limits = Limits { min: 1, max: None };
    store.add_memory(MemType { limits })?;
    Ok(())
}

fn add_segments(
    rt: &impl Abort,
    alloc: Global,
    store: &mut Store<'_, PlainMemory>,
) -> Result<(), Fail> {
    assert!(rt; store.element_count() < 9);
    store.add_element(RefKind::Func, [FUNCTION].to_vec(alloc)?)?;
    assert!(rt; store.segment_count() < 9);
    store.add_data(DATA)?;
    Ok(())
}

/// A store with one of each and a second global.
fn one_of_each<'m>(
    rt: &impl Abort,
    alloc: Global,
    types: &'m [FuncType],
) -> Result<Store<'m, PlainMemory>, Fail>
    requires { length types.now < 9 }
{
    let mut store = Store::new(alloc, types);
    add_items(&mut store)?;
    add_segments(rt, alloc, &mut store)?;
    Ok(store)
}

fn count_of(store: &Store<'_, PlainMemory>, part: Part) -> u32 {
    match part {
        Part::Functions => store.function_count(),
        Part::Globals => store.global_count(),
        Part::Tables => store.table_count(),
        Part::Memories => store.memory_count(),
        Part::Elements => store.element_count(),
        Part::Segments => store.segment_count(),
    }
}

/// Whether what was added stands at this number, as it was added.
fn is_there(store: &Store<'_, PlainMemory>, part: Part, at: u32) -> bool {
    match part {
        Part::Functions => store.function(at) == Some(OWN),
        Part::Globals => store.global(at) == Some(Value::I32(8)),
        Part::Tables => store.table(at) == Some([NULL].as_slice()),
        Part::Memories => match store.memory(at) {
            Some(memory) => memory.load(65_532, 4) == Some(0),
            None => false,
        },
        Part::Elements => store.element(at) == Some([FUNCTION].as_slice()),
        Part::Segments => store.segment(at) == Some(DATA),
    }
}

fn set(store: &mut Store<'_, PlainMemory>, setter: Setter) -> bool {
    match setter {
        Setter::Global(at, number) => store.set_global(at, Value::I32(number)),
        Setter::Element(at) => store.empty_element(at),
        Setter::Segment(at) => store.empty_segment(at),
    }
}

fn has_globals(store: &Store<'_, PlainMemory>, numbers: [u32; 2]) -> bool {
    let found = [store.global(0), store.global(1)];
    found == numbers.map(|number| Some(Value::I32(number)))
}

/// How many items the element segment and the data segment have.
fn sizes_of(store: &Store<'_, PlainMemory>) -> [Option<usize>; 2] {
    [
        store.element(0).map(|items| items.len()),
        store.segment(0).map(|bytes| bytes.len()),
    ]
}

#[test]
fn what_was_added_stands_at_its_number(rt: HostRuntime) -> Result<(), Fail> {
    let types = [FuncType::new(rt.alloc(), &[], &[])?];
    let store = one_of_each(&rt, rt.alloc(), &types)?;
    assert!(rt; store.types().len() == 1);
    for (row, (part, count, last)) in COUNTS.iter().enumerate() {
        assert!(rt; count_of(&store, *part) == *count, "count, row {row}");
        assert!(rt; is_there(&store, *part, *last), "row {row}");
        assert!(rt; !is_there(&store, *part, *count), "past the end, row {row}");
    }
    Ok(())
}

#[test]
fn setters_change_one_item(rt: HostRuntime) -> Result<(), Fail> {
    let mut store = one_of_each(&rt, rt.alloc(), &[])?;
    for (row, (setter, answer, globals, sizes)) in SETTERS.iter().enumerate() {
        assert!(rt; set(&mut store, *setter) == *answer, "row {row}");
        assert!(rt; has_globals(&store, *globals), "globals, row {row}");
        assert!(rt; sizes_of(&store) == sizes.map(Some), "sizes, row {row}");
    }
    Ok(())
}

fn extend_table(rt: &impl Abort, store: &mut Store<'_, PlainMemory>, by: u32) -> Result<(), Fail> {
    let entries = store.table(0).ok_or("no table")?;
    assert!(rt; entries.len() < 10 && by < 10);
    assert!(rt; store.table_count() == 1);
    store.extend_table(0, by, FUNCTION)?;
    Ok(())
}

fn grow_memory(rt: &impl Abort, store: &mut Store<'_, PlainMemory>) -> Result<(), Fail> {
    let memory = store.memory_mut(0).ok_or("no memory")?;
    assert!(rt; memory.size_pages() < 10);
    memory.grow(1)?;
    Ok(())
}

fn fill_table(store: &mut Store<'_, PlainMemory>) -> Result<(), Fail> {
    let table = store.table_mut(0).ok_or("no table")?;
    table.entries_mut().fill(NULL);
    Ok(())
}

#[test]
fn what_grows_has_its_new_size_in_its_type(rt: HostRuntime) -> Result<(), Fail> {
    let mut store = one_of_each(&rt, rt.alloc(), &[])?;
    for (row, (by, size)) in GROWTHS.iter().enumerate() {
        extend_table(&rt, &mut store, *by)?;
        assert!(rt; store.table_type(0) == Some(table_type(*size)), "row {row}");
    }
    grow_memory(&rt, &mut store)?;
    let limits = Limits { min: 2, max: None };
    assert!(rt; store.memory_type(0) == Some(MemType { limits }));
    Ok(())
}

#[test]
fn entries_are_written_in_place(rt: HostRuntime) -> Result<(), Fail> {
    let mut store = one_of_each(&rt, rt.alloc(), &[])?;
    extend_table(&rt, &mut store, 1)?;
    fill_table(&mut store)?;
    assert!(rt; store.table(0) == Some([NULL, NULL].as_slice()));
    Ok(())
}
