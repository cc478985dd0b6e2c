//! Outputs, byte by byte, of small modules and of states of them that were made by hand; and long
//! pieces on their way into a file.

ghost use Rattle.std.specs.Prelude.{◌≡◌, ◌≢◌, ◌≤◌, [], length, AllPairs, IfOk};
ghost use Rattle.std.specs.Bool.{OnTrue};
ghost use Rattle.wz_words.specs.Settings.{settings_of};
ghost use Rattle.wz_store.specs.State.{pages_together};
ghost use Rattle.wz_rewrite.specs.Pieces.{piece_ranges};

use crate::pieces::Pieces;
use crate::sources::lacks;
use crate::{Output, Piece, laws, prepare};
use std::alloc::Global;
use std::process::Abort;
use std::test::Fail;
use wz_decode::decode;
use wz_exports::{Kept, keep};
use wz_io::{CallKind, FileName, Files, MemFiles};
use wz_linear::{Linear, PlainMemory};
use wz_module::Module;
use wz_snapshot::{Recorded, snapshot};
use wz_store::{Reached, Store};
use wz_types::{FuncType, GlobalType, Limits, MemType, RefKind, Reference, ValType, Value};
use wz_words::{Settings, read_words};

const HEADER: &[u8] = b"\0asm\x01\0\0\0";

const TYPES: &[u8] = b"\x01\x04\x01\x60\0\0";

const FUNCTION: &[u8] = b"\x03\x02\x01\0";

const FUNCTIONS: &[u8] = b"\x03\x03\x02\0\0";

const MEMORY: &[u8] = b"\x05\x03\x01\0\x01";

const GLOBAL: &[u8] = b"\x06\x06\x01\x7F\x01\x41\0\x0B";

const EXPORT: &[u8] = b"\x07\x14\x01\x10wizer.initialize\0\0";

const NO_EXPORT: &[u8] = b"\x07\x01\0";

const CODE: &[u8] = b"\x0A\x08\x01\x06\0\x41\x2A\x24\0\x0B";

// Drops data segment 0, once it is copied.
const DROPS: &[u8] = b"\x0A\x11\x01\x0F\0\x41\x05\x41\0\x41\x02\xFC\x08\0\0\xFC\x09\0\x0B";

// Makes a reference of function 0.
const REFERS: &[u8] = b"\x0A\x0A\x02\x02\0\x0B\x05\0\xD2\0\x1A\x0B";

const DECLARES: &[u8] = b"\x09\x05\x01\x03\0\x01\0";

const CUSTOM: &[u8] = b"\0\x02\x01a";

// The row, the sections of a module, and of the state: the value of its globals, the sizes of its
// memories, places that hold 255, of each element segment whether it is empty, and the data
// segments; and the sections of the output.
type Row = (
    &'static str,
    &'static [&'static [u8]],
    &'static [u32],
    &'static [u32],
    &'static [u64],
    &'static [bool],
    &'static [&'static [u8]],
    &'static [&'static [u8]],
);

const ROWS: [Row; 9] = [
    (
        "a global, between custom sections",
        &[
            CUSTOM, TYPES, CUSTOM, FUNCTION, CUSTOM, GLOBAL, CUSTOM, EXPORT, CUSTOM, CODE, CUSTOM,
        ],
        &[42],
        &[],
        &[],
        &[],
        &[],
        &[
            CUSTOM,
            TYPES,
            CUSTOM,
            FUNCTION,
            CUSTOM,
            b"\x06\x06\x01\x7F\x01\x41\x2A\x0B",
            CUSTOM,
            NO_EXPORT,
            CUSTOM,
            CODE,
            CUSTOM,
        ],
    ),
    (
        "a start, and a padded size",
        &[
            b"\x01\x84\0\x01\x60\0\0",
            FUNCTION,
            GLOBAL,
            EXPORT,
            b"\x08\x01\0",
            CODE,
        ],
        &[15],
        &[],
        &[],
        &[],
        &[],
        &[
            TYPES,
            FUNCTION,
            b"\x06\x06\x01\x7F\x01\x41\x0F\x0B",
            NO_EXPORT,
            CODE,
        ],
    ),
    (
        "a memory that grew",
        &[TYPES, FUNCTION, b"\x05\x04\x01\x01\x01\x02", EXPORT, CODE],
        &[],
        &[2],
        &[131_071],
        &[],
        &[],
        &[
            TYPES,
            FUNCTION,
            b"\x05\x04\x01\x01\x02\x02",
            NO_EXPORT,
            CODE,
            b"\x0B\x09\x01\0\x41\xFF\xFF\x07\x0B\x01\xFF",
        ],
    ),
    (
        "more ranges than active segments",
        &[
            TYPES,
            FUNCTION,
            MEMORY,
            EXPORT,
            CODE,
            b"\x0B\x07\x01\0\x41\0\x0B\x01\xFF",
        ],
        &[],
        &[1],
        &[0, 9, 19],
        &[],
        &[&[]],
        &[
            TYPES,
            FUNCTION,
            MEMORY,
            NO_EXPORT,
            CODE,
            b"\x0B\x16\x02\0\x41\0\x0B\x0A\xFF\0\0\0\0\0\0\0\0\xFF\0\x41\x13\x0B\x01\xFF",
        ],
    ),
    (
        "fewer ranges than active segments, a passive one between",
        &[
            TYPES,
            FUNCTION,
            MEMORY,
            EXPORT,
            b"\x0C\x01\x03",
            CODE,
            b"\x0B\x10\x03\0\x41\0\x0B\x01\xFF\x01\x02\xAB\xCD\0\x41\x09\x0B\0",
        ],
        &[],
        &[1],
        &[],
        &[],
        &[&[], &[0xAB, 0xCD], &[]],
        &[
            TYPES,
            FUNCTION,
            MEMORY,
            NO_EXPORT,
            b"\x0C\x01\x03",
            CODE,
            b"\x0B\x09\x03\x01\0\x01\x02\xAB\xCD\x01\0",
        ],
    ),
    (
        "a dropped data segment",
        &[
            TYPES,
            FUNCTION,
            MEMORY,
            EXPORT,
            b"\x0C\x01\x01",
            DROPS,
            b"\x0B\x05\x01\x01\x02\xFF\xFF",
        ],
        &[],
        &[1],
        &[5, 6],
        &[],
        &[&[]],
        &[
            TYPES,
            FUNCTION,
            MEMORY,
            NO_EXPORT,
            b"\x0C\x01\x02",
            DROPS,
            b"\x0B\x0A\x02\x01\0\0\x41\x05\x0B\x02\xFF\xFF",
        ],
    ),
    (
        "an undeclared function",
        &[TYPES, FUNCTIONS, EXPORT, REFERS],
        &[],
        &[],
        &[],
        &[],
        &[],
        &[TYPES, FUNCTIONS, NO_EXPORT, DECLARES, REFERS],
    ),
    (
        "an undeclared function, and a data count",
        &[TYPES, FUNCTIONS, EXPORT, b"\x0C\x01\0", REFERS],
        &[],
        &[],
        &[],
        &[],
        &[],
        &[TYPES, FUNCTIONS, NO_EXPORT, DECLARES, b"\x0C\x01\0", REFERS],
    ),
    (
        "a dropped element segment",
        &[TYPES, FUNCTION, EXPORT, b"\x09\x05\x01\x01\0\x01\0", CODE],
        &[],
        &[],
        &[],
        &[true],
        &[],
        &[TYPES, FUNCTION, NO_EXPORT, DECLARES, CODE],
    ),
];

fn whole(alloc: Global, sections: &[&[u8]]) -> Result<Vec<u8>, Fail> {
    let mut bytes = Vec::new(alloc);
    bytes.extend_from_slice(HEADER)?;
    for section in sections {
        bytes.extend_from_slice(section)?;
    }
    Ok(bytes)
}

/// A memory whose bytes at these places are 255.
fn add_memory(
    rt: &impl Abort,
    store: &mut Store<'_, PlainMemory>,
    pages: u32,
    places: &[u64],
) -> Result<(), Fail> {
    assert!(rt; store.memory_count() == 0 && pages <= 9);
    let limits = Limits {
        min: pages,
        max: None,
    };
    store.add_memory(MemType { limits })?;
    for place in places {
        if let Some(memory) = store.memory_mut(0) {
            memory.fill(*place, 0xFF, 1)?;
        }
    }
    Ok(())
}

/// The state of a row.
fn add_rest<'m>(
    rt: &impl Abort,
    alloc: Global,
    store: &mut Store<'m, PlainMemory>,
    globals: &[u32],
    elements: &[bool],
) -> Result<(), Fail> {
    let kind = GlobalType {
        value: ValType::I32,
        mutable: true,
    };
    for bits in globals {
        assert!(rt; store.global_count() < 9);
        store.add_global(kind, Value::I32(*bits))?;
    }
    for empty in elements {
        assert!(rt; store.element_count() < 9 && *empty);
        store.add_element(RefKind::Func, Vec::new(alloc))?;
    }
    Ok(())
}

fn add_datas<'m>(
    rt: &impl Abort,
    store: &mut Store<'m, PlainMemory>,
    datas: &[&'m [u8]],
) -> Result<(), Fail> {
    for bytes in datas {
        assert!(rt; store.segment_count() < 9);
        assert!(rt; bytes.len() < 9);
        store.add_data(bytes)?;
    }
    Ok(())
}

/// Whether a snapshot may be taken: there is at most one memory, which isn't too large.
fn is_small(store: &Store<'_, PlainMemory>) -> bool
    ensures few { OnTrue result (length store.now.memories ≤ 100) }
    ensures small { OnTrue result (pages_together store.now.memories ≤ 16384) }
{
    match store.memory_type(0) {
        None => true,
        Some(kind) => store.memory_count() == 1 && kind.limits.min <= 16_384,
    }
}

fn recorded(
    rt: &impl Abort,
    alloc: Global,
    reached: &Reached<'_, PlainMemory>,
) -> Result<Recorded, Fail> {
    assert!(rt; is_small(&reached.store));
    Ok(snapshot(alloc, reached)?)
}

/// The settings of no words.
fn settings(alloc: Global) -> Result<Settings, Fail>
    ensures { IfOk result (λ s. AllPairs (λ x y. x.dst ≢ y.dst) (settings_of s).renames) }
{
    wz_exports::laws::renames_differ();
    match read_words(alloc, &[]) {
        Ok(settings) => Ok(settings),
        Err(_) => Err(Fail::from("no words are at fault")),
    }
}

/// The exports that are kept of a module with one export.
fn kept_of(rt: &impl Abort, alloc: Global, module: &Module<'_>) -> Result<Kept, Fail> {
    let settings = settings(alloc)?;
    assert!(rt; module.exports().len() == 1);
    match keep(alloc, module, &settings) {
        Ok(kept) => Ok(kept),
        Err(_) => Err(Fail::from("no exports are kept")),
    }
}

fn prepared<'a>(
    rt: &impl Abort,
    alloc: Global,
    input: &'a [u8],
    reached: &Reached<'_, PlainMemory>,
) -> Result<Output<'a>, Fail> {
    laws::input_is_spelled();
    assert!(rt; input.len() < 999);
    let Ok(module) = decode(alloc, input) else {
        return Err(Fail::from("the input spells no module"));
    };
    let kept = kept_of(rt, alloc, &module)?;
    let recorded = recorded(rt, alloc, reached)?;
    assert!(rt; !lacks(module.sections(), 10));
    assert!(rt; module.globals().len() == recorded.globals().len());
    Ok(prepare(alloc, &module, &recorded, &kept)?)
}

/// The bytes of pieces.
fn add_piece(
    alloc: Global,
    bytes: &mut Vec<u8>,
    piece: &Piece<'_>,
    store: &Store<'_, PlainMemory>,
) -> Result<(), Fail> {
    match piece {
        Piece::Kept(kept) => bytes.extend_from_slice(kept)?,
        Piece::Made(made) => bytes.extend_from_slice(made)?,
        Piece::Range { memory, at, len } => {
            let mut range = vec![in alloc; 0u8; *len as usize]?;
            if let Some(memory) = store.memory(*memory) {
                let _within = memory.read_into(u64::from(*at), &mut range);
            }
            bytes.extend_from_slice(&range)?;
        }
    }
    Ok(())
}

fn gives(rt: &impl Abort, alloc: Global, row: Row) -> Result<(), Fail> {
    let (name, input, globals, pages, places, elements, datas, sections) = row;
    let types: &[FuncType] = &[];
    let mut store = Store::new(alloc, types);
    for size in pages {
        add_memory(rt, &mut store, *size, places)?;
    }
    add_rest(rt, alloc, &mut store, globals, elements)?;
    add_datas(rt, &mut store, datas)?;
    let reached = Reached { store, ticks: 0 };
    let input = whole(alloc, input)?;
    let output = prepared(rt, alloc, &input, &reached)?;
    let mut bytes = Vec::new(alloc);
    for piece in output.pieces() {
        add_piece(alloc, &mut bytes, piece, &reached.store)?;
    }
    let wanted = whole(alloc, sections)?;
    assert_eq!(rt; bytes.as_slice(), wanted.as_slice(), "{name}");
    Ok(())
}

#[test]
fn outputs(rt: HostRuntime) -> Result<(), Fail> {
    for row in ROWS {
        gives(&rt, rt.alloc(), row)?;
    }
    Ok(())
}

// The row, how long the section between seven other bytes is, how many bytes a write takes at most,
// which write fails (none: 0), and how many bytes the output holds then.
type LongRow = (&'static str, usize, usize, u32, usize);

const LONG_ROWS: [LongRow; 7] = [
    ("short", 2, 1_000_000, 0, 9),
    ("a byte less than the buffer", 65_528, 1_000_000, 0, 65_535),
    ("just the buffer", 65_529, 1_000_000, 0, 65_536),
    ("a byte more than the buffer", 65_530, 1_000_000, 0, 65_537),
    ("three buffers, by short writes", 200_000, 7_000, 0, 200_007),
    ("the first write fails", 200_000, 7_000, 1, 0),
    (
        "the write behind a buffer fails",
        200_000,
        7_000,
        11,
        65_536,
    ),
];

/// Bytes that differ from their neighbours.
fn counted(alloc: Global, len: usize) -> Result<Vec<u8>, Fail> {
    let mut bytes = Vec::new(alloc);
    for at in 0..len {
        bytes.push((at % 251) as u8)?;
    }
    Ok(bytes)
}

/// An output of a long piece of the input between two that were made.
fn long_output(alloc: Global, long: &[u8]) -> Result<Output<'_>, Fail>
    ensures { IfOk result (λ output. piece_ranges output ≡ []) }
{
    let mut pieces = Pieces::new(alloc);
    pieces.add(Piece::Made(Vec::from_slice(alloc, b"\0asm")?))?;
    pieces.add(Piece::Kept(long))?;
    pieces.add(Piece::Made(Vec::from_slice(alloc, b"end")?))?;
    Ok(Output::of(alloc, pieces)?)
}

/// Writes pieces of no memory into a file, and gives how many bytes these are said to be.
fn written(
    alloc: Global,
    output: &mut Output<'_>,
    files: &mut MemFiles,
) -> Result<Option<u64>, Fail>
    requires { piece_ranges output.old ≡ [] }
{
    let types: &[FuncType] = &[];
    let store: Store<'_, PlainMemory> = Store::new(alloc, types);
    let reached = Reached { store, ticks: 0 };
    match files.create(FileName::Path("out")) {
        Ok(()) => Ok(output.write_to(&reached, files).ok()),
        Err(_) => Err(Fail::from("the output is made")),
    }
}

fn writes(rt: &impl Abort, alloc: Global, row: LongRow) -> Result<(), Fail> {
    let (name, len, chunk, failing, there) = row;
    let long = counted(alloc, len)?;
    let mut output = long_output(alloc, &long)?;
    let mut files = MemFiles::new(alloc, Vec::new(alloc), chunk.max(1));
    if failing > 0 {
        files.fail(CallKind::Write, failing)?;
    }
    let said = written(alloc, &mut output, &mut files)?;
    let wanted = whole_of(alloc, &long)?;
    assert!(rt;
        files.file("out") == wanted.as_slice().get(..there),
        "{name}"
    );
    assert_eq!(rt; said, (failing == 0).then_some(there as u64), "{name}");
    Ok(())
}

fn whole_of(alloc: Global, long: &[u8]) -> Result<Vec<u8>, Fail> {
    let mut bytes = Vec::from_slice(alloc, b"\0asm")?;
    bytes.extend_from_slice(long)?;
    bytes.extend_from_slice(b"end")?;
    Ok(bytes)
}

#[test]
fn long_pieces(rt: HostRuntime) -> Result<(), Fail> {
    for row in LONG_ROWS {
        writes(&rt, rt.alloc(), row)?;
    }
    Ok(())
}
