//! Modules by the bytes that spell them, and bytes that spell none with the cause.

use crate::{DecodeFault, decode};
use std::alloc::{AllocError, Global};
use std::test::Fail;
use wz_code::Instr;
use wz_module::{Export, ExportTarget, Module, Section};
use wz_types::{GlobalType, ValType};

const HEADER: &[u8] = b"\0asm\x01\0\0\0";

const TYPES: &[u8] = b"\x01\x04\x01\x60\0\0";

const IMPORTS: &[u8] = b"\x02\x05\x01\0\0\0\0";

const FUNCTIONS: &[u8] = b"\x03\x02\x01\0";

const TABLES: &[u8] = b"\x04\x04\x01\x70\0\0";

const MEMORIES: &[u8] = b"\x05\x03\x01\0\x01";

const GLOBALS: &[u8] = b"\x06\x06\x01\x7F\x01\x41\0\x0B";

const EXPORTS: &[u8] = b"\x07\x14\x01\x10wizer.initialize\0\0";

const START: &[u8] = b"\x08\x01\0";

const ELEMENTS: &[u8] = b"\x09\x04\x01\x01\0\0";

const DATA_COUNT: &[u8] = b"\x0C\x01\x01";

const CODE: &[u8] = b"\x0A\x08\x01\x06\0\x41\x2A\x24\0\x0B";

const DATAS: &[u8] = b"\x0B\x04\x01\x01\x01\xAA";

const CUSTOM: &[u8] = b"\0\x02\x01a";

// A name that isn't UTF-8.
const BADLY_NAMED: &[u8] = b"\0\x02\x01\xFF";

// A body with `memory.init`, one with `data.drop`, and one with that within a block.
const INITIALISES: &[u8] = b"\x0A\x08\x01\x06\0\xFC\x08\0\0\x0B";

const DROPS: &[u8] = b"\x0A\x07\x01\x05\0\xFC\x09\0\x0B";

const DROPS_WITHIN: &[u8] = b"\x0A\x0A\x01\x08\0\x02\x40\xFC\x09\0\x0B\x0B";

// Sets its global to 42.
const SMALL: [&[u8]; 5] = [TYPES, FUNCTIONS, GLOBALS, EXPORTS, CODE];

// Every section, and a custom one before, between and behind them.
const FULL: [&[u8]; 25] = [
    CUSTOM, TYPES, CUSTOM, IMPORTS, CUSTOM, FUNCTIONS, CUSTOM, TABLES, CUSTOM, MEMORIES, CUSTOM,
    GLOBALS, CUSTOM, EXPORTS, CUSTOM, START, CUSTOM, ELEMENTS, CUSTOM, DATA_COUNT, CUSTOM, CODE,
    CUSTOM, DATAS, CUSTOM,
];

// The row, and the sections of a module.
const MODULES: [(&str, &[&[u8]]); 11] = [
    ("no section", &[]),
    ("small", &SMALL),
    ("full", &FULL),
    (
        "a padded number in code",
        &[
            TYPES,
            FUNCTIONS,
            GLOBALS,
            EXPORTS,
            b"\x0A\x09\x01\x07\0\x41\xAA\0\x24\0\x0B",
        ],
    ),
    ("a padded size", &[b"\x01\x84\x80\0\x01\x60\0\0"]),
    (
        "the greatest count of locals",
        &[
            TYPES,
            FUNCTIONS,
            b"\x0A\x0E\x01\x0C\x01\xFF\xFF\xFF\xFF\x0F\x7F\x41\x2A\x24\0\x0B",
        ],
    ),
    ("data without a count", &[DATAS]),
    ("a count that no body needs", &[DATA_COUNT, DATAS]),
    ("a count of none", &[b"\x0C\x01\0"]),
    (
        "a count that a body needs",
        &[TYPES, FUNCTIONS, DATA_COUNT, DROPS, DATAS],
    ),
    ("no functions and no code", &[b"\x03\x01\0", b"\x0A\x01\0"]),
];

// The row, sections of which one is bad, and its place.
const BAD_SECTIONS: [(&str, &[&[u8]], u32); 16] = [
    ("size beyond the end", &[b"\x01\x05\xFF\xFF\xFF\xFF\x0F"], 0),
    (
        "great size beyond the end",
        &[TYPES, b"\0\xFF\xFF\xFF\xFF\x0F"],
        1,
    ),
    ("no size", &[TYPES, b"\x03"], 1),
    (
        "size of six bytes",
        &[b"\x01\x84\x80\x80\x80\x80\0\x01\x60\0\0"],
        0,
    ),
    (
        "2^32 locals",
        &[
            TYPES,
            FUNCTIONS,
            GLOBALS,
            EXPORTS,
            b"\x0A\x10\x01\x0E\x02\xFF\xFF\xFF\xFF\x0F\x7F\x01\x7F\x41\x2A\x24\0\x0B",
        ],
        4,
    ),
    ("functions before types", &[FUNCTIONS, TYPES], 1),
    (
        "code before the data count",
        &[TYPES, FUNCTIONS, CODE, DATA_COUNT],
        3,
    ),
    ("the data count before elements", &[DATA_COUNT, ELEMENTS], 1),
    ("types twice", &[TYPES, TYPES], 1),
    (
        "types twice, a custom section between",
        &[TYPES, CUSTOM, TYPES],
        2,
    ),
    ("the data count twice", &[DATA_COUNT, DATA_COUNT, DATAS], 1),
    ("an unknown id", &[b"\x0D\0"], 0),
    ("the greatest id", &[CUSTOM, b"\xFF\0"], 1),
    ("custom without a name", &[b"\0\0"], 0),
    ("custom, name not UTF-8", &[CUSTOM, TYPES, BADLY_NAMED], 2),
    (
        "bytes behind the types",
        &[CUSTOM, b"\x01\x05\x01\x60\0\0\0"],
        1,
    ),
];

// The row, and good sections whose counts don't agree.
const BAD_COUNTS: [(&str, &[&[u8]]); 8] = [
    ("functions without code", &[TYPES, FUNCTIONS]),
    ("code without functions", &[TYPES, CODE]),
    (
        "two functions, one body",
        &[TYPES, b"\x03\x03\x02\0\0", CODE],
    ),
    ("a count without data", &[DATA_COUNT]),
    ("a count of two, one segment", &[b"\x0C\x01\x02", DATAS]),
    (
        "memory.init without a count",
        &[TYPES, FUNCTIONS, INITIALISES, DATAS],
    ),
    (
        "data.drop without a count",
        &[TYPES, FUNCTIONS, DROPS, DATAS],
    ),
    (
        "data.drop in a block",
        &[TYPES, FUNCTIONS, DROPS_WITHIN, DATAS],
    ),
];

// The row, and bytes that don't begin as a module.
const NO_WASM: [(&str, &[u8]); 5] = [
    ("nothing", b""),
    ("seven bytes of the header", b"\0asm\x01\0\0"),
    ("another version", b"\0asm\x02\0\0\0"),
    ("a component's version", b"\0asm\x0D\0\x01\0"),
    ("another magic", b"\x7Fasm\x01\0\0\0"),
];

fn joined(alloc: Global, sections: &[&[u8]]) -> Result<Vec<u8>, AllocError> {
    let mut bytes = Vec::from_slice(alloc, HEADER)?;
    for section in sections {
        bytes.extend_from_slice(section)?;
    }
    Ok(bytes)
}

// Why bytes are no module, and None where they are one.
fn fault_of(alloc: Global, bytes: &[u8]) -> Option<DecodeFault> {
    if bytes.len() > 1_000 {
        return Some(DecodeFault::NoMemory);
    }
    match decode(alloc, bytes) {
        Ok(_) => None,
        Err(fault) => Some(fault),
    }
}

#[test]
fn modules_and_faults(rt: HostRuntime) -> Result<(), Fail> {
    let alloc = rt.alloc();
    for (row, sections) in MODULES {
        let bytes = joined(alloc, sections)?;
        assert!(rt; fault_of(alloc, &bytes) == None, "{row}");
    }
    for (row, sections, at) in BAD_SECTIONS {
        let bytes = joined(alloc, sections)?;
        let wanted = Some(DecodeFault::BadSection { at });
        assert!(rt; fault_of(alloc, &bytes) == wanted, "{row}");
    }
    for (row, sections) in BAD_COUNTS {
        let bytes = joined(alloc, sections)?;
        assert!(rt;
            fault_of(alloc, &bytes) == Some(DecodeFault::BadCounts),
            "{row}"
        );
    }
    for (row, bytes) in NO_WASM {
        assert!(rt;
            fault_of(alloc, bytes) == Some(DecodeFault::NotWasm),
            "{row}"
        );
    }
    Ok(())
}

// What the first bytes of the small module give.
fn fault_of_front(len: usize) -> Option<DecodeFault> {
    match len {
        0..=7 => Some(DecodeFault::NotWasm),
        8 | 14 | 58 => None,
        9..=13 => Some(DecodeFault::BadSection { at: 0 }),
        15..=17 => Some(DecodeFault::BadSection { at: 1 }),
        18 | 26 | 48 => Some(DecodeFault::BadCounts),
        19..=25 => Some(DecodeFault::BadSection { at: 2 }),
        27..=47 => Some(DecodeFault::BadSection { at: 3 }),
        _ => Some(DecodeFault::BadSection { at: 4 }),
    }
}

#[test]
fn modules_cut_short(rt: HostRuntime) -> Result<(), Fail> {
    let bytes = joined(rt.alloc(), &SMALL)?;
    assert!(rt; bytes.len() == 58);
    for len in 0..59usize {
        let Some(front) = bytes.as_slice().get(..len) else {
            return Err(Fail::from("no front"));
        };
        assert!(rt;
            fault_of(rt.alloc(), front) == fault_of_front(len),
            "{len} bytes"
        );
    }
    Ok(())
}

fn has_small_sections(module: &Module<'_>) -> bool {
    let [types, functions, globals, exports, code] = module.sections() else {
        return false;
    };
    *types
        == Section {
            id: 1,
            payload: b"\x01\x60\0\0",
        }
        && functions.id == 3
        && globals.id == 6
        && exports.id == 7
        && *code
            == Section {
                id: 10,
                payload: b"\x01\x06\0\x41\x2A\x24\0\x0B",
            }
}

fn has_small_lists(module: &Module<'_>) -> bool {
    let exports = [Export {
        name: "wizer.initialize",
        target: ExportTarget::Func(0),
    }];
    module.functions() == [0].as_slice()
        && module.exports() == exports.as_slice()
        && module.imports().is_empty()
        && module.tables().is_empty()
        && module.memories().is_empty()
        && module.elements().is_empty()
        && module.datas().is_empty()
        && module.start().is_none()
        && module.data_count().is_none()
}

fn has_small_code(module: &Module<'_>) -> bool {
    let ([kind], [global], [body]) = (module.types(), module.globals(), module.bodies()) else {
        return false;
    };
    let wanted = GlobalType {
        value: ValType::I32,
        mutable: true,
    };
    kind.params().is_empty()
        && kind.results().is_empty()
        && global.kind == wanted
        && matches!(global.init.block(0), Some([Instr::I32Const(0)]))
        && matches!(
            body.block(0),
            Some([Instr::I32Const(42), Instr::GlobalSet(0)])
        )
}

fn has_full_lists(module: &Module<'_>) -> bool {
    module.sections().len() == 25
        && module.types().len() == 1
        && module.imports().len() == 1
        && module.functions().len() == 1
        && module.tables().len() == 1
        && module.memories().len() == 1
        && module.globals().len() == 1
        && module.exports().len() == 1
        && module.start() == Some(0)
        && module.elements().len() == 1
        && module.data_count() == Some(1)
        && module.bodies().len() == 1
        && matches!(module.datas(), [data] if data.bytes == b"\xAA".as_slice())
}

#[test]
fn parts_of_modules(rt: HostRuntime) -> Result<(), Fail> {
    let small = joined(rt.alloc(), &SMALL)?;
    let full = joined(rt.alloc(), &FULL)?;
    if small.len() > 1_000 || full.len() > 1_000 {
        return Err(Fail::from("too long"));
    }
    let (Ok(small), Ok(full)) = (decode(rt.alloc(), &small), decode(rt.alloc(), &full)) else {
        return Err(Fail::from("no module"));
    };
    assert!(rt; has_small_sections(&small));
    assert!(rt; has_small_lists(&small));
    assert!(rt; has_small_code(&small));
    assert!(rt; has_full_lists(&full));
    Ok(())
}
