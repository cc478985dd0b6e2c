//! Payloads well and badly spelled, with the number of their items.

use crate::fault::SectionFault;
use crate::sections::{
    read_code, read_data, read_data_count, read_elements, read_exports, read_functions,
    read_globals, read_imports, read_memories, read_start, read_tables, read_types,
};
use crate::spans::element_spans;
use std::alloc::Global;
use std::test::Fail;
use wz_module::Span;

fn number_of<T: Drop>(items: Result<Vec<T>, SectionFault>) -> Result<usize, SectionFault> {
    match items {
        Ok(items) => Ok(items.len()),
        Err(fault) => Err(fault),
    }
}

fn one_of(number: Result<u32, SectionFault>) -> Result<usize, SectionFault> {
    match number {
        Ok(_) => Ok(1),
        Err(fault) => Err(fault),
    }
}

// How many items the payload of a section with this id has, a start or data count being one.
fn count_of(alloc: Global, id: u8, payload: &[u8]) -> Result<usize, SectionFault> {
    if payload.len() > 100 {
        return Err(SectionFault::NoMemory);
    }
    match id {
        1 => number_of(read_types(alloc, payload)),
        2 => number_of(read_imports(alloc, payload)),
        3 => number_of(read_functions(alloc, payload)),
        4 => number_of(read_tables(alloc, payload)),
        5 => number_of(read_memories(alloc, payload)),
        6 => number_of(read_globals(alloc, payload)),
        7 => number_of(read_exports(alloc, payload)),
        8 => one_of(read_start(payload)),
        9 => number_of(read_elements(alloc, payload)),
        10 => number_of(read_code(alloc, payload)),
        11 => number_of(read_data(alloc, payload)),
        _ => one_of(read_data_count(payload)),
    }
}

// The row, the section's id, a payload that is well spelled, and the number of its items.
const WELL: [(&str, u8, &[u8], usize); 34] = [
    ("no types", 1, &[0x00], 0),
    (
        "types",
        1,
        &[0x02, 0x60, 0x00, 0x00, 0x60, 0x01, 0x7F, 0x02, 0x7C, 0x70],
        2,
    ),
    (
        "types, padded counts",
        1,
        &[0x81, 0x00, 0x60, 0x81, 0x80, 0x00, 0x6F, 0x80, 0x00],
        1,
    ),
    (
        "import of a function",
        2,
        &[0x01, 0x01, 0x61, 0x00, 0x00, 0x85, 0x00],
        1,
    ),
    (
        "import of a table",
        2,
        &[0x01, 0x00, 0x00, 0x01, 0x6F, 0x01, 0x00, 0x81, 0x00],
        1,
    ),
    (
        "import of a memory",
        2,
        &[0x01, 0x00, 0x00, 0x02, 0x00, 0x01],
        1,
    ),
    (
        "import of a global",
        2,
        &[0x01, 0x00, 0x00, 0x03, 0x7E, 0x01],
        1,
    ),
    (
        "imports of UTF-8",
        2,
        &[0x01, 0x02, 0xC3, 0xA9, 0x81, 0x00, 0x62, 0x00, 0x00],
        1,
    ),
    (
        "functions",
        3,
        &[0x03, 0x00, 0x81, 0x00, 0xFF, 0xFF, 0xFF, 0xFF, 0x0F],
        3,
    ),
    (
        "tables",
        4,
        &[0x02, 0x70, 0x00, 0x00, 0x6F, 0x01, 0x80, 0x01, 0x02],
        2,
    ),
    (
        "memories",
        5,
        &[0x02, 0x00, 0x81, 0x00, 0x01, 0x02, 0x01],
        2,
    ),
    (
        "globals",
        6,
        &[
            0x02, 0x7F, 0x00, 0x41, 0x00, 0x0B, 0x70, 0x01, 0xD0, 0x70, 0x0B,
        ],
        2,
    ),
    ("global without code", 6, &[0x01, 0x7F, 0x00, 0x0B], 1),
    (
        "exports",
        7,
        &[
            0x04, 0x01, 0x61, 0x00, 0x00, 0x00, 0x01, 0x01, 0x00, 0x02, 0x80, 0x00, 0x00, 0x03,
            0x04,
        ],
        4,
    ),
    ("start", 8, &[0x05], 1),
    ("start, padded", 8, &[0x85, 0x80, 0x80, 0x80, 0x00], 1),
    (
        "elements 0",
        9,
        &[0x01, 0x00, 0x41, 0x00, 0x0B, 0x02, 0x00, 0x01],
        1,
    ),
    ("elements 1", 9, &[0x01, 0x01, 0x00, 0x01, 0x00], 1),
    (
        "elements 2",
        9,
        &[0x01, 0x02, 0x03, 0x41, 0x00, 0x0B, 0x00, 0x00],
        1,
    ),
    (
        "elements 3",
        9,
        &[0x01, 0x83, 0x80, 0x00, 0x00, 0x01, 0x00],
        1,
    ),
    (
        "elements 4",
        9,
        &[0x01, 0x04, 0x41, 0x00, 0x0B, 0x01, 0xD0, 0x70, 0x0B],
        1,
    ),
    (
        "elements 5",
        9,
        &[0x01, 0x05, 0x6F, 0x01, 0xD0, 0x6F, 0x0B],
        1,
    ),
    (
        "elements 6",
        9,
        &[0x01, 0x06, 0x00, 0x41, 0x00, 0x0B, 0x6F, 0x00],
        1,
    ),
    (
        "elements 7",
        9,
        &[0x01, 0x07, 0x70, 0x01, 0xD2, 0x00, 0x0B],
        1,
    ),
    (
        "elements one behind another",
        9,
        &[0x02, 0x01, 0x00, 0x00, 0x07, 0x70, 0x00],
        2,
    ),
    (
        "code",
        10,
        &[0x02, 0x02, 0x00, 0x0B, 0x82, 0x00, 0x00, 0x0B],
        2,
    ),
    (
        "code with locals",
        10,
        &[0x01, 0x05, 0x01, 0x02, 0x7F, 0x01, 0x0B],
        1,
    ),
    ("data 0", 11, &[0x01, 0x00, 0x41, 0x00, 0x0B, 0x01, 0xAA], 1),
    ("data 1", 11, &[0x01, 0x81, 0x00, 0x82, 0x00, 0xAA, 0xBB], 1),
    ("data 2", 11, &[0x01, 0x02, 0x01, 0x41, 0x00, 0x0B, 0x00], 1),
    ("no data", 11, &[0x80, 0x00], 0),
    ("data count", 12, &[0x07], 1),
    ("data count, padded", 12, &[0x80, 0x00], 1),
    (
        "code, the greatest count of locals",
        10,
        &[0x01, 0x08, 0x01, 0xFF, 0xFF, 0xFF, 0xFF, 0x0F, 0x7F, 0x0B],
        1,
    ),
];

// The row, the section's id, and a payload that is badly spelled.
const BAD: [(&str, u8, &[u8]); 48] = [
    ("no count", 1, &[]),
    ("types cut short", 1, &[0x01, 0x60, 0x00]),
    (
        "a byte behind the types",
        1,
        &[0x01, 0x60, 0x00, 0x00, 0x00],
    ),
    ("too few types", 1, &[0x02, 0x60, 0x00, 0x00]),
    ("another form of type", 1, &[0x01, 0x61, 0x00, 0x00]),
    ("no value type", 1, &[0x01, 0x60, 0x01, 0x7B, 0x00]),
    ("a great count", 1, &[0xFF, 0xFF, 0xFF, 0xFF, 0x0F]),
    (
        "an unused bit of the count",
        1,
        &[0x80, 0x80, 0x80, 0x80, 0x10],
    ),
    ("import cut short", 2, &[0x01, 0x01, 0x61, 0x00, 0x00]),
    (
        "a byte behind the imports",
        2,
        &[0x01, 0x00, 0x00, 0x00, 0x00, 0x00],
    ),
    ("import of kind 4", 2, &[0x01, 0x00, 0x00, 0x04, 0x00]),
    (
        "import, name not UTF-8",
        2,
        &[0x01, 0x01, 0xFF, 0x00, 0x00, 0x00],
    ),
    (
        "import, name too long",
        2,
        &[0x01, 0x09, 0x61, 0x00, 0x00, 0x00],
    ),
    ("functions cut short", 3, &[0x02, 0x00]),
    ("a byte behind the functions", 3, &[0x01, 0x00, 0x00]),
    ("table of numbers", 4, &[0x01, 0x7F, 0x00, 0x00]),
    ("limits of kind 2", 4, &[0x01, 0x70, 0x02, 0x00]),
    ("no maximum", 5, &[0x01, 0x01, 0x00]),
    (
        "an unused bit of a minimum",
        5,
        &[0x01, 0x00, 0xFF, 0xFF, 0xFF, 0xFF, 0x1F],
    ),
    ("a maximum too many", 5, &[0x01, 0x00, 0x01, 0x02]),
    (
        "global of mutability 2",
        6,
        &[0x01, 0x7F, 0x02, 0x41, 0x00, 0x0B],
    ),
    ("global without an end", 6, &[0x01, 0x7F, 0x00, 0x41, 0x00]),
    (
        "a byte behind the globals",
        6,
        &[0x01, 0x7F, 0x00, 0x41, 0x00, 0x0B, 0x0B],
    ),
    ("export of kind 4", 7, &[0x01, 0x00, 0x04, 0x00]),
    ("export cut short", 7, &[0x01, 0x00, 0x00]),
    ("a byte behind the exports", 7, &[0x00, 0x00]),
    ("export, name not UTF-8", 7, &[0x01, 0x01, 0xC0, 0x00, 0x00]),
    ("no start", 8, &[]),
    ("a byte behind the start", 8, &[0x00, 0x00]),
    ("elements 8", 9, &[0x01, 0x08, 0x00, 0x00]),
    ("elements of kind 1", 9, &[0x01, 0x01, 0x01, 0x00]),
    ("elements 3 of a type", 9, &[0x01, 0x03, 0x70, 0x00]),
    ("elements 7 of a kind", 9, &[0x01, 0x07, 0x00, 0x00]),
    ("elements 0 without an offset", 9, &[0x01, 0x00, 0x00]),
    (
        "elements 4 of functions",
        9,
        &[0x01, 0x04, 0x41, 0x00, 0x0B, 0x01, 0x00],
    ),
    (
        "elements 6 of a kind",
        9,
        &[0x01, 0x06, 0x00, 0x0B, 0x00, 0x00],
    ),
    ("elements cut short", 9, &[0x02, 0x01, 0x00, 0x00]),
    (
        "a byte behind the elements",
        9,
        &[0x01, 0x01, 0x00, 0x00, 0x00],
    ),
    ("code shorter than its size", 10, &[0x01, 0x03, 0x00, 0x0B]),
    ("code longer than its size", 10, &[0x01, 0x01, 0x00, 0x0B]),
    (
        "a byte in an entry behind the code",
        10,
        &[0x01, 0x03, 0x00, 0x0B, 0x00],
    ),
    (
        "too many locals",
        10,
        &[
            0x01, 0x0A, 0x02, 0xFF, 0xFF, 0xFF, 0xFF, 0x0F, 0x7F, 0x01, 0x7F, 0x0B,
        ],
    ),
    ("data 3", 11, &[0x01, 0x03, 0x00]),
    ("data 0 without an offset", 11, &[0x01, 0x00, 0x00]),
    ("data 2 without an offset", 11, &[0x01, 0x02, 0x00, 0x00]),
    ("data cut short", 11, &[0x01, 0x01, 0x02, 0xAA]),
    ("no data count", 12, &[]),
    ("a byte behind the data count", 12, &[0x01, 0x00]),
];

#[test]
fn payloads(rt: HostRuntime) {
    for (row, id, payload, count) in WELL {
        assert!(rt; count_of(rt.alloc(), id, payload) == Ok(count), "{row}");
    }
    for (row, id, payload) in BAD {
        assert!(rt;
            count_of(rt.alloc(), id, payload) == Err(SectionFault::Bad),
            "{row}"
        );
    }
}

// Two segments behind a padded count, the first with a padded flag.
const SEGMENTS: [u8; 13] = [
    0x82, 0x00, 0x83, 0x80, 0x00, 0x00, 0x01, 0x05, 0x07, 0x70, 0x01, 0x0B, 0x0B,
];

#[test]
fn spans(rt: HostRuntime) -> Result<(), Fail> {
    let Ok(spans) = element_spans(rt.alloc(), &SEGMENTS[..12]) else {
        return Err(Fail::from("no spans"));
    };
    let wanted = [
        Span {
            at: 2,
            head: 3,
            len: 6,
        },
        Span {
            at: 8,
            head: 1,
            len: 4,
        },
    ];
    assert!(rt; spans.as_slice() == wanted.as_slice());
    assert!(rt; matches!(element_spans(rt.alloc(), &SEGMENTS), Err(SectionFault::Bad)));
    Ok(())
}
