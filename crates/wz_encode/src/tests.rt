//! What each call appends behind a byte that was there, spelled by hand from the productions of the
//! standard.

use crate::datas::{DataSlot, put_data};
use crate::elements::put_elements;
use crate::exports::put_export;
use crate::globals::put_globals;
use crate::memories::put_memories;
use crate::sections::{put_count, put_section};
use std::process::Abort;
use std::test::Fail;
use wz_module::{ExportTarget, Span};
use wz_types::{GlobalType, Limits, MemType, RefKind, Reference, ValType, Value};

const BEFORE: u8 = 0xEE;

#[test]
fn sections_and_memories(rt: HostRuntime) -> Result<(), Fail> {
    let mut out = Vec::new(rt.alloc());
    out.push(BEFORE)?;
    put_section(&mut out, 8, &[0x05])?;
    put_section(&mut out, 0, &[])?;
    put_count(&mut out, 128)?;
    let sections = [0xEE, 0x08, 0x01, 0x05, 0x00, 0x00, 0x80, 0x01];
    assert_eq!(rt;
        out.as_slice(),
        sections.as_slice(),
        "a start section, an empty one, a count"
    );

    let mut out = Vec::new(rt.alloc());
    let grown = Limits {
        min: 2,
        max: Some(65_536),
    };
    let free = Limits { min: 0, max: None };
    put_memories(
        &mut out,
        &[MemType { limits: grown }, MemType { limits: free }],
    )?;
    let memories = [0x02, 0x01, 0x02, 0x80, 0x80, 0x04, 0x00, 0x00];
    assert_eq!(rt;
        out.as_slice(),
        memories.as_slice(),
        "a memory with a maximum, and one without"
    );
    Ok(())
}

// The row, a global's type and whether it is mutable, its value, and the bytes of the global.
const GLOBALS: [(&str, ValType, bool, Value, &[u8]); 6] = [
    (
        "the least number",
        ValType::I32,
        true,
        Value::I32(0x8000_0000),
        &[0x7F, 0x01, 0x41, 0x80, 0x80, 0x80, 0x80, 0x78, 0x0B],
    ),
    (
        "-1",
        ValType::I64,
        true,
        Value::I64(u64::MAX),
        &[0x7E, 0x01, 0x42, 0x7F, 0x0B],
    ),
    (
        "1.0",
        ValType::F32,
        true,
        Value::F32(0x3F80_0000),
        &[0x7D, 0x01, 0x43, 0x00, 0x00, 0x80, 0x3F, 0x0B],
    ),
    (
        "-0.0",
        ValType::F64,
        false,
        Value::F64(0x8000_0000_0000_0000),
        &[
            0x7C, 0x00, 0x44, 0x00, 0x00, 0x00, 0x00, 0x00, 0x00, 0x00, 0x80, 0x0B,
        ],
    ),
    (
        "no function",
        ValType::FuncRef,
        true,
        Value::Ref(Reference::Null(RefKind::Func)),
        &[0x70, 0x01, 0xD0, 0x70, 0x0B],
    ),
    (
        "function 200",
        ValType::FuncRef,
        false,
        Value::Ref(Reference::Fn(200)),
        &[0x70, 0x00, 0xD2, 0xC8, 0x01, 0x0B],
    ),
];

#[test]
fn globals(rt: HostRuntime) -> Result<(), Fail> {
    for (row, value, mutable, held, bytes) in GLOBALS {
        let mut out = Vec::new(rt.alloc());
        put_globals(&mut out, &[GlobalType { value, mutable }], &[held])?;
        assert_eq!(rt; out.first(), Some(&1), "{row}: one global");
        assert_eq!(rt; out.as_slice().get(1..), Some(bytes), "{row}");
    }
    Ok(())
}

#[test]
fn exports(rt: HostRuntime) -> Result<(), Fail> {
    for (row, name, target, bytes) in [
        (
            "function",
            "f",
            ExportTarget::Func(1),
            [0x01, 0x66, 0x00, 0x01].as_slice(),
        ),
        (
            "table",
            "",
            ExportTarget::Table(0),
            [0x00, 0x01, 0x00].as_slice(),
        ),
        (
            "memory",
            "m",
            ExportTarget::Memory(0),
            [0x01, 0x6D, 0x02, 0x00].as_slice(),
        ),
        (
            "global",
            "ö",
            ExportTarget::Global(300),
            [0x02, 0xC3, 0xB6, 0x03, 0xAC, 0x02].as_slice(),
        ),
    ] {
        let mut out = Vec::new(rt.alloc());
        put_export(&mut out, name, target)?;
        assert_eq!(rt; out.as_slice(), bytes, "{row}");
    }
    Ok(())
}

#[test]
fn data(rt: HostRuntime) -> Result<(), Fail> {
    for (row, slot, bytes) in [
        (
            "passive",
            DataSlot::Passive(&[0xAB, 0xCD]),
            [0x01, 0x02, 0xAB, 0xCD].as_slice(),
        ),
        ("nothing", DataSlot::Nothing, [0x01, 0x00].as_slice()),
        (
            "in memory 0",
            DataSlot::Head {
                memory: 0,
                at: 131_071,
                len: 1,
            },
            [0x00, 0x41, 0xFF, 0xFF, 0x07, 0x0B, 0x01].as_slice(),
        ),
        (
            "in memory 1",
            DataSlot::Head {
                memory: 1,
                at: 3,
                len: 1,
            },
            [0x02, 0x01, 0x41, 0x03, 0x0B, 0x01].as_slice(),
        ),
    ] {
        let mut out = Vec::new(rt.alloc());
        put_data(&mut out, slot)?;
        assert_eq!(rt; out.as_slice(), bytes, "{row}");
    }
    Ok(())
}

// Three passive segments: functions, functions with a padded flag, and expressions; the count is
// padded too.
const OLD: [u8; 17] = [
    0x83, 0x00, 0x01, 0x00, 0x01, 0x00, 0x81, 0x00, 0x00, 0x01, 0x01, 0x05, 0x70, 0x01, 0xD0, 0x70,
    0x0B,
];

const SPANS: [Span; 3] = [
    Span {
        at: 2,
        head: 1,
        len: 4,
    },
    Span {
        at: 6,
        head: 2,
        len: 5,
    },
    Span {
        at: 11,
        head: 1,
        len: 6,
    },
];

#[test]
fn elements(rt: HostRuntime) -> Result<(), Fail> {
    let old = OLD.as_slice();
    for (row, old, dropped, functions, bytes) in [
        (
            "declared alone",
            None,
            [].as_slice(),
            [0, 300].as_slice(),
            [0x01, 0x03, 0x00, 0x02, 0x00, 0xAC, 0x02].as_slice(),
        ),
        (
            "kept as it is",
            Some(old),
            [].as_slice(),
            [].as_slice(),
            old,
        ),
        (
            "one more",
            Some(old),
            [].as_slice(),
            [7].as_slice(),
            [
                0x04, 0x01, 0x00, 0x01, 0x00, 0x81, 0x00, 0x00, 0x01, 0x01, 0x05, 0x70, 0x01, 0xD0,
                0x70, 0x0B, 0x03, 0x00, 0x01, 0x07,
            ]
            .as_slice(),
        ),
        (
            "two dropped",
            Some(old),
            [1, 2].as_slice(),
            [].as_slice(),
            [
                0x03, 0x01, 0x00, 0x01, 0x00, 0x03, 0x00, 0x01, 0x01, 0x07, 0x70, 0x01, 0xD0, 0x70,
                0x0B,
            ]
            .as_slice(),
        ),
    ] {
        let mut out = Vec::new(rt.alloc());
        put_elements(&mut out, old, &SPANS, dropped, functions)?;
        assert_eq!(rt; out.as_slice(), bytes, "{row}");
    }
    Ok(())
}
