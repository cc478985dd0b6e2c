//! Short bodies: what each makes of a global and of a memory, or how it traps, and in how many
//! ticks.

mod control;
mod memory;
mod numeric;
mod traps;

use super::running::{ended, joined, module, texts};
use super::sections::{EXPORT, NO_EXPORT};
use std::alloc::{AllocError, Global};
use std::process::Abort;
use std::test::Fail;
use wz_bytes::put_unsigned;

/// The body of the initialisation, in pieces, in a module of three functions, a table, a memory, a
/// global, an active and a passive data segment: the global before and after, the data section
/// after, and the report.
#[derive(Clone, Copy)]
struct ShortBody {
    name: &'static str,
    before: &'static [u8],
    body: &'static [&'static [u8]],
    after: &'static [u8],
    data: &'static [&'static [u8]],
    line: &'static str,
}

/// A body of the initialisation that traps where there is so much fuel, and runs out of it where
/// there is one less.
#[derive(Clone, Copy)]
struct Trap {
    name: &'static str,
    body: &'static [u8],
    fuel: &'static str,
    less: &'static str,
    line: &'static str,
}

// Two types, of which the second takes an i32 and gives one; functions of the first, of the second
// and of the first type; a table of three entries, and a memory of one page and at most two.
const FRONT: &[u8] = b"\x01\x09\x02\x60\0\0\x60\x01\x7F\x01\x7F\x03\x04\x03\0\x01\0\
\x04\x04\x01\x70\0\x03\x05\x04\x01\x01\x01\x02";

// The functions 1 and 2 in the first two entries, and two data segments.
const MIDDLE: &[u8] = b"\x09\x08\x01\0\x41\0\x0B\x02\x01\x02\x0C\x01\x02";

// Function 1 adds 1, function 2 traps.
const OTHERS: &[u8] = b"\x07\0\x20\0\x41\x01\x6A\x0B\x03\0\0\x0B";

// Eight bytes in front of the memory, and a passive segment of three.
const DATA: &[u8] =
    b"\x0B\x13\x02\0\x41\0\x0B\x08\x81\x82\x83\x84\x85\x86\x87\x88\x01\x03\xAB\xCD\xEF";

const PASSIVE: &[u8] = b"\x01\x03\xAB\xCD\xEF";

// Globals of zero, and of null.
const I32: &[u8] = b"\x7F\x01\x41\0\x0B";

const I64: &[u8] = b"\x7E\x01\x42\0\x0B";

const F32: &[u8] = b"\x7D\x01\x43\0\0\0\0\x0B";

const F64: &[u8] = b"\x7C\x01\x44\0\0\0\0\0\0\0\0\x0B";

const FUNCREF: &[u8] = b"\x70\x01\xD0\x70\x0B";

/// What stands behind its own length.
fn put_sized(bytes: &mut Vec<u8>, contents: &[u8]) -> Result<(), AllocError> {
    put_unsigned(bytes, contents.len() as u64)?;
    bytes.extend_from_slice(contents)
}

/// The code section with this body in front.
fn code_section(alloc: Global, body: &[u8]) -> Result<Vec<u8>, AllocError> {
    let mut entries = Vec::new(alloc);
    entries.push(3)?;
    put_sized(&mut entries, body)?;
    entries.extend_from_slice(OTHERS)?;
    let mut section = Vec::new(alloc);
    section.push(10)?;
    put_sized(&mut section, &entries)?;
    Ok(section)
}

/// The section of one global.
fn global_section(alloc: Global, global: &[u8]) -> Result<Vec<u8>, AllocError> {
    let mut section = Vec::new(alloc);
    section.push(6)?;
    put_unsigned(&mut section, global.len() as u64 + 1)?;
    section.push(1)?;
    section.extend_from_slice(global)?;
    Ok(section)
}

/// The module with this global, export section, body and data section.
fn whole(
    alloc: Global,
    global: &[u8],
    exports: &[u8],
    body: &[u8],
    datas: &[u8],
) -> Result<Vec<u8>, AllocError> {
    let global = global_section(alloc, global)?;
    let code = code_section(alloc, body)?;
    module(alloc, &[FRONT, &global, exports, MIDDLE, &code, datas])
}

/// Runs a body that ends.
fn reaches(rt: &impl Abort, alloc: Global, case: &ShortBody) -> Result<(), Fail> {
    let body = joined(alloc, case.body)?;
    let datas = joined(alloc, case.data)?;
    let words = texts(alloc, &["in.wasm", "-o", "out.wasm", "--report"], &[])?;
    let input = whole(alloc, case.before, EXPORT, &body, DATA)?;
    let output = whole(alloc, case.after, NO_EXPORT, &body, &datas)?;
    ended(alloc, &words, input)?.is_done(rt, case.name, &output, case.line);
    Ok(())
}

/// Runs bodies that end.
fn all_reach(rt: &impl Abort, alloc: Global, cases: &[ShortBody]) -> Result<(), Fail> {
    for case in cases {
        reaches(rt, alloc, case)?;
    }
    Ok(())
}

/// Runs a body with so much fuel, which ends with this line and no output.
fn fails(rt: &impl Abort, alloc: Global, case: &Trap, fuel: &str, line: &str) -> Result<(), Fail> {
    let words = texts(alloc, &["in.wasm", "-o", "out.wasm", "--fuel"], &[fuel])?;
    let input = whole(alloc, I32, EXPORT, case.body, DATA)?;
    ended(alloc, &words, input)?.is_refused(rt, 1, case.name, line);
    Ok(())
}

/// Runs bodies that trap, with the fuel that just suffices and with one less.
fn all_trap(rt: &impl Abort, alloc: Global, cases: &[Trap]) -> Result<(), Fail> {
    for case in cases {
        fails(rt, alloc, case, case.fuel, case.line)?;
        fails(rt, alloc, case, case.less, "wizer: the fuel ran out\n")?;
    }
    Ok(())
}

#[test]
fn control_instructions(rt: HostRuntime) -> Result<(), Fail> {
    all_reach(&rt, rt.alloc(), &control::CASES)
}

#[test]
fn i32_operations(rt: HostRuntime) -> Result<(), Fail> {
    all_reach(&rt, rt.alloc(), &numeric::I32_OPERATIONS)
}

#[test]
fn i32_comparisons(rt: HostRuntime) -> Result<(), Fail> {
    all_reach(&rt, rt.alloc(), &numeric::I32_COMPARISONS)
}

#[test]
fn i64_operations(rt: HostRuntime) -> Result<(), Fail> {
    all_reach(&rt, rt.alloc(), &numeric::I64_OPERATIONS)
}

#[test]
fn i64_comparisons(rt: HostRuntime) -> Result<(), Fail> {
    all_reach(&rt, rt.alloc(), &numeric::I64_COMPARISONS)
}

#[test]
fn float_operations_on_bits(rt: HostRuntime) -> Result<(), Fail> {
    all_reach(&rt, rt.alloc(), &numeric::FLOATS)
}

#[test]
fn memory_instructions(rt: HostRuntime) -> Result<(), Fail> {
    all_reach(&rt, rt.alloc(), &memory::CASES)
}

#[test]
fn ways_to_trap(rt: HostRuntime) -> Result<(), Fail> {
    all_trap(&rt, rt.alloc(), &traps::CASES)
}
