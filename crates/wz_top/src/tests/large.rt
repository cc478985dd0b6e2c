//! Modules at the limits: frames and their locals, nested blocks, and as many data segments as are
//! chosen at most.

ghost use Rattle.std.specs.Prelude.{◌<◌};

use super::running::{Through, all_go_through, ended, module, texts};
use super::sections::{EXPORT, FUNCTION, GLOBAL, NO_EXPORT, TYPES};
use std::alloc::{AllocError, Global};
use std::test::Fail;
use wz_bytes::{put_signed, put_unsigned};

// Each calls itself as long as the global, to which it adds 1, is below a number.
const FRAMES: &[u8] =
    b"\x0A\x17\x01\x15\0\x23\0\x41\x9F\x9C\x01\x49\x04\x40\x23\0\x41\x01\x6A\x24\0\x10\0\x0B\x0B";

const LOCALS: &[u8] =
    b"\x0A\x1A\x01\x18\x01\xD0\x86\x03\x7F\x23\0\x41\xCF\0\x49\x04\x40\x23\0\x41\x01\x6A\x24\0\
\x10\0\x0B\x0B";

static RECURSIONS: [Through; 2] = [
    Through {
        name: "20,000 frames",
        words: &[],
        input: &[TYPES, FUNCTION, GLOBAL, EXPORT, FRAMES],
        output: &[
            TYPES,
            FUNCTION,
            b"\x06\x08\x01\x7F\x01\x41\x9F\x9C\x01\x0B",
            NO_EXPORT,
            FRAMES,
        ],
        line: "wizer: 219995 ticks, 0 pages, 0 segments, 56 bytes\n",
    },
    Through {
        name: "80 frames of 50,000 locals",
        words: &[],
        input: &[TYPES, FUNCTION, GLOBAL, EXPORT, LOCALS],
        output: &[
            TYPES,
            FUNCTION,
            b"\x06\x07\x01\x7F\x01\x41\xCF\0\x0B",
            NO_EXPORT,
            LOCALS,
        ],
        line: "wizer: 875 ticks, 0 pages, 0 segments, 58 bytes\n",
    },
];

#[test]
fn as_many_frames_and_locals_as_there_may_be(rt: HostRuntime) -> Result<(), Fail> {
    all_go_through(&rt, rt.alloc(), &RECURSIONS)
}

/// A section of these contents.
fn section(alloc: Global, id: u8, contents: &[u8]) -> Result<Vec<u8>, AllocError> {
    let mut bytes = Vec::new(alloc);
    bytes.push(id)?;
    put_unsigned(&mut bytes, contents.len() as u64)?;
    bytes.extend_from_slice(contents)?;
    Ok(bytes)
}

const DEPTH: usize = 100_000;

/// The same bytes so many times.
fn put_repeated(bytes: &mut Vec<u8>, piece: &[u8], count: usize) -> Result<(), AllocError> {
    for _ in 0..count {
        bytes.extend_from_slice(piece)?;
    }
    Ok(())
}

/// A body of blocks, each within the one before.
fn nested_blocks(alloc: Global) -> Result<Vec<u8>, AllocError> {
    let mut entry = Vec::new(alloc);
    entry.push(0)?;
    put_repeated(&mut entry, b"\x02\x40", DEPTH)?;
    put_repeated(&mut entry, b"\x0B", DEPTH + 1)?;
    Ok(entry)
}

/// A code section of one body.
fn one_body(alloc: Global, entry: &[u8]) -> Result<Vec<u8>, AllocError> {
    let mut contents = Vec::new(alloc);
    contents.push(1)?;
    put_unsigned(&mut contents, entry.len() as u64)?;
    contents.extend_from_slice(entry)?;
    section(alloc, 10, &contents)
}

#[test]
fn nested_blocks_are_left_one_by_one(rt: HostRuntime) -> Result<(), Fail> {
    let alloc = rt.alloc();
    let words = texts(alloc, &["in.wasm", "-o", "out.wasm", "--report"], &[])?;
    let code = one_body(alloc, &nested_blocks(alloc)?)?;
    let input = module(alloc, &[TYPES, FUNCTION, EXPORT, &code])?;
    let output = module(alloc, &[TYPES, FUNCTION, NO_EXPORT, &code])?;
    let line = "wizer: 200001 ticks, 0 pages, 0 segments, 300031 bytes\n";
    ended(alloc, &words, input)?.is_done(&rt, "nested blocks", &output, line);
    Ok(())
}

const PAGES: &[u8] = b"\x05\x03\x01\0\x04";

// Stores 1 at 0, 10 and so on up to 199,990, and at 200,091.
const MANY_STORES: &[u8] =
    b"\x0A\x27\x01\x25\x01\x01\x7F\x03\x40\x20\0\x41\x01\x3A\0\0\x20\0\x41\x0A\x6A\
\x22\0\x41\xC0\x9A\x0C\x49\x0D\0\x0B\x41\x9B\x9B\x0C\x41\x01\x3A\0\0\x0B";

/// An active segment.
fn put_segment(bytes: &mut Vec<u8>, at: usize, contents: &[u8]) -> Result<(), AllocError>
    requires { at < 999_999 }
{
    bytes.extend_from_slice(b"\0\x41")?;
    put_signed(bytes, at as i64)?;
    bytes.push(0x0B)?;
    put_unsigned(bytes, contents.len() as u64)?;
    bytes.extend_from_slice(contents)
}

/// The number of segments that are chosen at most, and those of one byte.
fn first_segments(alloc: Global) -> Result<Vec<u8>, AllocError> {
    let mut contents = Vec::new(alloc);
    put_unsigned(&mut contents, 10_000)?;
    for number in 0..9_998usize {
        put_segment(&mut contents, 10 * number, &[1])?;
    }
    Ok(contents)
}

/// The bytes of the segment before the last, in which the other gaps of nine lie.
fn long_segment(alloc: Global) -> Result<Vec<u8>, AllocError> {
    let mut bytes = Vec::new(alloc);
    put_repeated(&mut bytes, b"\x01\0\0\0\0\0\0\0\0\0", 10_001)?;
    bytes.push(1)?;
    Ok(bytes)
}

fn many_segments(alloc: Global) -> Result<Vec<u8>, AllocError> {
    let mut contents = first_segments(alloc)?;
    put_segment(&mut contents, 99_980, &long_segment(alloc)?)?;
    put_segment(&mut contents, 200_091, &[1])?;
    section(alloc, 11, &contents)
}

#[test]
fn as_many_segments_as_are_chosen_at_most(rt: HostRuntime) -> Result<(), Fail> {
    let alloc = rt.alloc();
    let words = texts(alloc, &["in.wasm", "-o", "out.wasm", "--report"], &[])?;
    let datas = many_segments(alloc)?;
    let input = module(alloc, &[TYPES, FUNCTION, PAGES, EXPORT, MANY_STORES])?;
    let output = module(
        alloc,
        &[TYPES, FUNCTION, PAGES, NO_EXPORT, MANY_STORES, &datas],
    )?;
    let line = "wizer: 200006 ticks, 4 pages, 10000 segments, 179258 bytes\n";
    ended(alloc, &words, input)?.is_done(&rt, "many segments", &output, line);
    Ok(())
}
