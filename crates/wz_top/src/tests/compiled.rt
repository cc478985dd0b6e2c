//! A module in the shape that a C compiler gives: a stack pointer, a table of functions, segments
//! behind a stack of 1 MiB, imports that aren't called, and custom sections.

use super::running::{HEADER, Refused, Through, goes_through, is_refused};
use std::test::Fail;

// Four numbers in and one out, one in, and none.
const TYPES: &[u8] = b"\x01\x10\x03\x60\x04\x7F\x7F\x7F\x7F\x01\x7F\x60\x01\x7F\0\x60\0\0";

const IMPORTS: &[u8] = b"\x02\x46\x02\x16wasi_snapshot_preview1\x08fd_write\0\0\
\x16wasi_snapshot_preview1\x09proc_exit\0\x01";

const FUNCTIONS: &[u8] = b"\x03\x04\x03\x02\x02\x02";

const TABLE: &[u8] = b"\x04\x05\x01\x70\x01\x03\x03";

const MEMORY: &[u8] = b"\x05\x03\x01\0\x11";

const STACK_POINTER: &[u8] = b"\x06\x09\x01\x7F\x01\x41\x80\x80\xC0\0\x0B";

const EXPORTS: &[u8] = b"\x07\x26\x03\x06memory\x02\0\x10wizer.initialize\0\x02\x06_start\0\x04";

const ELEMENTS: &[u8] = b"\x09\x08\x01\0\x41\x01\x0B\x02\x03\x04";

// The initialisation lowers the stack pointer by 16, fills four bytes at 1,048,704, copies three
// from 1,048,576 to 1,048,720, grows the memory by a page, calls function 3 through the table,
// whose number has five bytes, and raises the stack pointer. Function 3 stores 7 at 1,048,768.
const CODE: &[u8] = b"\x0A\x4D\x03\x3B\0\x23\0\x41\x10\x6B\x24\0\
\x41\x80\x81\xC0\0\x41\xF8\0\x41\x04\xFC\x0B\0\
\x41\x90\x81\xC0\0\x41\x80\x80\xC0\0\x41\x03\xFC\x0A\0\0\
\x41\x01\x40\0\x1A\x41\x01\x11\x02\x80\x80\x80\x80\0\
\x23\0\x41\x10\x6A\x24\0\x0B\
\x0C\0\x41\xC0\x81\xC0\0\x41\x07\x3A\0\0\x0B\x02\0\x0B";

// The initialisation calls import 0.
const WRITING: &[u8] = b"\x0A\x1F\x03\x0D\0\x41\x01\x41\0\x41\0\x41\0\x10\0\x1A\x0B\
\x0C\0\x41\xC0\x81\xC0\0\x41\x07\x3A\0\0\x0B\x02\0\x0B";

const DATA: &[u8] = b"\x0B\x1F\x03\0\x41\x80\x80\xC0\0\x0B\x03abc\
\0\x41\x98\x80\xC0\0\x0B\x02de\0\x41\xC0\x80\xC0\0\x0B\x01f";

const NAME: &[u8] = b"\0\x09\x04name\0\x02\x01c";

const PRODUCERS: &[u8] = b"\0\x0B\x09producers\0";

const FEATURES: &[u8] = b"\0\x1E\x0Ftarget_features\x01+\x0Bbulk-memory";

static COMPILED: Through = Through {
    name: "a module as a C compiler gives it",
    words: &[],
    input: &[
        TYPES,
        IMPORTS,
        FUNCTIONS,
        TABLE,
        MEMORY,
        STACK_POINTER,
        EXPORTS,
        ELEMENTS,
        CODE,
        DATA,
        NAME,
        PRODUCERS,
        FEATURES,
    ],
    output: &[
        TYPES,
        IMPORTS,
        FUNCTIONS,
        TABLE,
        b"\x05\x03\x01\0\x12",
        STACK_POINTER,
        b"\x07\x13\x02\x06memory\x02\0\x06_start\0\x04",
        ELEMENTS,
        CODE,
        b"\x0B\x3F\x06\0\x41\x80\x80\xC0\0\x0B\x03abc\
\0\x41\x98\x80\xC0\0\x0B\x02de\0\x41\xC0\x80\xC0\0\x0B\x01f\
\0\x41\x80\x81\xC0\0\x0B\x04xxxx\0\x41\x90\x81\xC0\0\x0B\x03abc\
\0\x41\xC0\x81\xC0\0\x0B\x01\x07",
        NAME,
        PRODUCERS,
        FEATURES,
    ],
    line: "wizer: 26 ticks, 18 pages, 6 segments, 358 bytes\n",
};

static WRITES: Refused = Refused {
    name: "a module as a C compiler gives it, which writes",
    words: &[],
    input: &[
        HEADER,
        TYPES,
        IMPORTS,
        FUNCTIONS,
        TABLE,
        MEMORY,
        STACK_POINTER,
        EXPORTS,
        ELEMENTS,
        WRITING,
        DATA,
        NAME,
        PRODUCERS,
        FEATURES,
    ],
    line: "wizer: the initialisation calls import 0\n",
};

#[test]
fn a_compiled_module(rt: HostRuntime) -> Result<(), Fail> {
    goes_through(&rt, rt.alloc(), &COMPILED)?;
    is_refused(&rt, rt.alloc(), &WRITES)
}
