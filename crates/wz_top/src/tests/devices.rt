//! Devices that fail: each call of each kind in turn, an input that is missing or too long, and
//! messages that fail.

ghost use Rattle.std.specs.Prelude.{◌<◌};

use super::running::{HEADER, joined, module, texts};
use super::sections::{CODE, EXPORT, FUNCTION, GLOBAL, GLOBAL_AFTER, NO_EXPORT, TYPES};
use crate::{Outcome, wizer};
use std::alloc::Global;
use std::process::Abort;
use std::test::Fail;
use wz_io::{CallKind, INPUT_LIMIT, MemFiles, MemSink};

/// The nth call of a kind that fails, the status and the line, and how many bytes of the output
/// there are then, if it is made.
type Row = (CallKind, u32, u8, &'static str, Option<usize>);

const INPUT: &str = "wizer: the input can't be read\n";

const TOO_LONG: &str = "wizer: the input is longer than 33554432 bytes\n";

const OUTPUT: &str = "wizer: the output can't be written\n";

/// With 16 bytes a call: the last row of each kind is behind all of its calls.
static CALLS: [Row; 15] = [
    (CallKind::OpenInput, 1, 3, INPUT, None),
    (CallKind::OpenInput, 2, 0, "", Some(39)),
    (CallKind::Read, 1, 3, INPUT, None),
    (CallKind::Read, 2, 3, INPUT, None),
    (CallKind::Read, 3, 3, INPUT, None),
    (CallKind::Read, 4, 3, INPUT, None),
    (CallKind::Read, 5, 3, INPUT, None),
    (CallKind::Read, 6, 0, "", Some(39)),
    (CallKind::Create, 1, 3, OUTPUT, None),
    (CallKind::Create, 2, 0, "", Some(39)),
    (CallKind::Write, 1, 3, OUTPUT, Some(0)),
    (CallKind::Write, 2, 3, OUTPUT, Some(16)),
    (CallKind::Write, 3, 3, OUTPUT, Some(32)),
    (CallKind::Write, 4, 0, "", Some(39)),
    (CallKind::Close, 1, 3, OUTPUT, Some(39)),
];

/// The number of a call, counted from 1, as `MemFiles::fail` asks for.
fn call_number(nth: u32) -> u32
    ensures { 0 < result }
{
    nth.max(1)
}

/// Runs a module with a call that fails.
fn stops(rt: &impl Abort, alloc: Global, row: &Row) -> Result<(), Fail> {
    let (kind, nth, code, line, length) = *row;
    let words = texts(alloc, &["in.wasm", "-o", "out.wasm"], &[])?;
    let output = module(alloc, &[TYPES, FUNCTION, GLOBAL_AFTER, NO_EXPORT, CODE])?;
    let mut files = MemFiles::new(alloc, Vec::new(alloc), 16);
    let mut messages = MemSink::new(alloc, None);
    files.put_file(
        "in.wasm",
        module(alloc, &[TYPES, FUNCTION, GLOBAL, EXPORT, CODE])?,
    )?;
    files.fail(kind, call_number(nth))?;
    let outcome = wizer(alloc, &words, &mut files, &mut messages);
    assert_eq!(rt; outcome.code(), code, "{kind:?} {nth}");
    assert!(rt; messages.text() == line.as_bytes(), "{kind:?} {nth}");
    let written = length.and_then(|count| output.get(..count));
    assert!(rt; files.file("out.wasm") == written, "{kind:?} {nth}");
    Ok(())
}

#[test]
fn each_call_that_fails_is_told(rt: HostRuntime) -> Result<(), Fail> {
    for row in &CALLS {
        stops(&rt, rt.alloc(), row)?;
    }
    Ok(())
}

#[test]
fn an_input_that_is_missing_or_too_long_makes_no_output(rt: HostRuntime) -> Result<(), Fail> {
    let alloc = rt.alloc();
    let words = texts(alloc, &["in.wasm", "-o", "out.wasm"], &[])?;
    let mut files = MemFiles::new(alloc, Vec::new(alloc), 65_536);
    let mut messages = MemSink::new(alloc, None);
    let missing = wizer(alloc, &words, &mut files, &mut messages);
    assert!(rt; matches!(&missing, Outcome::InputFault));
    assert!(rt; messages.text() == INPUT.as_bytes());
    files.put_file("in.wasm", vec![in alloc; 0u8; INPUT_LIMIT + 1]?)?;
    let long = wizer(alloc, &words, &mut files, &mut messages);
    assert!(rt; matches!(&long, Outcome::InputTooLong));
    assert!(rt; messages.text().ends_with(TOO_LONG.as_bytes()));
    assert!(rt; files.file("out.wasm").is_none());
    Ok(())
}

#[test]
fn messages_that_fail_change_no_outcome(rt: HostRuntime) -> Result<(), Fail> {
    let alloc = rt.alloc();
    let mut files = MemFiles::new(alloc, joined(alloc, &[HEADER])?, 16);
    let mut messages = MemSink::new(alloc, Some(1));
    let outcome = wizer(alloc, &[], &mut files, &mut messages);
    assert!(rt; matches!(&outcome, Outcome::Exports(_)));
    assert!(rt; messages.text().is_empty());
    Ok(())
}
