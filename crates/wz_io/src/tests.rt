//! What no clause says: that calls succeed with memory at hand, and what real files give back.

ghost use Rattle.std.specs.Prelude.{◌<◌};

use crate::{
    CallKind, Failed, FileName, Files, MemFiles, MemSink, OpenFault, OsFiles, ReadAll, Sink,
    StdSink, read_all, write_all,
};
use std::alloc::Global;
use std::fs;
use std::test::Fail;

// How a copy ended, or the step at which it did.
#[derive(Clone, Copy, Debug, PartialEq, Eq)]
enum Ending {
    Done,
    OpenInput(OpenFault),
    Read(ReadAll),
    Create(OpenFault),
    Write,
    Close,
}

fn copy<F: Files>(
    alloc: Global,
    files: &mut F,
    from: FileName<'_>,
    to: FileName<'_>,
    limit: u8,
) -> Ending {
    if let Err(fault) = files.open_input(from) {
        return Ending::OpenInput(fault);
    }
    let bytes = match read_all(alloc, files, usize::from(limit)) {
        Ok(bytes) => bytes,
        Err(fault) => return Ending::Read(fault),
    };
    if let Err(fault) = files.create(to) {
        return Ending::Create(fault);
    }
    if write_all(files, &bytes).is_err() {
        return Ending::Write;
    }
    match files.close() {
        Ok(()) => Ending::Done,
        Err(Failed) => Ending::Close,
    }
}

// The number of a call, counted from 1, as `MemFiles::fail` asks for.
fn call_number(nth: u32) -> u32
    ensures { 0 < result }
{
    nth.max(1)
}

// Copies eight bytes in pieces of three, by four reads, of which the last finds the end, and by
// three writes. The nth call of that kind fails, and the output has what the calls before it took.
fn ends_so(
    alloc: Global,
    kind: CallKind,
    nth: u32,
    ending: Ending,
    output: Option<&[u8]>,
) -> Result<bool, Fail> {
    let mut files = MemFiles::new(alloc, Vec::from_slice(alloc, b"abcdefgh")?, 3);
    files.fail(kind, call_number(nth))?;
    let copied = copy(
        alloc,
        &mut files,
        FileName::Standard,
        FileName::Path("out"),
        8,
    );
    Ok(copied == ending && files.file("out") == output)
}

#[test]
fn each_kind_of_call_fails_where_it_is_listed(rt: HostRuntime) -> Result<(), Fail> {
    let failed = OpenFault::Failed;
    let table: [(CallKind, u32, Ending, Option<&[u8]>); 12] = [
        (CallKind::OpenInput, 1, Ending::OpenInput(failed), None),
        (CallKind::OpenInput, 2, Ending::Done, Some(b"abcdefgh")),
        (CallKind::Read, 1, Ending::Read(ReadAll::Failed), None),
        (CallKind::Read, 4, Ending::Read(ReadAll::Failed), None),
        (CallKind::Read, 5, Ending::Done, Some(b"abcdefgh")),
        (CallKind::Create, 1, Ending::Create(failed), None),
        (CallKind::Create, 2, Ending::Done, Some(b"abcdefgh")),
        (CallKind::Write, 1, Ending::Write, Some(b"")),
        (CallKind::Write, 3, Ending::Write, Some(b"abcdef")),
        (CallKind::Write, 4, Ending::Done, Some(b"abcdefgh")),
        (CallKind::Close, 1, Ending::Close, Some(b"abcdefgh")),
        (CallKind::Close, 2, Ending::Done, Some(b"abcdefgh")),
    ];
    for (kind, nth, ending, output) in table {
        assert!(rt;
            ends_so(rt.alloc(), kind, nth, ending, output)?,
            "{kind:?} {nth}"
        );
    }
    Ok(())
}

// A file that is put twice is there once, and can be read within a limit of its length. What goes
// to the standard output comes behind what it holds.
fn copies_so(
    files: &mut MemFiles,
    alloc: Global,
    from: &str,
    limit: u8,
    ending: Ending,
    stdout: &[u8],
) -> bool {
    let copied = copy(
        alloc,
        files,
        FileName::Path(from),
        FileName::Standard,
        limit,
    );
    copied == ending && files.stdout() == stdout
}

#[test]
fn files_in_memory_hold_what_they_are_given(rt: HostRuntime) -> Result<(), Fail> {
    let alloc = rt.alloc();
    let mut files = MemFiles::new(alloc, Vec::new(alloc), 2);
    files.put_file("in", Vec::from_slice(alloc, b"older")?)?;
    files.put_file("in", Vec::from_slice(alloc, b"newer")?)?;
    let table: [(&str, u8, Ending, &[u8]); 4] = [
        ("in", 4, Ending::Read(ReadAll::TooLong), b""),
        ("in", 5, Ending::Done, b"newer"),
        ("no", 5, Ending::OpenInput(OpenFault::Failed), b"newer"),
        ("in", 6, Ending::Done, b"newernewer"),
    ];
    for (from, limit, ending, stdout) in table {
        assert!(rt;
            copies_so(&mut files, alloc, from, limit, ending, stdout),
            "{from} {limit}"
        );
    }
    Ok(())
}

fn put_all(sink: &mut MemSink) {
    for piece in [b"a", b"b", b"c"] {
        let _ = sink.put(piece);
    }
}

#[test]
fn sinks_in_memory_fail_from_a_given_put_on(rt: HostRuntime) {
    let mut failing = MemSink::new(rt.alloc(), Some(3));
    put_all(&mut failing);
    assert_eq!(rt; failing.text(), b"ab".as_slice());
    let mut whole = MemSink::new(rt.alloc(), None);
    put_all(&mut whole);
    assert_eq!(rt; whole.text(), b"abc".as_slice());
}

// The real files give back what is written there.
fn copies_back(rt: &HostRuntime) -> bool {
    let alloc = rt.alloc();
    let mut files = OsFiles::new(rt);
    let (first, second) = (FileName::Path("first"), FileName::Path("second"));
    let missing = Ending::OpenInput(OpenFault::Failed);
    copy(alloc, &mut files, first, second, 8) == missing
        && files.create(first).is_ok()
        && write_all(&mut files, b"five.").is_ok()
        && copy(alloc, &mut files, first, second, 5) == Ending::Done
        && copy(alloc, &mut files, second, first, 4) == Ending::Read(ReadAll::TooLong)
        && read_back(alloc, &mut files, second)
}

fn read_back<F: Files>(alloc: Global, files: &mut F, name: FileName<'_>) -> bool {
    if files.open_input(name).is_err() {
        return false;
    }
    match read_all(alloc, files, 5) {
        Ok(bytes) => bytes.as_slice() == b"five.".as_slice(),
        Err(_) => false,
    }
}

#[test]
fn real_files_give_back_what_is_written(rt: HostRuntime) -> Result<(), Fail> {
    assert!(rt; copies_back(&rt));
    fs::remove_file(&rt, "first")?;
    fs::remove_file(&rt, "second")?;
    let stderr = rt.stderr();
    let mut sink = StdSink::new(&stderr);
    assert_eq!(rt; sink.put(b".\n"), Ok(2));
    Ok(())
}
