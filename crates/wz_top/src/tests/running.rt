//! A run of the tool over files in memory, and what is checked of it.

use crate::{Outcome, wizer};
use std::alloc::{AllocError, Global};
use std::process::Abort;
use std::test::Fail;
use wz_io::{MemFiles, MemSink};
use wz_types::Text;

/// A module that goes through: what the case shows, the words behind `in.wasm -o out.wasm
/// --report`, the sections of the input and of the output, and the report.
#[derive(Clone, Copy)]
pub(super) struct Through {
    pub name: &'static str,
    pub words: &'static [&'static str],
    pub input: &'static [&'static [u8]],
    pub output: &'static [&'static [u8]],
    pub line: &'static str,
}

/// An input that is refused: what the case shows, the words behind `in.wasm -o out.wasm`, all
/// pieces of the input, and the line.
#[derive(Clone, Copy)]
pub(super) struct Refused {
    pub name: &'static str,
    pub words: &'static [&'static str],
    pub input: &'static [&'static [u8]],
    pub line: &'static str,
}

/// What each module begins with.
pub(super) const HEADER: &[u8] = b"\0asm\x01\0\0\0";

/// The bytes of pieces, one behind the other.
pub(super) fn joined(alloc: Global, pieces: &[&[u8]]) -> Result<Vec<u8>, AllocError> {
    let mut bytes = Vec::new(alloc);
    for piece in pieces {
        bytes.extend_from_slice(piece)?;
    }
    Ok(bytes)
}

/// The bytes of a module with these sections.
pub(super) fn module(alloc: Global, sections: &[&[u8]]) -> Result<Vec<u8>, AllocError> {
    let mut bytes = Vec::new(alloc);
    bytes.extend_from_slice(HEADER)?;
    for section in sections {
        bytes.extend_from_slice(section)?;
    }
    Ok(bytes)
}

/// The texts of words, behind those of others.
pub(super) fn texts(
    alloc: Global,
    front: &[&str],
    words: &[&str],
) -> Result<Vec<Text>, AllocError> {
    let mut texts = Vec::new(alloc);
    for word in front.iter().chain(words) {
        texts.push(Text::new(alloc, word)?)?;
    }
    Ok(texts)
}

/// How a run ended, the files and the messages behind it.
#[derive(Drop)]
pub(super) struct Ending {
    pub outcome: Outcome,
    pub files: MemFiles,
    pub messages: MemSink,
}

/// The end of a run with these words over this input.
pub(super) fn ended(alloc: Global, words: &[Text], input: Vec<u8>) -> Result<Ending, AllocError> {
    let mut files = MemFiles::new(alloc, Vec::new(alloc), 4096);
    let mut messages = MemSink::new(alloc, None);
    files.put_file("in.wasm", input)?;
    let outcome = wizer(alloc, words, &mut files, &mut messages);
    Ok(Ending {
        outcome,
        files,
        messages,
    })
}

impl Ending {
    /// Fails where the run didn't write this output and this report.
    pub(super) fn is_done(&self, rt: &impl Abort, name: &str, output: &[u8], line: &str) {
        assert!(rt; self.messages.text() == line.as_bytes(), "{name}");
        assert_eq!(rt; self.outcome.code(), 0, "{name}");
        assert!(rt; self.files.file("out.wasm") == Some(output), "{name}");
    }

    /// Fails where the run didn't end with this status and line, or made an output.
    pub(super) fn is_refused(&self, rt: &impl Abort, code: u8, name: &str, line: &str) {
        assert!(rt; self.messages.text() == line.as_bytes(), "{name}");
        assert_eq!(rt; self.outcome.code(), code, "{name}");
        assert!(rt; self.files.file("out.wasm").is_none(), "{name}");
        assert!(rt; self.files.stdout().is_empty(), "{name}");
    }
}

/// Runs a case that goes through.
pub(super) fn goes_through(rt: &impl Abort, alloc: Global, case: &Through) -> Result<(), Fail> {
    let words = texts(
        alloc,
        &["in.wasm", "-o", "out.wasm", "--report"],
        case.words,
    )?;
    let output = module(alloc, case.output)?;
    let end = ended(alloc, &words, module(alloc, case.input)?)?;
    end.is_done(rt, case.name, &output, case.line);
    Ok(())
}

/// Runs cases that go through.
pub(super) fn all_go_through(
    rt: &impl Abort,
    alloc: Global,
    cases: &[Through],
) -> Result<(), Fail> {
    for case in cases {
        goes_through(rt, alloc, case)?;
    }
    Ok(())
}

/// Runs a case that is refused for its input.
pub(super) fn is_refused(rt: &impl Abort, alloc: Global, case: &Refused) -> Result<(), Fail> {
    let words = texts(alloc, &["in.wasm", "-o", "out.wasm"], case.words)?;
    let end = ended(alloc, &words, joined(alloc, case.input)?)?;
    end.is_refused(rt, 1, case.name, case.line);
    Ok(())
}

/// Runs cases that are refused for their input.
pub(super) fn all_are_refused(
    rt: &impl Abort,
    alloc: Global,
    cases: &[Refused],
) -> Result<(), Fail> {
    for case in cases {
        is_refused(rt, alloc, case)?;
    }
    Ok(())
}
