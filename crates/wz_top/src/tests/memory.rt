//! Want of memory: whichever allocation is refused, the answer is want of memory and there is no
//! output, or the device's fault and a first part of it, or the whole output.
//!
//! With memory at hand it is the whole output. `bench/allocations` refuses each allocation in
//! turn; those of the tests themselves, which all come before the tool is called, end a test with
//! an error. `rt try --test --fail-alloc N` refuses one.

use super::running::{Ending, ended, module, texts};
use super::sections::{COPYING_INPUT, COPYING_OUTPUT, GROWING_INPUT, GROWING_OUTPUT};
use crate::Outcome;
use std::alloc::Global;
use std::process::Abort;
use std::test::Fail;

/// Whether the outcome allows what the output holds, where this is the whole one.
fn is_allowed(outcome: &Outcome, written: Option<&[u8]>, whole: &[u8]) -> bool {
    match outcome {
        Outcome::Done(_) => written == Some(whole),
        Outcome::NoMemory => written.is_none(),
        Outcome::OutputFault => written.is_none_or(|bytes| whole.starts_with(bytes)),
        _ => false,
    }
}

/// Whether all but the output is as it was.
fn stays(end: &Ending, input: &[u8]) -> bool {
    end.files.file("in.wasm") == Some(input) && end.files.stdout().is_empty()
}

/// Runs a module that goes through where memory is at hand.
fn answers(rt: &impl Abort, alloc: Global, input: &[&[u8]], output: &[&[u8]]) -> Result<(), Fail> {
    let words = texts(alloc, &["in.wasm", "-o", "out.wasm"], &[])?;
    let before = module(alloc, input)?;
    let whole = module(alloc, output)?;
    let end = ended(alloc, &words, module(alloc, input)?)?;
    assert!(rt; is_allowed(&end.outcome, end.files.file("out.wasm"), &whole));
    assert!(rt; stays(&end, &before));
    Ok(())
}

#[test]
fn refused_memory_where_a_memory_grows(rt: HostRuntime) -> Result<(), Fail> {
    answers(&rt, rt.alloc(), GROWING_INPUT, GROWING_OUTPUT)
}

#[test]
fn refused_memory_where_a_segment_is_passive(rt: HostRuntime) -> Result<(), Fail> {
    answers(&rt, rt.alloc(), COPYING_INPUT, COPYING_OUTPUT)
}
