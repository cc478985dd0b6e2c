//! Sample modules, which are made and not read, and go to the standard output.

use super::running::{Ending, ended, module, texts};
use super::sections::{FUNCTION, GLOBAL, TYPES};
use std::alloc::{AllocError, Global};
use std::test::Fail;

const PAGES: &[u8] = b"\x05\x04\x01\x01\x10\x10";

const EXPORTS: &[u8] = b"\x07\x12\x02\x06memory\x02\0\x05count\x03\0";

/// The number of a sample, the sections of its output, and the report.
static SAMPLES: [(&str, &[&[u8]], &str); 2] = [
    (
        "0",
        &[
            TYPES,
            FUNCTION,
            PAGES,
            GLOBAL,
            EXPORTS,
            b"\x0A\x08\x01\x06\0\x41\0\x24\0\x0B",
        ],
        "wizer: 3 ticks, 16 pages, 0 segments, 62 bytes\n",
    ),
    (
        "1",
        &[
            TYPES,
            FUNCTION,
            PAGES,
            b"\x06\x06\x01\x7F\x01\x41\x01\x0B",
            EXPORTS,
            b"\x0A\x11\x01\x0F\0\x41\xFE\x8C\x07\x41\x2E\x3A\0\0\x41\x01\x24\0\x0B",
            b"\x0B\x09\x01\0\x41\xFE\x8C\x07\x0B\x01\x2E",
        ],
        "wizer: 6 ticks, 16 pages, 1 segments, 82 bytes\n",
    ),
];

/// The end of the run of a sample.
fn drawn(alloc: Global, number: &str) -> Result<Ending, AllocError> {
    let words = texts(alloc, &["--sample", number], &[])?;
    ended(alloc, &words, Vec::new(alloc))
}

#[test]
fn samples_go_to_standard_output(rt: HostRuntime) -> Result<(), Fail> {
    let alloc = rt.alloc();
    for (number, sections, line) in &SAMPLES {
        let end = drawn(alloc, number)?;
        assert!(rt; end.messages.text() == line.as_bytes(), "{number}");
        assert_eq!(rt; end.outcome.code(), 0, "{number}");
        let output = module(alloc, sections)?;
        assert!(rt; end.files.stdout() == output.as_slice(), "{number}");
    }
    Ok(())
}

#[test]
fn a_large_sample_is_the_same_each_time(rt: HostRuntime) -> Result<(), Fail> {
    let once = drawn(rt.alloc(), "1000")?;
    let again = drawn(rt.alloc(), "1000")?;
    let front = "wizer: 3003 ticks, 16 pages, ".as_bytes();
    assert!(rt; once.messages.text().starts_with(front));
    assert!(rt; once.messages.text() == again.messages.text());
    assert!(rt; once.files.stdout() == again.files.stdout());
    Ok(())
}
