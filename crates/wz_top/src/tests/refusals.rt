//! What is refused for its words, its input, or what the words ask of it.

use super::running::{HEADER, Refused, all_are_refused, ended, joined, texts};
use super::sections::{CODE, EMPTY_CODE, EXPORT, FUNCTION, GLOBAL, NO_EXPORT, TYPES};
use std::alloc::Global;
use std::process::Abort;
use std::test::Fail;

/// Words, and the line that names the one at fault.
static WORDS: [(&[&str], &str); 10] = [
    (&["--fuel", "x"], "wizer: word 1 is no number in range\n"),
    (
        &["--sample", "1000001"],
        "wizer: word 1 is no number in range\n",
    ),
    (&["-o"], "wizer: word 0 needs a value\n"),
    (&["--sampel", "3"], "wizer: word 0 is no known option\n"),
    (&["a", "b"], "wizer: word 1 is one input too many\n"),
    (
        &["-f", "x", "--init-func", "y"],
        "wizer: word 2 repeats an option\n",
    ),
    (
        &["-r", "a"],
        "wizer: word 1 is no rename of the form dst=src\n",
    ),
    (
        &["in.wasm", "-o", "out.wasm", "-r", "a=b", "-r", "a=c"],
        "wizer: word 6 renames to a name that was given before\n",
    ),
    (
        &["-r", "a=b", "-r", "c=b"],
        "wizer: word 3 renames an export that was renamed before\n",
    ),
    (
        &["--reactor=1", "in.wasm"],
        "wizer: word 0 is no known option\n",
    ),
];

const USUAL: &[&[u8]] = &[HEADER, TYPES, FUNCTION, GLOBAL, EXPORT, CODE];

static SETTINGS: [Refused; 5] = [
    Refused {
        name: "no export to rename",
        words: &["-r", "x=nosuch"],
        input: USUAL,
        line: "wizer: there is no export \"nosuch\" to rename\n",
    },
    Refused {
        name: "a new name for the initialisation",
        words: &["-r", "x=wizer.initialize"],
        input: USUAL,
        line: "wizer: the export \"wizer.initialize\" leaves and can't be renamed\n",
    },
    Refused {
        name: "a new name for a global",
        words: &["-r", "x=g"],
        input: &[
            HEADER,
            TYPES,
            FUNCTION,
            GLOBAL,
            b"\x07\x18\x02\x10wizer.initialize\0\0\x01g\x03\0",
            CODE,
        ],
        line: "wizer: the export \"g\" to rename is no function\n",
    },
    Refused {
        name: "no reactor",
        words: &["--reactor"],
        input: USUAL,
        line: "wizer: there is no export \"_initialize\"\n",
    },
    Refused {
        name: "no initialisation of that name",
        words: &["-f", "x"],
        input: USUAL,
        line: "wizer: there is no export \"x\"\n",
    },
];

static INPUTS: [Refused; 16] = [
    Refused {
        name: "the header alone",
        words: &[],
        input: &[HEADER],
        line: "wizer: there is no export \"wizer.initialize\"\n",
    },
    Refused {
        name: "no exports",
        words: &[],
        input: &[HEADER, TYPES, FUNCTION, GLOBAL, NO_EXPORT, CODE],
        line: "wizer: there is no export \"wizer.initialize\"\n",
    },
    Refused {
        name: "a last byte that is missing",
        words: &[],
        input: &[
            HEADER,
            TYPES,
            FUNCTION,
            GLOBAL,
            EXPORT,
            b"\x0A\x08\x01\x06\0\x41\x2A\x24\0",
        ],
        line: "wizer: section 4 is outside this profile's grammar\n",
    },
    Refused {
        name: "more types than bytes",
        words: &[],
        input: &[HEADER, b"\x01\x05\xFF\xFF\xFF\xFF\x0F"],
        line: "wizer: section 0 is outside this profile's grammar\n",
    },
    Refused {
        name: "as many locals as there can be",
        words: &[],
        input: &[
            HEADER,
            TYPES,
            FUNCTION,
            GLOBAL,
            EXPORT,
            b"\x0A\x0E\x01\x0C\x01\xFF\xFF\xFF\xFF\x0F\x7F\x41\x2A\x24\0\x0B",
        ],
        line: "wizer: function 0 has 4294967295 locals, more than 50000\n",
    },
    Refused {
        name: "one more local",
        words: &[],
        input: &[
            HEADER,
            TYPES,
            FUNCTION,
            GLOBAL,
            EXPORT,
            b"\x0A\x10\x01\x0E\x02\xFF\xFF\xFF\xFF\x0F\x7F\x01\x7F\x41\x2A\x24\0\x0B",
        ],
        line: "wizer: section 4 is outside this profile's grammar\n",
    },
    Refused {
        name: "a function without a body",
        words: &[],
        input: &[HEADER, TYPES, FUNCTION, GLOBAL, EXPORT],
        line: "wizer: the counts of the sections don't agree\n",
    },
    Refused {
        name: "no value for a global",
        words: &[],
        input: &[
            HEADER,
            TYPES,
            FUNCTION,
            GLOBAL,
            EXPORT,
            b"\x0A\x06\x01\x04\0\x24\0\x0B",
        ],
        line: "wizer: invalid: code 0\n",
    },
    Refused {
        name: "an unreachable value that is left",
        words: &[],
        input: &[
            HEADER,
            TYPES,
            FUNCTION,
            GLOBAL,
            EXPORT,
            b"\x0A\x06\x01\x04\0\0\x6A\x0B",
        ],
        line: "wizer: invalid: code 0\n",
    },
    Refused {
        name: "one that is dropped",
        words: &[],
        input: &[
            HEADER,
            TYPES,
            FUNCTION,
            GLOBAL,
            EXPORT,
            b"\x0A\x07\x01\x05\0\0\x6A\x1A\x0B",
        ],
        line: "wizer: initialisation trapped: unreachable\n",
    },
    Refused {
        name: "a memory that is imported",
        words: &[],
        input: &[HEADER, b"\x02\x08\x01\x01\x65\x01\x6D\x02\0\x01"],
        line: "wizer: import 0 is no function\n",
    },
    Refused {
        name: "a memory that is too large",
        words: &[],
        input: &[HEADER, b"\x05\x05\x01\0\x81\x80\x01"],
        line: "wizer: the memories start with 16385 pages, more than 16384\n",
    },
    Refused {
        name: "tables that are too large together",
        words: &[],
        input: &[HEADER, b"\x04\x0A\x02\x70\0\x80\xAD\xE2\x04\x70\0\x01"],
        line: "wizer: the tables up to 1 start with 10000001 entries, more than 10000000\n",
    },
    Refused {
        name: "a local too many",
        words: &[],
        input: &[
            HEADER,
            TYPES,
            FUNCTION,
            b"\x0A\x08\x01\x06\x01\xD1\x86\x03\x7F\x0B",
        ],
        line: "wizer: function 0 has 50001 locals, more than 50000\n",
    },
    Refused {
        name: "an initialisation that is no function",
        words: &[],
        input: &[HEADER, GLOBAL, b"\x07\x14\x01\x10wizer.initialize\x03\0"],
        line: "wizer: the export \"wizer.initialize\" is no function\n",
    },
    Refused {
        name: "an initialisation with a parameter",
        words: &[],
        input: &[
            HEADER,
            b"\x01\x05\x01\x60\x01\x7F\0",
            FUNCTION,
            EXPORT,
            EMPTY_CODE,
        ],
        line: "wizer: the function \"wizer.initialize\" has parameters or results\n",
    },
];

/// The first length to which a module is cut, the one behind the last, and the line.
static CUTS: [(usize, usize, &str); 11] = [
    (
        0,
        8,
        "wizer: the input is no WebAssembly module of version 1\n",
    ),
    (8, 9, "wizer: there is no export \"wizer.initialize\"\n"),
    (
        9,
        14,
        "wizer: section 0 is outside this profile's grammar\n",
    ),
    (14, 15, "wizer: there is no export \"wizer.initialize\"\n"),
    (
        15,
        18,
        "wizer: section 1 is outside this profile's grammar\n",
    ),
    (18, 19, "wizer: the counts of the sections don't agree\n"),
    (
        19,
        26,
        "wizer: section 2 is outside this profile's grammar\n",
    ),
    (26, 27, "wizer: the counts of the sections don't agree\n"),
    (
        27,
        48,
        "wizer: section 3 is outside this profile's grammar\n",
    ),
    (48, 49, "wizer: the counts of the sections don't agree\n"),
    (
        49,
        58,
        "wizer: section 4 is outside this profile's grammar\n",
    ),
];

#[test]
fn words_at_fault(rt: HostRuntime) -> Result<(), Fail> {
    let alloc = rt.alloc();
    for (words, line) in &WORDS {
        let words = texts(alloc, words, &[])?;
        ended(alloc, &words, Vec::new(alloc))?.is_refused(&rt, 2, line, line);
    }
    Ok(())
}

#[test]
fn other_inputs(rt: HostRuntime) -> Result<(), Fail> {
    all_are_refused(&rt, rt.alloc(), &INPUTS)
}

#[test]
fn other_settings(rt: HostRuntime) -> Result<(), Fail> {
    all_are_refused(&rt, rt.alloc(), &SETTINGS)
}

/// Runs the module cut to each of these lengths.
fn are_refused(
    rt: &impl Abort,
    alloc: Global,
    (first, end, line): (usize, usize, &str),
) -> Result<(), Fail> {
    let words = texts(alloc, &["in.wasm", "-o", "out.wasm"], &[])?;
    let whole = joined(alloc, USUAL)?;
    for length in first..end {
        let mut input = whole.clone()?;
        input.truncate(length);
        ended(alloc, &words, input)?.is_refused(rt, 1, line, line);
    }
    Ok(())
}

#[test]
fn a_module_that_is_cut(rt: HostRuntime) -> Result<(), Fail> {
    for cut in &CUTS {
        are_refused(&rt, rt.alloc(), *cut)?;
    }
    Ok(())
}
