//! The rules of the options by examples, as tables: each row is a command line.

use crate::read::read_words;
use crate::settings::{InputFrom, OutputTo, Settings, Usage};
use std::alloc::Global;
use std::process::Abort;
use std::test::Fail;
use wz_types::Text;

fn words_of(alloc: Global, row: &[&str]) -> Result<Vec<Text>, Fail> {
    let mut words = Vec::new(alloc);
    for word in row {
        words.push(Text::new(alloc, word)?)?;
    }
    Ok(words)
}

fn fault_of(alloc: Global, row: &[&str]) -> Result<Option<Usage>, Fail> {
    let words = words_of(alloc, row)?;
    match read_words(alloc, words.as_slice()) {
        Ok(_) => Ok(None),
        Err(usage) => Ok(Some(usage)),
    }
}

fn settings_of(alloc: Global, row: &[&str]) -> Result<Settings, Fail> {
    let words = words_of(alloc, row)?;
    Ok(read_words(alloc, words.as_slice())?)
}

fn refuses(rt: &impl Abort, alloc: Global, row: &[&str], usage: Usage) -> Result<(), Fail> {
    let found = fault_of(alloc, row)?;
    assert!(rt; found == Some(usage), "{row:?}: {found:?}, not {usage:?}");
    Ok(())
}

fn input_text(settings: &Settings) -> &str {
    match &settings.input {
        InputFrom::Standard => "(standard)",
        InputFrom::Path(path) => path.as_str(),
        InputFrom::Sample(_) => "(sample)",
    }
}

fn output_text(settings: &Settings) -> &str {
    match &settings.output {
        OutputTo::Standard => "(standard)",
        OutputTo::Path(path) => path.as_str(),
    }
}

/// The input, the output, the function and the fuel that words ask for.
#[derive(Clone, Copy)]
struct Row<'w> {
    words: &'w [&'w str],
    input: &'w str,
    output: &'w str,
    function: &'w str,
    fuel: u64,
}

fn asks(rt: &impl Abort, alloc: Global, row: Row<'_>) -> Result<(), Fail> {
    let settings = settings_of(alloc, row.words)?;
    let words = row.words;
    assert!(rt; input_text(&settings) == row.input, "input of {words:?}");
    assert!(rt; output_text(&settings) == row.output, "output of {words:?}");
    assert!(rt;
        settings.function.as_str() == row.function,
        "function of {words:?}"
    );
    assert!(rt; settings.fuel == row.fuel, "fuel of {words:?}");
    Ok(())
}

const NONE: Row<'static> = Row {
    words: &[],
    input: "(standard)",
    output: "(standard)",
    function: "wizer.initialize",
    fuel: 10_000_000_000,
};

const ROWS: [Row<'static>; 21] = [
    NONE,
    Row {
        words: &["-"],
        ..NONE
    },
    Row {
        words: &["a"],
        input: "a",
        ..NONE
    },
    Row {
        words: &["--", "-a"],
        input: "-a",
        ..NONE
    },
    Row {
        words: &["a", "--"],
        input: "a",
        ..NONE
    },
    Row {
        words: &["--", "--"],
        input: "--",
        ..NONE
    },
    Row {
        words: &["-o", "-"],
        ..NONE
    },
    Row {
        words: &["-o", "--"],
        output: "--",
        ..NONE
    },
    Row {
        words: &["-o", "b", "a"],
        input: "a",
        output: "b",
        ..NONE
    },
    Row {
        words: &["a", "--output", "b"],
        input: "a",
        output: "b",
        ..NONE
    },
    Row {
        words: &["--output=b"],
        output: "b",
        ..NONE
    },
    Row {
        words: &["--output="],
        output: "",
        ..NONE
    },
    Row {
        words: &["--output==b"],
        output: "=b",
        ..NONE
    },
    Row {
        words: &["-f", "-x"],
        function: "-x",
        ..NONE
    },
    Row {
        words: &["--init-func", "x"],
        function: "x",
        ..NONE
    },
    Row {
        words: &["--init-func=x=y"],
        function: "x=y",
        ..NONE
    },
    Row {
        words: &["--fuel=007", "a"],
        input: "a",
        fuel: 7,
        ..NONE
    },
    Row {
        words: &["--fuel", "0"],
        fuel: 0,
        ..NONE
    },
    Row {
        words: &["--fuel", "18446744073709551615"],
        fuel: 18_446_744_073_709_551_615,
        ..NONE
    },
    Row {
        words: &["--sample", "1000000"],
        input: "(sample)",
        ..NONE
    },
    Row {
        words: &["--sample=0"],
        input: "(sample)",
        ..NONE
    },
];

#[test]
fn values(rt: HostRuntime) -> Result<(), Fail> {
    for row in ROWS {
        asks(&rt, rt.alloc(), row)?;
    }
    Ok(())
}

const FAULTS: [(&'static [&'static str], Usage); 40] = [
    (&["--sampel", "3"], Usage::UnknownOption { at: 0 }),
    (&["-x"], Usage::UnknownOption { at: 0 }),
    (&["-ob"], Usage::UnknownOption { at: 0 }),
    (&["-o=b"], Usage::UnknownOption { at: 0 }),
    (&["--report="], Usage::UnknownOption { at: 0 }),
    (&["--report", "--report=1"], Usage::UnknownOption { at: 1 }),
    (&["--prune"], Usage::UnknownOption { at: 0 }),
    (&["---"], Usage::UnknownOption { at: 0 }),
    (&["--reactor", "--reactor"], Usage::RepeatedOption { at: 1 }),
    (&["--report", "--report"], Usage::RepeatedOption { at: 1 }),
    (
        &["--keep-init-func", "--keep-init-func"],
        Usage::RepeatedOption { at: 1 },
    ),
    (
        &["-f", "x", "--init-func", "y"],
        Usage::RepeatedOption { at: 2 },
    ),
    (&["--init-func=x", "-f"], Usage::RepeatedOption { at: 1 }),
    (
        &["--output", "b", "-o", "c"],
        Usage::RepeatedOption { at: 2 },
    ),
    (&["--fuel=1", "--fuel=x"], Usage::RepeatedOption { at: 1 }),
    (
        &["--sample=1", "--sample", "x"],
        Usage::RepeatedOption { at: 1 },
    ),
    (&["-o"], Usage::MissingValue { at: 0 }),
    (&["a", "--fuel"], Usage::MissingValue { at: 1 }),
    (&["-r"], Usage::MissingValue { at: 0 }),
    (&["-f"], Usage::MissingValue { at: 0 }),
    (&["--sample"], Usage::MissingValue { at: 0 }),
    (&["--fuel", "x"], Usage::BadNumber { at: 1 }),
    (&["--fuel", ""], Usage::BadNumber { at: 1 }),
    (&["--fuel="], Usage::BadNumber { at: 0 }),
    (&["--fuel", "+5"], Usage::BadNumber { at: 1 }),
    (&["--fuel", "1_0"], Usage::BadNumber { at: 1 }),
    (
        &["--fuel", "18446744073709551616"],
        Usage::BadNumber { at: 1 },
    ),
    (
        &["--fuel", "99999999999999999999999"],
        Usage::BadNumber { at: 1 },
    ),
    (&["--sample", "1000001"], Usage::BadNumber { at: 1 }),
    (
        &["--sample=18446744073709551617"],
        Usage::BadNumber { at: 0 },
    ),
    (&["-r", "a"], Usage::BadRename { at: 1 }),
    (&["--rename-func=a"], Usage::BadRename { at: 0 }),
    (&["-r", "a=b", "-r", "a=b"], Usage::RenameTwiceTo { at: 3 }),
    (
        &["-r", "a=b", "--rename-func=c=b"],
        Usage::RenameTwiceFrom { at: 2 },
    ),
    (&["a", "b"], Usage::ExtraWord { at: 1 }),
    (&["a", "--", "-o"], Usage::ExtraWord { at: 2 }),
    (&["--sample", "3", "a"], Usage::ExtraWord { at: 2 }),
    (&["a", "--sample", "x"], Usage::ExtraWord { at: 1 }),
    (&["a", "--sample"], Usage::ExtraWord { at: 1 }),
    (&["-", "-"], Usage::ExtraWord { at: 1 }),
];

#[test]
fn faults(rt: HostRuntime) -> Result<(), Fail> {
    for (row, usage) in FAULTS {
        refuses(&rt, rt.alloc(), row, usage)?;
    }
    Ok(())
}

#[test]
fn flags_and_renames(rt: HostRuntime) -> Result<(), Fail> {
    let settings = settings_of(
        rt.alloc(),
        &["--report", "-r", "=", "--rename-func=b=a=c", "--reactor"],
    )?;
    assert!(rt; settings.report && settings.reactor && !settings.keep_init && !settings.prune);
    let mut names = settings
        .renames
        .iter()
        .map(|rename| (rename.dst.as_str(), rename.src.as_str()));
    assert!(rt; names.next() == Some(("", "")), "two empty names");
    assert!(rt; names.next() == Some(("b", "a=c")), "the first sign");
    assert!(rt; names.next() == None, "two renames");
    assert!(rt; settings_of(rt.alloc(), &["--keep-init-func"])?.keep_init);
    Ok(())
}

/// A value of so many bytes, `=` first or last.
fn long_value(alloc: Global, len: usize, begins: bool) -> Result<String, Fail> {
    let mut text = String::new(alloc);
    if begins {
        text.push('=')?;
    }
    for _ in 1..len {
        text.push('a')?;
    }
    if !begins {
        text.push('=')?;
    }
    Ok(text)
}

#[test]
fn long_renames(rt: HostRuntime) -> Result<(), Fail> {
    let alloc = rt.alloc();
    let whole = long_value(alloc, 1_048_576, true)?;
    let half = long_value(alloc, 524_288, true)?;
    let other = long_value(alloc, 524_289, false)?;
    let found = fault_of(alloc, &["-r", whole.as_str()])?;
    assert!(rt; found == None, "as many bytes as there may be");
    let found = fault_of(alloc, &["-r", whole.as_str(), "-r", "="])?;
    assert!(rt;
        found == Some(Usage::RenamesTooLong { at: 3 }),
        "before the name"
    );
    let found = fault_of(alloc, &["-r", half.as_str(), "-r", other.as_str()])?;
    assert!(rt; found == Some(Usage::RenamesTooLong { at: 3 }), "together");
    let found = fault_of(alloc, &["-r", whole.as_str(), "-r", "a"])?;
    assert!(rt;
        found == Some(Usage::BadRename { at: 3 }),
        "the sign goes first"
    );
    Ok(())
}
