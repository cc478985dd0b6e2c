//! The command line: it makes the real files and the sink of messages, calls `wizer`, and ends
//! with the status of the outcome. All that the program does is in the contract of that call.
#![tactic(auto)]

use std::env;
use std::io::ErrorKind;
use std::process::ExitCode;
use wz_io::{OsFiles, StdSink};
use wz_top::wizer;
use wz_types::Text;

/// There is no memory to keep the words.
const NO_MEMORY: u8 = 4;

/// The words can't be had for another cause. No outcome has this status.
const NO_WORDS: u8 = 5;

/// The words behind the program's own name, or the status that says why there are none.
fn read_words(rt: &HostRuntime) -> Result<Vec<Text>, u8> {
    let args = match env::args(rt) {
        Ok(args) => args,
        Err(error) => {
            return Err(match error.kind() {
                ErrorKind::OutOfMemory => NO_MEMORY,
                _ => NO_WORDS,
            });
        }
    };
    let mut words = Vec::new(rt.alloc());
    for arg in args.skip(1) {
        let Ok(word) = Text::new(rt.alloc(), arg.as_str()) else {
            return Err(NO_MEMORY);
        };
        if words.push(word).is_err() {
            return Err(NO_MEMORY);
        }
    }
    Ok(words)
}

fn main(rt: HostRuntime) -> ExitCode {
    let words = match read_words(&rt) {
        Ok(words) => words,
        Err(status) => return ExitCode::from(status),
    };
    let stderr = rt.stderr();
    let mut files = OsFiles::new(&rt);
    let mut messages = StdSink::new(&stderr);
    let outcome = wizer(rt.alloc(), &words, &mut files, &mut messages);
    ExitCode::from(outcome.code())
}
