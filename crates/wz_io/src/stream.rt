//! What was opened last of the files in memory.

ghost use Rattle.std.specs.Prelude.{◌≡◌, IfOk, OnOk, OnErr};
ghost use Rattle.std.specs.Option.{option_map, option_copied};
ghost use Rattle.std.specs.FinMap as map;
ghost use Rattle.wz_io.specs.World.{IsOpenOn, name_of, input_of};
ghost use Rattle.wz_io.specs.Calls.{with_failure, with_end};
ghost use Rattle.wz_io.specs.Names.{owned_name};
ghost use Rattle.wz_io.specs.Memory.{contents};
ghost use Rattle.wz_io.specs.Stream.{stream_current, stream_files, memory_told, items_of, KeepsFile, IsCreated, Adds};
ghost use Rattle.wz_io.specs.declared.files.Side.TheVariants.{Output};

use crate::FileName;
use crate::memory::{Entry, find, put_entry};
use crate::names::OwnedName;
use crate::place::put;
use std::alloc::{AllocError, Global};
use std::collections::VecDeque;

/// What was opened last. A file that was made stands here until something else is opened, and hides
/// an entry of its path.
#[derive(Drop)]
pub enum Stream {
    Nothing,
    Input {
        name: OwnedName,
        opened: bool,
        failed: bool,
    },
    /// An output that wasn't made.
    Refused(OwnedName),
    Stdout {
        opened: bool,
        failed: bool,
    },
    File {
        entry: Entry,
        opened: bool,
        failed: bool,
    },
}

/// Puts the file that was made to the other entries.
pub fn settle(entries: &mut VecDeque<Entry>, stream: &mut Stream) -> Result<(), AllocError>
    ensures files { stream_files entries.new.items stream.new
        ≡ stream_files entries.old.items stream.old }
    ensures ok { OnOk result
        (stream_files entries.new.items stream.new ≡ contents entries.new.items) }
    ensures err { OnErr result (stream.new ≡ stream.old) }
{
    match std::mem::replace(stream, Stream::Nothing) {
        Stream::File {
            entry,
            opened,
            failed,
        } => match entries.push_front(entry) {
            Ok(()) => Ok(()),
            Err(refused) => {
                put(
                    stream,
                    Stream::File {
                        entry: refused.value,
                        opened,
                        failed,
                    },
                );
                Err(AllocError)
            }
        },
        _ => Ok(()),
    }
}

/// A call on it failed.
pub fn set_failed(stream: &mut Stream)
    ensures current { stream_current stream.new
        ≡ option_map with_failure (stream_current stream.old) }
    ensures files { KeepsFile stream.old stream.new }
{
    match stream {
        Stream::Nothing | Stream::Refused(_) => {}
        Stream::Input { failed, .. } => *failed = true,
        Stream::Stdout { failed, .. } => *failed = true,
        Stream::File { failed, .. } => *failed = true,
    }
}

/// It was closed.
pub fn set_closed(stream: &mut Stream)
    ensures current { stream_current stream.new
        ≡ option_map with_end (stream_current stream.old) }
    ensures files { KeepsFile stream.old stream.new }
{
    match stream {
        Stream::Nothing | Stream::Refused(_) => {}
        Stream::Input { opened, .. } => *opened = false,
        Stream::Stdout { opened, .. } => *opened = false,
        Stream::File { opened, .. } => *opened = false,
    }
}

/// An output of this name, open, which holds nothing yet.
pub fn make_output(alloc: Global, name: OwnedName) -> Stream
    ensures { IsCreated (owned_name name) result }
{
    match name {
        OwnedName::Standard => Stream::Stdout {
            opened: true,
            failed: false,
        },
        OwnedName::Path(path) => Stream::File {
            entry: Entry {
                path,
                bytes: Vec::new(alloc),
            },
            opened: true,
            failed: false,
        },
    }
}

/// Adds a piece to the output that is open.
pub fn add(stream: &mut Stream, stdout: &mut Vec<u8>, piece: &[u8]) -> Result<(), AllocError>
    requires { IsOpenOn Output (stream_current stream.old) }
    ensures { Adds stdout.old.items stdout.new.items stream.old stream.new piece.now result }
{
    match stream {
        Stream::Stdout { .. } => {
            stdout.extend_from_slice(piece)?;
            Ok(())
        }
        Stream::File { entry, .. } => {
            entry.bytes.extend_from_slice(piece)?;
            Ok(())
        }
        _ => unreachable!(),
    }
}

/// The bytes of a file, also of the one that was made last.
pub fn find_any<'a>(
    entries: &'a VecDeque<Entry>,
    stream: &'a Stream,
    path: &[u8],
) -> Option<&'a [u8]>
    ensures { option_copied result ≡ map.get (stream_files entries.now.items stream.now) path.now }
{
    match stream {
        Stream::File { entry, .. } => {
            if path == entry.path.as_slice() {
                return Some(entry.bytes.as_slice());
            }
            find(entries, path)
        }
        _ => find(entries, path),
    }
}

/// The bytes of an input, copied; None where there is no such file.
pub fn copy_input(
    alloc: Global,
    stdin: &[u8],
    entries: &VecDeque<Entry>,
    stream: &Stream,
    name: &FileName<'_>,
) -> Result<Option<Vec<u8>>, AllocError>
    ensures { IfOk result (λ found. items_of found
        ≡ input_of (memory_told stdin.now stdin.now entries.now.items stream.now)
        (name_of name.now)) }
{
    match name {
        FileName::Standard => Ok(Some(Vec::from_slice(alloc, stdin)?)),
        FileName::Path(path) => match find_any(entries, stream, path.as_bytes()) {
            Some(bytes) => Ok(Some(Vec::from_slice(alloc, bytes)?)),
            None => Ok(None),
        },
    }
}

/// Puts a file there, also in place of the one that was made last.
pub fn put_file(
    alloc: Global,
    entries: &mut VecDeque<Entry>,
    stream: &mut Stream,
    path: &[u8],
    bytes: Vec<u8>,
) -> Result<(), AllocError>
    ensures ok { OnOk result (stream_files entries.new.items stream.new
        ≡ map.insert (stream_files entries.old.items stream.old) path.now bytes.items) }
    ensures err { OnErr result (stream_files entries.new.items stream.new
        ≡ stream_files entries.old.items stream.old) }
    ensures current { stream_current stream.new ≡ stream_current stream.old }
{
    match stream {
        Stream::File { entry, .. } => {
            if path == entry.path.as_slice() {
                put(&mut entry.bytes, bytes);
                return Ok(());
            }
            put_entry(alloc, entries, path, bytes)?;
            Ok(())
        }
        _ => put_entry(alloc, entries, path, bytes),
    }
}
