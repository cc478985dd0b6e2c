//! The files that stand in memory, each with its path and its bytes.

ghost use Rattle.std.specs.Prelude.{◌≡◌, ◌≤◌, ◌<◌, ◌-◌, ◌+◌, ◌++◌, ◌↔◌, [], OnOk, OnErr, length, min, take, drop};
ghost use Rattle.std.specs.Option.{option_copied};
ghost use Rattle.std.specs.FinMap as map;
ghost use Rattle.wz_io.specs.Memory.{contents};

use std::alloc::{AllocError, Global};
use std::collections::VecDeque;

#[derive(Drop)]
pub struct Entry {
    pub path: Vec<u8>,
    pub bytes: Vec<u8>,
}

/// The bytes at this path. The newest entries stand first, and hide older ones of the same path.
pub fn find<'a>(entries: &'a VecDeque<Entry>, path: &[u8]) -> Option<&'a [u8]>
    ensures { option_copied result ≡ map.get (contents entries.now.items) path.now }
{
    for entry in entries {
        if path == entry.path.as_slice() {
            return Some(entry.bytes.as_slice());
        }
    }
    None
}

/// Puts a file there.
pub fn put_entry(
    alloc: Global,
    entries: &mut VecDeque<Entry>,
    path: &[u8],
    bytes: Vec<u8>,
) -> Result<(), AllocError>
    ensures ok { OnOk result (contents entries.new.items
        ≡ map.insert (contents entries.old.items) path.now bytes.items) }
    ensures err { OnErr result (entries.new.items ≡ entries.old.items) }
{
    let path = Vec::from_slice(alloc, path)?;
    entries.push_front(Entry { path, bytes })?;
    Ok(())
}

/// Moves the next bytes of an input into the buffer: as many as there are, and at most `chunk`.
pub fn take_some(input: &[u8], at: usize, chunk: usize, buffer: &mut [u8]) -> usize
    requires within { at ≤ length input.now }
    requires chunk { 0 < chunk }
    requires room { 0 < length buffer.old }
    ensures count { result ≡ min (min (length buffer.old) chunk) (length input.now - at) }
    ensures bound { result ≤ length buffer.new }
    ensures bytes { drop at input.now
        ≡ take result buffer.new ++ drop (at + result) input.now }
    ensures ended { (result ≡ 0) ↔ (drop at input.now ≡ []) }
{
    let count = buffer.len().min(chunk).min(input.len() - at);
    buffer[..count].copy_from_slice(&input[at..at + count]);
    count
}
