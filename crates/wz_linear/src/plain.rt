//! A memory in one vector.

ghost use Rattle.std.specs.Prelude.{◌≡◌, ◌+◌, ◌^◌, ◌<◌, ◌≤◌, ◌↔◌, length, replicate, false, IsTrue, IfOk, IsOk, OnErr, SomeIff};
ghost use Rattle.std.specs.Bool.{OnTrue, OnFalse};
ghost use Rattle.wz_linear.specs.Bytes.{IsAccessWidth, IsWithin, number_of, bytes_of, part, written};

use crate::memory::{Linear, PAGE_SIZE};
use std::alloc::{AllocError, Global};
use std::marker::Model;

/// A memory that keeps its bytes in one vector. Contracts see it as the list of its bytes.
#[derive(Drop)]
pub struct PlainMemory {
    bytes: Vec<u8>,
}

impl Model for PlainMemory {
    ghost use Rattle.std.specs.Prelude.{◌≡◌, ◌≤◌, ◌*◌, ◌%◌, ℕ, List, length};

    ghost Value = { List ℕ };

    ghost view = { λ m. m.bytes.items };

    ghost invariant = { λ m. (length m.bytes.items % 65536 ≡ 0)
        × (length m.bytes.items ≤ 65536 * 65536) };
}

impl PlainMemory {
    /// The place as an index, where a range of so many bytes from there ends within the memory.
    #[inline]
    fn index_of(&self, at: u64, len: u64) -> Option<usize>
        ensures { SomeIff result (at + len ≤ length self.now) at }
    {
        let size = self.bytes.len() as u64;
        match at.checked_add(len) {
            Some(end) if end <= size => Some(at as usize),
            _ => None,
        }
    }
}

impl Linear for PlainMemory {
    ghost contents = { λ memory. memory };

    ghost may_refuse = { false };

    fn zeroed(alloc: Global, pages: u32) -> Result<Self, AllocError> {
        let mut bytes = Vec::new(alloc);
        bytes.resize(pages as usize * PAGE_SIZE as usize, 0)?;
        Ok(PlainMemory { bytes })
    }

    #[inline]
    fn size_pages(&self) -> u32 {
        let bytes = self.bytes.as_slice();
        (bytes.len() / PAGE_SIZE as usize) as u32
    }

    fn grow(&mut self, pages: u32) -> Result<(), AllocError> {
        let size = self.bytes.len() + pages as usize * PAGE_SIZE as usize;
        self.bytes.resize(size, 0)
    }

    #[inline]
    fn load(&self, at: u64, width: u32) -> Option<u64> {
        let at = self.index_of(at, u64::from(width))?;
        Some(number_at(&self.bytes, at, width))
    }

    #[inline]
    fn store(&mut self, at: u64, value: u64, width: u32) -> Result<bool, AllocError>
        requires { IsAccessWidth width }
        ensures within { IfOk result (λ done. IsTrue done ↔ IsWithin self.old at width) }
        ensures stored { IfOk result (λ done. OnTrue done
            (self.new ≡ written self.old at (bytes_of width value))) }
        ensures outside { IfOk result (λ done. OnFalse done (self.new ≡ self.old)) }
        ensures refused { OnErr result (self.new ≡ self.old) }
        ensures never_refused { IsOk result }
    {
        match self.index_of(at, u64::from(width)) {
            Some(at) => {
                put_number(&mut self.bytes, at, value, width);
                Ok(true)
            }
            None => Ok(false),
        }
    }

    fn fill(&mut self, at: u64, byte: u8, len: u64) -> Result<bool, AllocError>
        ensures within { IfOk result (λ done. IsTrue done ↔ IsWithin self.old at len) }
        ensures filled { IfOk result (λ done. OnTrue done
            (self.new ≡ written self.old at (replicate len byte))) }
        ensures outside { IfOk result (λ done. OnFalse done (self.new ≡ self.old)) }
        ensures refused { OnErr result (self.new ≡ self.old) }
        ensures never_refused { IsOk result }
    {
        match self.index_of(at, len) {
            Some(at) => {
                fill_range(&mut self.bytes, at, len as usize, byte);
                Ok(true)
            }
            None => Ok(false),
        }
    }

    fn copy(&mut self, to: u64, from: u64, len: u64) -> Result<bool, AllocError>
        ensures within { IfOk result (λ done. IsTrue done ↔
            (IsWithin self.old to len × IsWithin self.old from len)) }
        ensures copied { IfOk result (λ done. OnTrue done
            (self.new ≡ written self.old to (part self.old from len))) }
        ensures outside { IfOk result (λ done. OnFalse done (self.new ≡ self.old)) }
        ensures refused { OnErr result (self.new ≡ self.old) }
        ensures never_refused { IsOk result }
    {
        match (self.index_of(to, len), self.index_of(from, len)) {
            (Some(to), Some(from)) => {
                self.bytes.copy_within(from..from + len as usize, to);
                Ok(true)
            }
            _ => Ok(false),
        }
    }

    fn write_slice(&mut self, at: u64, bytes: &[u8]) -> Result<bool, AllocError>
        ensures within { IfOk result (λ done. IsTrue done ↔
            IsWithin self.old at (length bytes.now)) }
        ensures copied { IfOk result (λ done. OnTrue done
            (self.new ≡ written self.old at bytes.now)) }
        ensures outside { IfOk result (λ done. OnFalse done (self.new ≡ self.old)) }
        ensures refused { OnErr result (self.new ≡ self.old) }
        ensures never_refused { IsOk result }
    {
        match self.index_of(at, bytes.len() as u64) {
            Some(at) => {
                put_slice(&mut self.bytes, at, bytes);
                Ok(true)
            }
            None => Ok(false),
        }
    }

    fn read_into(&self, at: u64, out: &mut [u8]) -> bool {
        match self.index_of(at, out.len() as u64) {
            Some(at) => {
                out.copy_from_slice(&self.bytes[at..at + out.len()]);
                true
            }
            None => false,
        }
    }

    fn untouched(&self, page: u32) -> bool {
        false
    }
}

/// The number whose bytes, the lowest first, stand at a place.
#[inline]
pub fn number_at(bytes: &[u8], at: usize, width: u32) -> u64
    requires width { IsAccessWidth width }
    requires within { at + width ≤ length bytes.now }
    ensures number { result ≡ number_of (part bytes.now at width) }
    ensures narrow { result < 256 ^ width }
{
    match width {
        1 => u64::from(bytes[at]),
        2 => u64::from(u16::from_le_bytes([bytes[at], bytes[at + 1]])),
        4 => u64::from(u32::from_le_bytes([
            bytes[at],
            bytes[at + 1],
            bytes[at + 2],
            bytes[at + 3],
        ])),
        _ => u64::from_le_bytes([
            bytes[at],
            bytes[at + 1],
            bytes[at + 2],
            bytes[at + 3],
            bytes[at + 4],
            bytes[at + 5],
            bytes[at + 6],
            bytes[at + 7],
        ]),
    }
}

/// Writes the lowest bytes of a number, the lowest first, at a place.
#[inline]
pub fn put_number(bytes: &mut [u8], at: usize, value: u64, width: u32)
    requires width { IsAccessWidth width }
    requires within { at + width ≤ length bytes.old }
    ensures { bytes.new ≡ written bytes.old at (bytes_of width value) }
{
    let all = value.to_le_bytes();
    match width {
        1 => bytes[at] = all[0],
        2 => {
            bytes[at] = all[0];
            bytes[at + 1] = all[1];
        }
        4 => {
            bytes[at] = all[0];
            bytes[at + 1] = all[1];
            bytes[at + 2] = all[2];
            bytes[at + 3] = all[3];
        }
        _ => {
            bytes[at] = all[0];
            bytes[at + 1] = all[1];
            bytes[at + 2] = all[2];
            bytes[at + 3] = all[3];
            bytes[at + 4] = all[4];
            bytes[at + 5] = all[5];
            bytes[at + 6] = all[6];
            bytes[at + 7] = all[7];
        }
    }
}

/// Writes the byte to each place of a range.
pub fn fill_range(bytes: &mut [u8], at: usize, len: usize, byte: u8)
    requires { at + len ≤ length bytes.old }
    ensures { bytes.new ≡ written bytes.old at (replicate len byte) }
{
    bytes[at..at + len].fill(byte);
}

/// Writes these bytes from a place on.
pub fn put_slice(bytes: &mut [u8], at: usize, source: &[u8])
    requires { at + length source.now ≤ length bytes.old }
    ensures { bytes.new ≡ written bytes.old at source.now }
{
    bytes[at..at + source.len()].copy_from_slice(source);
}
