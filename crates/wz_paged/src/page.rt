//! One page of a memory.

ghost use Rattle.std.specs.Prelude.{◌≡◌, ◌+◌, ◌^◌, ◌<◌, ◌≤◌, [], length, replicate, slice_index_or, IsTrue, IsSome, IfSome, OnOk, OnErr};
ghost use Rattle.std.specs.Bool.{OnTrue, OnFalse};
ghost use Rattle.std.specs.List.{All};
ghost use Rattle.wz_linear.specs.Bytes.{IsAccessWidth, number_of, bytes_of, part, written};
ghost use Rattle.wz_paged.specs.Pages.{memory_of_page};

use std::alloc::{AllocError, Global};
use std::marker::Model;
use wz_linear::{PAGE_SIZE, fill_range, number_at, put_slice};

/// The bytes of a page, or none: a page that has not been made holds zeros.
#[derive(Drop)]
pub struct Page {
    bytes: Vec<u8>,
}

impl Model for Page {
    ghost use Rattle.std.specs.Prelude.{◌≡◌, ◌⊎◌, ℕ, List, length};

    ghost Value = { List ℕ };

    ghost view = { λ page. page.bytes.items };

    ghost invariant = { λ page. (length page.bytes.items ≡ 0) ⊎ (length page.bytes.items ≡ 65536) };
}

impl Page {
    /// A page that has not been made. It takes no memory.
    pub fn absent(alloc: Global) -> Page
        ensures { result ≡ [] }
    {
        Page {
            bytes: Vec::new(alloc),
        }
    }

    /// Whether the page has been made.
    #[inline]
    pub fn is_made(&self) -> bool
        ensures made { OnTrue result (length self.now ≡ 65536) }
        ensures absent { OnFalse result (length self.now ≡ 0) }
    {
        self.bytes.len() != 0
    }

    /// Makes the page where it has not been made. What it holds stays.
    pub fn make(&mut self) -> Result<(), AllocError>
        ensures made { OnOk result (length self.new ≡ 65536) }
        ensures same { memory_of_page self.new ≡ memory_of_page self.old }
        ensures refused { OnErr result (self.new ≡ self.old) }
    {
        if !self.is_made() {
            make_zeros(&mut self.bytes, PAGE_SIZE as usize)?;
        }
        Ok(())
    }

    /// The bytes from a place on, as many as `out` takes.
    pub fn read(&self, at: usize, out: &mut [u8])
        requires { at + length out.old ≤ 65536 }
        ensures { out.new ≡ part (memory_of_page self.now) at (length out.old) }
    {
        if self.bytes.len() == 0 {
            out.fill(0);
        } else {
            read_from(&self.bytes, at, out);
        }
    }

    /// Writes these bytes. A page that has not been made takes zeros alone.
    pub fn write(&mut self, at: usize, bytes: &[u8])
        requires within { at + length bytes.now ≤ 65536 }
        requires ready { length self.old ≡ 0 → All (λ byte. byte ≡ 0) bytes.now }
        ensures written { memory_of_page self.new ≡ written (memory_of_page self.old) at bytes.now }
        ensures kept { length self.new ≡ length self.old }
    {
        if self.bytes.len() != 0 {
            put_in(&mut self.bytes, at, bytes);
        }
    }

    /// Writes the byte to each place of a range. A page that has not been made takes zeros alone.
    pub fn fill(&mut self, at: usize, count: usize, byte: u8)
        requires within { at + count ≤ 65536 }
        requires ready { length self.old ≡ 0 → byte ≡ 0 }
        ensures written { memory_of_page self.new
            ≡ written (memory_of_page self.old) at (replicate count byte) }
        ensures kept { length self.new ≡ length self.old }
    {
        if self.bytes.len() != 0 {
            fill_in(&mut self.bytes, at, count, byte);
        }
    }

    /// Whether a range holds zeros alone.
    pub fn has_zeros(&self, at: usize, count: usize) -> bool
        requires { at + count ≤ 65536 }
        ensures zeros { OnTrue result
            (All (λ byte. byte ≡ 0) (part (memory_of_page self.now) at count)) }
        ensures exact { All (λ byte. byte ≡ 0) (part (memory_of_page self.now) at count)
            → IsTrue result }
    {
        if self.bytes.len() == 0 {
            return true;
        }
        have_zeros(&self.bytes, at, count)
    }

    /// Writes a range of another page. A page that has not been made takes zeros alone.
    pub fn copy_from(&mut self, at: usize, source: &Page, from: usize, count: usize)
        requires within { at + count ≤ 65536 }
        requires from { from + count ≤ 65536 }
        requires ready { length self.old ≡ 0
            → All (λ byte. byte ≡ 0) (part (memory_of_page source.now) from count) }
        ensures written { memory_of_page self.new
            ≡ written (memory_of_page self.old) at (part (memory_of_page source.now) from count) }
        ensures kept { length self.new ≡ length self.old }
    {
        if source.bytes.len() != 0 {
            self.write(at, &source.bytes[from..from + count]);
        } else if self.is_made() {
            self.fill(at, count, 0);
        }
    }

    /// Copies a range within the page, as if through a buffer.
    pub fn copy_within(&mut self, to: usize, from: usize, count: usize)
        requires within { to + count ≤ 65536 }
        requires from { from + count ≤ 65536 }
        ensures written { memory_of_page self.new
            ≡ written (memory_of_page self.old) to (part (memory_of_page self.old) from count) }
        ensures kept { length self.new ≡ length self.old }
    {
        if self.bytes.len() != 0 {
            copy_in(&mut self.bytes, to, from, count);
        }
    }

    /// The byte at a place.
    #[inline]
    pub fn byte_at(&self, at: usize) -> u8
        requires { at < 65536 }
        ensures { result ≡ slice_index_or (memory_of_page self.now) at 0 }
    {
        if self.is_made() { self.bytes[at] } else { 0 }
    }

    /// The number that stands at a place, where the page has been made and it lies in it.
    #[inline(always)]
    pub fn load(&self, at: usize, width: u32) -> Option<u64>
        requires width { IsAccessWidth width }
        requires within { at < 65536 }
        ensures there { at + width ≤ length self.now → IsSome result }
        ensures inside { IfSome result (λ _. at + width ≤ 65536) }
        ensures found { IfSome result
            (λ number. number ≡ number_of (part (memory_of_page self.now) at width)) }
        ensures narrow { IfSome result (λ number. number < 256 ^ width) }
    {
        if at + width as usize <= self.bytes.len() {
            Some(number_at(&self.bytes, at, width))
        } else {
            None
        }
    }

    /// Writes a number at a place, where the page has been made and it lies in it.
    #[inline(always)]
    pub fn store(&mut self, at: usize, value: u64, width: u32) -> bool
        requires width { IsAccessWidth width }
        requires within { at < 65536 }
        ensures there { at + width ≤ length self.old → IsTrue result }
        ensures inside { OnTrue result (at + width ≤ 65536) }
        ensures stored { OnTrue result (memory_of_page self.new
            ≡ written (memory_of_page self.old) at (bytes_of width value)) }
        ensures outside { OnFalse result (self.new ≡ self.old) }
    {
        if at + width as usize <= self.bytes.len() {
            put_number_in(&mut self.bytes, at, value, width);
            true
        } else {
            false
        }
    }
}

/// Makes so many zeros of an empty vector.
fn make_zeros(bytes: &mut Vec<u8>, size: usize) -> Result<(), AllocError>
    requires { length bytes.old.items ≡ 0 }
    ensures long { OnOk result (length bytes.new.items ≡ size) }
    ensures zeros { OnOk result (All (λ byte. byte ≡ 0) bytes.new.items) }
    ensures refused { OnErr result (bytes.new.items ≡ bytes.old.items) }
{
    bytes.resize(size, 0)
}

/// Copies bytes from a place on, as many as `out` takes.
#[inline]
fn read_from(bytes: &[u8], at: usize, out: &mut [u8])
    requires { at + length out.old ≤ length bytes.now }
    ensures { out.new ≡ part bytes.now at (length out.old) }
{
    out.copy_from_slice(&bytes[at..at + out.len()]);
}

/// Writes bytes into a vector that has places for all of them.
#[inline]
fn put_in(bytes: &mut Vec<u8>, at: usize, source: &[u8])
    requires { at + length source.now ≤ length bytes.old.items }
    ensures written { bytes.new.items ≡ written bytes.old.items at source.now }
    ensures kept { length bytes.new.items ≡ length bytes.old.items }
{
    put_slice(bytes, at, source);
}

/// Writes the byte to each place of a range of a vector.
#[inline]
fn fill_in(bytes: &mut Vec<u8>, at: usize, count: usize, byte: u8)
    requires { at + count ≤ length bytes.old.items }
    ensures written { bytes.new.items ≡ written bytes.old.items at (replicate count byte) }
    ensures kept { length bytes.new.items ≡ length bytes.old.items }
{
    fill_range(bytes, at, count, byte);
}

/// Copies a range within a vector, as if through a buffer.
#[inline]
fn copy_in(bytes: &mut Vec<u8>, to: usize, from: usize, count: usize)
    requires within { to + count ≤ length bytes.old.items }
    requires from { from + count ≤ length bytes.old.items }
    ensures written { bytes.new.items
        ≡ written bytes.old.items to (part bytes.old.items from count) }
    ensures kept { length bytes.new.items ≡ length bytes.old.items }
{
    bytes.copy_within(from..from + count, to);
}

/// Writes the lowest bytes of a number into a vector that has places for them: each width as one
/// piece of a length that is known, which becomes one move.
#[inline]
fn put_number_in(bytes: &mut Vec<u8>, at: usize, value: u64, width: u32)
    requires width { IsAccessWidth width }
    requires within { at + width ≤ length bytes.old.items }
    ensures written { bytes.new.items ≡ written bytes.old.items at (bytes_of width value) }
    ensures kept { length bytes.new.items ≡ length bytes.old.items }
{
    let all = value.to_le_bytes();
    match width {
        1 => put_in(bytes, at, &all[..1]),
        2 => put_in(bytes, at, &all[..2]),
        4 => put_in(bytes, at, &all[..4]),
        _ => put_in(bytes, at, &all),
    }
}

/// Whether all bytes are zero.
pub fn are_zeros(bytes: &[u8]) -> bool
    ensures zeros { OnTrue result (All (λ byte. byte ≡ 0) bytes.now) }
    ensures exact { All (λ byte. byte ≡ 0) bytes.now → IsTrue result }
{
    bytes.iter().all(|byte| *byte == 0)
}

/// Whether all bytes of a range are zero.
fn have_zeros(bytes: &[u8], at: usize, count: usize) -> bool
    requires { at + count ≤ length bytes.now }
    ensures zeros { OnTrue result (All (λ byte. byte ≡ 0) (part bytes.now at count)) }
    ensures exact { All (λ byte. byte ≡ 0) (part bytes.now at count) → IsTrue result }
{
    are_zeros(&bytes[at..at + count])
}
