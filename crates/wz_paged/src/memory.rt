//! The memory, seen as the list of its bytes.

ghost use Rattle.std.specs.Prelude.{◌≡◌, ◌+◌, ◌*◌, ◌^◌, ◌<◌, ◌≤◌, ◌++◌, length, replicate, IsTrue, IfSome, slice_index_or, IfOk, OnOk, OnErr, SomeIff, ◌↔◌};
ghost use Rattle.std.specs.Bool.{OnTrue, OnFalse};
ghost use Rattle.std.specs.List.{All};
ghost use Rattle.wz_linear.specs.Bytes.{IsAccessWidth, number_of, bytes_of, part, written};
ghost use Rattle.wz_paged.specs.Pages.{memory_of, AreOctets};

use crate::page::Page;
use crate::pages::SIZE;
use crate::{copies, pages};
use std::alloc::{AllocError, Global};
use std::marker::Model;
use wz_linear::Linear;

/// A memory in pages, each made when a byte that isn't zero is first written to it. Contracts see
/// it as the list of its bytes.
#[derive(Drop)]
pub struct PagedMemory {
    alloc: Global,
    pages: Vec<Page>,
}

impl Model for PagedMemory {
    ghost use Rattle.std.specs.Prelude.{◌≤◌, ℕ, List, length};
    ghost use Rattle.wz_paged.specs.Pages.{memory_of, AreOctets};

    ghost Value = { List ℕ };

    ghost view = { λ memory. memory_of memory.pages.items };

    ghost invariant = { λ memory. (length memory.pages.items ≤ 65536)
        × AreOctets (memory_of memory.pages.items) };
}

/// The place as an index, where a range of so many bytes from there ends within the pages.
#[inline]
fn index_of(pages: &[Page], at: u64, len: u64) -> Option<usize>
    requires { length pages.now ≤ 65536 }
    ensures { SomeIff result (at + len ≤ length pages.now * 65536) at }
{
    let size = (pages.len() * SIZE) as u64;
    match at.checked_add(len) {
        Some(end) if end <= size => Some(at as usize),
        _ => None,
    }
}

/// The number at a place, where it lies in one page that has been made.
#[inline(always)]
fn load_inside(pages: &[Page], at: u64, width: u32) -> Option<u64>
    requires { IsAccessWidth width }
    ensures within { IfSome result (λ _. at + width ≤ length pages.now * 65536) }
    ensures found { IfSome result
        (λ number. number ≡ number_of (part (memory_of pages.now) at width)) }
    ensures narrow { IfSome result (λ number. number < 256 ^ width) }
{
    let i = (at / SIZE as u64) as usize;
    if i < pages.len() {
        let number = pages[i].load((at % SIZE as u64) as usize, width)?;
        Some(number)
    } else {
        None
    }
}

/// Whether a number lies in one page that has not been made.
fn is_absent_at(pages: &[Page], at: usize, width: u32) -> bool
    requires width { IsAccessWidth width }
    requires within { at + width ≤ length pages.now * 65536 }
    ensures { OnTrue result (number_of (part (memory_of pages.now) at width) ≡ 0) }
{
    if at % SIZE + width as usize > SIZE {
        return false;
    }
    // By cases, so that each is a goal of its own in the proof.
    if pages[at / SIZE].is_made() {
        return false;
    }
    true
}

/// The byte at a place of the pages.
#[inline]
fn byte_at(pages: &[Page], at: usize) -> u8
    requires { at < length pages.now * 65536 }
    ensures { result ≡ slice_index_or (memory_of pages.now) at 0 }
{
    pages[at / SIZE].byte_at(at % SIZE)
}

/// The number at a place of the pages, wherever it lies, byte by byte and through no buffer. What
/// writes nowhere leaves its caller all that it has loaded, so that a loop of loads need not fetch
/// anew each time where the pages are.
fn number_across(pages: &[Page], at: usize, width: u32) -> u64
    requires width { IsAccessWidth width }
    requires bounded { length pages.now ≤ 65536 }
    requires within { at + width ≤ length pages.now * 65536 }
    ensures found { result ≡ number_of (part (memory_of pages.now) at width) }
    ensures narrow { result < 256 ^ width }
{
    match width {
        1 => u64::from(byte_at(pages, at)),
        2 => u64::from(u16::from_le_bytes([byte_at(pages, at), byte_at(pages, at + 1)])),
        4 => u64::from(u32::from_le_bytes([
            byte_at(pages, at),
            byte_at(pages, at + 1),
            byte_at(pages, at + 2),
            byte_at(pages, at + 3),
        ])),
        _ => u64::from_le_bytes([
            byte_at(pages, at),
            byte_at(pages, at + 1),
            byte_at(pages, at + 2),
            byte_at(pages, at + 3),
            byte_at(pages, at + 4),
            byte_at(pages, at + 5),
            byte_at(pages, at + 6),
            byte_at(pages, at + 7),
        ]),
    }
}

/// The number at a place of the pages, wherever it lies; None where it ends past them. A page that
/// isn't made gives zero without being made.
#[cold]
#[inline(never)]
fn load_across(pages: &[Page], at: u64, width: u32) -> Option<u64>
    requires width { IsAccessWidth width }
    requires bounded { length pages.now ≤ 65536 }
    ensures found { SomeIff result
        (at + width ≤ length pages.now * 65536)
        (number_of (part (memory_of pages.now) at width)) }
    ensures narrow { IfSome result (λ number. number < 256 ^ width) }
{
    let at = index_of(pages, at, u64::from(width))?;
    if is_absent_at(pages, at, width) {
        return Some(0);
    }
    Some(number_across(pages, at, width))
}

/// Writes a number at a place, where it lies in one page that has been made.
#[inline(always)]
fn store_inside(pages: &mut [Page], at: u64, value: u64, width: u32) -> bool
    requires { IsAccessWidth width }
    ensures within { OnTrue result (at + width ≤ length pages.old * 65536) }
    ensures stored { OnTrue result
        (memory_of pages.new ≡ written (memory_of pages.old) at (bytes_of width value)) }
    ensures outside { OnFalse result (memory_of pages.new ≡ memory_of pages.old) }
    ensures octets { AreOctets (memory_of pages.old) → AreOctets (memory_of pages.new) }
{
    let i = (at / SIZE as u64) as usize;
    if i >= pages.len() {
        return false;
    }
    let page = &mut pages[i];
    if !page.store((at % SIZE as u64) as usize, value, width) {
        return false;
    }
    true
}

/// Writes a number at a place of the pages, wherever it lies; false where it ends past them.
#[cold]
#[inline(never)]
fn store_across(pages: &mut [Page], at: u64, value: u64, width: u32) -> Result<bool, AllocError>
    requires width { IsAccessWidth width }
    requires bounded { length pages.old ≤ 65536 }
    ensures within { IfOk result
        (λ done. IsTrue done ↔ at + width ≤ length pages.old * 65536) }
    ensures stored { IfOk result (λ done. OnTrue done
        (memory_of pages.new ≡ written (memory_of pages.old) at (bytes_of width value))) }
    ensures outside { IfOk result (λ done. OnFalse done
        (memory_of pages.new ≡ memory_of pages.old)) }
    ensures refused { OnErr result (memory_of pages.new ≡ memory_of pages.old) }
    ensures octets { AreOctets (memory_of pages.old) → AreOctets (memory_of pages.new) }
{
    let Some(at) = index_of(pages, at, u64::from(width)) else {
        return Ok(false);
    };
    let bytes = value.to_le_bytes();
    pages::write(pages, at, &bytes[..width as usize])?;
    Ok(true)
}

/// Adds so many pages that have not been made.
fn add_absent(alloc: Global, pages: &mut Vec<Page>, count: usize) -> Result<(), AllocError>
    requires { length pages.old.items + count ≤ 65536 }
    ensures added { OnOk result
        (memory_of pages.new.items ≡ memory_of pages.old.items ++ replicate (count * 65536) 0) }
    ensures long { OnOk result (length pages.new.items ≡ length pages.old.items + count) }
    ensures refused { OnErr result (pages.new.items ≡ pages.old.items) }
    ensures octets { AreOctets (memory_of pages.old.items)
        → AreOctets (memory_of pages.new.items) }
{
    let len = pages.len();
    pages.try_reserve_exact(count)?;
    for _added in 0..count {
        if pages.push(Page::absent(alloc)).is_err() {
            pages.truncate(len);
            return Err(AllocError);
        }
    }
    Ok(())
}

/// Whether a page has not been made.
fn is_untouched(pages: &[Page], i: usize) -> bool
    requires { i < length pages.now }
    ensures { OnTrue result
        (All (λ byte. byte ≡ 0) (part (memory_of pages.now) (i * 65536) 65536)) }
{
    // By cases, so that each is a goal of its own in the proof.
    if pages[i].is_made() {
        return false;
    }
    true
}

#[tactic(auto, using(crate::proofs::PageLemmas::pages_length))]
impl Linear for PagedMemory {
    ghost contents = { λ memory. memory };

    fn zeroed(alloc: Global, pages: u32) -> Result<Self, AllocError> {
        let mut made = Vec::new(alloc);
        add_absent(alloc, &mut made, pages as usize)?;
        Ok(PagedMemory { alloc, pages: made })
    }

    #[inline]
    fn size_pages(&self) -> u32 {
        self.pages.len() as u32
    }

    fn grow(&mut self, pages: u32) -> Result<(), AllocError> {
        add_absent(self.alloc, &mut self.pages, pages as usize)
    }

    #[inline(always)]
    fn load(&self, at: u64, width: u32) -> Option<u64> {
        // Each exit says itself whether there is a number. Were that the answer of the call that is
        // out of line, the caller's own cases would test it again after every load.
        if let Some(number) = load_inside(&self.pages, at, width) {
            return Some(number);
        }
        match load_across(&self.pages, at, width) {
            Some(number) => Some(number),
            None => None,
        }
    }

    #[inline(always)]
    fn store(&mut self, at: u64, value: u64, width: u32) -> Result<bool, AllocError> {
        if store_inside(&mut self.pages, at, value, width) {
            return Ok(true);
        }
        if store_across(&mut self.pages, at, value, width)? {
            return Ok(true);
        }
        Ok(false)
    }

    fn fill(&mut self, at: u64, byte: u8, len: u64) -> Result<bool, AllocError> {
        match index_of(&self.pages, at, len) {
            Some(at) => {
                pages::fill(&mut self.pages, at, len as usize, byte)?;
                Ok(true)
            }
            None => Ok(false),
        }
    }

    fn copy(&mut self, to: u64, from: u64, len: u64) -> Result<bool, AllocError> {
        match (
            index_of(&self.pages, to, len),
            index_of(&self.pages, from, len),
        ) {
            (Some(to), Some(from)) => {
                copies::copy(&mut self.pages, to, from, len as usize)?;
                Ok(true)
            }
            _ => Ok(false),
        }
    }

    fn write_slice(&mut self, at: u64, bytes: &[u8]) -> Result<bool, AllocError> {
        match index_of(&self.pages, at, bytes.len() as u64) {
            Some(at) => {
                pages::write(&mut self.pages, at, bytes)?;
                Ok(true)
            }
            None => Ok(false),
        }
    }

    fn read_into(&self, at: u64, out: &mut [u8]) -> bool {
        match index_of(&self.pages, at, out.len() as u64) {
            Some(at) => {
                pages::read(&self.pages, at, out);
                true
            }
            None => false,
        }
    }

    fn untouched(&self, page: u32) -> bool {
        is_untouched(&self.pages, page as usize)
    }
}
