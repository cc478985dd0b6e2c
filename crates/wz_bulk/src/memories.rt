//! Memory instructions on whole ranges (WebAssembly Core Specification, section 4.4.7).

ghost use Rattle.std.specs.Prelude.{◌≡◌, ◌+◌, ◌≤◌, [], length, IfOk, OnOk, OnErr, IsOk, IsFalse, slice_get, if◌then◌else◌};
ghost use Rattle.wz_types.specs.declared.trap.TrapKind.TheVariants.{MemoryBounds};
ghost use Rattle.wz_linear.specs.Bytes.{part};
ghost use Rattle.wz_bulk.specs.declared.bulk.Bulk.TheVariants.{Did, Trap};
ghost use Rattle.wz_bulk.specs.Effects.{within, bulk_answer, state_after};
ghost use Rattle.wz_bulk.specs.MemoryEffects.{memory_fill_effect, memory_copy_effect, memory_init_effect, data_drop_effect};

use crate::bulk::Bulk;
use crate::range::ends_within;
use std::alloc::AllocError;
use wz_linear::{Linear, PAGE_SIZE};
use wz_store::Store;
use wz_types::TrapKind;

/// Writes the byte to each place of a range.
pub fn memory_fill<'m, M: Linear>(
    store: &mut Store<'m, M>,
    memory: u32,
    to: u32,
    byte: u8,
    len: u32,
) -> Result<Bulk, AllocError>
    ensures answer { IfOk result (λ answer. answer ≡ bulk_answer
        (memory_fill_effect memory (slice_get store.old.memories memory) to byte len)) }
    ensures store { OnOk result (store.new ≡ state_after
        (memory_fill_effect memory (slice_get store.old.memories memory) to byte len) store.old) }
    ensures refused { OnErr result (store.new ≡ store.old) }
    ensures spared { IsFalse M.may_refuse → IsOk result }
{
    match store.memory_mut(memory) {
        Some(bytes) => {
            let done = bytes.fill(to as u64, byte, len as u64)?;
            Ok(done_or_trap(done))
        }
        None => Ok(Bulk::Stuck),
    }
}

/// Copies a range of a data segment into a memory.
pub fn memory_init<'m, M: Linear>(
    store: &mut Store<'m, M>,
    segment: u32,
    memory: u32,
    to: u32,
    from: u32,
    len: u32,
) -> Result<Bulk, AllocError>
    ensures answer { IfOk result (λ answer. answer ≡ bulk_answer (memory_init_effect memory
        (slice_get store.old.memories memory) (slice_get store.old.datas segment) to from len)) }
    ensures store { OnOk result (store.new ≡ state_after (memory_init_effect memory
        (slice_get store.old.memories memory) (slice_get store.old.datas segment) to from len)
        store.old) }
    ensures refused { OnErr result (store.new ≡ store.old) }
    ensures spared { IsFalse M.may_refuse → IsOk result }
{
    let Some(source) = store.segment(segment) else {
        return Ok(Bulk::Stuck);
    };
    let Some(bytes) = store.memory_mut(memory) else {
        return Ok(Bulk::Stuck);
    };
    if !ends_within(from, len, source.len() as u64) {
        return Ok(Bulk::Trap(TrapKind::MemoryBounds));
    }
    let piece = range(source, from, len);
    let done = bytes.write_slice(to as u64, piece)?;
    Ok(done_or_trap(done))
}

/// Makes a data segment empty.
pub fn data_drop<'m, M: Linear>(store: &mut Store<'m, M>, segment: u32) -> Bulk
    ensures answer { result ≡ bulk_answer
        (data_drop_effect segment (slice_get store.old.datas segment)) }
    ensures store { store.new ≡ state_after
        (data_drop_effect segment (slice_get store.old.datas segment)) store.old }
{
    if store.empty_segment(segment) {
        Bulk::Did
    } else {
        Bulk::Stuck
    }
}

/// Copies a range of a memory into the same or another one, as if through a buffer. Between two
/// memories there is one, of `len` bytes, which is taken before anything is changed.
pub fn memory_copy<'m, M: Linear>(
    store: &mut Store<'m, M>,
    to_memory: u32,
    from_memory: u32,
    to: u32,
    from: u32,
    len: u32,
) -> Result<Bulk, AllocError>
    ensures answer { IfOk result (λ answer. answer ≡ bulk_answer (memory_copy_effect to_memory
        (slice_get store.old.memories to_memory) (slice_get store.old.memories from_memory)
        to from len)) }
    ensures store { OnOk result (store.new ≡ state_after (memory_copy_effect to_memory
        (slice_get store.old.memories to_memory) (slice_get store.old.memories from_memory)
        to from len) store.old) }
    ensures refused { OnErr result (store.new ≡ store.old) }
    ensures spared { IsFalse M.may_refuse → to_memory ≡ from_memory → IsOk result }
{
    if to_memory != from_memory {
        return copy_between(store, to_memory, from_memory, to, from, len);
    }
    match store.memory_mut(to_memory) {
        Some(bytes) => {
            let done = bytes.copy(to as u64, from as u64, len as u64)?;
            Ok(done_or_trap(done))
        }
        None => Ok(Bulk::Stuck),
    }
}

/// The same between two memories.
fn copy_between<'m, M: Linear>(
    store: &mut Store<'m, M>,
    to_memory: u32,
    from_memory: u32,
    to: u32,
    from: u32,
    len: u32,
) -> Result<Bulk, AllocError>
    ensures answer { IfOk result (λ answer. answer ≡ bulk_answer (memory_copy_effect to_memory
        (slice_get store.old.memories to_memory) (slice_get store.old.memories from_memory)
        to from len)) }
    ensures store { OnOk result (store.new ≡ state_after (memory_copy_effect to_memory
        (slice_get store.old.memories to_memory) (slice_get store.old.memories from_memory)
        to from len) store.old) }
    ensures refused { OnErr result (store.new ≡ store.old) }
{
    let Some(target) = store.memory(to_memory) else {
        return Ok(Bulk::Stuck);
    };
    let Some(source) = store.memory(from_memory) else {
        return Ok(Bulk::Stuck);
    };
    if !has_range(target, to, len) {
        return Ok(Bulk::Trap(TrapKind::MemoryBounds));
    }
    if !has_range(source, from, len) {
        return Ok(Bulk::Trap(TrapKind::MemoryBounds));
    }
    let buffer = copy_of_range(store.new_buffer(), source, from, len)?;
    match store.memory_mut(to_memory) {
        Some(bytes) => {
            let done = bytes.write_slice(to as u64, &buffer)?;
            Ok(done_or_trap(done))
        }
        None => Ok(Bulk::Stuck),
    }
}

fn has_range<M: Linear>(memory: &M, at: u32, len: u32) -> bool
    ensures { result ≡ within at len (length (M.contents memory.now)) }
{
    let size = memory.size_pages() as u64 * PAGE_SIZE as u64;
    ends_within(at, len, size)
}

/// The bytes of a range, in a buffer that is handed in empty.
fn copy_of_range<M: Linear>(
    mut buffer: Vec<u8>,
    memory: &M,
    from: u32,
    len: u32,
) -> Result<Vec<u8>, AllocError>
    requires empty { buffer.items ≡ [] }
    requires within { from + len ≤ length (M.contents memory.now) }
    ensures value { IfOk result (λ bytes. bytes.items ≡ part (M.contents memory.now) from len) }
    ensures size { IfOk result (λ bytes. length bytes.items ≡ len) }
{
    buffer.resize(len as usize, 0)?;
    memory.read_into(from as u64, &mut buffer);
    Ok(buffer)
}

fn range(source: &[u8], from: u32, len: u32) -> &[u8]
    requires { from + len ≤ length source.now }
    ensures value { result.now ≡ part source.now from len }
    ensures size { length result.now ≡ len }
{
    &source[from as usize..from as usize + len as usize]
}

fn done_or_trap(done: bool) -> Bulk
    ensures { result ≡ (if done then Did else Trap MemoryBounds) }
{
    if done {
        Bulk::Did
    } else {
        Bulk::Trap(TrapKind::MemoryBounds)
    }
}
