//! Growth within the limits of the moment (Core Specification 2.0, sections 4.5.3.8 and 4.5.3.9).

ghost use Rattle.std.specs.Prelude.{◌≡◌, ◌≤◌, slice_get, IfOk, OnErr, OnSome, IfNone, IsSome};
ghost use Rattle.wz_store.specs.Changes.{applied, GrowTable, GrowMemory};
ghost use Rattle.wz_store.specs.Growth.{within_maximum, may_extend, may_grow};
ghost use Rattle.std.specs.Option.{option_map};
ghost use Rattle.wz_machine.specs.Growths.{growing_pages, growing_entries};
ghost use Rattle.wz_machine.specs.Growths.{memory_growable, table_growable};
ghost use Rattle.wz_machine.specs.Keeping.{asking_of};
ghost use Rattle.wz_machine.specs.Waiting.{size_found, growth_change};

use crate::standing::Pending;
use std::alloc::AllocError;
use wz_linear::{Linear, MAX_PAGES};
use wz_store::Store;
use wz_types::Reference;

fn within(maximum: Option<u32>, size: u64) -> bool
    ensures { result ≡ within_maximum maximum size }
{
    match maximum {
        Some(maximum) => size <= u64::from(maximum),
        None => true,
    }
}

/// Whether a memory of so many pages may grow by so many more.
pub(crate) fn memory_may_grow(pages: u32, maximum: Option<u32>, by: u32) -> bool
    ensures { result ≡ may_grow pages maximum by }
{
    let size = u64::from(pages) + u64::from(by);
    size <= u64::from(MAX_PAGES) && within(maximum, size)
}

/// Whether a table of so many entries may grow by so many more.
pub(crate) fn table_may_grow(size: u32, maximum: Option<u32>, by: u32) -> bool
    ensures { result ≡ may_extend size maximum by }
{
    let size = u64::from(size) + u64::from(by);
    size <= u64::from(u32::MAX) && within(maximum, size)
}

/// Whether the memory may grow by so many pages; None where there is none.
pub(crate) fn memory_room<M: Linear>(store: &Store<'_, M>, index: u32, by: u32) -> Option<bool>
    ensures { result ≡ memory_growable (slice_get store.now.memories index) by }
{
    let kind = store.memory_type(index)?;
    Some(memory_may_grow(kind.limits.min, kind.limits.max, by))
}

/// Whether the table may grow by so many entries; None where there is none, or one of another kind.
pub(crate) fn table_room<M: Linear>(
    store: &Store<'_, M>,
    index: u32,
    by: u32,
    value: Reference,
) -> Option<bool>
    ensures { result ≡ table_growable (slice_get store.now.tables index) by value }
{
    let kind = store.table_type(index)?;
    if value.kind() != kind.kind {
        return None;
    }
    Some(table_may_grow(kind.limits.min, kind.limits.max, by))
}

/// Grows a memory by so many pages of zeros where it may, and gives the number of pages that it had
/// before; None where it may not.
pub(crate) fn grow_memory<'m, M: Linear>(
    store: &mut Store<'m, M>,
    index: u32,
    by: u32,
) -> Result<Option<u32>, AllocError>
    ensures size { IfOk result (λ size. size ≡
        growing_pages (slice_get store.old.memories index) by) }
    ensures grown { IfOk result (λ size. OnSome size
        (store.new ≡ applied (GrowMemory index by) store.old)) }
    ensures kept { IfOk result (λ size. IfNone size (store.new ≡ store.old)) }
    ensures refused { OnErr result (store.new ≡ store.old) }
    ensures within { OnErr result (IsSome
        (growing_pages (slice_get store.old.memories index) by)) }
{
    let Some(kind) = store.memory_type(index) else {
        return Ok(None);
    };
    let Some(memory) = store.memory_mut(index) else {
        return Ok(None);
    };
    let pages = memory.size_pages();
    if !memory_may_grow(pages, kind.limits.max, by) {
        return Ok(None);
    }
    memory.grow(by)?;
    Ok(Some(pages))
}

/// Grows a table by so many entries with this content where it may, and gives the number of entries
/// that it had before; None where it may not.
pub(crate) fn grow_table<'m, M: Linear>(
    store: &mut Store<'m, M>,
    index: u32,
    by: u32,
    value: Reference,
) -> Result<Option<u32>, AllocError>
    ensures size { IfOk result (λ size. size ≡
        growing_entries (slice_get store.old.tables index) by) }
    ensures grown { IfOk result (λ size. OnSome size
        (store.new ≡ applied (GrowTable index by value) store.old)) }
    ensures kept { IfOk result (λ size. IfNone size (store.new ≡ store.old)) }
    ensures refused { OnErr result (store.new ≡ store.old) }
    ensures within { OnErr result (IsSome
        (growing_entries (slice_get store.old.tables index) by)) }
{
    let Some(kind) = store.table_type(index) else {
        return Ok(None);
    };
    if !table_may_grow(kind.limits.min, kind.limits.max, by) {
        return Ok(None);
    }
    store.extend_table(index, by, value)?;
    Ok(Some(kind.limits.min))
}

/// Grows what is asked for, if it is granted and may grow, and gives what the answer puts: the size
/// before, or -1 where it isn't granted. None where no growth is asked for, or where it may not.
pub(crate) fn found_size<'m, M: Linear>(
    store: &mut Store<'m, M>,
    question: Option<Pending<'m>>,
    granted: bool,
) -> Result<Option<u32>, AllocError>
    ensures size { IfOk result (λ size. size ≡ size_found store.old.memories store.old.tables
        (option_map (λ pending. asking_of pending) question.entry) granted) }
    ensures grown { IfOk result (λ size. OnSome size (store.new ≡ applied (growth_change
        (option_map (λ pending. asking_of pending) question.entry) granted) store.old)) }
    ensures kept { IfOk result (λ size. IfNone size (store.new ≡ store.old)) }
    ensures refused { OnErr result (store.new ≡ store.old) }
    ensures within { OnErr result (IsSome (size_found store.old.memories store.old.tables
        (option_map (λ pending. asking_of pending) question.entry) granted)) }
{
    match question {
        None | Some(Pending::Float(_) | Pending::Host { .. }) => Ok(None),
        Some(Pending::Memory { .. } | Pending::Table { .. }) if !granted => Ok(Some(u32::MAX)),
        Some(Pending::Memory { index, by }) => grow_memory(store, index, by),
        Some(Pending::Table { index, by, value }) => grow_table(store, index, by, value),
    }
}
