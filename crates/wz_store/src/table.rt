//! A table of a store (WebAssembly Core Specification, section 4.2.7).

ghost use Rattle.std.specs.Prelude.{◌≡◌, ◌+◌, ◌^◌, ◌<◌, ◌≤◌, [], length, replicate, IfOk, OnOk, OnErr};
ghost use Rattle.std.specs.Borrow.{sem};
ghost use Rattle.wz_store.specs.Changes.{overwritten, range_of};

use std::alloc::{AllocError, Global};
use std::marker::Model;
use std::mem::replace;
use wz_types::{Limits, RefKind, Reference, TableType};

/// A table. Contracts see it as the record of its kind, its entries and its maximum.
#[derive(Drop)]
pub struct TableInstance {
    kind: RefKind,
    entries: Vec<Reference>,
    max: Option<u32>,
}

impl Model for TableInstance {
    ghost use Rattle.std.specs.Prelude.{◌^◌, ◌<◌, length};
    ghost use Rattle.wz_store.specs.State.{Table};

    ghost Value = { Table };

    ghost view = { λ t. record { kind = t.kind; entries = t.entries.items; maximum = t.max } };

    ghost invariant = { λ t. length t.entries.items < 2 ^ 32 };
}

impl TableInstance {
    ghost use Rattle.wz_store.specs.State.{table_type_of};
    ghost use Rattle.wz_store.specs.Changes.{with_entries, with_more_entries};
    ghost use Rattle.wz_store.specs.Made.{new_table};
    ghost use Rattle.wz_store.specs.Lending.{LendsEntries};

    /// A table of nulls, as many as the type's minimum.
    pub(crate) fn new(alloc: Global, kind: TableType) -> Result<TableInstance, AllocError>
        ensures { IfOk result (λ table. table ≡ new_table kind) }
    {
        let mut entries = Vec::new(alloc);
        entries.resize(kind.limits.min as usize, Reference::Null(kind.kind))?;
        Ok(TableInstance {
            kind: kind.kind,
            entries,
            max: kind.limits.max,
        })
    }

    #[inline]
    pub fn entries(&self) -> &[Reference]
        ensures value { result.now ≡ self.now.entries }
        ensures small { length result.now < 2 ^ 32 }
    {
        self.entries.as_slice()
    }

    pub fn entries_mut(&mut self) -> &mut [Reference]
        ensures* lent { sem 𝓛 (LendsEntries self.entry result) }
        ensures value { result.now ≡ self.old.entries }
    {
        self.entries.as_mut_slice()
    }

    /// The type as it is now.
    pub fn table_type(&self) -> TableType
        ensures { result ≡ table_type_of self.now }
    {
        TableType {
            kind: self.kind,
            limits: Limits {
                min: self.entries.len() as u32,
                max: self.max,
            },
        }
    }

    pub(crate) fn extend(&mut self, by: u32, value: Reference) -> Result<(), AllocError>
        requires { length self.old.entries + by < 2 ^ 32 }
        ensures extended { OnOk result (self.new ≡ with_more_entries by value self.old) }
        ensures refused { OnErr result (self.new ≡ self.old) }
    {
        self.entries.resize(self.entries.len() + by as usize, value)
    }

    /// Writes these entries from a place on.
    pub(crate) fn write(&mut self, at: u32, items: &[Reference])
        requires { at + length items.now ≤ length self.old.entries }
        ensures { self.new ≡ with_entries at items.now self.old }
    {
        overwrite(&mut self.entries, at as usize, items);
    }

    /// Writes the same entry to each of so many places.
    pub(crate) fn fill(&mut self, at: u32, value: Reference, len: u32)
        requires { at + len ≤ length self.old.entries }
        ensures { self.new ≡ with_entries at (replicate len value) self.old }
    {
        fill_range(&mut self.entries, at as usize, value, len as usize);
    }

    /// Writes the entries that stood at `from` to `to`, as if through a buffer.
    pub(crate) fn copy_within(&mut self, to: u32, from: u32, len: u32)
        requires to { to + len ≤ length self.old.entries }
        requires from { from + len ≤ length self.old.entries }
        ensures { self.new ≡ with_entries to (range_of self.old.entries from len) self.old }
    {
        move_within(&mut self.entries, to as usize, from as usize, len as usize);
    }

    /// Takes the entries out, so that another table can be read while they are written.
    pub(crate) fn take_entries(&mut self) -> Vec<Reference>
        ensures taken { result.items ≡ self.old.entries }
        ensures small { length result.items < 2 ^ 32 }
        ensures left { self.new ≡ record self.old { entries = [] } }
    {
        let empty = Vec::new(*self.entries.allocator());
        replace(&mut self.entries, empty)
    }

    pub(crate) fn put_entries(&mut self, entries: Vec<Reference>)
        requires { length entries.items < 2 ^ 32 }
        ensures { self.new ≡ record self.old { entries = entries.items } }
    {
        self.entries = entries;
    }
}

/// So many of the items from a place on.
pub(crate) fn range(items: &[Reference], from: u32, len: u32) -> &[Reference]
    requires { from + len ≤ length items.now }
    ensures { result.now ≡ range_of items.now from len }
{
    &items[from as usize..from as usize + len as usize]
}

/// Writes these entries from a place on.
pub(crate) fn overwrite(entries: &mut Vec<Reference>, at: usize, items: &[Reference])
    requires { at + length items.now ≤ length entries.old.items }
    ensures { entries.new.items ≡ overwritten entries.old.items at items.now }
{
    entries[at..at + items.len()].copy_from_slice(items);
}

fn fill_range(entries: &mut Vec<Reference>, at: usize, value: Reference, len: usize)
    requires { at + len ≤ length entries.old.items }
    ensures { entries.new.items ≡ overwritten entries.old.items at (replicate len value) }
{
    entries[at..at + len].fill(value);
}

fn move_within(entries: &mut Vec<Reference>, to: usize, from: usize, len: usize)
    requires to { to + len ≤ length entries.old.items }
    requires from { from + len ≤ length entries.old.items }
    ensures { entries.new.items ≡
        overwritten entries.old.items to (range_of entries.old.items from len) }
{
    entries.copy_within(from..from + len, to);
}
