//! The store: what an instance holds, by number.

ghost use Rattle.std.specs.Prelude.{◌≡◌, ◌+◌, ◌-◌, ◌^◌, ◌<◌, ◌≤◌, ◌↔◌, [], length, replicate, slice_get, option_map, option_copied, OnOk, OnErr, IsTrue, IfSome};
ghost use Rattle.std.specs.Bool.{OnTrue, OnFalse};
ghost use Rattle.std.specs.Borrow.{sem};
ghost use Rattle.std.specs.Option.{option_copied_mut};
ghost use Rattle.std.specs.declared.option.Option.TheVariants.{Some};

use crate::function::Function;
use crate::memory::MemoryInstance;
use crate::parts::{DataInstance, ElementInstance, GlobalInstance};
use crate::table::{TableInstance, overwrite, range};
use std::alloc::{AllocError, Global};
use std::marker::Model;
use wz_linear::{Linear, MAX_PAGES};
use wz_types::{FuncType, GlobalType, MemType, RefKind, Reference, TableType, Value};

/// What an instance holds (WebAssembly Core Specification, section 4.2.3): seven lists, whose items
/// are named by number from 0. Types and data segments are borrowed from the module.
///
/// Contracts see it as the record of these lists. Each has fewer than 2^32 items.
#[derive(Drop)]
pub struct Store<'m, M: Linear> {
    alloc: Global,
    types: &'m [FuncType],
    functions: Vec<Function>,
    globals: Vec<GlobalInstance>,
    tables: Vec<TableInstance>,
    memories: Vec<MemoryInstance<M>>,
    elements: Vec<ElementInstance>,
    datas: Vec<DataInstance<'m>>,
}

impl<'m, M: Linear> Model for Store<'m, M> {
    ghost use Rattle.std.specs.Prelude.{◌^◌, ◌<◌, length};
    ghost use Rattle.wz_store.specs.Made.{StoreState};

    ghost Value = { StoreState };

    ghost view = { λ s. record {
      types = s.types.now;
      functions = s.functions.items;
      globals = s.globals.items;
      tables = s.tables.items;
      memories = s.memories.items;
      elements = s.elements.items;
      datas = s.datas.items;
    } };

    ghost invariant = { λ s. (length s.types.now < 2 ^ 32) × (length s.functions.items < 2 ^ 32)
        × (length s.globals.items < 2 ^ 32) × (length s.tables.items < 2 ^ 32)
        × (length s.memories.items < 2 ^ 32) × (length s.elements.items < 2 ^ 32)
        × (length s.datas.items < 2 ^ 32) };
}

/// The calls that make a store. None changes anything where it is refused.
impl<'m, M: Linear> Store<'m, M> {
    ghost use Rattle.wz_store.specs.Made.{empty_store, new_global, new_table, new_memory, new_element};
    ghost use Rattle.wz_store.specs.Made.{with_function, with_global, with_table, with_memory, with_element, with_data};

    /// A store with these types and nothing else.
    pub fn new(alloc: Global, types: &'m [FuncType]) -> Store<'m, M>
        requires { length types.now < 2 ^ 32 - 1 }
        ensures { result ≡ empty_store types.now }
    {
        Store {
            alloc,
            types,
            functions: Vec::new(alloc),
            globals: Vec::new(alloc),
            tables: Vec::new(alloc),
            memories: Vec::new(alloc),
            elements: Vec::new(alloc),
            datas: Vec::new(alloc),
        }
    }

    pub fn add_function(&mut self, function: Function) -> Result<(), AllocError>
        requires { length self.old.functions < 2 ^ 32 - 1 }
        ensures added { OnOk result (self.new ≡ with_function self.old function) }
        ensures refused { OnErr result (self.new ≡ self.old) }
    {
        self.functions.push(function)?;
        Ok(())
    }

    /// Adds a table of nulls, as many as the minimum.
    pub fn add_table(&mut self, kind: TableType) -> Result<(), AllocError>
        requires { length self.old.tables < 2 ^ 32 - 1 }
        ensures added { OnOk result (self.new ≡ with_table self.old (new_table kind)) }
        ensures refused { OnErr result (self.new ≡ self.old) }
    {
        let table = TableInstance::new(self.alloc, kind)?;
        self.tables.push(table)?;
        Ok(())
    }

    /// Adds a memory of zeros, of as many pages as the minimum.
    pub fn add_memory(&mut self, kind: MemType) -> Result<(), AllocError>
        requires room { length self.old.memories < 2 ^ 32 - 1 }
        requires pages { kind.limits.min ≤ MAX_PAGES }
        ensures added { OnOk result (self.new ≡ with_memory self.old (new_memory kind)) }
        ensures refused { OnErr result (self.new ≡ self.old) }
    {
        let memory = MemoryInstance::new(self.alloc, kind)?;
        self.memories.push(memory)?;
        Ok(())
    }

    pub fn add_global(&mut self, kind: GlobalType, value: Value) -> Result<(), AllocError>
        requires { length self.old.globals < 2 ^ 32 - 1 }
        ensures added { OnOk result (self.new ≡ with_global self.old (new_global kind value)) }
        ensures refused { OnErr result (self.new ≡ self.old) }
    {
        self.globals.push(GlobalInstance::new(kind, value))?;
        Ok(())
    }

    pub fn add_element(&mut self, kind: RefKind, items: Vec<Reference>) -> Result<(), AllocError>
        requires room { length self.old.elements < 2 ^ 32 - 1 }
        requires items { length items.items < 2 ^ 32 - 1 }
        ensures added { OnOk result
            (self.new ≡ with_element self.old (new_element kind items.items)) }
        ensures refused { OnErr result (self.new ≡ self.old) }
    {
        self.elements.push(ElementInstance::new(kind, items))?;
        Ok(())
    }

    pub fn add_data(&mut self, bytes: &'m [u8]) -> Result<(), AllocError>
        requires room { length self.old.datas < 2 ^ 32 - 1 }
        requires bytes { length bytes.now < 2 ^ 32 - 1 }
        ensures added { OnOk result (self.new ≡ with_data self.old bytes.now) }
        ensures refused { OnErr result (self.new ≡ self.old) }
    {
        self.datas.push(DataInstance::new(bytes))?;
        Ok(())
    }
}

/// What stands at a number. None comes exactly where the number is out of range.
impl<'m, M: Linear> Store<'m, M> {
    ghost use Rattle.wz_store.specs.State.{table_type_of, memory_type_of};

    /// An empty list of bytes, for an instruction that needs a buffer. It takes no memory yet.
    pub fn new_buffer(&self) -> Vec<u8>
        ensures { result.items ≡ [] }
    {
        Vec::new(self.alloc)
    }

    #[inline]
    pub fn types(&self) -> &'m [FuncType]
        ensures value { result.now ≡ self.now.types }
        ensures bounded { length result.now < 2 ^ 32 }
    {
        self.types
    }

    #[inline]
    pub fn function(&self, at: u32) -> Option<Function>
        ensures { result ≡ slice_get self.now.functions at }
    {
        let function = self.functions.get(at as usize)?;
        Some(*function)
    }

    #[inline]
    pub fn global(&self, at: u32) -> Option<Value>
        ensures { result ≡ option_map (λ global. global.content) (slice_get self.now.globals at) }
    {
        let global = self.globals.get(at as usize)?;
        Some(global.value())
    }

    #[inline]
    pub fn global_type(&self, at: u32) -> Option<GlobalType>
        ensures { result ≡ option_map (λ global. global.type) (slice_get self.now.globals at) }
    {
        let global = self.globals.get(at as usize)?;
        Some(global.kind())
    }

    #[inline]
    pub fn table(&self, at: u32) -> Option<&[Reference]>
        ensures value { option_copied result ≡
            option_map (λ table. table.entries) (slice_get self.now.tables at) }
        ensures bounded { IfSome result (λ entries. length entries.now < 2 ^ 32) }
    {
        let table = self.tables.get(at as usize)?;
        Some(table.entries())
    }

    /// The type as it is now: the minimum is the number of entries.
    #[inline]
    pub fn table_type(&self, at: u32) -> Option<TableType>
        ensures { result ≡ option_map table_type_of (slice_get self.now.tables at) }
    {
        let table = self.tables.get(at as usize)?;
        Some(table.table_type())
    }

    #[inline]
    pub fn memory(&self, at: u32) -> Option<&M>
        ensures { option_map (λ memory. M.contents memory.now) result ≡
            option_map (λ memory. memory.bytes) (slice_get self.now.memories at) }
    {
        let memory = self.memories.get(at as usize)?;
        Some(memory.memory())
    }

    /// The type as it is now: the minimum is the number of pages.
    #[inline]
    pub fn memory_type(&self, at: u32) -> Option<MemType>
        ensures { result ≡ option_map memory_type_of (slice_get self.now.memories at) }
    {
        let memory = self.memories.get(at as usize)?;
        Some(memory.memory_type())
    }

    #[inline]
    pub fn element(&self, at: u32) -> Option<&[Reference]>
        ensures { option_copied result ≡
            option_map (λ element. element.items) (slice_get self.now.elements at) }
    {
        let element = self.elements.get(at as usize)?;
        Some(element.items())
    }

    #[inline]
    pub fn element_kind(&self, at: u32) -> Option<RefKind>
        ensures { result ≡ option_map (λ element. element.kind) (slice_get self.now.elements at) }
    {
        let element = self.elements.get(at as usize)?;
        Some(element.kind())
    }

    #[inline]
    pub fn segment(&self, at: u32) -> Option<&'m [u8]>
        ensures { option_copied result ≡ slice_get self.now.datas at }
    {
        let data = self.datas.get(at as usize)?;
        Some(data.bytes())
    }
}

/// How many there are of each.
impl<'m, M: Linear> Store<'m, M> {
    #[inline]
    pub fn function_count(&self) -> u32
        ensures { result ≡ length self.now.functions }
    {
        self.functions.len() as u32
    }

    #[inline]
    pub fn global_count(&self) -> u32
        ensures { result ≡ length self.now.globals }
    {
        self.globals.len() as u32
    }

    #[inline]
    pub fn table_count(&self) -> u32
        ensures { result ≡ length self.now.tables }
    {
        self.tables.len() as u32
    }

    #[inline]
    pub fn memory_count(&self) -> u32
        ensures { result ≡ length self.now.memories }
    {
        self.memories.len() as u32
    }

    #[inline]
    pub fn element_count(&self) -> u32
        ensures { result ≡ length self.now.elements }
    {
        self.elements.len() as u32
    }

    #[inline]
    pub fn segment_count(&self) -> u32
        ensures { result ≡ length self.now.datas }
    {
        self.datas.len() as u32
    }
}

/// What changes a store. False comes exactly where the number is out of range.
impl<'m, M: Linear> Store<'m, M> {
    ghost use Rattle.wz_store.specs.Changes.{applied, range_of};
    ghost use Rattle.wz_store.specs.Changes.{SetGlobal, WriteTable, GrowTable, EmptyElement, EmptyData};
    ghost use Rattle.wz_store.specs.Ranges.{HasEntries, HasItems, entries_in, items_in};
    ghost use Rattle.wz_store.specs.Lending.{LendsTable, LendsTableIf, LendsMemory, LendsMemoryIf};

    #[inline]
    pub fn set_global(&mut self, at: u32, value: Value) -> bool
        ensures found { IsTrue result ↔ (at < length self.old.globals) }
        ensures changed { OnTrue result (self.new ≡ applied (SetGlobal at value) self.old) }
        ensures missing { OnFalse result (self.new ≡ self.old) }
    {
        if at as usize >= self.globals.len() {
            return false;
        }
        let global = &mut self.globals[at as usize];
        global.set(value);
        true
    }

    pub fn empty_element(&mut self, at: u32) -> bool
        ensures found { IsTrue result ↔ (at < length self.old.elements) }
        ensures changed { OnTrue result (self.new ≡ applied (EmptyElement at) self.old) }
        ensures missing { OnFalse result (self.new ≡ self.old) }
    {
        if at as usize >= self.elements.len() {
            return false;
        }
        let element = &mut self.elements[at as usize];
        element.empty();
        true
    }

    pub fn empty_segment(&mut self, at: u32) -> bool
        ensures found { IsTrue result ↔ (at < length self.old.datas) }
        ensures changed { OnTrue result (self.new ≡ applied (EmptyData at) self.old) }
        ensures missing { OnFalse result (self.new ≡ self.old) }
    {
        if at as usize >= self.datas.len() {
            return false;
        }
        let data = &mut self.datas[at as usize];
        data.empty();
        true
    }

    /// Adds so many entries with this content at the end. The table's maximum isn't looked at.
    pub fn extend_table(&mut self, at: u32, by: u32, value: Reference) -> Result<(), AllocError>
        requires found { at < length self.old.tables }
        requires size { IfSome
            (slice_get self.old.tables at) (λ t. length t.entries + by < 2 ^ 32) }
        ensures extended { OnOk result (self.new ≡ applied (GrowTable at by value) self.old) }
        ensures refused { OnErr result (self.new ≡ self.old) }
    {
        let table = &mut self.tables[at as usize];
        table.extend(by, value)?;
        Ok(())
    }

    /// Writes the same entry to each place of a range of a table.
    pub fn fill_table(&mut self, table: u32, to: u32, value: Reference, len: u32)
        requires { HasEntries self.old.tables table to len }
        ensures { self.new ≡ applied (WriteTable table to (replicate len value)) self.old }
    {
        let target = &mut self.tables[table as usize];
        target.fill(to, value, len);
    }

    /// Copies a range of an element segment's items into a table.
    pub fn init_table(&mut self, table: u32, segment: u32, to: u32, from: u32, len: u32)
        requires to { HasEntries self.old.tables table to len }
        requires from { HasItems self.old.elements segment from len }
        ensures { self.new ≡
            applied (WriteTable table to
            (range_of (items_in self.old.elements segment) from len)) self.old }
    {
        let element = &self.elements[segment as usize];
        let items = element.items();
        let target = &mut self.tables[table as usize];
        target.write(to, range(items, from, len));
    }

    /// Copies a range of a table's entries into the same or another one, as if through a buffer.
    pub fn copy_table(&mut self, to_table: u32, from_table: u32, to: u32, from: u32, len: u32)
        requires to { HasEntries self.old.tables to_table to len }
        requires from { HasEntries self.old.tables from_table from len }
        ensures { self.new ≡ applied
            (WriteTable to_table to (range_of (entries_in self.old.tables from_table) from len))
            self.old }
    {
        if to_table == from_table {
            let table = &mut self.tables[to_table as usize];
            table.copy_within(to, from, len);
        } else {
            let target = &mut self.tables[to_table as usize];
            let mut entries = target.take_entries();
            let source = &self.tables[from_table as usize];
            let items = source.entries();
            overwrite(&mut entries, to as usize, range(items, from, len));
            let target = &mut self.tables[to_table as usize];
            target.put_entries(entries);
        }
    }

    /// The table for writing: its entries can be written, and another table put in its place.
    /// No call of the table itself changes how many entries it has.
    #[inline]
    pub fn table_mut(&mut self, at: u32) -> Option<&mut TableInstance>
        ensures* lent { sem 𝓛 (LendsTableIf M.row M.Linear self.entry at result) }
        ensures value { option_copied_mut result ≡ slice_get self.old.tables at }
    {
        if (at as usize) < self.tables.len() {
            Some(self.lend_table(at))
        } else {
            None
        }
    }

    /// The memory for writing. Whoever grows it looks at its maximum.
    #[inline]
    pub fn memory_mut(&mut self, at: u32) -> Option<&mut M>
        ensures* lent { sem 𝓛 (LendsMemoryIf M.row M.Linear self.entry at result) }
        ensures value { option_map (λ memory. M.contents memory.now) result ≡
            option_map (λ memory. memory.bytes) (slice_get self.old.memories at) }
    {
        if (at as usize) < self.memories.len() {
            Some(self.lend_memory(at))
        } else {
            None
        }
    }

    #[inline]
    fn lend_table(&mut self, at: u32) -> &mut TableInstance
        requires { at < length self.old.tables }
        ensures* lent { sem 𝓛 (LendsTable M.row M.Linear self.entry at result) }
        ensures value { slice_get self.old.tables at ≡ Some result.now }
    {
        &mut self.tables[at as usize]
    }

    #[inline]
    fn lend_memory(&mut self, at: u32) -> &mut M
        requires { at < length self.old.memories }
        ensures* lent { sem 𝓛 (LendsMemory M.row M.Linear self.entry at result) }
        ensures value { option_map (λ memory. memory.bytes) (slice_get self.old.memories at) ≡
            Some (M.contents result.now) }
    {
        let memory = &mut self.memories[at as usize];
        memory.memory_mut()
    }
}
