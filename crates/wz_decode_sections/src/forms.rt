//! The forms of the items of sections, for the reader of vectors.

use crate::data::take_data;
use crate::items::{take_code_entry, take_export, take_global, take_import};
use crate::segments::take_elem;
use crate::types::{take_func_type, take_mem_type, take_table_type};
use std::alloc::Global as Heap;
use wz_bytes::{Cursor, Item, ItemFault};
use wz_code::Body;
use wz_module::{DataSegment, Elem, Export, GlobalDef, Import};
use wz_types::{FuncType, MemType, TableType};

pub(crate) struct FuncTypes;

impl<'a> Item<'a> for FuncTypes {
    ghost use Rattle.std.specs.Prelude.{◌≡◌, Some, None};
    ghost use Rattle.wz_decode_sections.specs.FunctionTypes.{func_type_at};

    type Value = FuncType;

    ghost reads = { λ bytes x rest. func_type_at bytes ≡ Some (x, rest) };

    ghost bad = { λ bytes. func_type_at bytes ≡ None };

    fn take(alloc: Heap, cursor: &mut Cursor<'a>) -> Result<FuncType, ItemFault> {
        take_func_type(alloc, cursor)
    }
}

pub(crate) struct Imports;

impl<'a> Item<'a> for Imports {
    ghost use Rattle.std.specs.Prelude.{◌≡◌, Some, None};
    ghost use Rattle.wz_module.specs.Views.{import_of};
    ghost use Rattle.wz_decode_sections.specs.ImportSection.{import_at};

    type Value = Import<'a>;

    ghost reads = { λ bytes x rest. import_at bytes ≡ Some (import_of x, rest) };

    ghost bad = { λ bytes. import_at bytes ≡ None };

    fn take(_alloc: Heap, cursor: &mut Cursor<'a>) -> Result<Import<'a>, ItemFault> {
        match take_import(cursor) {
            Some(import) => Ok(import),
            None => Err(ItemFault::Bad),
        }
    }
}

pub(crate) struct TableTypes;

impl<'a> Item<'a> for TableTypes {
    ghost use Rattle.std.specs.Prelude.{◌≡◌, Some, None};
    ghost use Rattle.wz_decode_sections.specs.Limits.{table_type_at};

    type Value = TableType;

    ghost reads = { λ bytes x rest. table_type_at bytes ≡ Some (x, rest) };

    ghost bad = { λ bytes. table_type_at bytes ≡ None };

    fn take(_alloc: Heap, cursor: &mut Cursor<'a>) -> Result<TableType, ItemFault> {
        match take_table_type(cursor) {
            Some(kind) => Ok(kind),
            None => Err(ItemFault::Bad),
        }
    }
}

pub(crate) struct MemTypes;

impl<'a> Item<'a> for MemTypes {
    ghost use Rattle.std.specs.Prelude.{◌≡◌, Some, None};
    ghost use Rattle.wz_decode_sections.specs.Limits.{mem_type_at};

    type Value = MemType;

    ghost reads = { λ bytes x rest. mem_type_at bytes ≡ Some (x, rest) };

    ghost bad = { λ bytes. mem_type_at bytes ≡ None };

    fn take(_alloc: Heap, cursor: &mut Cursor<'a>) -> Result<MemType, ItemFault> {
        match take_mem_type(cursor) {
            Some(kind) => Ok(kind),
            None => Err(ItemFault::Bad),
        }
    }
}

pub(crate) struct Globals;

impl<'a> Item<'a> for Globals {
    ghost use Rattle.std.specs.Prelude.{◌≡◌, Some, None};
    ghost use Rattle.wz_module.specs.Views.{global_of};
    ghost use Rattle.wz_decode_sections.specs.GlobalSection.{global_def_at};

    type Value = GlobalDef;

    ghost reads = { λ bytes x rest. global_def_at bytes ≡ Some (global_of x, rest) };

    ghost bad = { λ bytes. global_def_at bytes ≡ None };

    fn take(alloc: Heap, cursor: &mut Cursor<'a>) -> Result<GlobalDef, ItemFault> {
        take_global(alloc, cursor)
    }
}

pub(crate) struct Exports;

impl<'a> Item<'a> for Exports {
    ghost use Rattle.std.specs.Prelude.{◌≡◌, Some, None};
    ghost use Rattle.wz_module.specs.Views.{export_of};
    ghost use Rattle.wz_decode_sections.specs.ExportSection.{export_at};

    type Value = Export<'a>;

    ghost reads = { λ bytes x rest. export_at bytes ≡ Some (export_of x, rest) };

    ghost bad = { λ bytes. export_at bytes ≡ None };

    fn take(_alloc: Heap, cursor: &mut Cursor<'a>) -> Result<Export<'a>, ItemFault> {
        match take_export(cursor) {
            Some(export) => Ok(export),
            None => Err(ItemFault::Bad),
        }
    }
}

pub(crate) struct Elements;

impl<'a> Item<'a> for Elements {
    ghost use Rattle.std.specs.Prelude.{◌≡◌, Some, None};
    ghost use Rattle.wz_module.specs.Views.{elem_of};
    ghost use Rattle.wz_decode_sections.specs.ElementSection.{elem_at};

    type Value = Elem;

    ghost reads = { λ bytes x rest. elem_at bytes ≡ Some (elem_of x, rest) };

    ghost bad = { λ bytes. elem_at bytes ≡ None };

    fn take(alloc: Heap, cursor: &mut Cursor<'a>) -> Result<Elem, ItemFault> {
        take_elem(alloc, cursor)
    }
}

pub(crate) struct CodeEntries;

impl<'a> Item<'a> for CodeEntries {
    ghost use Rattle.std.specs.Prelude.{◌≡◌, Some, None};
    ghost use Rattle.wz_module.specs.Functions.{body_tree_of};
    ghost use Rattle.wz_decode_sections.specs.CodeSection.{code_entry_at};

    type Value = Body;

    ghost reads = { λ bytes x rest. code_entry_at bytes ≡ Some (body_tree_of x, rest) };

    ghost bad = { λ bytes. code_entry_at bytes ≡ None };

    fn take(alloc: Heap, cursor: &mut Cursor<'a>) -> Result<Body, ItemFault> {
        take_code_entry(alloc, cursor)
    }
}

pub(crate) struct DataSegments;

impl<'a> Item<'a> for DataSegments {
    ghost use Rattle.std.specs.Prelude.{◌≡◌, Some, None};
    ghost use Rattle.wz_module.specs.Views.{data_of};
    ghost use Rattle.wz_decode_sections.specs.DataSection.{data_at};

    type Value = DataSegment<'a>;

    ghost reads = { λ bytes x rest. data_at bytes ≡ Some (data_of x, rest) };

    ghost bad = { λ bytes. data_at bytes ≡ None };

    fn take(alloc: Heap, cursor: &mut Cursor<'a>) -> Result<DataSegment<'a>, ItemFault> {
        take_data(alloc, cursor)
    }
}
