//! Imports, exports, globals and code entries (Core Specification 2.0, sections 5.5.5, 5.5.9,
//! 5.5.10 and 5.5.13).

ghost use Rattle.std.specs.Prelude.{◌≡◌, ◌≤◌, ◌<◌, ◌-◌, ◌^◌, Some, None, length, IfOk, OnOk, IsErrOf};
ghost use Rattle.std.specs.Option.{option_map};
ghost use Rattle.wz_bytes.specs.declared.vectors.ItemFault.TheVariants.{Bad};
ghost use Rattle.wz_bytes.specs.Forms.{bytes_at};
ghost use Rattle.wz_module.specs.Functions.{body_tree_of};
ghost use Rattle.wz_module.specs.Views.{import_of, export_of, global_of};
ghost use Rattle.wz_decode_sections.specs.ImportSection.{import_kind_at, import_at};
ghost use Rattle.wz_decode_sections.specs.ExportSection.{export_target_at, export_at};
ghost use Rattle.wz_decode_sections.specs.GlobalSection.{global_def_at};
ghost use Rattle.wz_decode_sections.specs.CodeSection.{code_entry_at};

use crate::code_fault::item_fault;
use crate::types::{take_global_type, take_mem_type, take_table_type};
use std::alloc::Global as Heap;
use wz_bytes::{Cursor, ItemFault};
use wz_code::Body;
use wz_decode_code::{read_body, read_expr};
use wz_module::{Export, ExportTarget, GlobalDef, Import, ImportKind};

fn take_import_kind(cursor: &mut Cursor<'_>) -> Option<ImportKind>
    ensures { option_map (λ k. (k, cursor.new.left)) result ≡ import_kind_at cursor.old.left }
{
    match cursor.byte()? {
        0x00 => Some(ImportKind::Func(cursor.number()?)),
        0x01 => Some(ImportKind::Table(take_table_type(cursor)?)),
        0x02 => Some(ImportKind::Memory(take_mem_type(cursor)?)),
        0x03 => Some(ImportKind::Global(take_global_type(cursor)?)),
        _ => None,
    }
}

pub(crate) fn take_import<'a>(cursor: &mut Cursor<'a>) -> Option<Import<'a>>
    ensures { option_map (λ i. (import_of i, cursor.new.left)) result ≡ import_at cursor.old.left }
{
    let module = cursor.name()?;
    let name = cursor.name()?;
    let kind = take_import_kind(cursor)?;
    Some(Import { module, name, kind })
}

fn take_export_target(cursor: &mut Cursor<'_>) -> Option<ExportTarget>
    ensures { option_map (λ t. (t, cursor.new.left)) result ≡ export_target_at cursor.old.left }
{
    match cursor.byte()? {
        0x00 => Some(ExportTarget::Func(cursor.number()?)),
        0x01 => Some(ExportTarget::Table(cursor.number()?)),
        0x02 => Some(ExportTarget::Memory(cursor.number()?)),
        0x03 => Some(ExportTarget::Global(cursor.number()?)),
        _ => None,
    }
}

pub(crate) fn take_export<'a>(cursor: &mut Cursor<'a>) -> Option<Export<'a>>
    ensures { option_map (λ e. (export_of e, cursor.new.left)) result ≡ export_at cursor.old.left }
{
    let name = cursor.name()?;
    let target = take_export_target(cursor)?;
    Some(Export { name, target })
}

pub(crate) fn take_global(alloc: Heap, cursor: &mut Cursor<'_>) -> Result<GlobalDef, ItemFault>
    requires { length cursor.old.left < 2 ^ 32 - 1 }
    ensures ok { IfOk result
        (λ g. global_def_at cursor.old.left ≡ Some (global_of g, cursor.new.left)) }
    ensures bad { IsErrOf result Bad → global_def_at cursor.old.left ≡ None }
{
    let Some(kind) = take_global_type(cursor) else {
        return Err(ItemFault::Bad);
    };
    match read_expr(alloc, cursor) {
        Ok(init) => Ok(GlobalDef { kind, init }),
        Err(fault) => Err(item_fault(fault)),
    }
}

/// Takes a vector of bytes.
pub(crate) fn take_bytes<'a>(cursor: &mut Cursor<'a>) -> Option<&'a [u8]>
    ensures { option_map (λ b. (b.now, cursor.new.left)) result ≡ bytes_at cursor.old.left }
{
    let count = cursor.number()?;
    cursor.take(count as usize)
}

/// Takes a function's locals and instructions, with their size in front.
pub(crate) fn take_code_entry(alloc: Heap, cursor: &mut Cursor<'_>) -> Result<Body, ItemFault>
    requires { length cursor.old.left < 2 ^ 32 - 1 }
    ensures ok { IfOk result
        (λ b. code_entry_at cursor.old.left ≡ Some (body_tree_of b, cursor.new.left)) }
    ensures bad { IsErrOf result Bad → code_entry_at cursor.old.left ≡ None }
{
    let Some(entry) = take_bytes(cursor) else {
        return Err(ItemFault::Bad);
    };
    match read_body(alloc, entry) {
        Ok(body) => Ok(body),
        Err(fault) => Err(item_fault(fault)),
    }
}
