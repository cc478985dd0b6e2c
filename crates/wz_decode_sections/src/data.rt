//! Data segments (Core Specification 2.0, section 5.5.14).

ghost use Rattle.std.specs.Prelude.{◌≡◌, ◌≤◌, ◌<◌, ◌-◌, ◌^◌, Some, None, length, IfOk, IsErrOf};
ghost use Rattle.wz_bytes.specs.declared.vectors.ItemFault.TheVariants.{Bad};
ghost use Rattle.wz_module.specs.Views.{data_of};
ghost use Rattle.wz_decode_sections.specs.DataSection.{data_rows, data_at};

use crate::items::take_bytes;
use crate::segments::take_expr;
use std::alloc::Global as Heap;
use wz_bytes::{Cursor, ItemFault};
use wz_module::{DataMode, DataSegment};

/// Behind the flag 0: an offset in memory 0, and the bytes.
fn take_in_first<'a>(alloc: Heap, cursor: &mut Cursor<'a>) -> Result<DataSegment<'a>, ItemFault>
    requires { length cursor.old.left < 2 ^ 32 - 1 }
    ensures ok { IfOk result
        (λ d. data_rows 0 cursor.old.left ≡ Some (data_of d, cursor.new.left)) }
    ensures bad { IsErrOf result Bad → data_rows 0 cursor.old.left ≡ None }
{
    let offset = take_expr(alloc, cursor)?;
    let Some(bytes) = take_bytes(cursor) else {
        return Err(ItemFault::Bad);
    };
    let mode = DataMode::Active { memory: 0, offset };
    Ok(DataSegment { mode, bytes })
}

/// Behind the flag 2: a memory, an offset in it, and the bytes.
fn take_in_memory<'a>(alloc: Heap, cursor: &mut Cursor<'a>) -> Result<DataSegment<'a>, ItemFault>
    requires { length cursor.old.left < 2 ^ 32 - 1 }
    ensures ok { IfOk result
        (λ d. data_rows 2 cursor.old.left ≡ Some (data_of d, cursor.new.left)) }
    ensures bad { IsErrOf result Bad → data_rows 2 cursor.old.left ≡ None }
{
    let Some(memory) = cursor.number() else {
        return Err(ItemFault::Bad);
    };
    let offset = take_expr(alloc, cursor)?;
    let Some(bytes) = take_bytes(cursor) else {
        return Err(ItemFault::Bad);
    };
    let mode = DataMode::Active { memory, offset };
    Ok(DataSegment { mode, bytes })
}

/// Behind the flag 1: the bytes.
fn take_passive<'a>(cursor: &mut Cursor<'a>) -> Result<DataSegment<'a>, ItemFault>
    ensures ok { IfOk result
        (λ d. data_rows 1 cursor.old.left ≡ Some (data_of d, cursor.new.left)) }
    ensures bad { IsErrOf result Bad → data_rows 1 cursor.old.left ≡ None }
{
    let Some(bytes) = take_bytes(cursor) else {
        return Err(ItemFault::Bad);
    };
    let mode = DataMode::Passive;
    Ok(DataSegment { mode, bytes })
}

/// Takes a data segment.
pub(crate) fn take_data<'a>(
    alloc: Heap,
    cursor: &mut Cursor<'a>,
) -> Result<DataSegment<'a>, ItemFault>
    requires { length cursor.old.left < 2 ^ 32 - 1 }
    ensures ok { IfOk result (λ d. data_at cursor.old.left ≡ Some (data_of d, cursor.new.left)) }
    ensures bad { IsErrOf result Bad → data_at cursor.old.left ≡ None }
{
    let Some(flag) = cursor.number() else {
        return Err(ItemFault::Bad);
    };
    match flag {
        0 => take_in_first(alloc, cursor),
        1 => take_passive(cursor),
        2 => take_in_memory(alloc, cursor),
        _ => Err(ItemFault::Bad),
    }
}
