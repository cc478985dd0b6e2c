//! Types (Core Specification 2.0, section 5.3).

ghost use Rattle.std.specs.Prelude.{◌≡◌, ◌≤◌, ◌<◌, ◌-◌, ◌^◌, Some, None, length, IfOk, OnOk, IsErrOf};
ghost use Rattle.std.specs.Option.{option_map};
ghost use Rattle.wz_bytes.specs.declared.vectors.ItemFault.TheVariants.{Bad};
ghost use Rattle.wz_decode_sections.specs.FunctionTypes.{result_type_at, func_type_at};
ghost use Rattle.wz_decode_sections.specs.Limits.{limits_at, mem_type_at, table_type_at};
ghost use Rattle.wz_decode_sections.specs.GlobalTypes.{mutable_at, global_type_at};

use std::alloc::Global as Heap;
use wz_bytes::{Cursor, Item, ItemFault, take_vector};
use wz_decode_code::{take_kind, take_type};
use wz_types::{FuncType, GlobalType, Limits, MemType, RefKind, TableType, ValType};

struct ValTypes;

impl<'a> Item<'a> for ValTypes {
    ghost use Rattle.std.specs.Prelude.{◌≡◌, Some, None};
    ghost use Rattle.wz_decode_code.specs.Types.{type_at};

    type Value = ValType;

    ghost reads = { λ bytes x rest. type_at bytes ≡ Some (x, rest) };

    ghost bad = { λ bytes. type_at bytes ≡ None };

    fn take(_alloc: Heap, cursor: &mut Cursor<'a>) -> Result<ValType, ItemFault> {
        match take_type(cursor) {
            Some(kind) => Ok(kind),
            None => Err(ItemFault::Bad),
        }
    }
}

/// Takes the types of parameters or results.
fn take_result_type(alloc: Heap, cursor: &mut Cursor<'_>) -> Result<Vec<ValType>, ItemFault>
    requires { length cursor.old.left < 2 ^ 32 - 1 }
    ensures ok { IfOk result
        (λ ts. result_type_at cursor.old.left ≡ Some (ts.items, cursor.new.left)) }
    ensures bad { IsErrOf result Bad → result_type_at cursor.old.left ≡ None }
    ensures left { OnOk result (length cursor.new.left ≤ length cursor.old.left) }
{
    take_vector::<ValTypes>(alloc, cursor)
}

/// Takes the type of a function.
pub(crate) fn take_func_type(alloc: Heap, cursor: &mut Cursor<'_>) -> Result<FuncType, ItemFault>
    requires { length cursor.old.left < 2 ^ 32 - 1 }
    ensures ok { IfOk result (λ t. func_type_at cursor.old.left ≡ Some (t, cursor.new.left)) }
    ensures bad { IsErrOf result Bad → func_type_at cursor.old.left ≡ None }
{
    let Some(0x60) = cursor.byte() else {
        return Err(ItemFault::Bad);
    };
    let params = take_result_type(alloc, cursor)?;
    let results = take_result_type(alloc, cursor)?;
    let kind = FuncType::new(alloc, params.as_slice(), results.as_slice())?;
    Ok(kind)
}

fn take_limits(cursor: &mut Cursor<'_>) -> Option<Limits>
    ensures { option_map (λ l. (l, cursor.new.left)) result ≡ limits_at cursor.old.left }
{
    match cursor.byte()? {
        0x00 => Some(Limits {
            min: cursor.number()?,
            max: None,
        }),
        0x01 => {
            let min = cursor.number()?;
            let max = cursor.number()?;
            Some(Limits {
                min,
                max: Some(max),
            })
        }
        _ => None,
    }
}

pub(crate) fn take_mem_type(cursor: &mut Cursor<'_>) -> Option<MemType>
    ensures { option_map (λ t. (t, cursor.new.left)) result ≡ mem_type_at cursor.old.left }
{
    let limits = take_limits(cursor)?;
    Some(MemType { limits })
}

pub(crate) fn take_table_type(cursor: &mut Cursor<'_>) -> Option<TableType>
    ensures { option_map (λ t. (t, cursor.new.left)) result ≡ table_type_at cursor.old.left }
{
    let kind = take_kind(cursor)?;
    let limits = take_limits(cursor)?;
    Some(TableType { kind, limits })
}

fn take_mutable(cursor: &mut Cursor<'_>) -> Option<bool>
    ensures { option_map (λ m. (m, cursor.new.left)) result ≡ mutable_at cursor.old.left }
{
    match cursor.byte()? {
        0x00 => Some(false),
        0x01 => Some(true),
        _ => None,
    }
}

pub(crate) fn take_global_type(cursor: &mut Cursor<'_>) -> Option<GlobalType>
    ensures { option_map (λ t. (t, cursor.new.left)) result ≡ global_type_at cursor.old.left }
{
    let value = take_type(cursor)?;
    let mutable = take_mutable(cursor)?;
    Some(GlobalType { value, mutable })
}
