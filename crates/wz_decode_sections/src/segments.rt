//! Element segments (Core Specification 2.0, section 5.5.12).

ghost use Rattle.std.specs.Prelude.{◌≡◌, ◌≤◌, ◌<◌, ◌-◌, ◌^◌, Some, None, length, IfOk, OnOk, IsErrOf};
ghost use Rattle.wz_bytes.specs.declared.vectors.ItemFault.TheVariants.{Bad};
ghost use Rattle.wz_code.specs.Trees.{tree_of};
ghost use Rattle.wz_module.specs.Views.{trees_of, init_of, elem_of};
ghost use Rattle.wz_decode_code.specs.Reading.{expression_at};
ghost use Rattle.wz_decode_sections.specs.FunctionSection.{indices_at};
ghost use Rattle.wz_decode_sections.specs.ElementSection.{functions_at, expressions_at, function_list_at, expression_list_at, elem_rows, elem_at};

use crate::code_fault::item_fault;
use std::alloc::Global as Heap;
use wz_bytes::{Cursor, Item, ItemFault, take_vector};
use wz_code::Body;
use wz_decode_code::{read_expr, take_kind};
use wz_module::{Elem, ElemItems, ElemMode};
use wz_types::RefKind;

/// Takes an expression.
pub(crate) fn take_expr(alloc: Heap, cursor: &mut Cursor<'_>) -> Result<Body, ItemFault>
    requires { length cursor.old.left < 2 ^ 32 - 1 }
    ensures ok { IfOk result
        (λ b. expression_at cursor.old.left ≡ Some (tree_of b 0, cursor.new.left)) }
    ensures bad { IsErrOf result Bad → expression_at cursor.old.left ≡ None }
    ensures left { OnOk result (length cursor.new.left ≤ length cursor.old.left) }
{
    match read_expr(alloc, cursor) {
        Ok(body) => Ok(body),
        Err(fault) => Err(item_fault(fault)),
    }
}

pub(crate) struct Indices;

impl<'a> Item<'a> for Indices {
    ghost use Rattle.std.specs.Prelude.{◌≡◌, Some, None};
    ghost use Rattle.wz_decode_code.specs.InstrReading.{u32_at};

    type Value = u32;

    ghost reads = { λ bytes x rest. u32_at bytes ≡ Some (x, rest) };

    ghost bad = { λ bytes. u32_at bytes ≡ None };

    fn take(_alloc: Heap, cursor: &mut Cursor<'a>) -> Result<u32, ItemFault> {
        match cursor.number() {
            Some(index) => Ok(index),
            None => Err(ItemFault::Bad),
        }
    }
}

struct Expressions;

impl<'a> Item<'a> for Expressions {
    ghost use Rattle.std.specs.Prelude.{◌≡◌, Some, None};
    ghost use Rattle.wz_code.specs.Trees.{tree_of};
    ghost use Rattle.wz_decode_code.specs.Reading.{expression_at};

    type Value = Body;

    ghost reads = { λ bytes x rest. expression_at bytes ≡ Some (tree_of x 0, rest) };

    ghost bad = { λ bytes. expression_at bytes ≡ None };

    fn take(alloc: Heap, cursor: &mut Cursor<'a>) -> Result<Body, ItemFault> {
        take_expr(alloc, cursor)
    }
}

fn take_indices(alloc: Heap, cursor: &mut Cursor<'_>) -> Result<Vec<u32>, ItemFault>
    requires { length cursor.old.left < 2 ^ 32 - 1 }
    ensures ok { IfOk result (λ ns. indices_at cursor.old.left ≡ Some (ns.items, cursor.new.left)) }
    ensures bad { IsErrOf result Bad → indices_at cursor.old.left ≡ None }
{
    take_vector::<Indices>(alloc, cursor)
}

fn take_bodies(alloc: Heap, cursor: &mut Cursor<'_>) -> Result<Vec<Body>, ItemFault>
    requires { length cursor.old.left < 2 ^ 32 - 1 }
    ensures ok { IfOk result
        (λ bs. expressions_at cursor.old.left ≡ Some (trees_of bs.items, cursor.new.left)) }
    ensures bad { IsErrOf result Bad → expressions_at cursor.old.left ≡ None }
{
    take_vector::<Expressions>(alloc, cursor)
}

/// Takes functions' indices, which stand for references to them.
fn take_functions(alloc: Heap, cursor: &mut Cursor<'_>) -> Result<ElemItems, ItemFault>
    requires { length cursor.old.left < 2 ^ 32 - 1 }
    ensures ok { IfOk result
        (λ i. functions_at cursor.old.left ≡ Some (init_of i, cursor.new.left)) }
    ensures bad { IsErrOf result Bad → functions_at cursor.old.left ≡ None }
{
    let indices = take_indices(alloc, cursor)?;
    Ok(ElemItems::Funcs(indices))
}

/// Takes expressions of references.
fn take_expressions(alloc: Heap, cursor: &mut Cursor<'_>) -> Result<ElemItems, ItemFault>
    requires { length cursor.old.left < 2 ^ 32 - 1 }
    ensures ok { IfOk result
        (λ i. expressions_at cursor.old.left ≡ Some (init_of i, cursor.new.left)) }
    ensures bad { IsErrOf result Bad → expressions_at cursor.old.left ≡ None }
{
    let bodies = take_bodies(alloc, cursor)?;
    Ok(ElemItems::Exprs(bodies))
}

/// Takes the byte that says that functions' indices follow, and those.
fn take_function_list(
    alloc: Heap,
    cursor: &mut Cursor<'_>,
) -> Result<(RefKind, ElemItems), ItemFault>
    requires { length cursor.old.left < 2 ^ 32 - 1 }
    ensures ok { IfOk result
        (λ r. function_list_at cursor.old.left ≡ Some ((r.0, init_of r.1), cursor.new.left)) }
    ensures bad { IsErrOf result Bad → function_list_at cursor.old.left ≡ None }
{
    let Some(0x00) = cursor.byte() else {
        return Err(ItemFault::Bad);
    };
    let items = take_functions(alloc, cursor)?;
    Ok((RefKind::Func, items))
}

/// Takes a type of references, and expressions of such.
fn take_expression_list(
    alloc: Heap,
    cursor: &mut Cursor<'_>,
) -> Result<(RefKind, ElemItems), ItemFault>
    requires { length cursor.old.left < 2 ^ 32 - 1 }
    ensures ok { IfOk result
        (λ r. expression_list_at cursor.old.left ≡ Some ((r.0, init_of r.1), cursor.new.left)) }
    ensures bad { IsErrOf result Bad → expression_list_at cursor.old.left ≡ None }
{
    let Some(kind) = take_kind(cursor) else {
        return Err(ItemFault::Bad);
    };
    let items = take_expressions(alloc, cursor)?;
    Ok((kind, items))
}

/// Behind the flag 0: an offset in table 0, and functions.
fn take_functions_in_first(alloc: Heap, cursor: &mut Cursor<'_>) -> Result<Elem, ItemFault>
    requires { length cursor.old.left < 2 ^ 32 - 1 }
    ensures ok { IfOk result
        (λ e. elem_rows 0 cursor.old.left ≡ Some (elem_of e, cursor.new.left)) }
    ensures bad { IsErrOf result Bad → elem_rows 0 cursor.old.left ≡ None }
{
    let offset = take_expr(alloc, cursor)?;
    let items = take_functions(alloc, cursor)?;
    Ok(Elem {
        mode: ElemMode::Active { table: 0, offset },
        kind: RefKind::Func,
        items,
    })
}

/// Behind the flag 2: a table, an offset in it, and functions.
fn take_functions_in_table(alloc: Heap, cursor: &mut Cursor<'_>) -> Result<Elem, ItemFault>
    requires { length cursor.old.left < 2 ^ 32 - 1 }
    ensures ok { IfOk result
        (λ e. elem_rows 2 cursor.old.left ≡ Some (elem_of e, cursor.new.left)) }
    ensures bad { IsErrOf result Bad → elem_rows 2 cursor.old.left ≡ None }
{
    let Some(table) = cursor.number() else {
        return Err(ItemFault::Bad);
    };
    let offset = take_expr(alloc, cursor)?;
    let (kind, items) = take_function_list(alloc, cursor)?;
    let mode = ElemMode::Active { table, offset };
    Ok(Elem { mode, kind, items })
}

/// Behind the flag 4: an offset in table 0, and expressions.
fn take_expressions_in_first(alloc: Heap, cursor: &mut Cursor<'_>) -> Result<Elem, ItemFault>
    requires { length cursor.old.left < 2 ^ 32 - 1 }
    ensures ok { IfOk result
        (λ e. elem_rows 4 cursor.old.left ≡ Some (elem_of e, cursor.new.left)) }
    ensures bad { IsErrOf result Bad → elem_rows 4 cursor.old.left ≡ None }
{
    let offset = take_expr(alloc, cursor)?;
    let items = take_expressions(alloc, cursor)?;
    Ok(Elem {
        mode: ElemMode::Active { table: 0, offset },
        kind: RefKind::Func,
        items,
    })
}

/// Behind the flag 6: a table, an offset in it, and expressions.
fn take_expressions_in_table(alloc: Heap, cursor: &mut Cursor<'_>) -> Result<Elem, ItemFault>
    requires { length cursor.old.left < 2 ^ 32 - 1 }
    ensures ok { IfOk result
        (λ e. elem_rows 6 cursor.old.left ≡ Some (elem_of e, cursor.new.left)) }
    ensures bad { IsErrOf result Bad → elem_rows 6 cursor.old.left ≡ None }
{
    let Some(table) = cursor.number() else {
        return Err(ItemFault::Bad);
    };
    let offset = take_expr(alloc, cursor)?;
    let (kind, items) = take_expression_list(alloc, cursor)?;
    let mode = ElemMode::Active { table, offset };
    Ok(Elem { mode, kind, items })
}

/// Takes an element segment.
pub(crate) fn take_elem(alloc: Heap, cursor: &mut Cursor<'_>) -> Result<Elem, ItemFault>
    requires { length cursor.old.left < 2 ^ 32 - 1 }
    ensures ok { IfOk result (λ e. elem_at cursor.old.left ≡ Some (elem_of e, cursor.new.left)) }
    ensures bad { IsErrOf result Bad → elem_at cursor.old.left ≡ None }
{
    let Some(flag) = cursor.number() else {
        return Err(ItemFault::Bad);
    };
    take_elem_behind(alloc, flag, cursor)
}

/// Takes what stands behind an element segment's flag.
pub(crate) fn take_elem_behind(
    alloc: Heap,
    flag: u32,
    cursor: &mut Cursor<'_>,
) -> Result<Elem, ItemFault>
    requires { length cursor.old.left < 2 ^ 32 - 1 }
    ensures ok { IfOk result
        (λ e. elem_rows flag cursor.old.left ≡ Some (elem_of e, cursor.new.left)) }
    ensures bad { IsErrOf result Bad → elem_rows flag cursor.old.left ≡ None }
{
    let (mode, (kind, items)) = match flag {
        0 => return take_functions_in_first(alloc, cursor),
        1 => (ElemMode::Passive, take_function_list(alloc, cursor)?),
        2 => return take_functions_in_table(alloc, cursor),
        3 => (ElemMode::Declarative, take_function_list(alloc, cursor)?),
        4 => return take_expressions_in_first(alloc, cursor),
        5 => (ElemMode::Passive, take_expression_list(alloc, cursor)?),
        6 => return take_expressions_in_table(alloc, cursor),
        7 => (ElemMode::Declarative, take_expression_list(alloc, cursor)?),
        _ => return Err(ItemFault::Bad),
    };
    Ok(Elem { mode, kind, items })
}
