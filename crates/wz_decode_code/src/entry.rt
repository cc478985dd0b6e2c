//! What stands in an entry of the code section, within its size.

ghost use Rattle.std.specs.Prelude.{◌≡◌, ◌<◌, ◌+◌, ◌-◌, ◌^◌, None, length, drop, IfOk, IsErrOf};
ghost use Rattle.wz_bytes.specs.Place.{GivesFront};
ghost use Rattle.wz_bytes.specs.Forms.{items_at};
ghost use Rattle.wz_decode_code.specs.declared.fault.CodeFault.TheVariants.{Bad};
ghost use Rattle.wz_decode_code.specs.Entry.{IsEntry, code_entry_of, run_at, locals_at, locals_count};
ghost use Rattle.wz_decode_code.specs.Pools.{RunsAdded, LocalsRead};
ghost use Rattle.wz_decode_code.specs.Laws.{SpellsNone};

use crate::expr::read_code;
use crate::fault::CodeFault;
use crate::types::take_type;
use std::alloc::Global;
use wz_bytes::Cursor;
use wz_code::{Body, BodyBuilder};
use wz_types::ValType;

/// Reads a function's locals and instructions, which are all of the bytes (Core Specification 2.0,
/// section 5.5.13).
pub fn read_body(alloc: Global, bytes: &[u8]) -> Result<Body, CodeFault>
    requires { length bytes.now < 2 ^ 32 - 1 }
    ensures found { IfOk result (λ body. IsEntry bytes.now (code_entry_of body)) }
    ensures bad { IsErrOf result Bad → SpellsNone (λ t entry. IsEntry t entry) bytes.now }
{
    let mut builder = BodyBuilder::new(alloc);
    let mut cursor = Cursor::new(bytes);
    read_locals(&mut builder, &mut cursor)?;
    let body = read_code(alloc, builder, &mut cursor)?;
    if !cursor.left().is_empty() {
        return Err(CodeFault::Bad);
    }
    Ok(body)
}

/// Adds the runs of locals in front.
fn read_locals(builder: &mut BodyBuilder, cursor: &mut Cursor<'_>) -> Result<(), CodeFault>
    requires { length builder.old.locals + length cursor.old.left < 2 ^ 32 }
    ensures ok { let read = LocalsRead cursor.old.left builder.old builder.new cursor.new.left in
        IfOk result (λ r. read) }
    ensures bad { IsErrOf result Bad → locals_at cursor.old.left ≡ None }
{
    let Some(count) = cursor.number() else {
        return Err(CodeFault::Bad);
    };
    let total = add_runs(builder, count, cursor)?;
    if total >= 1 << 32 {
        return Err(CodeFault::Bad);
    }
    Ok(())
}

/// Adds so many runs of locals. It gives how many locals they are in all.
fn add_runs(
    builder: &mut BodyBuilder,
    count: u32,
    cursor: &mut Cursor<'_>,
) -> Result<u64, CodeFault>
    requires { length builder.old.locals + length cursor.old.left < 2 ^ 32 }
    ensures ok { let added = RunsAdded count cursor.old.left builder.old in
        IfOk result (λ r. added builder.new cursor.new.left) }
    ensures total { let runs = drop (length builder.old.locals) builder.new.locals in
        IfOk result (λ r. r ≡ locals_count runs) }
    ensures bad { IsErrOf result Bad → items_at (λ b. run_at b) count cursor.old.left ≡ None }
{
    let mut total = 0;
    for _ in 0..count {
        let Some((many, kind)) = take_run(cursor) else {
            return Err(CodeFault::Bad);
        };
        builder.add_locals(many, kind)?;
        total += u64::from(many);
    }
    Ok(total)
}

/// The run of locals in front.
fn take_run(cursor: &mut Cursor<'_>) -> Option<(u32, ValType)>
    ensures { GivesFront (λ r. (r.0, r.1)) result cursor.new (run_at cursor.old.left) }
{
    let many = cursor.number()?;
    let kind = take_type(cursor)?;
    Some((many, kind))
}
