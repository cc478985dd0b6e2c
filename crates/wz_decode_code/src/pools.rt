//! Vectors whose items are added to a body as they are read, so that nothing is reserved by their
//! count.

ghost use Rattle.std.specs.Prelude.{◌≡◌, ◌+◌, ◌<◌, ◌^◌, ◌∷◌, length, IfOk, IsErrOf};
ghost use Rattle.wz_bytes.specs.Forms.{items_at};
ghost use Rattle.wz_code.specs.BodyParts.{item_count};
ghost use Rattle.wz_decode_code.specs.declared.fault.CodeFault.TheVariants.{Bad};
ghost use Rattle.wz_decode_code.specs.Types.{type_at};
ghost use Rattle.wz_decode_code.specs.InstrReading.{u32_at};
ghost use Rattle.wz_decode_code.specs.Tokens.{symbol_at};
ghost use Rattle.wz_decode_code.specs.Pools.{LabelsAdded, TypesAdded, Stand, SymbolRead};

use crate::fault::CodeFault;
use crate::token::{Token, read_token};
use crate::types::take_type;
use wz_bytes::Cursor;
use wz_code::{BodyBuilder, Instr};

/// The symbol in front. The labels of a `br_table` and the types of a typed `select` are added to
/// the body's pools.
pub(crate) fn read_symbol(
    builder: &mut BodyBuilder,
    cursor: &mut Cursor<'_>,
) -> Result<Token, CodeFault>
    requires room { item_count builder.old + length cursor.old.left < 2 ^ 32 }
    ensures ok { let read = SymbolRead cursor.old.left builder.old builder.new in
        IfOk result (λ t. read t cursor.new.left) }
    ensures bad { IsErrOf result Bad → symbol_at cursor.old.left ≡ None }
{
    let Some(opcode) = cursor.byte() else {
        return Err(CodeFault::Bad);
    };
    match opcode {
        0x0E => branch_table(builder, cursor),
        0x1C => typed_select(builder, cursor),
        _ => match read_token(opcode, cursor) {
            Some(token) => Ok(token),
            None => Err(CodeFault::Bad),
        },
    }
}

/// A `br_table` behind its opcode.
fn branch_table(builder: &mut BodyBuilder, cursor: &mut Cursor<'_>) -> Result<Token, CodeFault>
    requires room { item_count builder.old + length cursor.old.left < 2 ^ 32 }
    ensures ok { let bytes = 0x0E ∷ cursor.old.left in
        IfOk result (λ t. SymbolRead bytes builder.old builder.new t cursor.new.left) }
    ensures bad { IsErrOf result Bad → symbol_at (0x0E ∷ cursor.old.left) ≡ None }
{
    let Some(count) = cursor.number() else {
        return Err(CodeFault::Bad);
    };
    let first = add_labels(builder, count, cursor)?;
    let Some(last) = cursor.number() else {
        return Err(CodeFault::Bad);
    };
    Ok(Token::Plain(Instr::BrTable { first, count, last }))
}

/// A typed `select` behind its opcode.
fn typed_select(builder: &mut BodyBuilder, cursor: &mut Cursor<'_>) -> Result<Token, CodeFault>
    requires room { item_count builder.old + length cursor.old.left < 2 ^ 32 }
    ensures ok { let bytes = 0x1C ∷ cursor.old.left in
        IfOk result (λ t. SymbolRead bytes builder.old builder.new t cursor.new.left) }
    ensures bad { IsErrOf result Bad → symbol_at (0x1C ∷ cursor.old.left) ≡ None }
{
    let Some(count) = cursor.number() else {
        return Err(CodeFault::Bad);
    };
    let first = add_types(builder, count, cursor)?;
    Ok(Token::Plain(Instr::SelectTyped { first, count }))
}

/// Adds so many labels. It gives the place of the first one, or 0.
fn add_labels(
    builder: &mut BodyBuilder,
    count: u32,
    cursor: &mut Cursor<'_>,
) -> Result<u32, CodeFault>
    requires room { length builder.old.labels + length cursor.old.left < 2 ^ 32 }
    ensures ok { let added = LabelsAdded count cursor.old.left builder.old in
        IfOk result (λ r. added builder.new cursor.new.left) }
    ensures place { IfOk result (λ r. Stand r count builder.old.labels builder.new.labels) }
    ensures bad { IsErrOf result Bad → items_at (λ b. u32_at b) count cursor.old.left ≡ None }
{
    let mut end = 0;
    for _ in 0..count {
        let Some(label) = cursor.number() else {
            return Err(CodeFault::Bad);
        };
        end = builder.add_label(label)? + 1;
    }
    Ok(end - count)
}

/// Adds so many types. It gives the place of the first one, or 0.
fn add_types(
    builder: &mut BodyBuilder,
    count: u32,
    cursor: &mut Cursor<'_>,
) -> Result<u32, CodeFault>
    requires room { length builder.old.types + length cursor.old.left < 2 ^ 32 }
    ensures ok { let added = TypesAdded count cursor.old.left builder.old in
        IfOk result (λ r. added builder.new cursor.new.left) }
    ensures place { IfOk result (λ r. Stand r count builder.old.types builder.new.types) }
    ensures bad { IsErrOf result Bad → items_at (λ b. type_at b) count cursor.old.left ≡ None }
{
    let mut end = 0;
    for _ in 0..count {
        let Some(kind) = take_type(cursor) else {
            return Err(CodeFault::Bad);
        };
        end = builder.add_type(kind)? + 1;
    }
    Ok(end - count)
}
