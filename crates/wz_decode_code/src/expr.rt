//! Expressions.

ghost use Rattle.std.specs.Prelude.{◌≡◌, ◌<◌, ◌+◌, ◌-◌, ◌^◌, Some, None, [], ◌∷◌, length, IfOk, OnErr, IsErrOf};
ghost use Rattle.wz_bytes.specs.Reading.{NoFront};
ghost use Rattle.wz_bytes.specs.Place.{Passes};
ghost use Rattle.wz_code.specs.BodyParts.{item_count};
ghost use Rattle.wz_code.specs.Trees.{End, tree_of};
ghost use Rattle.wz_code.specs.BlockRule.{IsBuilding};
ghost use Rattle.wz_decode_code.specs.declared.fault.CodeFault.TheVariants.{Bad};
ghost use Rattle.wz_decode_code.specs.Code.{IsExpression};
ghost use Rattle.wz_decode_code.specs.Reading.{expression_at};
ghost use Rattle.wz_decode_code.specs.Laws.{GivesRead};

use crate::blocks::step;
use crate::fault::CodeFault;
use crate::pools::read_symbol;
use std::alloc::Global;
use wz_bytes::Cursor;
use wz_code::{Body, BodyBuilder};

/// Reads an expression and its `0B`, which become a body with no locals (Core Specification 2.0,
/// section 5.4.9).
pub fn read_expr(alloc: Global, cursor: &mut Cursor<'_>) -> Result<Body, CodeFault>
    requires { length cursor.old.left < 2 ^ 32 - 1 }
    ensures found { IfOk result (λ b. Passes IsExpression (tree_of b 0) cursor.old cursor.new) }
    ensures no_locals { IfOk result (λ b. b.locals ≡ []) }
    ensures bad { IsErrOf result Bad → NoFront IsExpression cursor.old.left }
    ensures stays { OnErr result (cursor.new ≡ cursor.old) }

    // The same as an equation, for proofs about longer readings.
    ensures exact { GivesRead (λ b. tree_of b 0) result cursor.new (expression_at cursor.old.left) }
{
    let left = cursor.left();
    let mut ahead = Cursor::new(left);
    let body = read_code(alloc, BodyBuilder::new(alloc), &mut ahead)?;
    cursor.take(left.len() - ahead.left().len());
    Ok(body)
}

/// The expression in front. The builder has no instruction yet.
pub(crate) fn read_code(
    alloc: Global,
    mut builder: BodyBuilder,
    cursor: &mut Cursor<'_>,
) -> Result<Body, CodeFault>
    requires building { IsBuilding builder (0 ∷ []) }
    requires empty { tree_of builder 0 ≡ End }
    requires room { item_count builder + length cursor.old.left < 2 ^ 32 }
    ensures ok { let read = expression_at cursor.old.left in
        IfOk result (λ b. read ≡ Some (tree_of b 0, cursor.new.left)) }
    ensures locals { IfOk result (λ b. b.locals ≡ builder.locals) }
    ensures bad { IsErrOf result Bad → expression_at cursor.old.left ≡ None }
{
    let mut opens = Vec::new(alloc);
    let mut here = 0;
    'symbols: loop {
        let token = read_symbol(&mut builder, cursor)?;
        match step(&mut builder, &mut opens, here, token)? {
            Some(inner) => here = inner,
            None => return Ok(builder.finish()),
        }
    }
}
