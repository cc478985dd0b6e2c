//! Blocks that are open while an expression is read, each with a number.

ghost use Rattle.std.specs.Prelude.{◌≡◌, ◌<◌, ◌≤◌, ◌+◌, ◌-◌, ◌^◌, [], ◌∷◌, ◌++◌, length, reverse, IfOk, OnOk, IsErrOf};
ghost use Rattle.wz_code.specs.BodyParts.{with_block, item_count};
ghost use Rattle.wz_decode_code.specs.declared.fault.CodeFault.TheVariants.{Bad};
ghost use Rattle.wz_decode_code.specs.Reading.{Misplaced};
ghost use Rattle.wz_decode_code.specs.Opened.{node_of, next_of, TokenFits, IsReading, Follows, items_of_step};

use crate::fault::CodeFault;
use crate::token::Token;
use wz_code::{BodyBuilder, Instr, Shape};

/// Which part of its parent an open block is.
#[derive(Clone, Copy)]
pub(crate) enum Kind {
    Block,
    Loop,
    First,
    /// The second arm of an if, behind the first one of this number.
    Second(u32),
}

/// An open block within its parent.
#[derive(Clone, Copy)]
pub(crate) struct Open {
    pub kind: Kind,
    pub shape: Shape,
    pub parent: u32,
}

/// The instruction that a block becomes at its end.
fn node(opened: Open, inner: u32) -> Instr
    ensures { result ≡ node_of opened.kind opened.shape inner }
{
    let shape = opened.shape;
    match opened.kind {
        Kind::Block => Instr::Block { shape, body: inner },
        Kind::Loop => Instr::Loop { shape, body: inner },
        Kind::First => Instr::If {
            shape,
            yes: inner,
            no: None,
        },
        Kind::Second(first) => Instr::If {
            shape,
            yes: first,
            no: Some(inner),
        },
    }
}

/// Begins a block, and gives its number.
fn enter(
    builder: &mut BodyBuilder,
    opens: &mut Vec<Open>,
    kind: Kind,
    shape: Shape,
    parent: u32,
) -> Result<u32, CodeFault>
    requires { length builder.old.blocks < 2 ^ 32 - 1 }
    ensures number { IfOk result (λ n. n ≡ length builder.old.blocks) }
    ensures added { OnOk result (builder.new ≡ with_block builder.old) }
    ensures opens { let was = opens.old.items in OnOk result
        (opens.new.items ≡ was ++ record { kind = kind; shape = shape; parent = parent } ∷ []) }
    ensures not_bad { IsErrOf result Bad → ⊥ }
{
    let inner = builder.add_block()?;
    opens.push(Open {
        kind,
        shape,
        parent,
    })?;
    Ok(inner)
}

/// Does what the token says within the open blocks, of which `here` is the innermost. Some is the
/// innermost one's number then, and None that the expression has ended.
pub(crate) fn step(
    builder: &mut BodyBuilder,
    opens: &mut Vec<Open>,
    here: u32,
    token: Token,
) -> Result<Option<u32>, CodeFault>
    requires reading { IsReading builder.old here (reverse opens.old.items) }
    requires fits { TokenFits builder.old token }
    requires room { item_count builder.old < 2 ^ 32 - 1 }
    ensures ok { let next = next_of builder.old here (reverse opens.old.items) token in
        IfOk result (λ to. Follows next to builder.new (reverse opens.new.items)) }
    ensures bad { let next = next_of builder.old here (reverse opens.old.items) token in
        IsErrOf result Bad → next ≡ Misplaced }
    ensures room { let was = item_count builder.old in
        IfOk result (λ to. item_count builder.new ≤ was + items_of_step to) }
    ensures locals { OnOk result (builder.new.locals ≡ builder.old.locals) }
{
    match token {
        Token::Plain(instr) => {
            builder.add_instr(here, instr)?;
            Ok(Some(here))
        }
        Token::Block(shape) => {
            let inner = enter(builder, opens, Kind::Block, shape, here)?;
            Ok(Some(inner))
        }
        Token::Loop(shape) => {
            let inner = enter(builder, opens, Kind::Loop, shape, here)?;
            Ok(Some(inner))
        }
        Token::If(shape) => {
            let inner = enter(builder, opens, Kind::First, shape, here)?;
            Ok(Some(inner))
        }
        Token::Else => {
            let Some(first) = opens.pop() else {
                return Err(CodeFault::Bad);
            };
            let Kind::First = first.kind else {
                return Err(CodeFault::Bad);
            };
            let kind = Kind::Second(here);
            let inner = enter(builder, opens, kind, first.shape, first.parent)?;
            Ok(Some(inner))
        }
        Token::End => {
            let Some(opened) = opens.pop() else {
                return Ok(None);
            };
            builder.add_instr(opened.parent, node(opened, here))?;
            Ok(Some(opened.parent))
        }
    }
}
