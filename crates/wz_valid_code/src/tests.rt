//! Bodies and expressions, typed and untyped, each put together from a list of items.

ghost use Rattle.std.specs.Prelude.{◌≡◌, ◌≤◌, ◌<◌, ◌+◌, ◌++◌, ◌∷◌, [], length, IsTrue, IfOk, IfSome, OnOk, ℕ, List, All};
ghost use Rattle.wz_types.specs.declared.types.ValType.{ValType};
ghost use Rattle.wz_code.specs.BodyParts.{item_count};
ghost use Rattle.wz_code.specs.BlockRule.{named, InPools, IsBuilding};

use crate::body::{BodyFault, check_body};
use crate::constant::check_constant;
use crate::context::Context;
use std::alloc::{AllocError, Global};
use std::collections::BTreeSet;
use std::test::Fail;
use wz_code::{Body, BodyBuilder, Instr, MemOp, NumOp, Shape, laws};
use wz_types::{FuncType, GlobalType, Limits, RefKind, TableType, ValType};

/// An item of a body, in the order in which a body is put together: `Open` begins a block, and the
/// others behind `Instr` put the last blocks that were begun into the one around them.
#[derive(Clone, Copy)]
enum Item {
    Instr(Instr),
    Open,
    Block(Shape),
    Loop(Shape),
    If(Shape),
    IfElse(Shape),
}

fn names_none(instr: Instr) -> bool
    ensures { IsTrue result → named instr ≡ [] }
{
    !matches!(
        instr,
        Instr::Block { .. } | Instr::Loop { .. } | Instr::If { .. }
    )
}

/// Whether the blocks that it names are later ones.
fn names_later(top: u32, instr: Instr) -> bool
    ensures { IsTrue result → All (λ k. top < k) (named instr) }
{
    match instr {
        Instr::Block { body, .. } => top < body,
        Instr::Loop { body, .. } => top < body,
        Instr::If { yes, no, .. } => match no {
            Some(no) => top < yes && top < no,
            None => top < yes,
        },
        _ => true,
    }
}

/// Whether it names at most the two labels and the two types that each body here has.
fn is_in_pools(instr: Instr) -> bool
    ensures { IsTrue result → (labels : List ℕ) (types : List ValType)
        → length labels ≡ 2 → length types ≡ 2 → InPools labels types instr }
{
    match instr {
        Instr::BrTable { first, count, .. } => first < 3 && count < 3 && first + count < 3,
        Instr::SelectTyped { first, count } => first < 3 && count < 3 && first + count < 3,
        _ => true,
    }
}

/// The instruction that an item is, with the blocks that were begun last.
fn instr_of(held: &mut Vec<u32>, item: Item) -> Option<Instr>
    ensures { IfSome result (λ instr. held.old.items ≡ held.new.items ++ named instr) }
{
    match item {
        Item::Open => None,
        Item::Instr(instr) => if names_none(instr) { Some(instr) } else { None },
        Item::Block(shape) => {
            let body = held.pop()?;
            Some(Instr::Block { shape, body })
        }
        Item::Loop(shape) => {
            let body = held.pop()?;
            Some(Instr::Loop { shape, body })
        }
        Item::If(shape) => {
            let yes = held.pop()?;
            Some(Instr::If {
                shape,
                yes,
                no: None,
            })
        }
        Item::IfElse(shape) => {
            let second = held.pop()?;
            let yes = held.pop()?;
            Some(Instr::If {
                shape,
                yes,
                no: Some(second),
            })
        }
    }
}

/// Puts an instruction behind the others of the last block that was begun.
fn place(builder: &mut BodyBuilder, held: &[u32], instr: Instr) -> Result<bool, AllocError>
    requires building { IsBuilding builder.old (held.now ++ named instr) }
    requires labels { length builder.old.labels ≡ 2 }
    requires types { length builder.old.types ≡ 2 }
    requires small { item_count builder.old < 4000000000 }
    ensures building { IfOk result (λ ok. IsTrue ok → IsBuilding builder.new held.now) }
    ensures pools { let sizes = (length builder.new.labels ≡ 2) × (length builder.new.types ≡ 2) in
        IfOk result (λ ok. IsTrue ok → sizes) }
    ensures counted { let one_more = item_count builder.new ≡ item_count builder.old + 1 in
        IfOk result (λ ok. IsTrue ok → one_more) }
{
    laws::building();
    laws::building_takes();
    laws::items_are_counted();
    let Some(top) = held.last() else {
        return Ok(false);
    };
    let top = *top;
    if !names_later(top, instr) || !is_in_pools(instr) {
        return Ok(false);
    }
    builder.add_instr(top, instr)?;
    Ok(true)
}

/// Begins a block.
fn begin(builder: &mut BodyBuilder, held: &mut Vec<u32>) -> Result<(), AllocError>
    requires building { IsBuilding builder.old held.old.items }
    requires small { item_count builder.old < 4000000000 }
    ensures building { OnOk result (IsBuilding builder.new held.new.items) }
    ensures pools { let types_stay = builder.new.types ≡ builder.old.types in
        OnOk result ((builder.new.labels ≡ builder.old.labels) × types_stay) }
    ensures counted { OnOk result (item_count builder.new ≡ item_count builder.old + 1) }
{
    laws::building_takes();
    laws::items_are_counted();
    let number = builder.add_block()?;
    held.push(number)?;
    Ok(())
}

fn add(builder: &mut BodyBuilder, held: &mut Vec<u32>, item: Item) -> Result<bool, AllocError>
    requires building { IsBuilding builder.old held.old.items }
    requires labels { length builder.old.labels ≡ 2 }
    requires types { length builder.old.types ≡ 2 }
    requires small { item_count builder.old < 4000000000 }
    ensures building { IfOk result (λ ok. IsTrue ok → IsBuilding builder.new held.new.items) }
    ensures pools { let sizes = (length builder.new.labels ≡ 2) × (length builder.new.types ≡ 2) in
        IfOk result (λ ok. IsTrue ok → sizes) }
    ensures counted { let one_more = item_count builder.new ≡ item_count builder.old + 1 in
        IfOk result (λ ok. IsTrue ok → one_more) }
{
    if let Item::Open = item {
        begin(builder, held)?;
        return Ok(true);
    }
    let Some(instr) = instr_of(held, item) else {
        return Ok(false);
    };
    let placed = place(builder, held.as_slice(), instr)?;
    Ok(placed)
}

/// A builder with the labels 0 and 1 and the types i32 and funcref in its pools, and so many locals
/// of type i64.
fn start(alloc: Global, locals: u32) -> Result<BodyBuilder, AllocError>
    ensures building { IfOk result (λ builder. IsBuilding builder (0 ∷ [])) }
    ensures labels { IfOk result (λ builder. length builder.labels ≡ 2) }
    ensures types { IfOk result (λ builder. length builder.types ≡ 2) }
    ensures counted { IfOk result (λ builder. item_count builder ≡ 6) }
{
    laws::building();
    laws::building_takes();
    laws::items_are_counted();
    let mut builder = BodyBuilder::new(alloc);
    builder.add_locals(locals, ValType::I64)?;
    builder.add_label(0)?;
    builder.add_label(1)?;
    builder.add_type(ValType::I32)?;
    builder.add_type(ValType::FuncRef)?;
    Ok(builder)
}

/// The body, if no block but the body itself is still to be put into another.
fn finish(builder: BodyBuilder, held: &[u32]) -> Option<Body>
    requires building { IsBuilding builder held.now }
    requires small { item_count builder < 4000000000 }
{
    laws::items_are_counted();
    if held.len() != 1 {
        return None;
    }
    let outer = held[0];
    if outer != 0 {
        return None;
    }
    Some(builder.finish())
}

/// The body that these items put together, if they are one.
fn body_of(alloc: Global, locals: u32, items: &[Item]) -> Result<Option<Body>, AllocError> {
    if items.len() > 1_000_000 {
        return Ok(None);
    }
    let mut builder = start(alloc, locals)?;
    let mut held = vec![in alloc; 0u32]?;
    for item in items {
        if !add(&mut builder, &mut held, *item)? {
            return Ok(None);
        }
    }
    Ok(finish(builder, held.as_slice()))
}

const STOP: Item = Item::Instr(Instr::Unreachable);

const DROP: Item = Item::Instr(Instr::Drop);

const SELECT: Item = Item::Instr(Instr::Select);

const SMALL: Item = Item::Instr(Instr::I32Const(1));

const LARGE: Item = Item::Instr(Instr::I64Const(1));

const ADD: Item = Item::Instr(Instr::Num(NumOp::I32Add));

const IS_NULL: Item = Item::Instr(Instr::RefIsNull);

const NULL: Item = Item::Instr(Instr::RefNull(RefKind::Func));

const OUT: Item = Item::Instr(Instr::Br(0));

const TABLE: Item = Item::Instr(Instr::BrTable {
    first: 0,
    count: 1,
    last: 1,
});

const OPEN: Item = Item::Open;

macro_rules! load {
    ($op:ident, $align:expr) => {
        Item::Instr(Instr::Access {
            op: MemOp::$op,
            align: $align,
            offset: 0,
            memory: 0,
        })
    };
}

/// Bodies of a function with no parameters and no results, 50,000 locals of type i64, and whether
/// they are typed. Type 1 is [i32] to [i64]. Rows are counted from 0 where one fails.
const BODIES: &[(bool, &[Item])] = &[
    (true, &[]),
    // behind an unconditional branch
    (true, &[STOP, ADD, DROP]),
    (false, &[STOP, ADD]),
    (true, &[OUT, ADD, DROP]),
    (false, &[STOP, LARGE, ADD, DROP]),
    (true, &[STOP, SELECT, IS_NULL, DROP]),
    (
        true,
        &[
            OPEN,
            STOP,
            SELECT,
            Item::Block(Shape::One(ValType::FuncRef)),
            DROP,
        ],
    ),
    (false, &[STOP, SMALL, SMALL, SELECT, IS_NULL, DROP]),
    (false, &[ADD, DROP]),
    // blocks
    (
        true,
        &[SMALL, OPEN, DROP, LARGE, Item::Block(Shape::Index(1)), DROP],
    ),
    (
        false,
        &[OPEN, DROP, LARGE, Item::Block(Shape::Index(1)), DROP],
    ),
    (false, &[SMALL, OPEN, DROP, Item::Block(Shape::Empty)]),
    (false, &[OPEN, Item::Block(Shape::Index(9))]),
    (true, &[SMALL, OPEN, Item::If(Shape::Empty)]),
    (
        false,
        &[SMALL, OPEN, SMALL, Item::If(Shape::One(ValType::I32)), DROP],
    ),
    (
        true,
        &[
            SMALL,
            OPEN,
            SMALL,
            OPEN,
            SMALL,
            Item::IfElse(Shape::One(ValType::I32)),
            DROP,
        ],
    ),
    (
        false,
        &[
            SMALL,
            OPEN,
            SMALL,
            OPEN,
            LARGE,
            Item::IfElse(Shape::One(ValType::I32)),
            DROP,
        ],
    ),
    // branches
    (
        true,
        &[OPEN, OUT, Item::Loop(Shape::One(ValType::I32)), DROP],
    ),
    (true, &[SMALL, OPEN, OUT, Item::Loop(Shape::Index(1)), DROP]),
    (
        false,
        &[
            SMALL,
            OPEN,
            DROP,
            LARGE,
            OUT,
            Item::Loop(Shape::Index(1)),
            DROP,
        ],
    ),
    (
        true,
        &[
            OPEN,
            SMALL,
            SMALL,
            Item::Instr(Instr::BrIf(0)),
            Item::Block(Shape::One(ValType::I32)),
            DROP,
        ],
    ),
    (false, &[Item::Instr(Instr::Br(1))]),
    (
        true,
        &[
            OPEN,
            OPEN,
            STOP,
            TABLE,
            Item::Block(Shape::One(ValType::I32)),
            DROP,
            LARGE,
            Item::Block(Shape::One(ValType::I64)),
            DROP,
        ],
    ),
    (
        false,
        &[
            OPEN,
            OPEN,
            SMALL,
            SMALL,
            TABLE,
            Item::Block(Shape::One(ValType::I32)),
            DROP,
            LARGE,
            Item::Block(Shape::One(ValType::I64)),
            DROP,
        ],
    ),
    (
        false,
        &[
            OPEN,
            OPEN,
            STOP,
            TABLE,
            Item::Block(Shape::Empty),
            LARGE,
            Item::Block(Shape::One(ValType::I64)),
            DROP,
        ],
    ),
    // select
    (true, &[SMALL, SMALL, SMALL, SELECT, DROP]),
    (false, &[NULL, NULL, SMALL, SELECT, DROP]),
    (
        true,
        &[
            NULL,
            NULL,
            SMALL,
            Item::Instr(Instr::SelectTyped { first: 1, count: 1 }),
            DROP,
        ],
    ),
    (
        false,
        &[
            NULL,
            NULL,
            SMALL,
            Item::Instr(Instr::SelectTyped { first: 0, count: 1 }),
            DROP,
        ],
    ),
    (
        false,
        &[
            STOP,
            Item::Instr(Instr::SelectTyped { first: 0, count: 2 }),
            DROP,
        ],
    ),
    // what is named
    (true, &[SMALL, Item::Instr(Instr::GlobalSet(1))]),
    (false, &[SMALL, Item::Instr(Instr::GlobalSet(0))]),
    (true, &[Item::Instr(Instr::RefFunc(1)), DROP]),
    (false, &[Item::Instr(Instr::RefFunc(0)), DROP]),
    (true, &[SMALL, Item::Instr(Instr::Call(1)), DROP]),
    (false, &[SMALL, Item::Instr(Instr::Call(2)), DROP]),
    (
        true,
        &[
            SMALL,
            SMALL,
            Item::Instr(Instr::CallIndirect {
                signature: 1,
                table: 0,
            }),
            DROP,
        ],
    ),
    (
        false,
        &[
            SMALL,
            SMALL,
            Item::Instr(Instr::CallIndirect {
                signature: 1,
                table: 1,
            }),
            DROP,
        ],
    ),
    (true, &[LARGE, Item::Instr(Instr::LocalSet(49_999))]),
    (false, &[LARGE, Item::Instr(Instr::LocalSet(50_000))]),
    // memories and tables
    (true, &[SMALL, load!(I64Load, 3), DROP]),
    (false, &[SMALL, load!(I64Load, 4), DROP]),
    (false, &[SMALL, load!(I32Load8U, 1), DROP]),
    (false, &[SMALL, load!(I64Load, u32::MAX), DROP]),
    (
        true,
        &[
            SMALL,
            SMALL,
            SMALL,
            Item::Instr(Instr::MemoryInit {
                segment: 0,
                memory: 0,
            }),
        ],
    ),
    (
        false,
        &[
            SMALL,
            SMALL,
            SMALL,
            Item::Instr(Instr::MemoryInit {
                segment: 1,
                memory: 0,
            }),
        ],
    ),
    (
        true,
        &[
            SMALL,
            SMALL,
            SMALL,
            Item::Instr(Instr::TableInit {
                segment: 0,
                table: 0,
            }),
        ],
    ),
    (
        false,
        &[
            SMALL,
            SMALL,
            SMALL,
            Item::Instr(Instr::TableInit {
                segment: 0,
                table: 1,
            }),
        ],
    ),
    (
        false,
        &[
            SMALL,
            SMALL,
            SMALL,
            Item::Instr(Instr::TableCopy { to: 0, from: 1 }),
        ],
    ),
    (
        true,
        &[SMALL, NULL, SMALL, Item::Instr(Instr::TableFill(0))],
    ),
    (
        false,
        &[SMALL, NULL, SMALL, Item::Instr(Instr::TableFill(1))],
    ),
];

/// Expressions for an i32, and whether they are constant and give one.
const EXPRESSIONS: &[(bool, &[Item])] = &[
    (true, &[SMALL]),
    (false, &[]),
    (false, &[LARGE]),
    (false, &[SMALL, SMALL]),
    (false, &[SMALL, SMALL, ADD]),
    (true, &[Item::Instr(Instr::GlobalGet(0))]),
    (false, &[Item::Instr(Instr::GlobalGet(1))]),
    (false, &[Item::Instr(Instr::GlobalGet(2))]),
    (false, &[OPEN, SMALL, Item::Block(Shape::One(ValType::I32))]),
];

#[test]
fn bodies_and_expressions(rt: HostRuntime) -> Result<(), Fail> {
    let alloc = rt.alloc();
    let types = [
        FuncType::new(alloc, &[], &[])?,
        FuncType::new(alloc, &[ValType::I32], &[ValType::I64])?,
    ];
    let limits = Limits { min: 0, max: None };
    let mut declared = BTreeSet::new(alloc);
    declared.insert(1)?;
    let context = Context {
        types: &types,
        functions: &[0, 1],
        tables: &[
            TableType {
                kind: RefKind::Func,
                limits,
            },
            TableType {
                kind: RefKind::Extern,
                limits,
            },
        ],
        memories: 1,
        globals: &[
            GlobalType {
                value: ValType::I32,
                mutable: false,
            },
            GlobalType {
                value: ValType::I32,
                mutable: true,
            },
            GlobalType {
                value: ValType::I32,
                mutable: false,
            },
        ],
        imported_globals: 2,
        elements: &[RefKind::Func],
        datas: 1,
        declared: &declared,
    };
    for (row, (typed, items)) in BODIES.iter().enumerate() {
        let Some(body) = body_of(alloc, 50_000, items)? else {
            assert!(rt; false, "row {row} of BODIES is no body");
            continue;
        };
        let answer = if *typed {
            Ok(())
        } else {
            Err(BodyFault::Untyped)
        };
        let found = check_body(alloc, &context, &types[0], &body);
        assert!(rt; found == answer, "row {row} of BODIES");
    }
    for (row, (constant, items)) in EXPRESSIONS.iter().enumerate() {
        let Some(body) = body_of(alloc, 0, items)? else {
            assert!(rt; false, "row {row} of EXPRESSIONS is no expression");
            continue;
        };
        let answer = if *constant {
            Ok(())
        } else {
            Err(BodyFault::Untyped)
        };
        let found = check_constant(alloc, &context, ValType::I32, &body);
        assert!(rt; found == answer, "row {row} of EXPRESSIONS");
    }
    Ok(())
}

#[test]
fn deep_bodies(rt: HostRuntime) -> Result<(), Fail> {
    let alloc = rt.alloc();
    let kind = FuncType::new(alloc, &[], &[])?;
    let declared = BTreeSet::new(alloc);
    let context = Context {
        types: &[],
        functions: &[],
        tables: &[],
        memories: 0,
        globals: &[],
        imported_globals: 0,
        elements: &[],
        datas: 0,
        declared: &declared,
    };
    let mut items = Vec::new(alloc);
    for _ in 0..100_000 {
        items.push(OPEN)?;
    }
    items.push(Item::Instr(Instr::Br(100_000)))?;
    for _ in 0..100_000 {
        items.push(Item::Block(Shape::Empty))?;
    }
    let body = body_of(alloc, 0, items.as_slice())?;
    assert!(rt; body.is_some());
    if let Some(body) = body {
        assert!(rt; check_body(alloc, &context, &kind, &body).is_ok());
    }
    Ok(())
}
