//! Instructions (Core Specification 2.0, section 2.4).

use crate::accesses::MemOp;
use crate::numeric::NumOp;
use wz_types::{RefKind, ValType};

/// What a block, a loop or an if takes and leaves: nothing and nothing, nothing and one value, or
/// what the function type of this number says.
#[derive(Clone, Copy, Debug, PartialEq, Eq)]
pub enum Shape {
    Empty,
    One(ValType),
    Index(u32),
}

/// An instruction, which names what stands in it by number: the blocks of a `Block`, a `Loop` or an
/// `If` among the body's blocks, the labels of a `BrTable` and the types of a `SelectTyped` by the
/// first one and their count in the body's pools. Floats are kept as their bits. It takes 24 bytes.
#[derive(Clone, Copy)]
pub enum Instr {
    Unreachable,
    Nop,
    Block {
        shape: Shape,
        body: u32,
    },
    Loop {
        shape: Shape,
        body: u32,
    },
    If {
        shape: Shape,
        yes: u32,
        no: Option<u32>,
    },
    Br(u32),
    BrIf(u32),
    BrTable {
        first: u32,
        count: u32,
        last: u32,
    },
    Return,
    Call(u32),
    CallIndirect {
        signature: u32,
        table: u32,
    },
    RefNull(RefKind),
    RefIsNull,
    RefFunc(u32),
    Drop,
    Select,
    SelectTyped {
        first: u32,
        count: u32,
    },
    LocalGet(u32),
    LocalSet(u32),
    LocalTee(u32),
    GlobalGet(u32),
    GlobalSet(u32),
    TableGet(u32),
    TableSet(u32),
    TableInit {
        segment: u32,
        table: u32,
    },
    ElemDrop(u32),
    TableCopy {
        to: u32,
        from: u32,
    },
    TableGrow(u32),
    TableSize(u32),
    TableFill(u32),
    Access {
        op: MemOp,
        align: u32,
        offset: u32,
        memory: u32,
    },
    MemorySize(u32),
    MemoryGrow(u32),
    MemoryInit {
        segment: u32,
        memory: u32,
    },
    DataDrop(u32),
    MemoryCopy {
        to: u32,
        from: u32,
    },
    MemoryFill(u32),
    I32Const(u32),
    I64Const(u64),
    F32Const(u32),
    F64Const(u64),
    Num(NumOp),
}
