//! Sections and the items that they hold (Core Specification 2.0, sections 2.5 and 5.5.2).

use wz_code::Body;
use wz_types::{GlobalType, MemType, RefKind, TableType};

/// A section as it stands in the binary: its id, and its contents without their size.
#[derive(Clone, Copy, Debug, PartialEq, Eq)]
pub struct Section<'a> {
    pub id: u8,
    pub payload: &'a [u8],
}

/// What an import asks for; a function by the number of its type.
#[derive(Clone, Copy, Debug, PartialEq, Eq)]
pub enum ImportKind {
    Func(u32),
    Table(TableType),
    Memory(MemType),
    Global(GlobalType),
}

/// An import: the names of a module and of what it has, and what that has to be.
#[derive(Clone, Copy, Debug, PartialEq, Eq)]
pub struct Import<'a> {
    pub module: &'a str,
    pub name: &'a str,
    pub kind: ImportKind,
}

/// What an export gives out, by its index.
#[derive(Clone, Copy, Debug, PartialEq, Eq)]
pub enum ExportTarget {
    Func(u32),
    Table(u32),
    Memory(u32),
    Global(u32),
}

#[derive(Clone, Copy, Debug, PartialEq, Eq)]
pub struct Export<'a> {
    pub name: &'a str,
    pub target: ExportTarget,
}

/// A global of the module's own, with the expression of its first value.
#[derive(Drop)]
pub struct GlobalDef {
    pub kind: GlobalType,
    pub init: Body,
}

/// What becomes of an element segment: it waits for `table.init`, is copied into a table at
/// instantiation, or only declares functions.
#[derive(Drop)]
pub enum ElemMode {
    Passive,
    Active { table: u32, offset: Body },
    Declarative,
}

/// The references of an element segment. A function's index `f` is short for the expression
/// `ref.func f`.
#[derive(Drop)]
pub enum ElemItems {
    Funcs(Vec<u32>),
    Exprs(Vec<Body>),
}

#[derive(Drop)]
pub struct Elem {
    pub mode: ElemMode,
    pub kind: RefKind,
    pub items: ElemItems,
}

/// What becomes of a data segment: it waits for `memory.init`, or is copied into a memory at
/// instantiation.
#[derive(Drop)]
pub enum DataMode {
    Passive,
    Active { memory: u32, offset: Body },
}

#[derive(Drop)]
pub struct DataSegment<'a> {
    pub mode: DataMode,
    pub bytes: &'a [u8],
}

/// Where a segment stands in a payload: its place, the number of bytes of its flag, and its length
/// with the flag.
#[derive(Clone, Copy, Debug, PartialEq, Eq)]
pub struct Span {
    pub at: u32,
    pub head: u32,
    pub len: u32,
}
