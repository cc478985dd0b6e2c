//! The types of values, tables, memories and globals (Core Specification 2.0, section 2.3).

ghost use Rattle.std.specs.Prelude.{◌≡◌};

/// The type of a value: a number of 32 or 64 bits, or a reference.
#[derive(Clone, Copy, Debug, PartialEq, Eq)]
pub enum ValType {
    I32,
    I64,
    F32,
    F64,
    FuncRef,
    ExternRef,
}

/// What a reference refers to: a function, or an object of the host.
#[derive(Clone, Copy, Debug, PartialEq, Eq)]
pub enum RefKind {
    Func,
    Extern,
}

impl From<RefKind> for ValType {
    ghost use Rattle.wz_types.specs.Fits.{type_of_kind};

    ghost from_gives = { λ kind type. type ≡ type_of_kind kind };

    fn from(kind: RefKind) -> ValType {
        match kind {
            RefKind::Func => ValType::FuncRef,
            RefKind::Extern => ValType::ExternRef,
        }
    }
}

/// The size that a table or memory begins with, and the largest that it may reach.
#[derive(Clone, Copy, Debug, PartialEq, Eq)]
pub struct Limits {
    pub min: u32,
    pub max: Option<u32>,
}

/// A table's type; the limits count entries.
#[derive(Clone, Copy, Debug, PartialEq, Eq)]
pub struct TableType {
    pub kind: RefKind,
    pub limits: Limits,
}

/// A memory's type; the limits count pages of 65,536 bytes.
#[derive(Clone, Copy, Debug, PartialEq, Eq)]
pub struct MemType {
    pub limits: Limits,
}

/// A global's type.
#[derive(Clone, Copy, Debug, PartialEq, Eq)]
pub struct GlobalType {
    pub value: ValType,
    pub mutable: bool,
}
