//! Values and references (Core Specification 2.0, section 4.2.1).

ghost use Rattle.std.specs.Prelude.{◌≡◌, ◌↔◌, IsTrue};
ghost use Rattle.wz_types.specs.Fits.{kind_of, type_of, Fits};

use crate::types::{RefKind, ValType};

/// What a foreign reference refers to.
#[derive(Clone, Copy, Debug, PartialEq, Eq)]
pub enum Sort {
    /// An object of the host.
    Extern,
    /// A foreign function whose type is the module's type of this number.
    Func(u32),
    /// A foreign function whose type is none of the module's.
    OtherFunc,
}

/// A reference: null, a function of the instance by its index, or something of the host.
#[derive(Clone, Copy, Debug, PartialEq, Eq)]
pub enum Reference {
    Null(RefKind),
    Fn(u32),
    Foreign { id: u32, sort: Sort },
}

/// A value. Numbers, floats too, are kept as their bits.
#[derive(Clone, Copy, Debug, PartialEq, Eq)]
pub enum Value {
    I32(u32),
    I64(u64),
    F32(u32),
    F64(u64),
    Ref(Reference),
}

impl Default for Value {
    ghost use Rattle.wz_types.specs.declared.value.Value.TheVariants.{I32};

    ghost is_default = { λ value. value ≡ I32 0 };

    fn default() -> Value {
        Value::I32(0)
    }
}

impl Reference {
    /// The type that the reference has wherever it is one at all.
    pub fn kind(self) -> RefKind
        ensures { result ≡ kind_of self }
    {
        match self {
            Reference::Null(kind) => kind,
            Reference::Fn(_) => RefKind::Func,
            Reference::Foreign { id: _, sort } => match sort {
                Sort::Extern => RefKind::Extern,
                Sort::Func(_) | Sort::OtherFunc => RefKind::Func,
            },
        }
    }
}

impl Value {
    /// The type that the value has wherever it is one at all.
    pub fn kind(self) -> ValType
        ensures { result ≡ type_of self }
    {
        match self {
            Value::I32(_) => ValType::I32,
            Value::I64(_) => ValType::I64,
            Value::F32(_) => ValType::F32,
            Value::F64(_) => ValType::F64,
            Value::Ref(reference) => reference.kind().into(),
        }
    }

    /// Whether the value may stand where `kind` is asked for, in an instance with so many functions
    /// and so many types.
    pub fn fits(self, kind: ValType, functions: u32, types: u32) -> bool
        ensures { IsTrue result ↔ Fits self kind functions types }
    {
        let known = match self {
            Value::Ref(Reference::Fn(index)) => index < functions,
            Value::Ref(
                Reference::Foreign {
                    id: _,
                    sort: Sort::Func(index),
                },
            ) => index < types,
            _ => true,
        };
        known && self.kind() == kind
    }
}
