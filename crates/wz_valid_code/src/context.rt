//! What instructions may name (Core Specification 2.0, section 3.1).

ghost use Rattle.std.specs.Prelude.{◌≡◌, [], ◌∷◌, slice_get, nat_lt};
ghost use Rattle.wz_code.specs.References.{has_number};
ghost use Rattle.wz_valid_code.specs.Context.{TypingContext, shape_type, type_by_number, function_type, is_function_kind, is_one_kind, may_refer, type_to_set, constant_global};

use std::collections::BTreeSet;
use std::marker::Model;
use wz_code::Shape;
use wz_types::{FuncType, GlobalType, RefKind, TableType, ValType};

/// What the instructions of a module's bodies and expressions may name, imports first: the
/// standard's context C.
#[derive(Drop)]
pub struct Context<'c> {
    /// C.types.
    pub types: &'c [FuncType],
    /// C.funcs: each function's type by its number.
    pub functions: &'c [u32],
    /// C.tables.
    pub tables: &'c [TableType],
    /// How many memories C.mems has.
    pub memories: u32,
    /// C.globals.
    pub globals: &'c [GlobalType],
    /// How many of the globals are imported, which constant expressions may read.
    pub imported_globals: u32,
    /// C.elems: the kind of each element segment.
    pub elements: &'c [RefKind],
    /// How many data segments C.datas has.
    pub datas: u32,
    /// C.refs: the functions that a reference may be made of.
    pub declared: &'c BTreeSet<u32>,
}

impl<'c> Model for Context<'c> {
    ghost use Rattle.std.specs.Prelude.{map};
    ghost use Rattle.wz_valid_code.specs.Context.{TypingContext};

    ghost Value = { TypingContext };

    ghost view = { λ c. record {
      types = c.types.now;
      functions = c.functions.now;
      tables = map (λ table. table.kind) c.tables.now;
      memories = c.memories;
      globals = c.globals.now;
      imported_globals = c.imported_globals;
      elements = c.elements.now;
      datas = c.datas;
      declared = c.declared.now.keys;
    } };
}

/// The types that a block or a function takes and gives.
#[derive(Drop)]
pub struct Signature<'c> {
    pub params: &'c [ValType],
    pub results: &'c [ValType],
}

impl<'c> Model for Signature<'c> {
    ghost use Rattle.wz_types.specs.FunctionType.{FunctionType};

    ghost Value = { FunctionType };

    ghost view = { λ s. record { params = s.params.now; results = s.results.now } };
}

fn signature_of(kind: &FuncType) -> Signature<'_>
    ensures { result ≡ kind.now }
{
    Signature {
        params: kind.params(),
        results: kind.results(),
    }
}

/// This type alone.
fn one_of(kind: ValType) -> &'static [ValType]
    ensures { result.now ≡ kind ∷ [] }
{
    match kind {
        ValType::I32 => &[ValType::I32],
        ValType::I64 => &[ValType::I64],
        ValType::F32 => &[ValType::F32],
        ValType::F64 => &[ValType::F64],
        ValType::FuncRef => &[ValType::FuncRef],
        ValType::ExternRef => &[ValType::ExternRef],
    }
}

impl<'c> Context<'c> {
    /// A type by its number.
    pub fn type_by_number(&self, number: u32) -> Option<Signature<'c>>
        ensures { result ≡ slice_get self.now.types number }
    {
        match self.types.get(number as usize) {
            Some(kind) => Some(signature_of(kind)),
            None => None,
        }
    }

    /// A function's type.
    pub fn function_type(&self, function: u32) -> Option<Signature<'c>>
        ensures { result ≡ function_type self.now function }
    {
        match self.functions.get(function as usize) {
            Some(number) => self.type_by_number(*number),
            None => None,
        }
    }

    /// A block's type.
    pub fn shape_type(&self, shape: Shape) -> Option<Signature<'c>>
        ensures { result ≡ shape_type self.now shape }
    {
        match shape {
            Shape::Empty => Some(Signature {
                params: &[],
                results: &[],
            }),
            Shape::One(kind) => Some(Signature {
                params: &[],
                results: one_of(kind),
            }),
            Shape::Index(number) => self.type_by_number(number),
        }
    }

    pub fn table(&self, table: u32) -> Option<RefKind>
        ensures { result ≡ slice_get self.now.tables table }
    {
        match self.tables.get(table as usize) {
            Some(table) => Some(table.kind),
            None => None,
        }
    }

    pub fn is_function_table(&self, table: u32) -> bool
        ensures { result ≡ is_function_kind (slice_get self.now.tables table) }
    {
        match self.table(table) {
            Some(RefKind::Func) => true,
            Some(RefKind::Extern) => false,
            None => false,
        }
    }

    pub fn element(&self, segment: u32) -> Option<RefKind>
        ensures { result ≡ slice_get self.now.elements segment }
    {
        self.elements.get(segment as usize).copied()
    }

    pub fn has_memory(&self, memory: u32) -> bool
        ensures { result ≡ nat_lt memory self.now.memories }
    {
        memory < self.memories
    }

    pub fn has_data(&self, segment: u32) -> bool
        ensures { result ≡ nat_lt segment self.now.datas }
    {
        segment < self.datas
    }

    pub fn global(&self, index: u32) -> Option<GlobalType>
        ensures { result ≡ slice_get self.now.globals index }
    {
        self.globals.get(index as usize).copied()
    }

    /// The type of a global that may be set.
    pub fn type_to_set(&self, index: u32) -> Option<ValType>
        ensures { result ≡ type_to_set (slice_get self.now.globals index) }
    {
        match self.globals.get(index as usize) {
            Some(global) => if global.mutable {
                Some(global.value)
            } else {
                None
            },
            None => None,
        }
    }

    /// The type of a global that a constant expression may read.
    pub fn constant_global(&self, index: u32) -> Option<ValType>
        ensures { result ≡ constant_global self.now index }
    {
        if index >= self.imported_globals {
            return None;
        }
        match self.globals.get(index as usize) {
            Some(global) => if global.mutable {
                None
            } else {
                Some(global.value)
            },
            None => None,
        }
    }

    fn is_declared(&self, function: u32) -> bool
        ensures { result ≡ has_number function self.now.declared }
    {
        self.declared.contains(&function)
    }

    /// Whether a reference may be made of the function.
    pub fn may_refer(&self, function: u32) -> bool
        ensures { result ≡ may_refer self.now function }
    {
        (function as usize) < self.functions.len() && self.is_declared(function)
    }
}
