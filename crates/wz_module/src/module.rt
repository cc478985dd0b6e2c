//! Whole modules (Core Specification 2.0, section 2.5).

ghost use Rattle.wz_module.specs.Views.{module_with};
ghost use Rattle.wz_module.specs.ShortLists.{HasShortLists};

use crate::items::{DataSegment, Elem, Export, GlobalDef, Import, Section};
use wz_code::Body;
use wz_types::{FuncType, MemType, TableType};

/// What a module is made of. `functions` has the numbers of the types of the module's own
/// functions, and `bodies` what they do.
#[derive(Drop)]
pub struct ModuleParts<'a> {
    pub sections: Vec<Section<'a>>,
    pub types: Vec<FuncType>,
    pub imports: Vec<Import<'a>>,
    pub functions: Vec<u32>,
    pub tables: Vec<TableType>,
    pub memories: Vec<MemType>,
    pub globals: Vec<GlobalDef>,
    pub exports: Vec<Export<'a>>,
    pub start: Option<u32>,
    pub elements: Vec<Elem>,
    pub data_count: Option<u32>,
    pub bodies: Vec<Body>,
    pub datas: Vec<DataSegment<'a>>,
}

/// A module. Its lists are short enough for their places, and for the indices of imports and own
/// definitions together, to be numbers of 32 bits.
#[derive(Drop)]
pub struct Module<'a> {
    parts: ModuleParts<'a>,
    pub ghost short_lists: { HasShortLists (module_with parts) },
}

impl<'a> Module<'a> {
    ghost use Rattle.std.specs.Prelude.{◌≡◌, map};
    ghost use Rattle.wz_module.specs.Functions.{body_tree_of};
    ghost use Rattle.wz_module.specs.Views.{section_of, import_of, export_of, global_of, elem_of, data_of};
    ghost use Rattle.wz_module.specs.Meaning.{module_of};

    /// The module with these parts.
    pub fn from_parts(parts: ModuleParts<'a>) -> Module<'a>
        requires { HasShortLists (module_with parts) }
        ensures { module_of result ≡ module_with parts.entry }
    {
        Module { parts }
    }

    /// The sections in their order, custom ones among them.
    pub fn sections(&self) -> &[Section<'a>]
        ensures { map section_of result.now ≡ (module_of self.now).sections }
    {
        self.parts.sections.as_slice()
    }

    pub fn types(&self) -> &[FuncType]
        ensures { result.now ≡ (module_of self.now).types }
    {
        self.parts.types.as_slice()
    }

    pub fn imports(&self) -> &[Import<'a>]
        ensures { map import_of result.now ≡ (module_of self.now).imports }
    {
        self.parts.imports.as_slice()
    }

    /// The types' numbers of the module's own functions.
    pub fn functions(&self) -> &[u32]
        ensures { result.now ≡ (module_of self.now).functions }
    {
        self.parts.functions.as_slice()
    }

    /// The module's own tables.
    pub fn tables(&self) -> &[TableType]
        ensures { result.now ≡ (module_of self.now).tables }
    {
        self.parts.tables.as_slice()
    }

    /// The module's own memories.
    pub fn memories(&self) -> &[MemType]
        ensures { result.now ≡ (module_of self.now).memories }
    {
        self.parts.memories.as_slice()
    }

    /// The module's own globals.
    pub fn globals(&self) -> &[GlobalDef]
        ensures { map global_of result.now ≡ (module_of self.now).globals }
    {
        self.parts.globals.as_slice()
    }

    pub fn exports(&self) -> &[Export<'a>]
        ensures { map export_of result.now ≡ (module_of self.now).exports }
    {
        self.parts.exports.as_slice()
    }

    /// The function that runs at instantiation.
    pub fn start(&self) -> Option<u32>
        ensures { result ≡ (module_of self.now).start }
    {
        self.parts.start
    }

    pub fn elements(&self) -> &[Elem]
        ensures { map elem_of result.now ≡ (module_of self.now).elements }
    {
        self.parts.elements.as_slice()
    }

    /// How many data segments the data count section says that there are.
    pub fn data_count(&self) -> Option<u32>
        ensures { result ≡ (module_of self.now).data_count }
    {
        self.parts.data_count
    }

    /// What the module's own functions do.
    pub fn bodies(&self) -> &[Body]
        ensures { map body_tree_of result.now ≡ (module_of self.now).bodies }
    {
        self.parts.bodies.as_slice()
    }

    pub fn datas(&self) -> &[DataSegment<'a>]
        ensures { map data_of result.now ≡ (module_of self.now).datas }
    {
        self.parts.datas.as_slice()
    }
}
