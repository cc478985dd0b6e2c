//! The contents of sections (Core Specification 2.0, section 5.5): each call takes a whole payload.

ghost use Rattle.std.specs.Prelude.{◌≡◌, ◌<◌, ◌-◌, ◌^◌, length, map, IfOk, IsErrOf};
ghost use Rattle.wz_module.specs.Functions.{body_tree_of};
ghost use Rattle.wz_module.specs.Views.{import_of, export_of, global_of, elem_of, data_of};
ghost use Rattle.wz_decode_code.specs.Laws.{SpellsNone};
ghost use Rattle.wz_decode_code.specs.InstrReading.{u32_at};
ghost use Rattle.wz_decode_sections.specs.TypeSection.{IsTypeSection};
ghost use Rattle.wz_decode_sections.specs.ImportSection.{IsImportSection};
ghost use Rattle.wz_decode_sections.specs.FunctionSection.{IsFunctionSection};
ghost use Rattle.wz_decode_sections.specs.TableSection.{IsTableSection};
ghost use Rattle.wz_decode_sections.specs.MemorySection.{IsMemorySection};
ghost use Rattle.wz_decode_sections.specs.GlobalSection.{IsGlobalSection};
ghost use Rattle.wz_decode_sections.specs.ExportSection.{IsExportSection};
ghost use Rattle.wz_decode_sections.specs.ElementSection.{IsElementSection};
ghost use Rattle.wz_decode_sections.specs.CodeSection.{IsCodeSection};
ghost use Rattle.wz_decode_sections.specs.DataSection.{IsDataSection};
ghost use Rattle.wz_decode_sections.specs.StartSection.{IsStartSection};
ghost use Rattle.wz_decode_sections.specs.DataCountSection.{IsDataCountSection};
ghost use Rattle.wz_bytes.specs.Forms.{all_at};
ghost use Rattle.wz_decode_sections.specs.declared.fault.SectionFault.TheVariants.{Bad};

use crate::fault::SectionFault;
use crate::forms::{
    CodeEntries, DataSegments, Elements, Exports, FuncTypes, Globals, Imports, MemTypes, TableTypes,
};
use crate::segments::Indices;
use std::alloc::Global;
use wz_bytes::{Cursor, read_all};
use wz_code::Body;
use wz_module::{DataSegment, Elem, Export, GlobalDef, Import};
use wz_types::{FuncType, MemType, TableType};

/// The contents of the type section (Core Specification 2.0, section 5.5.4).
pub fn read_types(alloc: Global, payload: &[u8]) -> Result<Vec<FuncType>, SectionFault>
    requires { length payload.now < 2 ^ 32 - 1 }
    ensures found { IfOk result (λ types. IsTypeSection payload.now types.items) }
    ensures bad { IsErrOf result Bad → SpellsNone IsTypeSection payload.now }
{
    match read_all::<FuncTypes>(alloc, payload) {
        Ok(types) => Ok(types),
        Err(fault) => Err(SectionFault::from(fault)),
    }
}

/// The contents of the import section (section 5.5.5). Names are borrowed.
pub fn read_imports<'a>(alloc: Global, payload: &'a [u8]) -> Result<Vec<Import<'a>>, SectionFault>
    requires { length payload.now < 2 ^ 32 - 1 }
    ensures found { IfOk result
        (λ imports. IsImportSection payload.now (map import_of imports.items)) }
    ensures bad { IsErrOf result Bad → SpellsNone IsImportSection payload.now }
{
    match read_all::<Imports>(alloc, payload) {
        Ok(imports) => Ok(imports),
        Err(fault) => Err(SectionFault::from(fault)),
    }
}

/// The contents of the function section (section 5.5.6): types' numbers.
pub fn read_functions(alloc: Global, payload: &[u8]) -> Result<Vec<u32>, SectionFault>
    requires { length payload.now < 2 ^ 32 - 1 }
    ensures found { IfOk result (λ functions. IsFunctionSection payload.now functions.items) }
    ensures bad { IsErrOf result Bad → SpellsNone IsFunctionSection payload.now }
{
    match read_all::<Indices>(alloc, payload) {
        Ok(functions) => Ok(functions),
        Err(fault) => Err(SectionFault::from(fault)),
    }
}

/// The contents of the table section (section 5.5.7).
pub fn read_tables(alloc: Global, payload: &[u8]) -> Result<Vec<TableType>, SectionFault>
    requires { length payload.now < 2 ^ 32 - 1 }
    ensures found { IfOk result (λ tables. IsTableSection payload.now tables.items) }
    ensures bad { IsErrOf result Bad → SpellsNone IsTableSection payload.now }
{
    match read_all::<TableTypes>(alloc, payload) {
        Ok(tables) => Ok(tables),
        Err(fault) => Err(SectionFault::from(fault)),
    }
}

/// The contents of the memory section (section 5.5.8).
pub fn read_memories(alloc: Global, payload: &[u8]) -> Result<Vec<MemType>, SectionFault>
    requires { length payload.now < 2 ^ 32 - 1 }
    ensures found { IfOk result (λ memories. IsMemorySection payload.now memories.items) }
    ensures bad { IsErrOf result Bad → SpellsNone IsMemorySection payload.now }
{
    match read_all::<MemTypes>(alloc, payload) {
        Ok(memories) => Ok(memories),
        Err(fault) => Err(SectionFault::from(fault)),
    }
}

/// The contents of the global section (section 5.5.9).
pub fn read_globals(alloc: Global, payload: &[u8]) -> Result<Vec<GlobalDef>, SectionFault>
    requires { length payload.now < 2 ^ 32 - 1 }
    ensures found { IfOk result
        (λ globals. IsGlobalSection payload.now (map global_of globals.items)) }
    ensures bad { IsErrOf result Bad → SpellsNone IsGlobalSection payload.now }
{
    match read_all::<Globals>(alloc, payload) {
        Ok(globals) => Ok(globals),
        Err(fault) => Err(SectionFault::from(fault)),
    }
}

/// The contents of the export section (section 5.5.10). Names are borrowed.
pub fn read_exports<'a>(alloc: Global, payload: &'a [u8]) -> Result<Vec<Export<'a>>, SectionFault>
    requires { length payload.now < 2 ^ 32 - 1 }
    ensures found { IfOk result
        (λ exports. IsExportSection payload.now (map export_of exports.items)) }
    ensures bad { IsErrOf result Bad → SpellsNone IsExportSection payload.now }
{
    match read_all::<Exports>(alloc, payload) {
        Ok(exports) => Ok(exports),
        Err(fault) => Err(SectionFault::from(fault)),
    }
}

/// The contents of the element section (section 5.5.12).
pub fn read_elements(alloc: Global, payload: &[u8]) -> Result<Vec<Elem>, SectionFault>
    requires { length payload.now < 2 ^ 32 - 1 }
    ensures found { IfOk result
        (λ elements. IsElementSection payload.now (map elem_of elements.items)) }
    ensures bad { IsErrOf result Bad → SpellsNone IsElementSection payload.now }
{
    match read_all::<Elements>(alloc, payload) {
        Ok(elements) => Ok(elements),
        Err(fault) => Err(SectionFault::from(fault)),
    }
}

/// The contents of the code section (section 5.5.13).
pub fn read_code(alloc: Global, payload: &[u8]) -> Result<Vec<Body>, SectionFault>
    requires { length payload.now < 2 ^ 32 - 1 }
    ensures found { IfOk result
        (λ bodies. IsCodeSection payload.now (map body_tree_of bodies.items)) }
    ensures bad { IsErrOf result Bad → SpellsNone IsCodeSection payload.now }
{
    match read_all::<CodeEntries>(alloc, payload) {
        Ok(bodies) => Ok(bodies),
        Err(fault) => Err(SectionFault::from(fault)),
    }
}

/// The contents of the data section (section 5.5.14). Bytes are borrowed.
pub fn read_data<'a>(alloc: Global, payload: &'a [u8]) -> Result<Vec<DataSegment<'a>>, SectionFault>
    requires { length payload.now < 2 ^ 32 - 1 }
    ensures found { IfOk result (λ datas. IsDataSection payload.now (map data_of datas.items)) }
    ensures bad { IsErrOf result Bad → SpellsNone IsDataSection payload.now }
{
    match read_all::<DataSegments>(alloc, payload) {
        Ok(datas) => Ok(datas),
        Err(fault) => Err(SectionFault::from(fault)),
    }
}

/// The contents of the start section (section 5.5.11): a function's index.
pub fn read_start(payload: &[u8]) -> Result<u32, SectionFault>
    ensures found { IfOk result (λ function. IsStartSection payload.now function) }
    ensures bad { IsErrOf result Bad → SpellsNone IsStartSection payload.now }
{
    match whole_number(payload) {
        Some(function) => Ok(function),
        None => Err(SectionFault::Bad),
    }
}

/// The contents of the data count section (section 5.5.15).
pub fn read_data_count(payload: &[u8]) -> Result<u32, SectionFault>
    ensures found { IfOk result (λ count. IsDataCountSection payload.now count) }
    ensures bad { IsErrOf result Bad → SpellsNone IsDataCountSection payload.now }
{
    match whole_number(payload) {
        Some(count) => Ok(count),
        None => Err(SectionFault::Bad),
    }
}

/// The number that all of the bytes spell.
fn whole_number(bytes: &[u8]) -> Option<u32>
    ensures { result ≡ all_at (λ b. u32_at b) bytes.now }
{
    let mut cursor = Cursor::new(bytes);
    let number = cursor.number()?;
    if !cursor.left().is_empty() {
        return None;
    }
    Some(number)
}
