//! Modules put together by hand, for the tests.

ghost use Rattle.std.specs.Prelude.{◌≡◌, ◌<◌, ◌↔◌, ◌^◌, ◌-◌, [], ◌∷◌, length, IsTrue, All};
ghost use Rattle.wz_code.specs.BlockRule.{named, InPools};
ghost use Rattle.wz_module.specs.ShortLists.{IsShortList};
ghost use Rattle.wz_module.specs.Views.{init_of};

use std::alloc::{AllocError, Global};
use wz_code::{Body, BodyBuilder, Instr, laws};
use wz_module::{
    DataMode, DataSegment, Elem, ElemItems, ElemMode, Export, ExportTarget, GlobalDef, Import,
    ImportKind, Module, ModuleParts, Section,
};
use wz_types::{FuncType, GlobalType, Limits, MemType, RefKind, TableType, ValType};

/// The code of an expression or a body, of one instruction at most.
#[derive(Clone, Copy)]
pub enum Code {
    Empty,
    /// So many locals, and no instruction.
    Locals(u32),
    Const(u32),
    Null(RefKind),
    Func(u32),
    Global(u32),
}

/// An item of a module. A segment is active where it has a table or memory, and the code of its
/// offset.
#[derive(Clone, Copy)]
pub enum Item {
    Type(&'static [ValType], &'static [ValType]),
    Import(ImportKind),
    Function(u32),
    Table(TableType),
    Memory(Limits),
    Global(ValType, Code),
    Export(&'static str, ExportTarget),
    Start(u32),
    Element(RefKind, Option<(u32, Code)>, Code),
    Functions(RefKind, u32),
    Body(Code),
    Data(Option<(u32, Code)>),
}

fn body_with(alloc: Global, locals: u32, instr: Instr) -> Result<Body, AllocError>
    requires none { named instr ≡ [] }
    requires pools { InPools [] [] instr }
{
    laws::building();
    laws::building_takes();
    laws::items_are_counted();
    let mut builder = BodyBuilder::new(alloc);
    builder.add_locals(locals, ValType::I32)?;
    builder.add_instr(0, instr)?;
    Ok(builder.finish())
}

fn empty_body(alloc: Global, locals: u32) -> Result<Body, AllocError> {
    laws::building();
    laws::building_takes();
    laws::items_are_counted();
    let mut builder = BodyBuilder::new(alloc);
    builder.add_locals(locals, ValType::I32)?;
    Ok(builder.finish())
}

fn body_of(alloc: Global, code: Code) -> Result<Body, AllocError> {
    match code {
        Code::Empty => empty_body(alloc, 0),
        Code::Locals(count) => empty_body(alloc, count),
        Code::Const(bits) => body_with(alloc, 0, Instr::I32Const(bits)),
        Code::Null(kind) => body_with(alloc, 0, Instr::RefNull(kind)),
        Code::Func(function) => body_with(alloc, 0, Instr::RefFunc(function)),
        Code::Global(index) => body_with(alloc, 0, Instr::GlobalGet(index)),
    }
}

fn elem_mode(alloc: Global, place: Option<(u32, Code)>) -> Result<ElemMode, AllocError> {
    match place {
        Some((table, code)) => Ok(ElemMode::Active {
            table,
            offset: body_of(alloc, code)?,
        }),
        None => Ok(ElemMode::Passive),
    }
}

fn data_mode(alloc: Global, place: Option<(u32, Code)>) -> Result<DataMode, AllocError> {
    match place {
        Some((memory, code)) => Ok(DataMode::Active {
            memory,
            offset: body_of(alloc, code)?,
        }),
        None => Ok(DataMode::Passive),
    }
}

fn add_import(parts: &mut ModuleParts<'static>, kind: ImportKind) -> Result<(), AllocError> {
    parts.imports.push(Import {
        module: "m",
        name: "i",
        kind,
    })?;
    Ok(())
}

fn add_element(
    alloc: Global,
    parts: &mut ModuleParts<'static>,
    kind: RefKind,
    place: Option<(u32, Code)>,
    items: ElemItems,
) -> Result<(), AllocError> {
    parts.elements.push(Elem {
        mode: elem_mode(alloc, place)?,
        kind,
        items,
    })?;
    Ok(())
}

fn add_global(
    alloc: Global,
    parts: &mut ModuleParts<'static>,
    value: ValType,
    code: Code,
) -> Result<(), AllocError> {
    parts.globals.push(GlobalDef {
        kind: GlobalType {
            value,
            mutable: false,
        },
        init: body_of(alloc, code)?,
    })?;
    Ok(())
}

fn add_data(
    alloc: Global,
    parts: &mut ModuleParts<'static>,
    place: Option<(u32, Code)>,
) -> Result<(), AllocError> {
    parts.datas.push(DataSegment {
        mode: data_mode(alloc, place)?,
        bytes: b"data",
    })?;
    Ok(())
}

fn expression(alloc: Global, code: Code) -> Result<ElemItems, AllocError> {
    let mut bodies = Vec::new(alloc);
    bodies.push(body_of(alloc, code)?)?;
    Ok(ElemItems::Exprs(bodies))
}

fn add(alloc: Global, parts: &mut ModuleParts<'static>, item: Item) -> Result<(), AllocError> {
    match item {
        Item::Type(params, results) => parts.types.push(FuncType::new(alloc, params, results)?)?,
        Item::Import(kind) => add_import(parts, kind)?,
        Item::Function(kind) => parts.functions.push(kind)?,
        Item::Table(table) => parts.tables.push(table)?,
        Item::Memory(limits) => parts.memories.push(MemType { limits })?,
        Item::Global(value, code) => add_global(alloc, parts, value, code)?,
        Item::Export(name, target) => parts.exports.push(Export { name, target })?,
        Item::Start(function) => parts.start = Some(function),
        Item::Element(kind, place, code) => {
            add_element(alloc, parts, kind, place, expression(alloc, code)?)?;
        }
        Item::Functions(kind, function) => {
            let functions = Vec::from_slice(alloc, &[function])?;
            add_element(alloc, parts, kind, None, ElemItems::Funcs(functions))?;
        }
        Item::Body(code) => parts.bodies.push(body_of(alloc, code)?)?,
        Item::Data(place) => add_data(alloc, parts, place)?,
    }
    Ok(())
}

fn add_all(
    alloc: Global,
    parts: &mut ModuleParts<'static>,
    items: &[Item],
) -> Result<(), AllocError> {
    for item in items {
        add(alloc, parts, *item)?;
    }
    Ok(())
}

fn is_short(count: usize) -> bool
    ensures { IsTrue result ↔ (count < 2 ^ 32 - 1) }
{
    count < 4_294_967_295
}

fn are_payloads_short(sections: &[Section<'_>]) -> bool
    ensures { IsTrue result ↔ All (λ s. IsShortList s.payload.now) sections.now }
{
    sections
        .iter()
        .all(|section| is_short(section.payload.len()))
}

fn are_sides_short(types: &[FuncType]) -> bool
    ensures { IsTrue result
        → All (λ type. IsShortList type.params × IsShortList type.results) types.now }
{
    types.iter().all(|kind| is_short(kind.params().len()) && is_short(kind.results().len()))
}

fn are_imports_short(imports: &[Import<'_>]) -> bool
    ensures { IsTrue result
        → All (λ i. IsShortList i.«module».now × IsShortList i.name.now) imports.now }
{
    imports.iter().all(|import| is_short(import.module.len()) && is_short(import.name.len()))
}

fn are_exports_short(exports: &[Export<'_>]) -> bool
    ensures { IsTrue result ↔ All (λ e. IsShortList e.name.now) exports.now }
{
    exports.iter().all(|export| is_short(export.name.len()))
}

fn reference_count(items: &ElemItems) -> usize
    ensures { result ≡ length (init_of items.now) }
{
    match items {
        ElemItems::Funcs(functions) => functions.len(),
        ElemItems::Exprs(bodies) => bodies.len(),
    }
}

fn are_elements_short(elements: &[Elem]) -> bool
    ensures { IsTrue result ↔ All (λ e. IsShortList (init_of e.items)) elements.now }
{
    elements
        .iter()
        .all(|element| is_short(reference_count(&element.items)))
}

fn are_datas_short(datas: &[DataSegment<'_>]) -> bool
    ensures { IsTrue result ↔ All (λ d. IsShortList d.bytes.now) datas.now }
{
    datas.iter().all(|segment| is_short(segment.bytes.len()))
}

fn all_few(counts: &[usize]) -> bool
    ensures { IsTrue result ↔ All (λ count. count < 1000) counts.now }
{
    counts.iter().all(|count| *count < 1000)
}

/// Whether there are few items of each kind.
fn are_few(parts: &ModuleParts<'_>) -> bool
    ensures { let p = parts.now in IsTrue result ↔ All (λ count. count < 1000)
        (length p.imports.items ∷ length p.functions.items ∷ length p.tables.items
        ∷ length p.memories.items ∷ length p.globals.items ∷ length p.sections.items
        ∷ length p.types.items ∷ length p.exports.items ∷ length p.elements.items
        ∷ length p.bodies.items ∷ length p.datas.items ∷ []) }
{
    all_few(&[
        parts.imports.len(),
        parts.functions.len(),
        parts.tables.len(),
        parts.memories.len(),
        parts.globals.len(),
        parts.sections.len(),
        parts.types.len(),
        parts.exports.len(),
        parts.elements.len(),
        parts.bodies.len(),
        parts.datas.len(),
    ])
}

/// The module with these parts, if each of them is short.
fn finish(parts: ModuleParts<'static>) -> Option<Module<'static>> {
    if !are_few(&parts) {
        return None;
    }
    if !are_payloads_short(parts.sections.as_slice()) || !are_sides_short(parts.types.as_slice()) {
        return None;
    }
    if !are_imports_short(parts.imports.as_slice())
        || !are_exports_short(parts.exports.as_slice())
    {
        return None;
    }
    if !are_elements_short(parts.elements.as_slice()) || !are_datas_short(parts.datas.as_slice()) {
        return None;
    }
    Some(Module::from_parts(parts))
}

fn no_parts(alloc: Global) -> ModuleParts<'static> {
    ModuleParts {
        sections: Vec::new(alloc),
        types: Vec::new(alloc),
        imports: Vec::new(alloc),
        functions: Vec::new(alloc),
        tables: Vec::new(alloc),
        memories: Vec::new(alloc),
        globals: Vec::new(alloc),
        exports: Vec::new(alloc),
        start: None,
        elements: Vec::new(alloc),
        data_count: None,
        bodies: Vec::new(alloc),
        datas: Vec::new(alloc),
    }
}

/// The module that these items make, if it is short.
pub(crate) fn module_of(
    alloc: Global,
    first: &[Item],
    more: &[Item],
) -> Result<Option<Module<'static>>, AllocError> {
    let mut parts = no_parts(alloc);
    add_all(alloc, &mut parts, first)?;
    add_all(alloc, &mut parts, more)?;
    Ok(finish(parts))
}
