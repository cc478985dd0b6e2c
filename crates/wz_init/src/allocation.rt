//! Allocation of an instance (Core Specification, section 4.5.3): each list of the store, in turn.

ghost use Rattle.std.specs.Prelude.{◌≡◌, ℕ, ◌+◌, ◌-◌, ◌^◌, ◌<◌, ◌≤◌, List, map, length, slice_get, Some, IfOk, OnOk};
ghost use Rattle.std.specs.List.{All};
ghost use Rattle.wz_module.specs.Views.{import_of, init_of};
ghost use Rattle.wz_store.specs.Made.{new_table, new_memory};
ghost use Rattle.wz_init.specs.Functions.{import_functions, own_functions};
ghost use Rattle.wz_init.specs.Plain.{plain_global, plain_items, plain_element, plain_reference};
ghost use Rattle.wz_init.specs.Plain.{IsPlainConstant, IsPlainReference, ArePlainItems};
ghost use Rattle.wz_init.specs.Plain.{functions_behind, globals_behind, tables_behind};
ghost use Rattle.wz_init.specs.Plain.{memories_behind, elements_behind, datas_behind};

use crate::constants::{constant, constant_reference};
use std::alloc::{AllocError, Global};
use wz_code::Body;
use wz_linear::{Linear, MAX_PAGES};
use wz_module::{DataSegment, Elem, ElemItems, GlobalDef, Import, ImportKind};
use wz_store::{Function, Store};
use wz_types::{MemType, Reference, TableType};

pub(crate) fn add_imports<'m, M: Linear>(
    store: &mut Store<'m, M>,
    imports: &[Import<'_>],
) -> Result<(), AllocError>
    requires { length store.old.functions + length imports.now < 2 ^ 32 - 1 }
    ensures { OnOk result (store.new ≡
        functions_behind store.old (import_functions 0 (map import_of imports.now))) }
{
    for (number, import) in imports.iter().enumerate() {
        if let ImportKind::Func(signature) = import.kind {
            store.add_function(Function::Import {
                signature,
                import: number as u32,
            })?;
        }
    }
    Ok(())
}

/// Adds the module's own functions, by the numbers of their types.
pub(crate) fn add_own<'m, M: Linear>(
    store: &mut Store<'m, M>,
    signatures: &[u32],
) -> Result<(), AllocError>
    requires { length store.old.functions + length signatures.now < 2 ^ 32 - 1 }
    ensures { OnOk result (store.new ≡
        functions_behind store.old (own_functions 0 signatures.now)) }
{
    for (number, signature) in signatures.iter().enumerate() {
        store.add_function(Function::Own {
            signature: *signature,
            body: number as u32,
        })?;
    }
    Ok(())
}

pub(crate) fn add_globals<'m, M: Linear>(
    store: &mut Store<'m, M>,
    globals: &[GlobalDef],
) -> Result<(), AllocError>
    requires room { length store.old.globals + length globals.now < 2 ^ 32 - 1 }
    requires plain { All (λ g. IsPlainConstant g.init) globals.now }
    ensures { OnOk result (store.new ≡ globals_behind store.old (map plain_global globals.now)) }
{
    for global in globals {
        store.add_global(global.kind, constant(&global.init))?;
    }
    Ok(())
}

pub(crate) fn add_tables<'m, M: Linear>(
    store: &mut Store<'m, M>,
    tables: &[TableType],
) -> Result<(), AllocError>
    requires { length store.old.tables + length tables.now < 2 ^ 32 - 1 }
    ensures { OnOk result (store.new ≡ tables_behind store.old (map new_table tables.now)) }
{
    for table in tables {
        store.add_table(*table)?;
    }
    Ok(())
}

pub(crate) fn add_memories<'m, M: Linear>(
    store: &mut Store<'m, M>,
    memories: &[MemType],
) -> Result<(), AllocError>
    requires room { length store.old.memories + length memories.now < 2 ^ 32 - 1 }
    requires pages { All (λ memory. memory.limits.min ≤ MAX_PAGES) memories.now }
    ensures { OnOk result (store.new ≡ memories_behind store.old (map new_memory memories.now)) }
{
    for memory in memories {
        store.add_memory(*memory)?;
    }
    Ok(())
}

/// The references that expressions give.
fn references_of(alloc: Global, bodies: &[Body]) -> Result<Vec<Reference>, AllocError>
    requires { All (λ body. IsPlainReference body) bodies.now }
    ensures { IfOk result (λ references. references.items ≡ map plain_reference bodies.now) }
{
    let mut references = Vec::new(alloc);
    for body in bodies {
        references.push(constant_reference(body))?;
    }
    Ok(references)
}

fn items_of(alloc: Global, items: &ElemItems) -> Result<Vec<Reference>, AllocError>
    requires { ArePlainItems items.now }
    ensures { IfOk result (λ references. references.items ≡ plain_items items.now) }
{
    match items {
        ElemItems::Funcs(functions) => {
            let numbers = functions.iter().copied();
            numbers.map(Reference::Fn).collect(alloc)
        }
        ElemItems::Exprs(bodies) => references_of(alloc, bodies),
    }
}

pub(crate) fn add_elements<'m, M: Linear>(
    alloc: Global,
    store: &mut Store<'m, M>,
    elements: &[Elem],
) -> Result<(), AllocError>
    requires room { length store.old.elements + length elements.now < 2 ^ 32 - 1 }
    requires plain { All (λ e. ArePlainItems e.items) elements.now }
    requires short { All (λ e. length (init_of e.items) < 2 ^ 32 - 1) elements.now }
    ensures { OnOk result (store.new ≡ elements_behind store.old (map plain_element elements.now)) }
{
    for element in elements {
        let items = items_of(alloc, &element.items)?;
        store.add_element(element.kind, items)?;
    }
    Ok(())
}

pub(crate) fn add_datas<'m, M: Linear>(
    store: &mut Store<'m, M>,
    segments: &[DataSegment<'m>],
) -> Result<(), AllocError>
    requires room { length store.old.datas + length segments.now < 2 ^ 32 - 1 }
    requires short { All (λ segment. length segment.bytes.now < 2 ^ 32 - 1) segments.now }
    ensures { OnOk result (store.new ≡
        datas_behind store.old (map (λ segment. segment.bytes.now) segments.now)) }
{
    for segment in segments {
        store.add_data(segment.bytes)?;
    }
    Ok(())
}
