//! What a module has, imports first (Core Specification 2.0, section 2.5.1).

ghost use Rattle.std.specs.Prelude.{◌≡◌, ◌++◌, OnOk, IfOk, map};
ghost use Rattle.wz_module.specs.Meaning.{module_of};
ghost use Rattle.wz_valid.specs.Indices.{function_import, table_import, global_import};
ghost use Rattle.wz_valid.specs.Indices.{imported_globals};
ghost use Rattle.wz_valid.specs.Indices.{all_functions, all_tables, all_globals};

use std::alloc::{AllocError, Global};
use wz_module::{ImportKind, Module};
use wz_types::{GlobalType, RefKind, TableType};

fn add_function(kind: ImportKind, functions: &mut Vec<u32>) -> Result<(), AllocError>
    ensures { OnOk result (functions.new.items ≡ functions.old.items ++ function_import kind) }
{
    match kind {
        ImportKind::Func(number) => Ok(functions.push(number)?),
        ImportKind::Table(_) => Ok(()),
        ImportKind::Memory(_) => Ok(()),
        ImportKind::Global(_) => Ok(()),
    }
}

fn add_table(kind: ImportKind, tables: &mut Vec<TableType>) -> Result<(), AllocError>
    ensures { OnOk result (tables.new.items ≡ tables.old.items ++ table_import kind) }
{
    match kind {
        ImportKind::Table(table) => Ok(tables.push(table)?),
        ImportKind::Func(_) => Ok(()),
        ImportKind::Memory(_) => Ok(()),
        ImportKind::Global(_) => Ok(()),
    }
}

fn add_global(kind: ImportKind, globals: &mut Vec<GlobalType>) -> Result<(), AllocError>
    ensures { OnOk result (globals.new.items ≡ globals.old.items ++ global_import kind) }
{
    match kind {
        ImportKind::Global(global) => Ok(globals.push(global)?),
        ImportKind::Func(_) => Ok(()),
        ImportKind::Table(_) => Ok(()),
        ImportKind::Memory(_) => Ok(()),
    }
}

/// The numbers of the types of all functions.
pub fn all_functions(alloc: Global, module: &Module<'_>) -> Result<Vec<u32>, AllocError>
    ensures { IfOk result (λ v. v.items ≡ all_functions (module_of «module».now)) }
{
    let imports = module.imports();
    let mut functions = Vec::new(alloc);
    for import in imports {
        add_function(import.kind, &mut functions)?;
    }
    functions.extend_from_slice(module.functions())?;
    Ok(functions)
}

pub fn all_tables(alloc: Global, module: &Module<'_>) -> Result<Vec<TableType>, AllocError>
    ensures { IfOk result (λ v. v.items ≡ all_tables (module_of «module».now)) }
{
    let imports = module.imports();
    let mut tables = Vec::new(alloc);
    for import in imports {
        add_table(import.kind, &mut tables)?;
    }
    tables.extend_from_slice(module.tables())?;
    Ok(tables)
}

pub fn imported_globals(alloc: Global, module: &Module<'_>) -> Result<Vec<GlobalType>, AllocError>
    ensures { let all = imported_globals (module_of «module».now).imports in
        IfOk result (λ v. v.items ≡ all) }
{
    let imports = module.imports();
    let mut globals = Vec::new(alloc);
    for import in imports {
        add_global(import.kind, &mut globals)?;
    }
    Ok(globals)
}

pub fn add_own_globals(module: &Module<'_>, globals: &mut Vec<GlobalType>) -> Result<(), AllocError>
    requires { globals.old.items ≡ imported_globals (module_of «module».now).imports }
    ensures { OnOk result (globals.new.items ≡ all_globals (module_of «module».now)) }
{
    let own = module.globals();
    for global in own {
        globals.push(global.kind)?;
    }
    Ok(())
}

/// The kind of each element segment.
pub fn element_kinds(alloc: Global, module: &Module<'_>) -> Result<Vec<RefKind>, AllocError>
    ensures { let all = map (λ e. e.kind) (module_of «module».now).elements in
        IfOk result (λ v. v.items ≡ all) }
{
    let elements = module.elements();
    let mut kinds = Vec::new(alloc);
    for element in elements {
        kinds.push(element.kind)?;
    }
    Ok(kinds)
}
