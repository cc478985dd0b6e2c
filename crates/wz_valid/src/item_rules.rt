//! The rules of items that need no typing (Core Specification 2.0, section 3.4).

ghost use Rattle.std.specs.Prelude.{◌≡◌, ◌≤◌, length, take, slice_get, MatchBool, IsTrue};
ghost use Rattle.std.specs.Prelude.{IsSomeAnd, map};
ghost use Rattle.wz_module.specs.Meaning.{module_of};
ghost use Rattle.wz_module.specs.Views.{import_of};
ghost use Rattle.wz_valid.specs.Indices.{memory_import, imported_memories};
ghost use Rattle.wz_valid.specs.Items.{IsImportOk, IsFunctionOk, IsOnlyMemory};
ghost use Rattle.wz_valid.specs.Validity.{IsItemOk};
ghost use Rattle.wz_valid.specs.Checking.{TellsItem};
ghost use Rattle.wz_valid.specs.declared.faults.Part.TheVariants as part;

use crate::limits::{is_memory_ok, is_table_ok};
use wz_module::{Import, ImportKind, Module};

/// One for a memory.
fn memory_number(kind: ImportKind) -> usize
    ensures value { result ≡ length (memory_import kind) }
    ensures one { result ≤ 1 }
{
    match kind {
        ImportKind::Memory(_) => 1,
        ImportKind::Func(_) => 0,
        ImportKind::Table(_) => 0,
        ImportKind::Global(_) => 0,
    }
}

/// How many memories these imports are.
pub fn memory_count(imports: &[Import<'_>]) -> usize
    ensures count { result ≡ length (imported_memories (map import_of imports.now)) }
    ensures fits { result ≤ length imports.now }
{
    let mut count = 0;
    for import in imports {
        count += memory_number(import.kind);
    }
    count
}

/// Whether what an import asks for is ok, behind these imports. They are looked at for a memory
/// alone, so at most twice in a module.
fn is_import_kind_ok(module: &Module<'_>, kind: ImportKind, before: &[Import<'_>]) -> bool
    ensures { let memories = length (imported_memories (map import_of before.now)) in
        let fine = IsImportOk (module_of «module».now) memories kind in
        MatchBool result fine (fine → ⊥) }
{
    match kind {
        ImportKind::Func(number) => (number as usize) < module.types().len(),
        ImportKind::Table(table) => is_table_ok(table),
        ImportKind::Memory(memory) => is_memory_ok(memory) && memory_count(before) == 0,
        ImportKind::Global(_) => true,
    }
}

pub fn is_import_ok(module: &Module<'_>, index: usize) -> bool
    ensures { TellsItem (module_of «module».now) part.Import index result }
{
    let imports = module.imports();
    if index < imports.len() {
        is_import_kind_ok(module, imports[index].kind, &imports[..index])
    } else {
        false
    }
}

pub fn is_function_ok(module: &Module<'_>, index: usize) -> bool
    ensures { let fine = IsItemOk (module_of «module».now) part.Function index in
        MatchBool result fine (fine → ⊥) }
{
    match module.functions().get(index) {
        Some(number) => (*number as usize) < module.types().len() && index < module.bodies().len(),
        None => false,
    }
}

pub fn is_own_table_ok(module: &Module<'_>, index: usize) -> bool
    ensures { let fine = IsItemOk (module_of «module».now) part.Table index in
        MatchBool result fine (fine → ⊥) }
{
    match module.tables().get(index) {
        Some(table) => is_table_ok(*table),
        None => false,
    }
}

pub fn is_own_memory_ok(module: &Module<'_>, index: usize) -> bool
    ensures { let fine = IsItemOk (module_of «module».now) part.Memory index in
        MatchBool result fine (fine → ⊥) }
{
    match module.memories().get(index) {
        Some(memory) => is_memory_ok(*memory) && index == 0 && memory_count(module.imports()) == 0,
        None => false,
    }
}
