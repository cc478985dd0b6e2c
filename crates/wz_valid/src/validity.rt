//! Whether a module is valid (Core Specification 2.0, section 3.4.10): its items, part by part.

ghost use Rattle.std.specs.Prelude.{◌≡◌, length, OnOk, IfOk, IfErr};
ghost use Rattle.wz_module.specs.Meaning.{module_of};
ghost use Rattle.wz_valid.specs.Indices.{all_memories};
ghost use Rattle.wz_valid.specs.Validity.{IsValid, IsPartOk, IsModuleRefused, part_length, part_rank};
ghost use Rattle.wz_valid.specs.Checking.{IsContextOf, AreNamesNew, TellsItem};
ghost use Rattle.wz_valid.specs.Checking.{AreItemsBeforeOk, ArePartsBeforeOk};

use crate::checker::Checker;
use crate::declared::declared_functions;
use crate::faults::{Part, ValidFault};
use crate::item_rules::{
    is_function_ok, is_import_ok, is_own_memory_ok, is_own_table_ok, memory_count,
};
use crate::named_rules::{is_export_ok, is_start_ok};
use crate::names::new_names;
use crate::spaces::{add_own_globals, all_functions, all_tables, element_kinds, imported_globals};
use crate::typed_rules::{is_code_ok, is_data_ok, is_element_ok, is_global_ok};
use std::alloc::{AllocError, Global};
use wz_module::Module;
use wz_valid_code::Context;

/// The parts, in the order in which their items are looked at.
const PARTS: [Part; 10] = [
    Part::Import,
    Part::Function,
    Part::Table,
    Part::Memory,
    Part::Global,
    Part::Export,
    Part::Start,
    Part::Element,
    Part::Code,
    Part::DataSegment,
];

/// How many items a part has.
fn part_length(module: &Module<'_>, part: Part) -> u32
    ensures { result ≡ part_length (module_of «module».now) part }
{
    let length = match part {
        Part::Import => module.imports().len(),
        Part::Function => module.functions().len(),
        Part::Table => module.tables().len(),
        Part::Memory => module.memories().len(),
        Part::Global => module.globals().len(),
        Part::Export => module.exports().len(),
        Part::Start => usize::from(module.start().is_some()),
        Part::Element => module.elements().len(),
        Part::Code => module.bodies().len(),
        Part::DataSegment => module.datas().len(),
    };
    length as u32
}

/// Whether an item is ok, where those before it are.
fn is_item_ok(checker: &Checker<'_, '_>, part: Part, index: usize) -> Result<bool, AllocError>
    requires says { IsContextOf (module_of checker.now.module.now) checker.now.context }
    requires names { AreNamesNew (module_of checker.now.module.now) checker.now.new_names }
    requires before { AreItemsBeforeOk (module_of checker.now.module.now) part index }
    ensures { let m = module_of checker.now.module.now in
        IfOk result (λ ok. TellsItem m part index ok) }
{
    let module = checker.module;
    match part {
        Part::Import => Ok(is_import_ok(module, index)),
        Part::Function => Ok(is_function_ok(module, index)),
        Part::Table => Ok(is_own_table_ok(module, index)),
        Part::Memory => Ok(is_own_memory_ok(module, index)),
        Part::Global => is_global_ok(checker, index),
        Part::Export => Ok(is_export_ok(checker, index)),
        Part::Start => Ok(is_start_ok(checker, index)),
        Part::Element => is_element_ok(checker, index),
        Part::Code => is_code_ok(checker, index),
        Part::DataSegment => is_data_ok(checker, index),
    }
}

/// Looks at the items of a part, where those of the parts before it are ok.
fn check_part(checker: &Checker<'_, '_>, part: Part) -> Result<(), ValidFault>
    requires says { IsContextOf (module_of checker.now.module.now) checker.now.context }
    requires names { AreNamesNew (module_of checker.now.module.now) checker.now.new_names }
    requires before { ArePartsBeforeOk (module_of checker.now.module.now) (part_rank part) }
    ensures ok { OnOk result (IsPartOk (module_of checker.now.module.now) part) }
    ensures refused { let m = module_of checker.now.module.now in
        IfErr result (λ fault. IsModuleRefused m fault) }
{
    let count = part_length(checker.module, part);
    for index in 0..count {
        if !is_item_ok(checker, part, index as usize)? {
            return Err(ValidFault::Invalid { part, index });
        }
    }
    Ok(())
}

fn check_parts(checker: &Checker<'_, '_>) -> Result<(), ValidFault>
    requires says { IsContextOf (module_of checker.now.module.now) checker.now.context }
    requires names { AreNamesNew (module_of checker.now.module.now) checker.now.new_names }
    ensures ok { OnOk result (IsValid (module_of checker.now.module.now)) }
    ensures refused { let m = module_of checker.now.module.now in
        IfErr result (λ fault. IsModuleRefused m fault) }
{
    for part in PARTS {
        check_part(checker, part)?;
    }
    Ok(())
}

/// How many memories a module has, imports first.
fn all_memory_count(module: &Module<'_>) -> u32
    ensures { result ≡ length (all_memories (module_of «module».now)) }
{
    let imported = memory_count(module.imports());
    (imported + module.memories().len()) as u32
}

/// Whether a module is valid. If not, the answer is the first item that isn't ok, in the order of
/// `Part` and then by its number. An import or an own memory isn't ok, too, where it makes a second
/// memory, an export where an earlier one has its name, a function where its body isn't there, and
/// a body where its function isn't.
pub fn validate(alloc: Global, module: &Module<'_>) -> Result<(), ValidFault>
    ensures valid { OnOk result (IsValid (module_of «module».now)) }
    ensures invalid { IfErr result (λ fault. IsModuleRefused (module_of «module».now) fault) }
{
    let functions = all_functions(alloc, module)?;
    let tables = all_tables(alloc, module)?;
    let mut globals = imported_globals(alloc, module)?;
    let imported_globals = globals.len() as u32;
    add_own_globals(module, &mut globals)?;
    let elements = element_kinds(alloc, module)?;
    let declared = declared_functions(alloc, module)?;
    check_parts(&Checker {
        alloc,
        module,
        context: Context {
            types: module.types(),
            functions: &functions,
            tables: &tables,
            memories: all_memory_count(module),
            globals: &globals,
            imported_globals,
            elements: &elements,
            datas: module.datas().len() as u32,
            declared: &declared,
        },
        new_names: new_names(alloc, module)?,
    })
}
