//! Whether a valid module is within the profile: what the tool asks for beyond validity.

ghost use Rattle.std.specs.Prelude.{◌≡◌, ◌*◌, ◌^◌, ◌<◌, ◌≤◌, length, slice_get, Some, OnOk, IfErr};
ghost use Rattle.std.specs.Prelude.{MatchBool, All};
ghost use Rattle.wz_module.specs.Meaning.{module_of};
ghost use Rattle.wz_module.specs.ShortLists.{HasShortSides};
ghost use Rattle.wz_valid.specs.Validity.{IsValid};
ghost use Rattle.wz_valid.specs.Profile.{IsFunctionKind, IsFunctionImport, IsInProfile, IsOutside};
ghost use Rattle.wz_valid.specs.Profile.{first_pages, pages_limit, HasSmallTables};
ghost use Rattle.wz_valid.specs.Profile.{HasSmallFunctions};
ghost use Rattle.wz_valid.specs.Profile.{params_of, import_params, runs_length, locals_length};
ghost use Rattle.wz_valid.specs.Profile.{own_counts, local_counts};

use crate::faults::OutOfProfile;
use wz_code::Body;
use wz_module::{ImportKind, Module};
use wz_types::FuncType;

/// The pages that a module's memories may start with together.
const PAGES_LIMIT: u64 = 16_384;
/// The entries that a module's tables may start with together.
const ENTRIES_LIMIT: u64 = 10_000_000;
/// The parameters and locals that a function may have.
const LOCALS_LIMIT: u64 = 50_000;

fn is_function_kind(kind: ImportKind) -> bool
    ensures { MatchBool result (IsFunctionKind kind) (IsFunctionKind kind → ⊥) }
{
    match kind {
        ImportKind::Func(_) => true,
        ImportKind::Table(_) => false,
        ImportKind::Memory(_) => false,
        ImportKind::Global(_) => false,
    }
}

fn check_imports(module: &Module<'_>) -> Result<(), OutOfProfile>
    ensures functions { OnOk result (All IsFunctionImport (module_of «module».now).imports) }
    ensures outside { IfErr result (λ fault. IsOutside (module_of «module».now) fault) }
{
    let imports = module.imports();
    for (index, import) in imports.iter().enumerate() {
        if !is_function_kind(import.kind) {
            return Err(OutOfProfile::ImportKind {
                index: index as u32,
            });
        }
    }
    Ok(())
}

/// The pages that the own memories start with.
fn own_pages(module: &Module<'_>) -> u64
    requires { All IsFunctionImport (module_of «module».now).imports }
    ensures { result ≡ first_pages (module_of «module».now) }
{
    let memories = module.memories();
    let mut pages = 0;
    for memory in memories {
        pages += u64::from(memory.limits.min);
    }
    pages
}

fn check_memories(module: &Module<'_>) -> Result<(), OutOfProfile>
    requires { All IsFunctionImport (module_of «module».now).imports }
    ensures small { OnOk result (first_pages (module_of «module».now) ≤ pages_limit) }
    ensures outside { IfErr result (λ fault. IsOutside (module_of «module».now) fault) }
{
    let pages = own_pages(module);
    if pages > PAGES_LIMIT {
        return Err(OutOfProfile::MemoryTooLarge { pages });
    }
    Ok(())
}

fn check_tables(module: &Module<'_>) -> Result<(), OutOfProfile>
    requires imports { All IsFunctionImport (module_of «module».now).imports }
    requires memories { first_pages (module_of «module».now) ≤ pages_limit }
    ensures small { OnOk result (HasSmallTables (module_of «module».now)) }
    ensures outside { IfErr result (λ fault. IsOutside (module_of «module».now) fault) }
{
    let tables = module.tables();
    let mut entries = 0;
    for (index, table) in tables.iter().enumerate() {
        entries += u64::from(table.limits.min);
        if entries > ENTRIES_LIMIT {
            return Err(OutOfProfile::TableTooLarge {
                index: index as u32,
                entries,
            });
        }
    }
    Ok(())
}

/// How many locals the runs of a body stand for.
fn runs_length(body: &Body) -> u64
    ensures count { result ≡ runs_length body.now.locals }
    ensures fits { result ≤ 4294967294 * 4294967295 }
{
    // a body has fewer than 2^32 - 1 runs
    let _kept = body.block_count();
    let runs = body.locals();
    let mut count = 0;
    for run in runs {
        count += u64::from(run.0);
    }
    count
}

/// How many locals the body of a number has; where there is no body, none.
fn locals_length(bodies: &[Body], number: usize) -> u64
    ensures count { result ≡ locals_length (slice_get bodies.now number) }
    ensures fits { result ≤ 4294967294 * 4294967295 }
{
    match bodies.get(number) {
        Some(body) => runs_length(body),
        None => 0,
    }
}

fn params_length(types: &[FuncType], number: u32) -> u64
    requires { All HasShortSides types.now }
    ensures count { result ≡ params_of (slice_get types.now number) }
    ensures fits { result < 2 ^ 32 }
{
    match types.get(number as usize) {
        Some(kind) => kind.params().len() as u64,
        None => 0,
    }
}

/// The parameters that an import has; one that is no function has none.
fn import_params(types: &[FuncType], kind: ImportKind) -> u64
    requires { All HasShortSides types.now }
    ensures { result ≡ import_params types.now kind }
{
    match kind {
        ImportKind::Func(number) => params_length(types, number),
        ImportKind::Table(_) => 0,
        ImportKind::Memory(_) => 0,
        ImportKind::Global(_) => 0,
    }
}

/// The parameters and locals of an own function, by its place among them.
fn own_count(module: &Module<'_>, index: usize) -> u64
    requires { index < length (module_of «module».now).functions }
    ensures { slice_get (own_counts (module_of «module».now)) index ≡ Some result }
{
    let number = module.functions()[index];
    let params = params_length(module.types(), number);
    params + locals_length(module.bodies(), index)
}

/// The parameters and locals of a function, by its index.
fn local_count(module: &Module<'_>, function: usize) -> u64
    requires imports { All IsFunctionImport (module_of «module».now).imports }
    requires there { function < length (local_counts (module_of «module».now)) }
    ensures { slice_get (local_counts (module_of «module».now)) function ≡ Some result }
{
    let imports = module.imports();
    if function < imports.len() {
        return import_params(module.types(), imports[function].kind);
    }
    own_count(module, function - imports.len())
}

/// How many functions there are.
fn function_count(module: &Module<'_>) -> u32
    requires { All IsFunctionImport (module_of «module».now).imports }
    ensures { result ≡ length (local_counts (module_of «module».now)) }
{
    let imports = module.imports();
    let functions = module.functions();
    (imports.len() + functions.len()) as u32
}

fn check_locals(module: &Module<'_>) -> Result<(), OutOfProfile>
    requires imports { All IsFunctionImport (module_of «module».now).imports }
    requires memories { first_pages (module_of «module».now) ≤ pages_limit }
    requires tables { HasSmallTables (module_of «module».now) }
    ensures small { OnOk result (HasSmallFunctions (module_of «module».now)) }
    ensures outside { IfErr result (λ fault. IsOutside (module_of «module».now) fault) }
{
    let functions = function_count(module);
    for function in 0..functions {
        let count = local_count(module, function as usize);
        if count > LOCALS_LIMIT {
            return Err(OutOfProfile::TooManyLocals { function, count });
        }
    }
    Ok(())
}

/// Whether the module is within the profile: its imports are functions, its memories and tables
/// begin small enough, and its functions have few enough locals. The first of these that doesn't
/// hold, in this order, is the answer. It takes no memory.
pub fn profile(module: &Module<'_>) -> Result<(), OutOfProfile>
    requires { IsValid (module_of «module».now) }
    ensures inside { OnOk result (IsInProfile (module_of «module».now)) }
    ensures outside { IfErr result (λ fault. IsOutside (module_of «module».now) fault) }
{
    check_imports(module)?;
    check_memories(module)?;
    check_tables(module)?;
    check_locals(module)
}
