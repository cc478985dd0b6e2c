//! The exports that are kept, the faults of settings, and undeclared functions, as tables.

ghost use Rattle.std.specs.Prelude.{◌≡◌, ◌≢◌, ◌<◌, AllPairs, IfOk, IsTrue, map, length};
ghost use Rattle.std.specs.List.{All};
ghost use Rattle.wz_module.specs.Meaning.{module_of};
ghost use Rattle.wz_module.specs.ShortLists.{IsShortList, HasShortSides};
ghost use Rattle.wz_module.specs.Views.{elem_of, export_of};
ghost use Rattle.wz_words.specs.Settings.{settings_of};

use crate::{ExportFault, Kept, keep, laws, undeclared};
use std::alloc::{AllocError, Global};
use std::process::Abort;
use std::test::Fail;
use wz_code::{Body, BodyBuilder, Instr};
use wz_linear::PlainMemory;
use wz_module::{Elem, ElemItems, ElemMode, Export, ExportTarget, Module, ModuleParts};
use wz_snapshot::{Recorded, snapshot};
use wz_store::{Reached, Store};
use wz_types::{FuncType, GlobalType, RefKind, Reference, Text, ValType, Value};
use wz_words::{Settings, read_words};

/// The name of an export, and what it gives out.
type Named = (&'static str, ExportTarget);

/// What becomes of exports: the reactor's function where it runs and the kept exports, or the first
/// fault and the name in it.
#[derive(Clone, Copy)]
enum Wanted {
    Kept(Option<u32>, &'static [Named]),
    Fault(&'static str, &'static str),
}

/// Words, the exports of a module, and what becomes of them.
type Row = (&'static [&'static str], &'static [Named], Wanted);

const INIT: &str = "wizer.initialize";

const REACTOR: &str = "_initialize";

/// Functions of a module. All but the last one take and give nothing.
const F0: ExportTarget = ExportTarget::Func(0);

const F1: ExportTarget = ExportTarget::Func(1);

const F2: ExportTarget = ExportTarget::Func(2);

const TAKES_NUMBER: ExportTarget = ExportTarget::Func(3);

const MEMORY: ExportTarget = ExportTarget::Memory(0);

const INIT_F_M: &[Named] = &[(INIT, F0), ("f", F1), ("m", MEMORY)];

const INIT_F_G: &[Named] = &[(INIT, F0), ("f", F1), ("g", F2)];

const INIT_A_B: &[Named] = &[(INIT, F0), ("a", F1), ("b", F2)];

const INIT_REACTOR_F: &[Named] = &[(INIT, F0), (REACTOR, F1), ("f", F2)];

static KEPT: [Row; 12] = [
    // the export of the function that ran leaves
    (&[], INIT_F_G, Wanted::Kept(None, &[("f", F1), ("g", F2)])),
    (
        &[],
        INIT_F_M,
        Wanted::Kept(None, &[("f", F1), ("m", MEMORY)]),
    ),
    // a new name overwrites an export, two are exchanged, and one follows another
    (
        &["-r", "_start=main2"],
        &[(INIT, F0), ("_start", F1), ("main2", F2)],
        Wanted::Kept(None, &[("_start", F2)]),
    ),
    (
        &["-r", "a=b", "-r", "b=a"],
        INIT_A_B,
        Wanted::Kept(None, &[("b", F1), ("a", F2)]),
    ),
    (
        &["-r", "b=a", "-r", "c=b"],
        INIT_A_B,
        Wanted::Kept(None, &[("b", F1), ("c", F2)]),
    ),
    // a rename to the name of a function that ran, whose export leaves in any case
    (
        &["-r", "wizer.initialize=f"],
        INIT_F_G,
        Wanted::Kept(None, &[(INIT, F1), ("g", F2)]),
    ),
    (
        &["--keep-init-func", "-r", "wizer.initialize=f"],
        INIT_F_G,
        Wanted::Kept(None, &[(INIT, F1), ("g", F2)]),
    ),
    (
        &["--reactor", "-r", "_initialize=f"],
        INIT_REACTOR_F,
        Wanted::Kept(Some(1), &[(REACTOR, F2)]),
    ),
    // both functions run and leave, one, none, and one that is both
    (
        &["--reactor"],
        INIT_REACTOR_F,
        Wanted::Kept(Some(1), &[("f", F2)]),
    ),
    (
        &[],
        INIT_REACTOR_F,
        Wanted::Kept(None, &[(REACTOR, F1), ("f", F2)]),
    ),
    (
        &["--keep-init-func", "--reactor"],
        INIT_REACTOR_F,
        Wanted::Kept(Some(1), INIT_REACTOR_F),
    ),
    (
        &["-f", "_initialize", "--reactor"],
        INIT_REACTOR_F,
        Wanted::Kept(Some(1), &[(INIT, F0), ("f", F2)]),
    ),
];

static FAULTS: [Row; 11] = [
    (&["-f", "go"], INIT_F_M, Wanted::Fault("no init", "go")),
    (
        &["-f", "m"],
        INIT_F_M,
        Wanted::Fault("init is no function", "m"),
    ),
    (
        &["-f", "f"],
        &[(INIT, F0), ("f", TAKES_NUMBER), ("m", MEMORY)],
        Wanted::Fault("init has a type", "f"),
    ),
    (&["--reactor"], INIT_F_M, Wanted::Fault("no init", REACTOR)),
    (
        &["--reactor"],
        &[(INIT, F0), (REACTOR, MEMORY), ("f", F1)],
        Wanted::Fault("init is no function", REACTOR),
    ),
    (
        &["-r", "x=nosuch"],
        INIT_F_M,
        Wanted::Fault("rename of none", "nosuch"),
    ),
    (
        &["-r", "x=m"],
        INIT_F_M,
        Wanted::Fault("rename of no function", "m"),
    ),
    (
        &["-r", "x=wizer.initialize"],
        INIT_F_M,
        Wanted::Fault("rename of init", INIT),
    ),
    // the initialisation goes first, then the reactor, then the renames in their order
    (
        &["--reactor", "-r", "x=m", "-f", "go"],
        INIT_F_M,
        Wanted::Fault("no init", "go"),
    ),
    (
        &["-r", "x=m", "--reactor"],
        INIT_F_M,
        Wanted::Fault("no init", REACTOR),
    ),
    (
        &["-r", "x=m", "-r", "y=nosuch"],
        INIT_F_M,
        Wanted::Fault("rename of no function", "m"),
    ),
];

/// The functions that two bodies name, two each, and those that are undeclared.
///
/// Function 0 has an export that leaves, 1 and 2 have ones that stay. An element segment has 3 by
/// its index, another one 4 by an expression, and a global has 5.
static UNDECLARED: [([u32; 2], [u32; 2], &[u32]); 7] = [
    // by the dropped export alone
    ([0, 0], [1, 2], &[0]),
    // by a kept export, an element segment, a reached global
    ([1, 2], [2, 1], &[]),
    ([3, 4], [4, 3], &[]),
    ([5, 5], [1, 5], &[]),
    // rising, and each once
    ([9, 7], [8, 0], &[0, 7, 8, 9]),
    ([7, 7], [7, 8], &[7, 8]),
    ([300, 3], [5, 200], &[200, 300]),
];

fn settings(alloc: Global, words: &[&str]) -> Result<Settings, Fail>
    ensures { IfOk result (λ s. AllPairs (λ x y. x.dst ≢ y.dst) (settings_of s).renames) }
{
    laws::renames_differ();
    let mut texts = Vec::new(alloc);
    for word in words {
        texts.push(Text::new(alloc, word)?)?;
    }
    match read_words(alloc, &texts) {
        Ok(settings) => Ok(settings),
        Err(_) => Err(Fail::from("the words are at fault")),
    }
}

fn differ(name: &str, other: &str) -> bool
    ensures { IsTrue result → name.now ≢ other.now }
{
    name != other
}

/// Three exports with different names.
fn exports_of(rt: &impl Abort, alloc: Global, named: &[Named]) -> Result<Vec<Export<'static>>, Fail>
    ensures distinct { IfOk result (λ es. AllPairs (λ x y. x.name ≢ y.name)
        (map export_of es.items)) }
    ensures short { IfOk result (λ es. All (λ e. IsShortList e.name) (map export_of es.items)) }
    ensures few { IfOk result (λ es. length es.items < 9) }
{
    let [(first, a), (second, b), (third, c)] = *named else {
        return Err(Fail::from("not three exports"));
    };
    assert!(rt; differ(first, second));
    assert!(rt; differ(first, third));
    assert!(rt; differ(second, third));
    assert!(rt; first.len() < 99);
    assert!(rt; second.len() < 99);
    assert!(rt; third.len() < 99);
    let exports = [
        Export {
            name: first,
            target: a,
        },
        Export {
            name: second,
            target: b,
        },
        Export {
            name: third,
            target: c,
        },
    ];
    Ok(exports.to_vec(alloc)?)
}

/// Two types: nothing in or out, and a parameter.
fn types(alloc: Global) -> Result<Vec<FuncType>, AllocError>
    ensures short { IfOk result (λ types. All HasShortSides types.items) }
    ensures few { IfOk result (λ types. length types.items < 9) }
{
    let nothing = FuncType::new(alloc, &[], &[])?;
    let number = FuncType::new(alloc, &[ValType::I32], &[])?;
    let mut types = Vec::new(alloc);
    types.push(nothing)?;
    types.push(number)?;
    Ok(types)
}

/// A module of four functions with these exports, element segments and bodies.
fn module_with(
    alloc: Global,
    exports: Vec<Export<'static>>,
    elements: Vec<Elem>,
    bodies: Vec<Body>,
) -> Result<Module<'static>, AllocError>
    requires names { All (λ e. IsShortList e.name) (map export_of exports.items) }
    requires exports { length exports.items < 9 }
    requires references { All (λ e. IsShortList e.init) (map elem_of elements.items) }
    requires elements { length elements.items < 9 }
    requires bodies { length bodies.items < 9 }
    ensures { IfOk result (λ m. (module_of m).exports ≡ map export_of exports.entry.items) }
{
    let types = types(alloc)?;
    let functions = [0, 0, 0, 1].to_vec(alloc)?;
    Ok(Module::from_parts(ModuleParts {
        sections: Vec::new(alloc),
        types,
        imports: Vec::new(alloc),
        functions,
        tables: Vec::new(alloc),
        memories: Vec::new(alloc),
        globals: Vec::new(alloc),
        exports,
        start: None,
        elements,
        data_count: None,
        bodies,
        datas: Vec::new(alloc),
    }))
}

/// Whether these are the kept exports, by place and by name.
fn is_kept(kept: &Kept, wanted: &[Named]) -> bool {
    let is_there = |(at, (name, target)): (usize, &Named)| {
        kept.entry(at) == Some((*name, *target)) && kept.find(name) == Some(*target)
    };
    kept.len() == wanted.len() && wanted.iter().enumerate().all(is_there)
}

/// Which fault it is, and the name in it.
fn told(fault: &ExportFault) -> (&str, &str) {
    match fault {
        ExportFault::NoInit { name } => ("no init", name.as_str()),
        ExportFault::InitNotFunction { name } => ("init is no function", name.as_str()),
        ExportFault::InitType { name } => ("init has a type", name.as_str()),
        ExportFault::RenameMissing { src } => ("rename of none", src.as_str()),
        ExportFault::RenameNotFunction { src } => ("rename of no function", src.as_str()),
        ExportFault::RenameInit { src } => ("rename of init", src.as_str()),
        ExportFault::NoMemory => ("no memory", ""),
    }
}

/// A module that has these exports and no bodies.
fn exporting(rt: &impl Abort, alloc: Global, named: &[Named]) -> Result<Module<'static>, Fail>
    ensures { IfOk result (λ m. AllPairs (λ x y. x.name ≢ y.name) (module_of m).exports) }
{
    let exports = exports_of(rt, alloc, named)?;
    Ok(module_with(alloc, exports, Vec::new(alloc), Vec::new(alloc))?)
}

/// What becomes of a module's exports by these words.
fn kept_by(
    alloc: Global,
    words: &[&str],
    module: &Module<'_>,
) -> Result<Result<Kept, ExportFault>, Fail>
    requires { AllPairs (λ x y. x.name ≢ y.name) (module_of «module».now).exports }
{
    let settings = settings(alloc, words)?;
    Ok(keep(alloc, module, &settings))
}

fn is_wanted(answer: &Result<Kept, ExportFault>, wanted: Wanted) -> bool {
    match answer {
        Ok(kept) => match wanted {
            Wanted::Kept(reactor, exports) => kept.reactor() == reactor && is_kept(kept, exports),
            Wanted::Fault(..) => false,
        },
        Err(fault) => match wanted {
            Wanted::Kept(..) => false,
            Wanted::Fault(kind, name) => told(fault) == (kind, name),
        },
    }
}

/// Whether this becomes of a row's exports.
fn holds(rt: &impl Abort, alloc: Global, row: &Row) -> Result<bool, Fail> {
    let (words, named, wanted) = row;
    let module = exporting(rt, alloc, named)?;
    let answer = kept_by(alloc, words, &module)?;
    Ok(is_wanted(&answer, *wanted))
}

#[test]
fn exports_leave_stay_or_are_renamed(rt: HostRuntime) -> Result<(), Fail> {
    for (number, row) in KEPT.iter().enumerate() {
        assert!(rt; holds(&rt, rt.alloc(), row)?, "row {number}");
    }
    Ok(())
}

#[test]
fn the_first_fault_is_told(rt: HostRuntime) -> Result<(), Fail> {
    for (number, row) in FAULTS.iter().enumerate() {
        assert!(rt; holds(&rt, rt.alloc(), row)?, "row {number}");
    }
    Ok(())
}

/// A body that names two functions.
fn body_naming(alloc: Global, functions: [u32; 2]) -> Result<Body, AllocError> {
    let [first, second] = functions;
    let mut builder = BodyBuilder::new(alloc);
    builder.add_instr(0, Instr::RefFunc(first))?;
    builder.add_instr(0, Instr::RefFunc(second))?;
    Ok(builder.finish())
}

/// Function 3 by its index, and 4 by an expression.
fn segments(alloc: Global) -> Result<Vec<Elem>, AllocError>
    ensures short { IfOk result (λ elements.
        All (λ e. IsShortList e.init) (map elem_of elements.items)) }
    ensures few { IfOk result (λ elements. length elements.items < 9) }
{
    let mut expressions = Vec::new(alloc);
    expressions.push(body_naming(alloc, [4, 4])?)?;
    let mut elements = Vec::new(alloc);
    elements.push(Elem {
        mode: ElemMode::Declarative,
        kind: RefKind::Func,
        items: ElemItems::Funcs([3].to_vec(alloc)?),
    })?;
    elements.push(Elem {
        mode: ElemMode::Passive,
        kind: RefKind::Func,
        items: ElemItems::Exprs(expressions),
    })?;
    Ok(elements)
}

/// What is recorded of a state with a global that holds function 5.
fn recorded(alloc: Global) -> Result<Recorded, Fail> {
    let mut store: Store<'_, PlainMemory> = Store::new(alloc, &[]);
    let kind = GlobalType {
        value: ValType::FuncRef,
        mutable: true,
    };
    store.add_global(kind, Value::Ref(Reference::Fn(5)))?;
    let reached = Reached { store, ticks: 0 };
    Ok(snapshot(alloc, &reached)?)
}

/// A module with two bodies that name these functions.
fn module_naming(
    rt: &impl Abort,
    alloc: Global,
    first: [u32; 2],
    second: [u32; 2],
) -> Result<Module<'static>, Fail>
    ensures { IfOk result (λ m. AllPairs (λ x y. x.name ≢ y.name) (module_of m).exports) }
{
    let exports = exports_of(rt, alloc, INIT_F_G)?;
    let mut bodies = Vec::new(alloc);
    bodies.push(body_naming(alloc, first)?)?;
    bodies.push(body_naming(alloc, second)?)?;
    Ok(module_with(alloc, exports, segments(alloc)?, bodies)?)
}

/// The undeclared functions of a module whose initialisation ran.
fn undeclared_in(alloc: Global, module: &Module<'_>) -> Result<Vec<u32>, Fail>
    requires { AllPairs (λ x y. x.name ≢ y.name) (module_of «module».now).exports }
{
    let recorded = recorded(alloc)?;
    match kept_by(alloc, &[], module)? {
        Ok(kept) => Ok(undeclared(alloc, module, &recorded, &kept)?),
        Err(_fault) => Err(Fail::from("the settings are at fault")),
    }
}

#[test]
fn functions_that_nothing_else_declares(rt: HostRuntime) -> Result<(), Fail> {
    for (row, (first, second, wanted)) in UNDECLARED.iter().enumerate() {
        let module = module_naming(&rt, rt.alloc(), *first, *second)?;
        let found = undeclared_in(rt.alloc(), &module)?;
        assert!(rt; found.as_slice() == *wanted, "row {row}");
    }
    Ok(())
}
