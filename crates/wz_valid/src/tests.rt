//! Each rule of validity kept and broken, the first of two items that aren't ok, and causes of the
//! profile.

use crate::hand_made::{Code, Item, module_of};
use crate::{OutOfProfile, Part, ValidFault, profile, validate};
use std::alloc::Global;
use std::process::Abort;
use std::test::Fail;
use wz_module::{ExportTarget, ImportKind};
use wz_types::{GlobalType, Limits, MemType, RefKind, TableType, ValType};

const I32: GlobalType = GlobalType {
    value: ValType::I32,
    mutable: false,
};

const I32_TO_SET: GlobalType = GlobalType {
    value: ValType::I32,
    mutable: true,
};

const NO_LIMIT: Limits = Limits { min: 0, max: None };

const CROSSED: Limits = Limits {
    min: 2,
    max: Some(1),
};

const MOST_ENTRIES: Limits = Limits {
    min: u32::MAX,
    max: Some(u32::MAX),
};

const MOST_PAGES: Limits = Limits {
    min: 65_536,
    max: Some(65_536),
};

const TOO_MANY_PAGES: Limits = Limits {
    min: 65_537,
    max: None,
};

const FAR_MAXIMUM: Limits = Limits {
    min: 1,
    max: Some(65_537),
};

/// A table of functions.
const FUNCTIONS: TableType = TableType {
    kind: RefKind::Func,
    limits: NO_LIMIT,
};

const FOREIGN: TableType = TableType {
    kind: RefKind::Extern,
    limits: NO_LIMIT,
};

const LONGEST: TableType = TableType {
    kind: RefKind::Func,
    limits: MOST_ENTRIES,
};

const CROSSED_TABLE: TableType = TableType {
    kind: RefKind::Func,
    limits: CROSSED,
};

const NOTHING: Item = Item::Type(&[], &[]);

const AT_START: Option<(u32, Code)> = Some((0, Code::Const(0)));

/// Three types, two imports, and one item more in each part; of exports there are four.
const FULL: &[Item] = &[
    NOTHING,
    Item::Type(&[ValType::I32], &[]),
    Item::Type(&[], &[ValType::FuncRef]),
    Item::Import(ImportKind::Func(0)),
    Item::Import(ImportKind::Global(I32)),
    Item::Function(0),
    Item::Body(Code::Empty),
    Item::Table(FUNCTIONS),
    Item::Memory(NO_LIMIT),
    Item::Global(ValType::I32, Code::Global(0)),
    Item::Export("f", ExportTarget::Func(1)),
    Item::Export("t", ExportTarget::Table(0)),
    Item::Export("m", ExportTarget::Memory(0)),
    Item::Export("g", ExportTarget::Global(1)),
    Item::Start(1),
    Item::Element(RefKind::Func, AT_START, Code::Func(1)),
    Item::Data(AT_START),
];

/// A global of another type than its value's, an export of a name that is there, and an element
/// segment of a function that isn't.
const BAD_GLOBAL: Item = Item::Global(ValType::I64, Code::Const(0));

const BAD_EXPORT: Item = Item::Export("f", ExportTarget::Func(0));

const BAD_ELEMENT: Item = Item::Functions(RefKind::Func, 2);

/// The row, the items of a module, and the first of all that isn't ok.
type Row = (&'static str, &'static [Item], Option<(Part, u32)>);

/// Items that are a module by themselves, and the first that isn't ok.
const ALONE: &[Row] = &[
    ("no item", &[], None),
    (
        "imports of each kind at their limits",
        &[
            NOTHING,
            Item::Import(ImportKind::Func(0)),
            Item::Import(ImportKind::Table(LONGEST)),
            Item::Import(ImportKind::Memory(MemType { limits: MOST_PAGES })),
            Item::Import(ImportKind::Global(I32)),
        ],
        None,
    ),
    (
        "a memory of 65,536 pages",
        &[Item::Memory(MOST_PAGES)],
        None,
    ),
    (
        "a memory of 65,537 pages",
        &[Item::Memory(TOO_MANY_PAGES)],
        Some((Part::Memory, 0)),
    ),
    (
        "a memory that may reach 65,537 pages",
        &[Item::Memory(FAR_MAXIMUM)],
        Some((Part::Memory, 0)),
    ),
    (
        "a memory whose limits are crossed",
        &[Item::Memory(CROSSED)],
        Some((Part::Memory, 0)),
    ),
];

/// Imports, functions, tables and memories behind those of the full module.
const OUTER: &[Row] = &[
    ("nothing more", &[], None),
    (
        "an import whose type is missing",
        &[Item::Import(ImportKind::Func(3))],
        Some((Part::Import, 2)),
    ),
    (
        "an imported table whose limits are crossed",
        &[Item::Import(ImportKind::Table(CROSSED_TABLE))],
        Some((Part::Import, 2)),
    ),
    (
        "an imported memory of 65,537 pages",
        &[Item::Import(ImportKind::Memory(MemType {
            limits: TOO_MANY_PAGES,
        }))],
        Some((Part::Import, 2)),
    ),
    (
        "two imported memories",
        &[
            Item::Import(ImportKind::Memory(MemType { limits: NO_LIMIT })),
            Item::Import(ImportKind::Memory(MemType { limits: NO_LIMIT })),
        ],
        Some((Part::Import, 3)),
    ),
    (
        "an imported memory beside an own one",
        &[Item::Import(ImportKind::Memory(MemType { limits: NO_LIMIT }))],
        Some((Part::Memory, 0)),
    ),
    (
        "a function whose type is missing",
        &[Item::Function(3), Item::Body(Code::Empty)],
        Some((Part::Function, 1)),
    ),
    (
        "a function without a body",
        &[Item::Function(0)],
        Some((Part::Function, 1)),
    ),
    ("a table of 2^32 - 1 entries", &[Item::Table(LONGEST)], None),
    (
        "a table whose limits are crossed",
        &[Item::Table(CROSSED_TABLE)],
        Some((Part::Table, 1)),
    ),
    (
        "a second memory",
        &[Item::Memory(NO_LIMIT)],
        Some((Part::Memory, 1)),
    ),
];

/// Globals, exports and a start.
const NAMING: &[Row] = &[
    (
        "a global that begins as an own global",
        &[Item::Global(ValType::I32, Code::Global(1))],
        Some((Part::Global, 1)),
    ),
    (
        "a global that begins as one that is set",
        &[
            Item::Import(ImportKind::Global(I32_TO_SET)),
            Item::Global(ValType::I32, Code::Global(1)),
        ],
        Some((Part::Global, 1)),
    ),
    (
        "a global whose value has another type",
        &[BAD_GLOBAL],
        Some((Part::Global, 1)),
    ),
    (
        "a global without a value",
        &[Item::Global(ValType::I32, Code::Empty)],
        Some((Part::Global, 1)),
    ),
    (
        "a global that refers to a function",
        &[Item::Global(ValType::FuncRef, Code::Func(0))],
        None,
    ),
    (
        "an export of a name that is taken",
        &[BAD_EXPORT],
        Some((Part::Export, 4)),
    ),
    (
        "an export of a missing function",
        &[Item::Export("x", ExportTarget::Func(2))],
        Some((Part::Export, 4)),
    ),
    (
        "an export of a missing table",
        &[Item::Export("x", ExportTarget::Table(1))],
        Some((Part::Export, 4)),
    ),
    (
        "an export of a missing memory",
        &[Item::Export("x", ExportTarget::Memory(1))],
        Some((Part::Export, 4)),
    ),
    (
        "an export of a missing global",
        &[Item::Export("x", ExportTarget::Global(2))],
        Some((Part::Export, 4)),
    ),
    (
        "a start that is missing",
        &[Item::Start(2)],
        Some((Part::Start, 0)),
    ),
    (
        "a start with a parameter",
        &[Item::Function(1), Item::Body(Code::Empty), Item::Start(2)],
        Some((Part::Start, 0)),
    ),
    (
        "a start with a result",
        &[
            Item::Function(2),
            Item::Body(Code::Null(RefKind::Func)),
            Item::Start(2),
        ],
        Some((Part::Start, 0)),
    ),
];

/// Segments and bodies.
const HOLDING: &[Row] = &[
    (
        "a reference of the other kind",
        &[Item::Element(RefKind::Func, None, Code::Null(RefKind::Extern))],
        Some((Part::Element, 1)),
    ),
    (
        "an element segment whose table is missing",
        &[Item::Element(RefKind::Func, Some((1, Code::Const(0))), Code::Func(1))],
        Some((Part::Element, 1)),
    ),
    (
        "an element segment whose table is of the other kind",
        &[
            Item::Table(FOREIGN),
            Item::Element(RefKind::Func, Some((1, Code::Const(0))), Code::Func(1)),
        ],
        Some((Part::Element, 1)),
    ),
    (
        "an element segment whose offset is no i32",
        &[Item::Element(
            RefKind::Func,
            Some((0, Code::Null(RefKind::Func))),
            Code::Func(1),
        )],
        Some((Part::Element, 1)),
    ),
    (
        "an element segment whose function is missing",
        &[BAD_ELEMENT],
        Some((Part::Element, 1)),
    ),
    (
        "functions in a segment of the other kind",
        &[Item::Functions(RefKind::Extern, 1)],
        Some((Part::Element, 1)),
    ),
    (
        "an element segment of an imported function",
        &[Item::Functions(RefKind::Func, 0)],
        None,
    ),
    (
        "a body without a function",
        &[Item::Body(Code::Empty)],
        Some((Part::Code, 1)),
    ),
    (
        "a body that leaves a value",
        &[Item::Function(0), Item::Body(Code::Const(0))],
        Some((Part::Code, 1)),
    ),
    (
        "a body that refers to an undeclared function",
        &[Item::Function(2), Item::Body(Code::Func(0))],
        Some((Part::Code, 1)),
    ),
    (
        "a body that refers to a declared function",
        &[Item::Function(2), Item::Body(Code::Func(1))],
        None,
    ),
    (
        "a data segment whose memory is missing",
        &[Item::Data(Some((1, Code::Const(0))))],
        Some((Part::DataSegment, 1)),
    ),
    (
        "a data segment whose offset is no i32",
        &[Item::Data(Some((0, Code::Null(RefKind::Func))))],
        Some((Part::DataSegment, 1)),
    ),
    ("a passive data segment", &[Item::Data(None)], None),
];

/// Two items that aren't ok, or one behind another of its part.
const ORDER: &[Row] = &[
    (
        "a bad global before a good one",
        &[BAD_GLOBAL, Item::Global(ValType::I32, Code::Const(0))],
        Some((Part::Global, 1)),
    ),
    (
        "a bad global behind a good one",
        &[Item::Global(ValType::I32, Code::Const(0)), BAD_GLOBAL],
        Some((Part::Global, 2)),
    ),
    (
        "a bad export and a bad global",
        &[BAD_EXPORT, BAD_GLOBAL],
        Some((Part::Global, 1)),
    ),
    (
        "a bad export and a bad element segment",
        &[BAD_ELEMENT, BAD_EXPORT],
        Some((Part::Export, 4)),
    ),
];

/// The row, the items of a valid module, and why it is outside the profile.
const PROFILE: &[(&str, &[Item], Option<OutOfProfile>)] = &[
    (
        "all at their limits",
        &[
            NOTHING,
            Item::Import(ImportKind::Func(0)),
            Item::Memory(Limits {
                min: 16_384,
                max: None,
            }),
            Item::Table(TableType {
                kind: RefKind::Func,
                limits: Limits {
                    min: 10_000_000,
                    max: None,
                },
            }),
            Item::Function(0),
            Item::Body(Code::Locals(50_000)),
        ],
        None,
    ),
    (
        "an imported global",
        &[
            NOTHING,
            Item::Import(ImportKind::Func(0)),
            Item::Import(ImportKind::Global(I32)),
            Item::Memory(Limits {
                min: 16_385,
                max: None,
            }),
        ],
        Some(OutOfProfile::ImportKind { index: 1 }),
    ),
    (
        "too many pages",
        &[
            Item::Table(TableType {
                kind: RefKind::Func,
                limits: Limits {
                    min: 10_000_001,
                    max: None,
                },
            }),
            Item::Memory(Limits {
                min: 16_385,
                max: None,
            }),
        ],
        Some(OutOfProfile::MemoryTooLarge { pages: 16_385 }),
    ),
    (
        "too many entries in two tables",
        &[
            Item::Table(TableType {
                kind: RefKind::Func,
                limits: Limits { min: 1, max: None },
            }),
            Item::Table(TableType {
                kind: RefKind::Func,
                limits: Limits {
                    min: 10_000_000,
                    max: None,
                },
            }),
        ],
        Some(OutOfProfile::TableTooLarge {
            index: 1,
            entries: 10_000_001,
        }),
    ),
    (
        "too many locals, a parameter among them",
        &[
            Item::Type(&[ValType::I32], &[]),
            Item::Import(ImportKind::Func(0)),
            Item::Function(0),
            Item::Body(Code::Locals(50_000)),
        ],
        Some(OutOfProfile::TooManyLocals {
            function: 1,
            count: 50_001,
        }),
    ),
];

/// Whether each row's module, which begins with these items, is found valid or broken at that item.
fn look_at(rt: &impl Abort, alloc: Global, first: &[Item], rows: &[Row]) -> Result<(), Fail> {
    for (text, items, broken) in rows {
        let Some(module) = module_of(alloc, first, items)? else {
            assert!(rt; false, "{text}: no module");
            continue;
        };
        let wanted = match *broken {
            Some((part, index)) => Err(ValidFault::Invalid { part, index }),
            None => Ok(()),
        };
        assert!(rt; validate(alloc, &module) == wanted, "{text}");
    }
    Ok(())
}

/// The same of items behind those of the full module.
fn look_behind(rt: &impl Abort, alloc: Global, rows: &[Row]) -> Result<(), Fail> {
    look_at(rt, alloc, FULL, rows)
}

#[test]
fn modules_alone(rt: HostRuntime) -> Result<(), Fail> {
    look_at(&rt, rt.alloc(), &[], ALONE)
}

#[test]
fn outer_items(rt: HostRuntime) -> Result<(), Fail> {
    look_behind(&rt, rt.alloc(), OUTER)
}

#[test]
fn naming_items(rt: HostRuntime) -> Result<(), Fail> {
    look_behind(&rt, rt.alloc(), NAMING)
}

#[test]
fn holding_items(rt: HostRuntime) -> Result<(), Fail> {
    look_behind(&rt, rt.alloc(), HOLDING)
}

#[test]
fn first_of_two(rt: HostRuntime) -> Result<(), Fail> {
    look_behind(&rt, rt.alloc(), ORDER)
}

#[test]
fn causes_of_the_profile(rt: HostRuntime) -> Result<(), Fail> {
    let alloc = rt.alloc();
    for (text, items, cause) in PROFILE {
        let Some(module) = module_of(alloc, &[], items)? else {
            assert!(rt; false, "{text}: no module");
            continue;
        };
        match validate(alloc, &module) {
            Ok(()) => assert!(rt; profile(&module).err() == *cause, "{text}"),
            Err(_) => assert!(rt; false, "{text}: not valid"),
        }
    }
    Ok(())
}
