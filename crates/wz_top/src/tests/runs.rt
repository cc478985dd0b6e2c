//! Runs that come to no state: traps, fuel, imports, tables, floats, limits, and segments that
//! don't fit.

use super::running::{HEADER, Refused, all_are_refused};
use super::sections::{
    CODE, EMPTY_CODE, EXPORT, FUNCTION, GLOBAL, IMPORT, PAGE, SECOND_EXPORT, TABLE, THREE_EMPTY,
    THREE_FUNCTIONS, TYPES,
};
use std::test::Fail;

static PHASES: [Refused; 11] = [
    Refused {
        name: "start traps",
        words: &["--reactor"],
        input: &[
            HEADER,
            TYPES,
            THREE_FUNCTIONS,
            b"\x07\x22\x02\x10wizer.initialize\0\x02\x0B_initialize\0\x01",
            b"\x08\x01\0",
            b"\x0A\x0B\x03\x03\0\0\x0B\x02\0\x0B\x02\0\x0B",
        ],
        line: "wizer: start trapped: unreachable\n",
    },
    Refused {
        name: "_initialize traps",
        words: &["--reactor"],
        input: &[
            HEADER,
            TYPES,
            THREE_FUNCTIONS,
            b"\x07\x22\x02\x10wizer.initialize\0\x02\x0B_initialize\0\x01",
            b"\x08\x01\0",
            b"\x0A\x0B\x03\x02\0\x0B\x03\0\0\x0B\x02\0\x0B",
        ],
        line: "wizer: _initialize trapped: unreachable\n",
    },
    Refused {
        name: "initialisation traps",
        words: &["--reactor"],
        input: &[
            HEADER,
            TYPES,
            THREE_FUNCTIONS,
            b"\x07\x22\x02\x10wizer.initialize\0\x02\x0B_initialize\0\x01",
            b"\x08\x01\0",
            b"\x0A\x0B\x03\x02\0\x0B\x02\0\x0B\x03\0\0\x0B",
        ],
        line: "wizer: initialisation trapped: unreachable\n",
    },
    Refused {
        name: "start never ends",
        words: &["--reactor", "--fuel", "1000"],
        input: &[
            HEADER,
            TYPES,
            THREE_FUNCTIONS,
            b"\x07\x22\x02\x10wizer.initialize\0\x02\x0B_initialize\0\x01",
            b"\x08\x01\0",
            b"\x0A\x0F\x03\x07\0\x03\x40\x0C\0\x0B\x0B\x02\0\x0B\x02\0\x0B",
        ],
        line: "wizer: the fuel ran out\n",
    },
    Refused {
        name: "_initialize never ends",
        words: &["--reactor", "--fuel", "1000"],
        input: &[
            HEADER,
            TYPES,
            THREE_FUNCTIONS,
            b"\x07\x22\x02\x10wizer.initialize\0\x02\x0B_initialize\0\x01",
            b"\x08\x01\0",
            b"\x0A\x0F\x03\x02\0\x0B\x07\0\x03\x40\x0C\0\x0B\x0B\x02\0\x0B",
        ],
        line: "wizer: the fuel ran out\n",
    },
    Refused {
        name: "initialisation never ends",
        words: &["--reactor", "--fuel", "1000"],
        input: &[
            HEADER,
            TYPES,
            THREE_FUNCTIONS,
            b"\x07\x22\x02\x10wizer.initialize\0\x02\x0B_initialize\0\x01",
            b"\x08\x01\0",
            b"\x0A\x0F\x03\x02\0\x0B\x02\0\x0B\x07\0\x03\x40\x0C\0\x0B\x0B",
        ],
        line: "wizer: the fuel ran out\n",
    },
    Refused {
        name: "no fuel",
        words: &["--reactor", "--fuel", "0"],
        input: &[
            HEADER,
            TYPES,
            THREE_FUNCTIONS,
            b"\x07\x22\x02\x10wizer.initialize\0\x02\x0B_initialize\0\x01",
            b"\x08\x01\0",
            THREE_EMPTY,
        ],
        line: "wizer: the fuel ran out\n",
    },
    Refused {
        name: "fuel for the start alone",
        words: &["--reactor", "--fuel", "1"],
        input: &[
            HEADER,
            TYPES,
            THREE_FUNCTIONS,
            b"\x07\x22\x02\x10wizer.initialize\0\x02\x0B_initialize\0\x01",
            b"\x08\x01\0",
            THREE_EMPTY,
        ],
        line: "wizer: the fuel ran out\n",
    },
    Refused {
        name: "fuel for the start and the reactor alone",
        words: &["--reactor", "--fuel", "2"],
        input: &[
            HEADER,
            TYPES,
            THREE_FUNCTIONS,
            b"\x07\x22\x02\x10wizer.initialize\0\x02\x0B_initialize\0\x01",
            b"\x08\x01\0",
            THREE_EMPTY,
        ],
        line: "wizer: the fuel ran out\n",
    },
    Refused {
        name: "a trap of the reactor that the fuel just reaches",
        words: &["--reactor", "--fuel", "2"],
        input: &[
            HEADER,
            TYPES,
            THREE_FUNCTIONS,
            b"\x07\x22\x02\x10wizer.initialize\0\x02\x0B_initialize\0\x01",
            b"\x08\x01\0",
            b"\x0A\x0B\x03\x02\0\x0B\x03\0\0\x0B\x02\0\x0B",
        ],
        line: "wizer: _initialize trapped: unreachable\n",
    },
    Refused {
        name: "a trap of the reactor behind the fuel",
        words: &["--reactor", "--fuel", "1"],
        input: &[
            HEADER,
            TYPES,
            THREE_FUNCTIONS,
            b"\x07\x22\x02\x10wizer.initialize\0\x02\x0B_initialize\0\x01",
            b"\x08\x01\0",
            b"\x0A\x0B\x03\x02\0\x0B\x03\0\0\x0B\x02\0\x0B",
        ],
        line: "wizer: the fuel ran out\n",
    },
];

static IMPORTS: [Refused; 11] = [
    Refused {
        name: "start calls an import",
        words: &["--reactor"],
        input: &[
            HEADER,
            TYPES,
            IMPORT,
            THREE_FUNCTIONS,
            b"\x07\x22\x02\x10wizer.initialize\0\x03\x0B_initialize\0\x02",
            b"\x08\x01\x01",
            b"\x0A\x0C\x03\x04\0\x10\0\x0B\x02\0\x0B\x02\0\x0B",
        ],
        line: "wizer: the initialisation calls import 0\n",
    },
    Refused {
        name: "_initialize calls an import",
        words: &["--reactor"],
        input: &[
            HEADER,
            TYPES,
            IMPORT,
            THREE_FUNCTIONS,
            b"\x07\x22\x02\x10wizer.initialize\0\x03\x0B_initialize\0\x02",
            b"\x08\x01\x01",
            b"\x0A\x0C\x03\x02\0\x0B\x04\0\x10\0\x0B\x02\0\x0B",
        ],
        line: "wizer: the initialisation calls import 0\n",
    },
    Refused {
        name: "initialisation calls an import",
        words: &["--reactor"],
        input: &[
            HEADER,
            TYPES,
            IMPORT,
            THREE_FUNCTIONS,
            b"\x07\x22\x02\x10wizer.initialize\0\x03\x0B_initialize\0\x02",
            b"\x08\x01\x01",
            b"\x0A\x0C\x03\x02\0\x0B\x02\0\x0B\x04\0\x10\0\x0B",
        ],
        line: "wizer: the initialisation calls import 0\n",
    },
    Refused {
        name: "a call of an import that the fuel just reaches",
        words: &["--reactor", "--fuel", "1"],
        input: &[
            HEADER,
            TYPES,
            IMPORT,
            THREE_FUNCTIONS,
            b"\x07\x22\x02\x10wizer.initialize\0\x03\x0B_initialize\0\x02",
            b"\x08\x01\x01",
            b"\x0A\x0C\x03\x04\0\x10\0\x0B\x02\0\x0B\x02\0\x0B",
        ],
        line: "wizer: the initialisation calls import 0\n",
    },
    Refused {
        name: "a call of an import behind the fuel",
        words: &["--reactor", "--fuel", "0"],
        input: &[
            HEADER,
            TYPES,
            IMPORT,
            THREE_FUNCTIONS,
            b"\x07\x22\x02\x10wizer.initialize\0\x03\x0B_initialize\0\x02",
            b"\x08\x01\x01",
            b"\x0A\x0C\x03\x04\0\x10\0\x0B\x02\0\x0B\x02\0\x0B",
        ],
        line: "wizer: the fuel ran out\n",
    },
    Refused {
        name: "the start is an import",
        words: &["--reactor", "--fuel", "0"],
        input: &[
            HEADER,
            TYPES,
            IMPORT,
            THREE_FUNCTIONS,
            b"\x07\x22\x02\x10wizer.initialize\0\x03\x0B_initialize\0\x02",
            b"\x08\x01\0",
            THREE_EMPTY,
        ],
        line: "wizer: the initialisation calls import 0\n",
    },
    Refused {
        name: "_initialize is an import",
        words: &["--reactor", "--fuel", "1"],
        input: &[
            HEADER,
            TYPES,
            IMPORT,
            THREE_FUNCTIONS,
            b"\x07\x22\x02\x10wizer.initialize\0\x03\x0B_initialize\0\0",
            b"\x08\x01\x01",
            THREE_EMPTY,
        ],
        line: "wizer: the initialisation calls import 0\n",
    },
    Refused {
        name: "_initialize is an import, and the fuel ends before",
        words: &["--reactor", "--fuel", "0"],
        input: &[
            HEADER,
            TYPES,
            IMPORT,
            THREE_FUNCTIONS,
            b"\x07\x22\x02\x10wizer.initialize\0\x03\x0B_initialize\0\0",
            b"\x08\x01\x01",
            THREE_EMPTY,
        ],
        line: "wizer: the fuel ran out\n",
    },
    Refused {
        name: "the initialisation is an import",
        words: &["--fuel", "0"],
        input: &[HEADER, TYPES, IMPORT, EXPORT],
        line: "wizer: the initialisation calls import 0\n",
    },
    Refused {
        name: "an import through a table",
        words: &[],
        input: &[
            HEADER,
            TYPES,
            IMPORT,
            FUNCTION,
            TABLE,
            SECOND_EXPORT,
            b"\x09\x07\x01\0\x41\0\x0B\x01\0",
            b"\x0A\x09\x01\x07\0\x41\0\x11\0\0\x0B",
        ],
        line: "wizer: the initialisation calls import 0\n",
    },
    Refused {
        name: "the second of two imports",
        words: &[],
        input: &[
            HEADER,
            TYPES,
            b"\x02\x0D\x02\x01\x65\x01\x68\0\0\x01\x65\x01\x67\0\0",
            FUNCTION,
            b"\x07\x14\x01\x10wizer.initialize\0\x02",
            b"\x0A\x06\x01\x04\0\x10\x01\x0B",
        ],
        line: "wizer: the initialisation calls import 1\n",
    },
];

static OPERATIONS: [Refused; 16] = [
    Refused {
        name: "table.set out of bounds",
        words: &[],
        input: &[
            HEADER,
            TYPES,
            FUNCTION,
            TABLE,
            EXPORT,
            b"\x09\x05\x01\x01\0\x01\0",
            b"\x0A\x0A\x01\x08\0\x41\x09\xD0\x70\x26\0\x0B",
        ],
        line: "wizer: the initialisation changes a table\n",
    },
    Refused {
        name: "table.init out of bounds",
        words: &[],
        input: &[
            HEADER,
            TYPES,
            FUNCTION,
            TABLE,
            EXPORT,
            b"\x09\x05\x01\x01\0\x01\0",
            b"\x0A\x0E\x01\x0C\0\x41\x09\x41\x09\x41\x09\xFC\x0C\0\0\x0B",
        ],
        line: "wizer: the initialisation changes a table\n",
    },
    Refused {
        name: "table.copy out of bounds",
        words: &[],
        input: &[
            HEADER,
            TYPES,
            FUNCTION,
            TABLE,
            EXPORT,
            b"\x09\x05\x01\x01\0\x01\0",
            b"\x0A\x0E\x01\x0C\0\x41\x09\x41\x09\x41\x09\xFC\x0E\0\0\x0B",
        ],
        line: "wizer: the initialisation changes a table\n",
    },
    Refused {
        name: "table.fill of nothing",
        words: &[],
        input: &[
            HEADER,
            TYPES,
            FUNCTION,
            TABLE,
            EXPORT,
            b"\x09\x05\x01\x01\0\x01\0",
            b"\x0A\x0D\x01\x0B\0\x41\0\xD0\x70\x41\0\xFC\x11\0\x0B",
        ],
        line: "wizer: the initialisation changes a table\n",
    },
    Refused {
        name: "table.grow by nothing",
        words: &[],
        input: &[
            HEADER,
            TYPES,
            FUNCTION,
            TABLE,
            EXPORT,
            b"\x09\x05\x01\x01\0\x01\0",
            b"\x0A\x0C\x01\x0A\0\xD0\x70\x41\0\xFC\x0F\0\x1A\x0B",
        ],
        line: "wizer: the initialisation changes a table\n",
    },
    Refused {
        name: "a table change that the fuel just reaches",
        words: &["--fuel", "3"],
        input: &[
            HEADER,
            TYPES,
            FUNCTION,
            TABLE,
            EXPORT,
            b"\x0A\x0C\x01\x0A\0\xD0\x70\x41\0\xFC\x0F\0\x1A\x0B",
        ],
        line: "wizer: the initialisation changes a table\n",
    },
    Refused {
        name: "a table change behind the fuel",
        words: &["--fuel", "2"],
        input: &[
            HEADER,
            TYPES,
            FUNCTION,
            TABLE,
            EXPORT,
            b"\x0A\x0C\x01\x0A\0\xD0\x70\x41\0\xFC\x0F\0\x1A\x0B",
        ],
        line: "wizer: the fuel ran out\n",
    },
    Refused {
        name: "a comparison of floats",
        words: &[],
        input: &[
            HEADER,
            TYPES,
            FUNCTION,
            EXPORT,
            b"\x0A\x10\x01\x0E\0\x43\0\0\0\0\x43\0\0\0\0\x5B\x1A\x0B",
        ],
        line: "wizer: the initialisation uses the float operation 5B\n",
    },
    Refused {
        name: "a sum of floats",
        words: &[],
        input: &[
            HEADER,
            TYPES,
            FUNCTION,
            EXPORT,
            b"\x0A\x18\x01\x16\0\x44\0\0\0\0\0\0\xF0\x3F\x44\0\0\0\0\0\0\xF0\x3F\xA0\x1A\x0B",
        ],
        line: "wizer: the initialisation uses the float operation A0\n",
    },
    Refused {
        name: "a root",
        words: &[],
        input: &[
            HEADER,
            TYPES,
            FUNCTION,
            EXPORT,
            b"\x0A\x0B\x01\x09\0\x43\0\0\x80\x40\x91\x1A\x0B",
        ],
        line: "wizer: the initialisation uses the float operation 91\n",
    },
    Refused {
        name: "a truncation",
        words: &[],
        input: &[
            HEADER,
            TYPES,
            FUNCTION,
            EXPORT,
            b"\x0A\x0F\x01\x0D\0\x44\0\0\0\0\0\0\xF0\x3F\xAB\x1A\x0B",
        ],
        line: "wizer: the initialisation uses the float operation AB\n",
    },
    Refused {
        name: "a conversion",
        words: &[],
        input: &[
            HEADER,
            TYPES,
            FUNCTION,
            EXPORT,
            b"\x0A\x08\x01\x06\0\x41\x01\xB2\x1A\x0B",
        ],
        line: "wizer: the initialisation uses the float operation B2\n",
    },
    Refused {
        name: "a promotion",
        words: &[],
        input: &[
            HEADER,
            TYPES,
            FUNCTION,
            EXPORT,
            b"\x0A\x0B\x01\x09\0\x43\0\0\x80\x3F\xBB\x1A\x0B",
        ],
        line: "wizer: the initialisation uses the float operation BB\n",
    },
    Refused {
        name: "a saturating truncation",
        words: &[],
        input: &[
            HEADER,
            TYPES,
            FUNCTION,
            EXPORT,
            b"\x0A\x10\x01\x0E\0\x44\0\0\0\0\0\0\xF0\x3F\xFC\x07\x1A\x0B",
        ],
        line: "wizer: the initialisation uses the float operation FC 7\n",
    },
    Refused {
        name: "a float operation that the fuel just reaches",
        words: &["--fuel", "3"],
        input: &[
            HEADER,
            TYPES,
            FUNCTION,
            EXPORT,
            b"\x0A\x18\x01\x16\0\x44\0\0\0\0\0\0\xF0\x3F\x44\0\0\0\0\0\0\xF0\x3F\xA0\x1A\x0B",
        ],
        line: "wizer: the initialisation uses the float operation A0\n",
    },
    Refused {
        name: "a float operation behind the fuel",
        words: &["--fuel", "2"],
        input: &[
            HEADER,
            TYPES,
            FUNCTION,
            EXPORT,
            b"\x0A\x18\x01\x16\0\x44\0\0\0\0\0\0\xF0\x3F\x44\0\0\0\0\0\0\xF0\x3F\xA0\x1A\x0B",
        ],
        line: "wizer: the fuel ran out\n",
    },
];

static LIMITS: [Refused; 14] = [
    Refused {
        name: "the least number by -1",
        words: &[],
        input: &[
            HEADER,
            TYPES,
            FUNCTION,
            EXPORT,
            b"\x0A\x0E\x01\x0C\0\x41\x80\x80\x80\x80\x78\x41\x7F\x6D\x1A\x0B",
        ],
        line: "wizer: initialisation trapped: integer overflow\n",
    },
    Refused {
        name: "the global is set at the third tick",
        words: &["--fuel", "2"],
        input: &[HEADER, TYPES, FUNCTION, GLOBAL, EXPORT, CODE],
        line: "wizer: the fuel ran out\n",
    },
    Refused {
        name: "a loop",
        words: &["--fuel", "1000"],
        input: &[
            HEADER,
            TYPES,
            FUNCTION,
            EXPORT,
            b"\x0A\x09\x01\x07\0\x03\x40\x0C\0\x0B\x0B",
        ],
        line: "wizer: the fuel ran out\n",
    },
    Refused {
        name: "a frame too many",
        words: &[],
        input: &[
            HEADER,
            TYPES,
            FUNCTION,
            EXPORT,
            b"\x0A\x06\x01\x04\0\x10\0\x0B",
        ],
        line: "wizer: more than 20000 frames\n",
    },
    Refused {
        name: "a frame too many, which the fuel just reaches",
        words: &["--fuel", "20000"],
        input: &[
            HEADER,
            TYPES,
            FUNCTION,
            EXPORT,
            b"\x0A\x06\x01\x04\0\x10\0\x0B",
        ],
        line: "wizer: more than 20000 frames\n",
    },
    Refused {
        name: "a frame too many, behind the fuel",
        words: &["--fuel", "19999"],
        input: &[
            HEADER,
            TYPES,
            FUNCTION,
            EXPORT,
            b"\x0A\x06\x01\x04\0\x10\0\x0B",
        ],
        line: "wizer: the fuel ran out\n",
    },
    Refused {
        name: "locals too many",
        words: &[],
        input: &[
            HEADER,
            TYPES,
            FUNCTION,
            EXPORT,
            b"\x0A\x0A\x01\x08\x01\xD0\x86\x03\x7F\x10\0\x0B",
        ],
        line: "wizer: more than 4000000 locals in all frames\n",
    },
    Refused {
        name: "locals too many, which the fuel just reaches",
        words: &["--fuel", "80"],
        input: &[
            HEADER,
            TYPES,
            FUNCTION,
            EXPORT,
            b"\x0A\x0A\x01\x08\x01\xD0\x86\x03\x7F\x10\0\x0B",
        ],
        line: "wizer: more than 4000000 locals in all frames\n",
    },
    Refused {
        name: "locals too many, behind the fuel",
        words: &["--fuel", "79"],
        input: &[
            HEADER,
            TYPES,
            FUNCTION,
            EXPORT,
            b"\x0A\x0A\x01\x08\x01\xD0\x86\x03\x7F\x10\0\x0B",
        ],
        line: "wizer: the fuel ran out\n",
    },
    Refused {
        name: "an element behind the table",
        words: &[],
        input: &[
            HEADER,
            TYPES,
            FUNCTION,
            TABLE,
            EXPORT,
            b"\x09\x07\x01\0\x41\x01\x0B\x01\0",
            EMPTY_CODE,
        ],
        line: "wizer: element segment 0 doesn't fit its table\n",
    },
    Refused {
        name: "a byte behind the memory",
        words: &[],
        input: &[
            HEADER,
            TYPES,
            FUNCTION,
            PAGE,
            EXPORT,
            EMPTY_CODE,
            b"\x0B\x09\x01\0\x41\x80\x80\x04\x0B\x01\xFF",
        ],
        line: "wizer: data segment 0 doesn't fit its memory\n",
    },
    Refused {
        name: "the second segment, whose place is unsigned",
        words: &[],
        input: &[
            HEADER,
            TYPES,
            FUNCTION,
            PAGE,
            EXPORT,
            EMPTY_CODE,
            b"\x0B\x0D\x02\0\x41\0\x0B\x01\xFF\0\x41\x7F\x0B\x01\xFF",
        ],
        line: "wizer: data segment 1 doesn't fit its memory\n",
    },
    Refused {
        name: "an empty segment past the end",
        words: &[],
        input: &[
            HEADER,
            TYPES,
            FUNCTION,
            PAGE,
            EXPORT,
            EMPTY_CODE,
            b"\x0B\x08\x01\0\x41\x81\x80\x04\x0B\0",
        ],
        line: "wizer: data segment 0 doesn't fit its memory\n",
    },
    Refused {
        name: "elements before data",
        words: &[],
        input: &[
            HEADER,
            TYPES,
            FUNCTION,
            TABLE,
            PAGE,
            EXPORT,
            b"\x09\x07\x01\0\x41\x01\x0B\x01\0",
            EMPTY_CODE,
            b"\x0B\x09\x01\0\x41\x80\x80\x04\x0B\x01\xFF",
        ],
        line: "wizer: element segment 0 doesn't fit its table\n",
    },
];

#[test]
fn traps_and_fuel_of_each_phase(rt: HostRuntime) -> Result<(), Fail> {
    all_are_refused(&rt, rt.alloc(), &PHASES)
}

#[test]
fn imports_that_are_called(rt: HostRuntime) -> Result<(), Fail> {
    all_are_refused(&rt, rt.alloc(), &IMPORTS)
}

#[test]
fn tables_and_floats(rt: HostRuntime) -> Result<(), Fail> {
    all_are_refused(&rt, rt.alloc(), &OPERATIONS)
}

#[test]
fn limits_and_segments(rt: HostRuntime) -> Result<(), Fail> {
    all_are_refused(&rt, rt.alloc(), &LIMITS)
}
