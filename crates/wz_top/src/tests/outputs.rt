//! What becomes of each part of a module: outputs, byte by byte, and reports.

use super::running::{Through, all_go_through};
use super::sections::{
    ASKING_INPUT, ASKING_OUTPUT, CUSTOM, EMPTY_CODE, EXPORT, FUNCTION, FUNCTIONS, GLOBAL,
    GLOBAL_AFTER, IMPORT, NO_EXPORT, PADDED_CUSTOM, PAGE, TABLE, TABLES_INPUT, TABLES_OUTPUT,
    TYPES,
};
use std::test::Fail;

// A variable global of each type, and two constants.
const GLOBALS: &[u8] = b"\x06\x33\x08\x7F\x01\x41\x01\x0B\x7E\x01\x42\x02\x0B\
\x7D\x01\x43\0\0\0\0\x0B\x7C\x01\x44\0\0\0\0\0\0\0\0\x0B\
\x70\x01\xD0\x70\x0B\x6F\x01\xD0\x6F\x0B\x7F\0\x41\x03\x0B\x70\0\xD2\0\x0B";

const GLOBALS_AFTER: &[u8] = b"\x06\x3C\x08\x7F\x01\x41\x7E\x0B\
\x7E\x01\x42\x80\x80\x80\x80\x80\x80\x80\x80\x80\x7F\x0B\
\x7D\x01\x43\0\0\xA0\x7F\x0B\x7C\x01\x44\0\0\0\0\0\0\xF0\xFF\x0B\
\x70\x01\xD2\0\x0B\x6F\x01\xD0\x6F\x0B\x7F\0\x41\x03\x0B\x70\0\xD2\0\x0B";

// Sets them to -2, the least i64, a NaN, an infinity, function 0 and what it holds.
const SETS_GLOBALS: &[u8] = b"\x0A\x2F\x01\x2D\0\x41\x7E\x24\0\
\x42\x80\x80\x80\x80\x80\x80\x80\x80\x80\x7F\x24\x01\x43\0\0\xA0\x7F\x24\x02\
\x44\0\0\0\0\0\0\xF0\xFF\x24\x03\xD2\0\x24\x04\x23\x05\x24\x05\x0B";

// Three passive segments, the second without items, and an active one.
const EXPRESSIONS: &[u8] = b"\x09\x19\x04\x05\x70\x02\xD2\0\x0B\xD0\x70\x0B\x01\0\0\
\x05\x70\x01\xD2\0\x0B\0\x41\0\x0B\x01\0";

const EXPRESSIONS_AFTER: &[u8] = b"\x09\x19\x04\x07\x70\x02\xD2\0\x0B\xD0\x70\x0B\x01\0\0\
\x05\x70\x01\xD2\0\x0B\0\x41\0\x0B\x01\0";

// Makes references of functions 0, 3 and 1.
const REFERS: &[u8] =
    b"\x0A\x16\x04\x0B\0\xD2\0\x1A\xD2\x03\x1A\xD2\x01\x1A\x0B\x02\0\x0B\x02\0\x0B\x02\0\x0B";

// Grows the memory by one page and by another, and keeps both answers.
const GROWS_TWICE: &[u8] = b"\x0A\x10\x01\x0E\0\x41\x01\x40\0\x24\0\x41\x01\x40\0\x24\x01\x0B";

static MADE: [Through; 16] = [
    Through {
        name: "custom sections between all others, each with a padded size",
        words: &[],
        input: &[
            PADDED_CUSTOM,
            TYPES,
            PADDED_CUSTOM,
            IMPORT,
            PADDED_CUSTOM,
            FUNCTIONS,
            PADDED_CUSTOM,
            TABLE,
            PADDED_CUSTOM,
            PAGE,
            PADDED_CUSTOM,
            GLOBAL,
            PADDED_CUSTOM,
            b"\x07\x14\x01\x10wizer.initialize\0\x02",
            PADDED_CUSTOM,
            b"\x08\x01\x01",
            PADDED_CUSTOM,
            b"\x09\x07\x01\0\x41\0\x0B\x01\x01",
            PADDED_CUSTOM,
            b"\x0C\x01\x01",
            PADDED_CUSTOM,
            b"\x0A\x0B\x02\x02\0\x0B\x06\0\x41\x2A\x24\0\x0B",
            PADDED_CUSTOM,
            b"\x0B\x07\x01\0\x41\x04\x0B\x01\xFF",
            PADDED_CUSTOM,
        ],
        output: &[
            CUSTOM,
            TYPES,
            CUSTOM,
            IMPORT,
            CUSTOM,
            FUNCTIONS,
            CUSTOM,
            TABLE,
            CUSTOM,
            PAGE,
            CUSTOM,
            GLOBAL_AFTER,
            CUSTOM,
            NO_EXPORT,
            CUSTOM,
            CUSTOM,
            b"\x09\x07\x01\0\x41\0\x0B\x01\x01",
            CUSTOM,
            b"\x0C\x01\x01",
            CUSTOM,
            b"\x0A\x0B\x02\x02\0\x0B\x06\0\x41\x2A\x24\0\x0B",
            CUSTOM,
            b"\x0B\x07\x01\0\x41\x04\x0B\x01\xFF",
            CUSTOM,
        ],
        line: "wizer: 4 ticks, 1 pages, 1 segments, 136 bytes\n",
    },
    Through {
        name: "segments that overlap, of which the later stays",
        words: &[],
        input: &[
            TYPES,
            FUNCTION,
            PAGE,
            EXPORT,
            EMPTY_CODE,
            b"\x0B\x10\x02\0\x41\0\x0B\x03\x01\x02\x03\0\x41\x01\x0B\x02\xFF\xFE",
        ],
        output: &[
            TYPES,
            FUNCTION,
            PAGE,
            NO_EXPORT,
            EMPTY_CODE,
            b"\x0B\x0B\x02\0\x41\0\x0B\x03\x01\xFF\xFE\x01\0",
        ],
        line: "wizer: 1 ticks, 1 pages, 1 segments, 45 bytes\n",
    },
    Through {
        name: "more ranges than active segments, and a passive one between",
        words: &[],
        input: &[
            TYPES,
            FUNCTION,
            PAGE,
            EXPORT,
            b"\x0C\x01\x02",
            b"\x0A\x0B\x01\x09\0\x41\x14\x41\x07\x3A\0\0\x0B",
            b"\x0B\x0B\x02\0\x41\0\x0B\x01\x05\x01\x02\xAB\xCD",
        ],
        output: &[
            TYPES,
            FUNCTION,
            PAGE,
            NO_EXPORT,
            b"\x0C\x01\x03",
            b"\x0A\x0B\x01\x09\0\x41\x14\x41\x07\x3A\0\0\x0B",
            b"\x0B\x11\x03\0\x41\0\x0B\x01\x05\x01\x02\xAB\xCD\0\x41\x14\x0B\x01\x07",
        ],
        line: "wizer: 4 ticks, 1 pages, 2 segments, 61 bytes\n",
    },
    Through {
        name: "fewer ranges than active segments",
        words: &[],
        input: &[
            TYPES,
            FUNCTION,
            PAGE,
            EXPORT,
            b"\x0C\x01\x03",
            b"\x0A\x0B\x01\x09\0\x41\x14\x41\0\x3A\0\0\x0B",
            b"\x0B\x12\x03\0\x41\x14\x0B\x01\x05\0\x41\0\x0B\0\0\x41\x1E\x0B\x01\x06",
        ],
        output: &[
            TYPES,
            FUNCTION,
            PAGE,
            NO_EXPORT,
            b"\x0C\x01\x03",
            b"\x0A\x0B\x01\x09\0\x41\x14\x41\0\x3A\0\0\x0B",
            b"\x0B\x0B\x03\0\x41\x1E\x0B\x01\x06\x01\0\x01\0",
        ],
        line: "wizer: 4 ticks, 1 pages, 1 segments, 55 bytes\n",
    },
    Through {
        name: "a global of each type",
        words: &[],
        input: &[TYPES, FUNCTION, GLOBALS, EXPORT, SETS_GLOBALS],
        output: &[TYPES, FUNCTION, GLOBALS_AFTER, NO_EXPORT, SETS_GLOBALS],
        line: "wizer: 13 ticks, 0 pages, 0 segments, 132 bytes\n",
    },
    Through {
        name: "two functions that nothing else declares, behind a segment",
        words: &[],
        input: &[
            TYPES,
            b"\x03\x05\x04\0\0\0\0",
            b"\x07\x18\x02\x10wizer.initialize\0\0\x01\x61\0\x03",
            b"\x09\x05\x01\x03\0\x01\x01",
            REFERS,
        ],
        output: &[
            TYPES,
            b"\x03\x05\x04\0\0\0\0",
            b"\x07\x05\x01\x01\x61\0\x03",
            b"\x09\x09\x02\x03\0\x01\x01\x03\0\x01\0",
            REFERS,
        ],
        line: "wizer: 7 ticks, 0 pages, 0 segments, 63 bytes\n",
    },
    Through {
        name: "a dropped segment of expressions, an empty one and an active one",
        words: &[],
        input: &[
            TYPES,
            FUNCTION,
            b"\x04\x04\x01\x70\0\x02",
            EXPORT,
            EXPRESSIONS,
            b"\x0A\x0D\x01\x0B\0\xFC\x0D\0\xFC\x0D\x01\xFC\x0D\x03\x0B",
        ],
        output: &[
            TYPES,
            FUNCTION,
            b"\x04\x04\x01\x70\0\x02",
            NO_EXPORT,
            EXPRESSIONS_AFTER,
            b"\x0A\x0D\x01\x0B\0\xFC\x0D\0\xFC\x0D\x01\xFC\x0D\x03\x0B",
        ],
        line: "wizer: 4 ticks, 0 pages, 0 segments, 69 bytes\n",
    },
    Through {
        name: "a reactor, which runs before and leaves",
        words: &["--reactor", "--fuel", "8"],
        input: &[
            TYPES,
            FUNCTIONS,
            GLOBAL,
            b"\x07\x26\x03\x10wizer.initialize\0\0\x0B_initialize\0\x01\x01\x6D\x03\0",
            b"\x0A\x12\x02\x09\0\x23\0\x41\x05\x6A\x24\0\x0B\x06\0\x41\x0A\x24\0\x0B",
        ],
        output: &[
            TYPES,
            FUNCTIONS,
            b"\x06\x06\x01\x7F\x01\x41\x0F\x0B",
            b"\x07\x05\x01\x01\x6D\x03\0",
            b"\x0A\x12\x02\x09\0\x23\0\x41\x05\x6A\x24\0\x0B\x06\0\x41\x0A\x24\0\x0B",
        ],
        line: "wizer: 8 ticks, 0 pages, 0 segments, 54 bytes\n",
    },
    Through {
        name: "an initialisation that runs as the reactor too",
        words: &["-f", "_initialize", "--reactor"],
        input: &[
            TYPES,
            FUNCTION,
            GLOBAL,
            b"\x07\x0F\x01\x0B_initialize\0\0",
            b"\x0A\x0B\x01\x09\0\x23\0\x41\x05\x6A\x24\0\x0B",
        ],
        output: &[
            TYPES,
            FUNCTION,
            b"\x06\x06\x01\x7F\x01\x41\x0A\x0B",
            NO_EXPORT,
            b"\x0A\x0B\x01\x09\0\x23\0\x41\x05\x6A\x24\0\x0B",
        ],
        line: "wizer: 10 ticks, 0 pages, 0 segments, 42 bytes\n",
    },
    Through {
        name: "an initialisation that is the start too",
        words: &[],
        input: &[
            TYPES,
            FUNCTION,
            GLOBAL,
            EXPORT,
            b"\x08\x01\0",
            b"\x0A\x0B\x01\x09\0\x23\0\x41\x05\x6A\x24\0\x0B",
        ],
        output: &[
            TYPES,
            FUNCTION,
            b"\x06\x06\x01\x7F\x01\x41\x0A\x0B",
            NO_EXPORT,
            b"\x0A\x0B\x01\x09\0\x23\0\x41\x05\x6A\x24\0\x0B",
        ],
        line: "wizer: 10 ticks, 0 pages, 0 segments, 42 bytes\n",
    },
    Through {
        name: "growth up to the maximum, and past it",
        words: &[],
        input: &[
            TYPES,
            FUNCTION,
            b"\x05\x04\x01\x01\x01\x02",
            b"\x06\x0B\x02\x7F\x01\x41\0\x0B\x7F\x01\x41\0\x0B",
            EXPORT,
            GROWS_TWICE,
        ],
        output: &[
            TYPES,
            FUNCTION,
            b"\x05\x04\x01\x01\x02\x02",
            b"\x06\x0B\x02\x7F\x01\x41\x01\x0B\x7F\x01\x41\x7F\x0B",
            NO_EXPORT,
            GROWS_TWICE,
        ],
        line: "wizer: 7 ticks, 2 pages, 0 segments, 58 bytes\n",
    },
    Through {
        name: "growth past the maximum, and by nothing",
        words: &[],
        input: &[
            TYPES,
            FUNCTION,
            b"\x05\x04\x01\x01\x01\x02",
            b"\x06\x0B\x02\x7F\x01\x41\0\x0B\x7F\x01\x41\0\x0B",
            EXPORT,
            b"\x0A\x10\x01\x0E\0\x41\x02\x40\0\x24\0\x41\0\x40\0\x24\x01\x0B",
        ],
        output: &[
            TYPES,
            FUNCTION,
            b"\x05\x04\x01\x01\x01\x02",
            b"\x06\x0B\x02\x7F\x01\x41\x7F\x0B\x7F\x01\x41\x01\x0B",
            NO_EXPORT,
            b"\x0A\x10\x01\x0E\0\x41\x02\x40\0\x24\0\x41\0\x40\0\x24\x01\x0B",
        ],
        line: "wizer: 7 ticks, 1 pages, 0 segments, 58 bytes\n",
    },
    Through {
        name: "growth to 65,536 pages, and to 16,384",
        words: &[],
        input: &[
            TYPES,
            FUNCTION,
            b"\x05\x06\x01\x01\0\x80\x80\x04",
            b"\x06\x0B\x02\x7F\x01\x41\0\x0B\x7F\x01\x41\0\x0B",
            EXPORT,
            b"\x0A\x14\x01\x12\0\x41\x80\x80\x04\x40\0\x24\0\x41\x80\x80\x01\x40\0\x24\x01\x0B",
        ],
        output: &[
            TYPES,
            FUNCTION,
            b"\x05\x08\x01\x01\x80\x80\x01\x80\x80\x04",
            b"\x06\x0B\x02\x7F\x01\x41\x7F\x0B\x7F\x01\x41\0\x0B",
            NO_EXPORT,
            b"\x0A\x14\x01\x12\0\x41\x80\x80\x04\x40\0\x24\0\x41\x80\x80\x01\x40\0\x24\x01\x0B",
        ],
        line: "wizer: 7 ticks, 16384 pages, 0 segments, 66 bytes\n",
    },
    Through {
        name: "growth to 16,384 pages, and by one more",
        words: &[],
        input: &[
            TYPES,
            FUNCTION,
            PAGE,
            b"\x06\x0B\x02\x7F\x01\x41\0\x0B\x7F\x01\x41\0\x0B",
            EXPORT,
            b"\x0A\x12\x01\x10\0\x41\xFF\xFF\0\x40\0\x24\0\x41\x01\x40\0\x24\x01\x0B",
        ],
        output: &[
            TYPES,
            FUNCTION,
            b"\x05\x05\x01\0\x80\x80\x01",
            b"\x06\x0B\x02\x7F\x01\x41\x01\x0B\x7F\x01\x41\x7F\x0B",
            NO_EXPORT,
            b"\x0A\x12\x01\x10\0\x41\xFF\xFF\0\x40\0\x24\0\x41\x01\x40\0\x24\x01\x0B",
        ],
        line: "wizer: 7 ticks, 16384 pages, 0 segments, 61 bytes\n",
    },
    Through {
        name: "a dropped segment of bytes, and one that is chosen",
        words: &[],
        input: ASKING_INPUT,
        output: ASKING_OUTPUT,
        line: "wizer: 8 ticks, 2 pages, 1 segments, 150 bytes\n",
    },
    Through {
        name: "a function that nothing else declares, behind a passive segment",
        words: &[],
        input: TABLES_INPUT,
        output: TABLES_OUTPUT,
        line: "wizer: 1 ticks, 0 pages, 0 segments, 154 bytes\n",
    },
];

#[test]
fn parts_stay_leave_or_are_made(rt: HostRuntime) -> Result<(), Fail> {
    all_go_through(&rt, rt.alloc(), &MADE)
}
