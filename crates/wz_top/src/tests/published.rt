//! Published modules that go through: their outputs, byte by byte, and their reports.

use super::running::{Through, all_go_through};
use super::sections::{
    CODE, COPYING_INPUT, COPYING_OUTPUT, EMPTY_CODE, EXPORT, FUNCTION, FUNCTIONS, GLOBAL,
    GLOBAL_AFTER, GROWING_INPUT, GROWING_OUTPUT, NO_EXPORT, PAGE, SECOND_EXPORT, THREE_EMPTY,
    THREE_FUNCTIONS, TYPES,
};
use std::test::Fail;

// Stores 1 at 0, at 9 and at 19.
const GAPS: &[u8] =
    b"\x0A\x19\x01\x17\0\x41\0\x41\x01\x3A\0\0\x41\x09\x41\x01\x3A\0\0\x41\x13\x41\x01\x3A\0\0\x0B";

// Branches over f64.add.
const SKIPS_SUM: &[u8] = b"\x0A\x1D\x01\x1B\0\x02\x40\x0C\0\x44\0\0\0\0\0\0\xF0\x3F\
\x44\0\0\0\0\0\0\xF0\x3F\xA0\x1A\x0B\x0B";

static PUBLISHED: [Through; 16] = [
    Through {
        name: "a global",
        words: &[],
        input: &[TYPES, FUNCTION, GLOBAL, EXPORT, CODE],
        output: &[TYPES, FUNCTION, GLOBAL_AFTER, NO_EXPORT, CODE],
        line: "wizer: 3 ticks, 0 pages, 0 segments, 39 bytes\n",
    },
    Through {
        name: "a padded constant",
        words: &["--fuel=3"],
        input: &[
            TYPES,
            FUNCTION,
            GLOBAL,
            EXPORT,
            b"\x0A\x09\x01\x07\0\x41\xAA\0\x24\0\x0B",
        ],
        output: &[
            TYPES,
            FUNCTION,
            GLOBAL_AFTER,
            NO_EXPORT,
            b"\x0A\x09\x01\x07\0\x41\xAA\0\x24\0\x0B",
        ],
        line: "wizer: 3 ticks, 0 pages, 0 segments, 40 bytes\n",
    },
    Through {
        name: "a start",
        words: &[],
        input: &[
            TYPES,
            FUNCTIONS,
            GLOBAL,
            SECOND_EXPORT,
            b"\x08\x01\0",
            b"\x0A\x12\x02\x06\0\x41\x0A\x24\0\x0B\x09\0\x23\0\x41\x05\x6A\x24\0\x0B",
        ],
        output: &[
            TYPES,
            FUNCTIONS,
            b"\x06\x06\x01\x7F\x01\x41\x0F\x0B",
            NO_EXPORT,
            b"\x0A\x12\x02\x06\0\x41\x0A\x24\0\x0B\x09\0\x23\0\x41\x05\x6A\x24\0\x0B",
        ],
        line: "wizer: 8 ticks, 0 pages, 0 segments, 50 bytes\n",
    },
    Through {
        name: "a memory that grows",
        words: &[],
        input: GROWING_INPUT,
        output: GROWING_OUTPUT,
        line: "wizer: 7 ticks, 2 pages, 1 segments, 59 bytes\n",
    },
    Through {
        name: "a gap of eight bytes, and one of nine",
        words: &[],
        input: &[TYPES, FUNCTION, PAGE, EXPORT, GAPS],
        output: &[
            TYPES,
            FUNCTION,
            PAGE,
            NO_EXPORT,
            GAPS,
            b"\x0B\x16\x02\0\x41\0\x0B\x0A\x01\0\0\0\0\0\0\0\0\x01\0\x41\x13\x0B\x01\x01",
        ],
        line: "wizer: 10 ticks, 1 pages, 2 segments, 77 bytes\n",
    },
    Through {
        name: "a function that nothing else declares",
        words: &[],
        input: &[
            TYPES,
            FUNCTIONS,
            b"\x07\x18\x02\x10wizer.initialize\0\0\x01\x66\0\x01",
            b"\x0A\x0A\x02\x02\0\x0B\x05\0\xD2\0\x1A\x0B",
        ],
        output: &[
            TYPES,
            FUNCTIONS,
            b"\x07\x05\x01\x01\x66\0\x01",
            b"\x09\x05\x01\x03\0\x01\0",
            b"\x0A\x0A\x02\x02\0\x0B\x05\0\xD2\0\x1A\x0B",
        ],
        line: "wizer: 1 ticks, 0 pages, 0 segments, 45 bytes\n",
    },
    Through {
        name: "an active segment without ranges, beside a passive one",
        words: &[],
        input: COPYING_INPUT,
        output: COPYING_OUTPUT,
        line: "wizer: 1 ticks, 1 pages, 0 segments, 82 bytes\n",
    },
    Through {
        name: "a negated float that is no number",
        words: &[],
        input: &[
            TYPES,
            FUNCTION,
            PAGE,
            EXPORT,
            b"\x0A\x13\x01\x11\0\x41\0\x44\x01\0\0\0\0\0\xF0\x7F\x9A\x39\x03\0\x0B",
        ],
        output: &[
            TYPES,
            FUNCTION,
            PAGE,
            NO_EXPORT,
            b"\x0A\x13\x01\x11\0\x41\0\x44\x01\0\0\0\0\0\xF0\x7F\x9A\x39\x03\0\x0B",
            b"\x0B\x0E\x01\0\x41\0\x0B\x08\x01\0\0\0\0\0\xF0\xFF",
        ],
        line: "wizer: 5 ticks, 1 pages, 1 segments, 63 bytes\n",
    },
    Through {
        name: "a float operation that is not reached",
        words: &[],
        input: &[TYPES, FUNCTION, GLOBAL, EXPORT, SKIPS_SUM],
        output: &[TYPES, FUNCTION, GLOBAL, NO_EXPORT, SKIPS_SUM],
        line: "wizer: 3 ticks, 0 pages, 0 segments, 60 bytes\n",
    },
    Through {
        name: "an empty segment at the end of the memory",
        words: &[],
        input: &[
            TYPES,
            FUNCTION,
            PAGE,
            EXPORT,
            EMPTY_CODE,
            b"\x0B\x08\x01\0\x41\x80\x80\x04\x0B\0",
        ],
        output: &[
            TYPES,
            FUNCTION,
            PAGE,
            NO_EXPORT,
            EMPTY_CODE,
            b"\x0B\x03\x01\x01\0",
        ],
        line: "wizer: 1 ticks, 1 pages, 0 segments, 37 bytes\n",
    },
    Through {
        name: "the last byte of the largest memory",
        words: &[],
        input: &[
            TYPES,
            FUNCTION,
            b"\x05\x05\x01\0\x80\x80\x01",
            EXPORT,
            b"\x0A\x0F\x01\x0D\0\x41\xFF\xFF\xFF\xFF\x03\x41\x07\x3A\0\0\x0B",
        ],
        output: &[
            TYPES,
            FUNCTION,
            b"\x05\x05\x01\0\x80\x80\x01",
            NO_EXPORT,
            b"\x0A\x0F\x01\x0D\0\x41\xFF\xFF\xFF\xFF\x03\x41\x07\x3A\0\0\x0B",
            b"\x0B\x0B\x01\0\x41\xFF\xFF\xFF\xFF\x03\x0B\x01\x07",
        ],
        line: "wizer: 4 ticks, 16384 pages, 1 segments, 58 bytes\n",
    },
    Through {
        name: "a passive segment that is copied and dropped",
        words: &[],
        input: &[
            TYPES,
            FUNCTION,
            PAGE,
            EXPORT,
            b"\x0C\x01\x01",
            b"\x0A\x11\x01\x0F\0\x41\x05\x41\0\x41\x02\xFC\x08\0\0\xFC\x09\0\x0B",
            b"\x0B\x05\x01\x01\x02\xAB\xCD",
        ],
        output: &[
            TYPES,
            FUNCTION,
            PAGE,
            NO_EXPORT,
            b"\x0C\x01\x02",
            b"\x0A\x11\x01\x0F\0\x41\x05\x41\0\x41\x02\xFC\x08\0\0\xFC\x09\0\x0B",
            b"\x0B\x0A\x02\x01\0\0\x41\x05\x0B\x02\xAB\xCD",
        ],
        line: "wizer: 6 ticks, 1 pages, 1 segments, 60 bytes\n",
    },
    Through {
        name: "an element segment that is dropped",
        words: &[],
        input: &[
            TYPES,
            FUNCTION,
            EXPORT,
            b"\x09\x05\x01\x01\0\x01\0",
            b"\x0A\x07\x01\x05\0\xFC\x0D\0\x0B",
        ],
        output: &[
            TYPES,
            FUNCTION,
            NO_EXPORT,
            b"\x09\x05\x01\x03\0\x01\0",
            b"\x0A\x07\x01\x05\0\xFC\x0D\0\x0B",
        ],
        line: "wizer: 2 ticks, 0 pages, 0 segments, 37 bytes\n",
    },
    Through {
        name: "a new name that overwrites an export",
        words: &["-r", "_start=main2"],
        input: &[
            TYPES,
            THREE_FUNCTIONS,
            b"\x07\x25\x03\x10wizer.initialize\0\0\x06_start\0\x01\x05main2\0\x02",
            THREE_EMPTY,
        ],
        output: &[
            TYPES,
            THREE_FUNCTIONS,
            b"\x07\x0A\x01\x06_start\0\x02",
            THREE_EMPTY,
        ],
        line: "wizer: 1 ticks, 0 pages, 0 segments, 44 bytes\n",
    },
    Through {
        name: "two exports that exchange their names",
        words: &["-r", "a=b", "-r", "b=a"],
        input: &[
            TYPES,
            THREE_FUNCTIONS,
            b"\x07\x1C\x03\x10wizer.initialize\0\0\x01\x61\0\x01\x01\x62\0\x02",
            THREE_EMPTY,
        ],
        output: &[
            TYPES,
            THREE_FUNCTIONS,
            b"\x07\x09\x02\x01\x62\0\x01\x01\x61\0\x02",
            THREE_EMPTY,
        ],
        line: "wizer: 1 ticks, 0 pages, 0 segments, 43 bytes\n",
    },
    Through {
        name: "an initialisation by another name, which stays",
        words: &["-f", "b", "--keep-init-func"],
        input: &[
            TYPES,
            THREE_FUNCTIONS,
            b"\x07\x09\x02\x01\x61\0\x01\x01\x62\0\x02",
            THREE_EMPTY,
        ],
        output: &[
            TYPES,
            THREE_FUNCTIONS,
            b"\x07\x09\x02\x01\x61\0\x01\x01\x62\0\x02",
            THREE_EMPTY,
        ],
        line: "wizer: 1 ticks, 0 pages, 0 segments, 43 bytes\n",
    },
];

#[test]
fn published_modules_go_through(rt: HostRuntime) -> Result<(), Fail> {
    all_go_through(&rt, rt.alloc(), &PUBLISHED)
}
