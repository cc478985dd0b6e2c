//! Loads, stores and the instructions on ranges of a memory.

use super::{F32, I32, I64, PASSIVE, ShortBody};

pub(super) static CASES: [ShortBody; 10] = [
    ShortBody {
        name: "i32 loads",
        before: I32,
        body: &[
            b"\0",
            b"\x41\0\x41\x01\x2C\0\x01\x36\x02\x10", // load8_s
            b"\x41\0\x41\x01\x2D\0\x01\x36\x02\x14", // load8_u
            b"\x41\0\x41\x01\x2E\x01\x01\x36\x02\x18", // load16_s
            b"\x41\0\x41\x01\x2F\x01\x01\x36\x02\x1C", // load16_u
            b"\x41\0\x41\x01\x28\x02\x01\x36\x02\x20", // load
            b"\x0B",
        ],
        after: I32,
        data: &[
            b"\x0B\x2F\x02\0\x41\0\x0B\x24\x81\x82\x83\x84\x85\x86\x87\x88\0\0\0\0\0\0\0\0",
            b"\x83\xFF\xFF\xFF", // load8_s
            b"\x83\0\0\0", // load8_u
            b"\x83\x84\xFF\xFF", // load16_s
            b"\x83\x84\0\0", // load16_u
            b"\x83\x84\x85\x86", // load
            PASSIVE,
        ],
        line: "wizer: 21 ticks, 1 pages, 1 segments, 178 bytes\n",
    },
    ShortBody {
        name: "i64 loads",
        before: I64,
        body: &[
            b"\0",
            b"\x41\0\x41\0\x30\0\0\x37\x03\x10", // load8_s
            b"\x41\0\x41\0\x31\0\0\x37\x03\x18", // load8_u
            b"\x41\0\x41\0\x32\x01\0\x37\x03\x20", // load16_s
            b"\x41\0\x41\0\x33\x01\0\x37\x03\x28", // load16_u
            b"\x41\0\x41\0\x34\x02\0\x37\x03\x30", // load32_s
            b"\x41\0\x41\0\x35\x02\0\x37\x03\x38", // load32_u
            b"\x41\0\x41\0\x29\x03\0\x37\x03\x40", // load
            b"\x0B",
        ],
        after: I64,
        data: &[
            b"\x0B\x53\x02\0\x41\0\x0B\x48\x81\x82\x83\x84\x85\x86\x87\x88\0\0\0\0\0\0\0\0",
            b"\x81\xFF\xFF\xFF\xFF\xFF\xFF\xFF", // load8_s
            b"\x81\0\0\0\0\0\0\0", // load8_u
            b"\x81\x82\xFF\xFF\xFF\xFF\xFF\xFF", // load16_s
            b"\x81\x82\0\0\0\0\0\0", // load16_u
            b"\x81\x82\x83\x84\xFF\xFF\xFF\xFF", // load32_s
            b"\x81\x82\x83\x84\0\0\0\0", // load32_u
            b"\x81\x82\x83\x84\x85\x86\x87\x88", // load
            PASSIVE,
        ],
        line: "wizer: 29 ticks, 1 pages, 1 segments, 234 bytes\n",
    },
    ShortBody {
        name: "float loads",
        before: F32,
        body: &[
            b"\0",
            b"\x41\0\x41\x04\x2A\x02\0\x38\x02\x10", // f32.load
            b"\x41\0\x41\0\x2B\x03\0\x39\x03\x14", // f64.load
            b"\x0B",
        ],
        after: F32,
        data: &[
            b"\x0B\x27\x02\0\x41\0\x0B\x1C\x81\x82\x83\x84\x85\x86\x87\x88\0\0\0\0\0\0\0\0",
            b"\x85\x86\x87\x88", // f32.load
            b"\x81\x82\x83\x84\x85\x86\x87\x88", // f64.load
            PASSIVE,
        ],
        line: "wizer: 9 ticks, 1 pages, 1 segments, 143 bytes\n",
    },
    ShortBody {
        name: "stores",
        before: I32,
        body: &[
            b"\0",
            b"\x41\x04\x41\xC4\xE6\x88\x89\x01\x3A\0\x0C", // i32.store8
            b"\x41\x08\x41\xC4\xE6\x88\x89\x01\x3B\x01\x0C", // i32.store16
            b"\x41\x0C\x41\xC4\xE6\x88\x89\x01\x36\x02\x0C", // i32.store
            b"\x41\x10\x42\x88\xEF\x99\xAB\xC5\xE8\x8C\x91\x11\x3C\0\x0C", // i64.store8
            b"\x41\x14\x42\x88\xEF\x99\xAB\xC5\xE8\x8C\x91\x11\x3D\x01\x0C", // i64.store16
            b"\x41\x18\x42\x88\xEF\x99\xAB\xC5\xE8\x8C\x91\x11\x3E\x02\x0C", // i64.store32
            b"\x41\x1C\x42\x88\xEF\x99\xAB\xC5\xE8\x8C\x91\x11\x37\x03\x0C", // i64.store
            b"\x41\x24\x43\0\0\xC0\xBF\x38\x02\x0C", // f32.store
            b"\x41\x28\x44\0\0\0\0\0\0\xF8\xBF\x39\x03\x0C", // f64.store
            b"\x0B",
        ],
        after: I32,
        data: &[
            b"\x0B\x47\x02\0\x41\0\x0B\x3C\x81\x82\x83\x84\x85\x86\x87\x88\0\0\0\0\0\0\0\0",
            b"\x44\0\0\0", // i32.store8
            b"\x44\x33\0\0", // i32.store16
            b"\x44\x33\x22\x11", // i32.store
            b"\x88\0\0\0", // i64.store8
            b"\x88\x77\0\0", // i64.store16
            b"\x88\x77\x66\x55", // i64.store32
            b"\x88\x77\x66\x55\x44\x33\x22\x11", // i64.store
            b"\0\0\xC0\xBF", // f32.store
            b"\0\0\0\0\0\0\xF8\xBF", // f64.store
            PASSIVE,
        ],
        line: "wizer: 28 ticks, 1 pages, 1 segments, 270 bytes\n",
    },
    // (memory.fill (i32.const 2) (i32.const 0x1FF) (i32.const 3))
    ShortBody {
        name: "memory.fill",
        before: I32,
        body: &[b"\0\x41\x02\x41\xFF\x03\x41\x03\xFC\x0B\0\x0B"],
        after: I32,
        data: &[
            b"\x0B\x13\x02\0\x41\0\x0B\x08\x81\x82\xFF\xFF\xFF\x86\x87\x88\x01\x03\xAB\xCD\xEF",
        ],
        line: "wizer: 5 ticks, 1 pages, 1 segments, 110 bytes\n",
    },
    // (memory.fill (i32.const 0) (i32.const 0) (i32.const 8)) (memory.fill (i32.const 65536)
    //   (i32.const 1) (i32.const 0))
    ShortBody {
        name: "memory.fill with zeros, and of nothing at the end",
        before: I32,
        body: &[b"\0\x41\0\x41\0\x41\x08\xFC\x0B\0\x41\x80\x80\x04\x41\x01\x41\0\xFC\x0B\0\x0B"],
        after: I32,
        data: &[b"\x0B\x08\x02\x01\0\x01\x03\xAB\xCD\xEF"],
        line: "wizer: 9 ticks, 1 pages, 0 segments, 109 bytes\n",
    },
    // (memory.copy (i32.const 2) (i32.const 0) (i32.const 8))
    ShortBody {
        name: "memory.copy upwards over itself",
        before: I32,
        body: &[b"\0\x41\x02\x41\0\x41\x08\xFC\x0A\0\0\x0B"],
        after: I32,
        data: &[
            b"\x0B\x15\x02\0\x41\0\x0B\x0A\x81\x82\x81\x82\x83\x84\x85\x86\x87\x88",
            PASSIVE,
        ],
        line: "wizer: 5 ticks, 1 pages, 1 segments, 112 bytes\n",
    },
    // (memory.copy (i32.const 0) (i32.const 2) (i32.const 6))
    ShortBody {
        name: "memory.copy downwards over itself",
        before: I32,
        body: &[b"\0\x41\0\x41\x02\x41\x06\xFC\x0A\0\0\x0B"],
        after: I32,
        data: &[
            b"\x0B\x13\x02\0\x41\0\x0B\x08\x83\x84\x85\x86\x87\x88\x87\x88\x01\x03\xAB\xCD\xEF",
        ],
        line: "wizer: 5 ticks, 1 pages, 1 segments, 110 bytes\n",
    },
    // (memory.init 1 (i32.const 16) (i32.const 1) (i32.const 2))
    ShortBody {
        name: "memory.init",
        before: I32,
        body: &[b"\0\x41\x10\x41\x01\x41\x02\xFC\x08\x01\0\x0B"],
        after: I32,
        data: &[
            b"\x0B\x1D\x02\0\x41\0\x0B\x12\x81\x82\x83\x84\x85\x86\x87\x88\0\0\0\0\0\0\0\0",
            b"\xCD\xEF\x01\x03\xAB\xCD\xEF",
        ],
        line: "wizer: 5 ticks, 1 pages, 1 segments, 120 bytes\n",
    },
    // (data.drop 1) (data.drop 1) (memory.init 1 (i32.const 65536) (i32.const 0) (i32.const 0))
    ShortBody {
        name: "memory.init of nothing, dropped before",
        before: I32,
        body: &[b"\0\xFC\x09\x01\xFC\x09\x01\x41\x80\x80\x04\x41\0\x41\0\xFC\x08\x01\0\x0B"],
        after: I32,
        data: &[b"\x0B\x10\x02\0\x41\0\x0B\x08\x81\x82\x83\x84\x85\x86\x87\x88\x01\0"],
        line: "wizer: 7 ticks, 1 pages, 1 segments, 115 bytes\n",
    },
];
