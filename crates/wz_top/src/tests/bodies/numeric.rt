//! Numeric instructions: each result stands in the memory.

use super::{F64, I32, I64, PASSIVE, ShortBody};

pub(super) static I32_OPERATIONS: [ShortBody; 2] = [
    ShortBody {
        name: "i32 operations, -7 and 3",
        before: I32,
        body: &[
            b"\0",
            b"\x41\0\x41\x79\x41\x03\x6A\x36\x02\x10", // add
            b"\x41\0\x41\x79\x41\x03\x6B\x36\x02\x14", // sub
            b"\x41\0\x41\x79\x41\x03\x6C\x36\x02\x18", // mul
            b"\x41\0\x41\x79\x41\x03\x6D\x36\x02\x1C", // div_s
            b"\x41\0\x41\x79\x41\x03\x6E\x36\x02\x20", // div_u
            b"\x41\0\x41\x79\x41\x03\x6F\x36\x02\x24", // rem_s
            b"\x41\0\x41\x79\x41\x03\x70\x36\x02\x28", // rem_u
            b"\x41\0\x41\x79\x41\x03\x71\x36\x02\x2C", // and
            b"\x41\0\x41\x79\x41\x03\x72\x36\x02\x30", // or
            b"\x41\0\x41\x79\x41\x03\x73\x36\x02\x34", // xor
            b"\x41\0\x41\x79\x41\x03\x74\x36\x02\x38", // shl
            b"\x41\0\x41\x79\x41\x03\x75\x36\x02\x3C", // shr_s
            b"\x41\0\x41\x79\x41\x03\x76\x36\x02\x40", // shr_u
            b"\x41\0\x41\x79\x41\x03\x77\x36\x02\x44", // rotl
            b"\x41\0\x41\x79\x41\x03\x78\x36\x02\x48", // rotr
            b"\x0B",
        ],
        after: I32,
        data: &[
            b"\x0B\x57\x02\0\x41\0\x0B\x4C\x81\x82\x83\x84\x85\x86\x87\x88\0\0\0\0\0\0\0\0",
            b"\xFC\xFF\xFF\xFF", // add
            b"\xF6\xFF\xFF\xFF", // sub
            b"\xEB\xFF\xFF\xFF", // mul
            b"\xFE\xFF\xFF\xFF", // div_s
            b"\x53\x55\x55\x55", // div_u
            b"\xFF\xFF\xFF\xFF", // rem_s
            b"\0\0\0\0", // rem_u
            b"\x01\0\0\0", // and
            b"\xFB\xFF\xFF\xFF", // or
            b"\xFA\xFF\xFF\xFF", // xor
            b"\xC8\xFF\xFF\xFF", // shl
            b"\xFF\xFF\xFF\xFF", // shr_s
            b"\xFF\xFF\xFF\x1F", // shr_u
            b"\xCF\xFF\xFF\xFF", // rotl
            b"\xFF\xFF\xFF\x3F", // rotr
            PASSIVE,
        ],
        line: "wizer: 76 ticks, 1 pages, 1 segments, 320 bytes\n",
    },
    ShortBody {
        name: "i32 operations of one operand",
        before: I32,
        body: &[
            b"\0",
            b"\x41\0\x41\x80\x81\xC3\x07\x67\x36\x02\x10", // clz
            b"\x41\0\x41\x80\x81\xC3\x07\x68\x36\x02\x14", // ctz
            b"\x41\0\x41\x80\x81\xC3\x07\x69\x36\x02\x18", // popcnt
            b"\x41\0\x41\x80\x81\xC3\x07\xC0\x36\x02\x1C", // extend8_s
            b"\x41\0\x41\x80\x81\xC3\x07\xC1\x36\x02\x20", // extend16_s
            b"\x41\0\x41\0\x45\x36\x02\x24", // eqz
            b"\x41\0\x42\x86\x80\x80\x80\x70\xA7\x36\x02\x28", // wrap_i64
            b"\x0B",
        ],
        after: I32,
        data: &[
            b"\x0B\x34\x02\0\x41\0\x0B\x29\x81\x82\x83\x84\x85\x86\x87\x88\0\0\0\0\0\0\0\0",
            b"\x08\0\0\0", // clz
            b"\x07\0\0\0", // ctz
            b"\x07\0\0\0", // popcnt
            b"\x80\xFF\xFF\xFF", // extend8_s
            b"\x80\xC0\xFF\xFF", // extend16_s
            b"\x01\0\0\0", // eqz
            b"\x06", // wrap_i64
            PASSIVE,
        ],
        line: "wizer: 29 ticks, 1 pages, 1 segments, 208 bytes\n",
    },
];

pub(super) static I32_COMPARISONS: [ShortBody; 2] = [
    ShortBody {
        name: "i32 comparisons, -7 and 3",
        before: I32,
        body: &[
            b"\0",
            b"\x41\0\x41\x01\x41\x79\x41\x03\x46\x6A\x3A\0\x10", // eq
            b"\x41\0\x41\x01\x41\x79\x41\x03\x47\x6A\x3A\0\x11", // ne
            b"\x41\0\x41\x01\x41\x79\x41\x03\x48\x6A\x3A\0\x12", // lt_s
            b"\x41\0\x41\x01\x41\x79\x41\x03\x49\x6A\x3A\0\x13", // lt_u
            b"\x41\0\x41\x01\x41\x79\x41\x03\x4A\x6A\x3A\0\x14", // gt_s
            b"\x41\0\x41\x01\x41\x79\x41\x03\x4B\x6A\x3A\0\x15", // gt_u
            b"\x41\0\x41\x01\x41\x79\x41\x03\x4C\x6A\x3A\0\x16", // le_s
            b"\x41\0\x41\x01\x41\x79\x41\x03\x4D\x6A\x3A\0\x17", // le_u
            b"\x41\0\x41\x01\x41\x79\x41\x03\x4E\x6A\x3A\0\x18", // ge_s
            b"\x41\0\x41\x01\x41\x79\x41\x03\x4F\x6A\x3A\0\x19", // ge_u
            b"\x0B",
        ],
        after: I32,
        data: &[
            b"\x0B\x25\x02\0\x41\0\x0B\x1A\x81\x82\x83\x84\x85\x86\x87\x88\0\0\0\0\0\0\0\0",
            b"\x01", // eq
            b"\x02", // ne
            b"\x02", // lt_s
            b"\x01", // lt_u
            b"\x01", // gt_s
            b"\x02", // gt_u
            b"\x02", // le_s
            b"\x01", // le_u
            b"\x01", // ge_s
            b"\x02", // ge_u
            PASSIVE,
        ],
        line: "wizer: 71 ticks, 1 pages, 1 segments, 250 bytes\n",
    },
    ShortBody {
        name: "i32 comparisons, 3 and 3",
        before: I32,
        body: &[
            b"\0",
            b"\x41\0\x41\x01\x41\x03\x41\x03\x46\x6A\x3A\0\x10", // eq
            b"\x41\0\x41\x01\x41\x03\x41\x03\x47\x6A\x3A\0\x11", // ne
            b"\x41\0\x41\x01\x41\x03\x41\x03\x48\x6A\x3A\0\x12", // lt_s
            b"\x41\0\x41\x01\x41\x03\x41\x03\x49\x6A\x3A\0\x13", // lt_u
            b"\x41\0\x41\x01\x41\x03\x41\x03\x4A\x6A\x3A\0\x14", // gt_s
            b"\x41\0\x41\x01\x41\x03\x41\x03\x4B\x6A\x3A\0\x15", // gt_u
            b"\x41\0\x41\x01\x41\x03\x41\x03\x4C\x6A\x3A\0\x16", // le_s
            b"\x41\0\x41\x01\x41\x03\x41\x03\x4D\x6A\x3A\0\x17", // le_u
            b"\x41\0\x41\x01\x41\x03\x41\x03\x4E\x6A\x3A\0\x18", // ge_s
            b"\x41\0\x41\x01\x41\x03\x41\x03\x4F\x6A\x3A\0\x19", // ge_u
            b"\x0B",
        ],
        after: I32,
        data: &[
            b"\x0B\x25\x02\0\x41\0\x0B\x1A\x81\x82\x83\x84\x85\x86\x87\x88\0\0\0\0\0\0\0\0",
            b"\x02", // eq
            b"\x01", // ne
            b"\x01", // lt_s
            b"\x01", // lt_u
            b"\x01", // gt_s
            b"\x01", // gt_u
            b"\x02", // le_s
            b"\x02", // le_u
            b"\x02", // ge_s
            b"\x02", // ge_u
            PASSIVE,
        ],
        line: "wizer: 71 ticks, 1 pages, 1 segments, 250 bytes\n",
    },
];

pub(super) static I64_OPERATIONS: [ShortBody; 2] = [
    ShortBody {
        name: "i64 operations, -7 and 3",
        before: I64,
        body: &[
            b"\0",
            b"\x41\0\x42\x79\x42\x03\x7C\x37\x03\x10", // add
            b"\x41\0\x42\x79\x42\x03\x7D\x37\x03\x18", // sub
            b"\x41\0\x42\x79\x42\x03\x7E\x37\x03\x20", // mul
            b"\x41\0\x42\x79\x42\x03\x7F\x37\x03\x28", // div_s
            b"\x41\0\x42\x79\x42\x03\x80\x37\x03\x30", // div_u
            b"\x41\0\x42\x79\x42\x03\x81\x37\x03\x38", // rem_s
            b"\x41\0\x42\x79\x42\x03\x82\x37\x03\x40", // rem_u
            b"\x41\0\x42\x79\x42\x03\x83\x37\x03\x48", // and
            b"\x41\0\x42\x79\x42\x03\x84\x37\x03\x50", // or
            b"\x41\0\x42\x79\x42\x03\x85\x37\x03\x58", // xor
            b"\x41\0\x42\x79\x42\x03\x86\x37\x03\x60", // shl
            b"\x41\0\x42\x79\x42\x03\x87\x37\x03\x68", // shr_s
            b"\x41\0\x42\x79\x42\x03\x88\x37\x03\x70", // shr_u
            b"\x41\0\x42\x79\x42\x03\x89\x37\x03\x78", // rotl
            b"\x41\0\x42\x79\x42\x03\x8A\x37\x03\x80\x01", // rotr
            b"\x0B",
        ],
        after: I64,
        data: &[
            b"\x0B\x94\x01\x02\0\x41\0\x0B\x88\x01\x81\x82\x83\x84\x85\x86\x87\x88\0\0\0\0\0\0\0\0",
            b"\xFC\xFF\xFF\xFF\xFF\xFF\xFF\xFF", // add
            b"\xF6\xFF\xFF\xFF\xFF\xFF\xFF\xFF", // sub
            b"\xEB\xFF\xFF\xFF\xFF\xFF\xFF\xFF", // mul
            b"\xFE\xFF\xFF\xFF\xFF\xFF\xFF\xFF", // div_s
            b"\x53\x55\x55\x55\x55\x55\x55\x55", // div_u
            b"\xFF\xFF\xFF\xFF\xFF\xFF\xFF\xFF", // rem_s
            b"\0\0\0\0\0\0\0\0", // rem_u
            b"\x01\0\0\0\0\0\0\0", // and
            b"\xFB\xFF\xFF\xFF\xFF\xFF\xFF\xFF", // or
            b"\xFA\xFF\xFF\xFF\xFF\xFF\xFF\xFF", // xor
            b"\xC8\xFF\xFF\xFF\xFF\xFF\xFF\xFF", // shl
            b"\xFF\xFF\xFF\xFF\xFF\xFF\xFF\xFF", // shr_s
            b"\xFF\xFF\xFF\xFF\xFF\xFF\xFF\x1F", // shr_u
            b"\xCF\xFF\xFF\xFF\xFF\xFF\xFF\xFF", // rotl
            b"\xFF\xFF\xFF\xFF\xFF\xFF\xFF\x3F", // rotr
            PASSIVE,
        ],
        line: "wizer: 76 ticks, 1 pages, 1 segments, 383 bytes\n",
    },
    ShortBody {
        name: "i64 operations of one operand",
        before: I64,
        body: &[
            b"\0",
            b"\x41\0\x42\x80\xA1\x82\x85\x8C\x9C\x3C\x79\x37\x03\x10", // clz
            b"\x41\0\x42\x80\xA1\x82\x85\x8C\x9C\x3C\x7A\x37\x03\x18", // ctz
            b"\x41\0\x42\x80\xA1\x82\x85\x8C\x9C\x3C\x7B\x37\x03\x20", // popcnt
            b"\x41\0\x42\x80\xA1\x82\x85\x8C\x9C\x3C\xC2\x37\x03\x28", // extend8_s
            b"\x41\0\x42\x80\xA1\x82\x85\x8C\x9C\x3C\xC3\x37\x03\x30", // extend16_s
            b"\x41\0\x42\x80\xA1\x82\x85\x8C\x9C\x3C\xC4\x37\x03\x38", // extend32_s
            b"\x41\0\x42\0\x50\x36\x02\x40", // eqz
            b"\x41\0\x41\x7E\xAC\x37\x03\x44", // extend_i32_s
            b"\x41\0\x41\x7E\xAD\x37\x03\x4C", // extend_i32_u
            b"\x0B",
        ],
        after: I64,
        data: &[
            b"\x0B\x5B\x02\0\x41\0\x0B\x50\x81\x82\x83\x84\x85\x86\x87\x88\0\0\0\0\0\0\0\0",
            b"\x10\0\0\0\0\0\0\0", // clz
            b"\x07\0\0\0\0\0\0\0", // ctz
            b"\x0E\0\0\0\0\0\0\0", // popcnt
            b"\x80\xFF\xFF\xFF\xFF\xFF\xFF\xFF", // extend8_s
            b"\x80\x90\xFF\xFF\xFF\xFF\xFF\xFF", // extend16_s
            b"\x80\x90\xA0\xC0\xFF\xFF\xFF\xFF", // extend32_s
            b"\x01\0\0\0", // eqz
            b"\xFE\xFF\xFF\xFF\xFF\xFF\xFF\xFF", // extend_i32_s
            b"\xFE\xFF\xFF\xFF", // extend_i32_u
            PASSIVE,
        ],
        line: "wizer: 37 ticks, 1 pages, 1 segments, 280 bytes\n",
    },
];

pub(super) static I64_COMPARISONS: [ShortBody; 2] = [
    ShortBody {
        name: "i64 comparisons, -7 and 3",
        before: I64,
        body: &[
            b"\0",
            b"\x41\0\x41\x01\x42\x79\x42\x03\x51\x6A\x3A\0\x10", // eq
            b"\x41\0\x41\x01\x42\x79\x42\x03\x52\x6A\x3A\0\x11", // ne
            b"\x41\0\x41\x01\x42\x79\x42\x03\x53\x6A\x3A\0\x12", // lt_s
            b"\x41\0\x41\x01\x42\x79\x42\x03\x54\x6A\x3A\0\x13", // lt_u
            b"\x41\0\x41\x01\x42\x79\x42\x03\x55\x6A\x3A\0\x14", // gt_s
            b"\x41\0\x41\x01\x42\x79\x42\x03\x56\x6A\x3A\0\x15", // gt_u
            b"\x41\0\x41\x01\x42\x79\x42\x03\x57\x6A\x3A\0\x16", // le_s
            b"\x41\0\x41\x01\x42\x79\x42\x03\x58\x6A\x3A\0\x17", // le_u
            b"\x41\0\x41\x01\x42\x79\x42\x03\x59\x6A\x3A\0\x18", // ge_s
            b"\x41\0\x41\x01\x42\x79\x42\x03\x5A\x6A\x3A\0\x19", // ge_u
            b"\x0B",
        ],
        after: I64,
        data: &[
            b"\x0B\x25\x02\0\x41\0\x0B\x1A\x81\x82\x83\x84\x85\x86\x87\x88\0\0\0\0\0\0\0\0",
            b"\x01", // eq
            b"\x02", // ne
            b"\x02", // lt_s
            b"\x01", // lt_u
            b"\x01", // gt_s
            b"\x02", // gt_u
            b"\x02", // le_s
            b"\x01", // le_u
            b"\x01", // ge_s
            b"\x02", // ge_u
            PASSIVE,
        ],
        line: "wizer: 71 ticks, 1 pages, 1 segments, 250 bytes\n",
    },
    ShortBody {
        name: "i64 comparisons, 3 and 3",
        before: I64,
        body: &[
            b"\0",
            b"\x41\0\x41\x01\x42\x03\x42\x03\x51\x6A\x3A\0\x10", // eq
            b"\x41\0\x41\x01\x42\x03\x42\x03\x52\x6A\x3A\0\x11", // ne
            b"\x41\0\x41\x01\x42\x03\x42\x03\x53\x6A\x3A\0\x12", // lt_s
            b"\x41\0\x41\x01\x42\x03\x42\x03\x54\x6A\x3A\0\x13", // lt_u
            b"\x41\0\x41\x01\x42\x03\x42\x03\x55\x6A\x3A\0\x14", // gt_s
            b"\x41\0\x41\x01\x42\x03\x42\x03\x56\x6A\x3A\0\x15", // gt_u
            b"\x41\0\x41\x01\x42\x03\x42\x03\x57\x6A\x3A\0\x16", // le_s
            b"\x41\0\x41\x01\x42\x03\x42\x03\x58\x6A\x3A\0\x17", // le_u
            b"\x41\0\x41\x01\x42\x03\x42\x03\x59\x6A\x3A\0\x18", // ge_s
            b"\x41\0\x41\x01\x42\x03\x42\x03\x5A\x6A\x3A\0\x19", // ge_u
            b"\x0B",
        ],
        after: I64,
        data: &[
            b"\x0B\x25\x02\0\x41\0\x0B\x1A\x81\x82\x83\x84\x85\x86\x87\x88\0\0\0\0\0\0\0\0",
            b"\x02", // eq
            b"\x01", // ne
            b"\x01", // lt_s
            b"\x01", // lt_u
            b"\x01", // gt_s
            b"\x01", // gt_u
            b"\x02", // le_s
            b"\x02", // le_u
            b"\x02", // ge_s
            b"\x02", // ge_u
            PASSIVE,
        ],
        line: "wizer: 71 ticks, 1 pages, 1 segments, 250 bytes\n",
    },
];

pub(super) static FLOATS: [ShortBody; 1] = [ShortBody {
    name: "float operations on bits",
    before: F64,
    body: &[
        b"\0",
        b"\x41\0\x43\x01\0\xA0\xFF\x8B\x38\x02\x10", // f32.abs
        b"\x41\0\x43\x01\0\xA0\xFF\x8C\x38\x02\x14", // f32.neg
        b"\x41\0\x43\x01\0\xA0\xFF\x43\0\0\x80\x3F\x98\x38\x02\x18", // f32.copysign
        b"\x41\0\x43\x01\0\xA0\xFF\xBC\x36\x02\x1C", // i32.reinterpret_f32
        b"\x41\0\x41\x7E\xBE\x38\x02\x20", // f32.reinterpret_i32
        b"\x41\0\x44\x01\0\0\0\0\0\xF4\xFF\x99\x39\x03\x24", // f64.abs
        b"\x41\0\x44\x01\0\0\0\0\0\xF4\xFF\x9A\x39\x03\x2C", // f64.neg
        // f64.copysign
        b"\x41\0\x44\0\0\0\0\0\0\xF0\x3F\x44\x01\0\0\0\0\0\xF4\xFF\xA6\x39\x03\x34",
        b"\x41\0\x44\x01\0\0\0\0\0\xF4\xFF\xBD\x37\x03\x3C", // i64.reinterpret_f64
        b"\x41\0\x42\x7E\xBF\x39\x03\x44", // f64.reinterpret_i64
        b"\x0B",
    ],
    after: F64,
    data: &[
        b"\x0B\x57\x02\0\x41\0\x0B\x4C\x81\x82\x83\x84\x85\x86\x87\x88\0\0\0\0\0\0\0\0",
        b"\x01\0\xA0\x7F", // f32.abs
        b"\x01\0\xA0\x7F", // f32.neg
        b"\x01\0\xA0\x7F", // f32.copysign
        b"\x01\0\xA0\xFF", // i32.reinterpret_f32
        b"\xFE\xFF\xFF\xFF", // f32.reinterpret_i32
        b"\x01\0\0\0\0\0\xF4\x7F", // f64.abs
        b"\x01\0\0\0\0\0\xF4\x7F", // f64.neg
        b"\0\0\0\0\0\0\xF0\xBF", // f64.copysign
        b"\x01\0\0\0\0\0\xF4\xFF", // i64.reinterpret_f64
        b"\xFE\xFF\xFF\xFF\xFF\xFF\xFF\xFF", // f64.reinterpret_i64
        PASSIVE,
    ],
    line: "wizer: 43 ticks, 1 pages, 1 segments, 311 bytes\n",
}];
