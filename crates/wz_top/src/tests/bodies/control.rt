//! Control, references, locals, globals, tables and constants.

use super::{DATA, F32, F64, FUNCREF, I32, I64, ShortBody};

pub(super) static CASES: [ShortBody; 33] = [
    // (nop) (global.set 0 (i32.const 1))
    ShortBody {
        name: "nop",
        before: I32,
        body: &[b"\0\x01\x41\x01\x24\0\x0B"],
        after: b"\x7F\x01\x41\x01\x0B",
        data: &[DATA],
        line: "wizer: 4 ticks, 1 pages, 1 segments, 105 bytes\n",
    },
    // (global.set 0 (block (result i32) (i32.const 3)))
    ShortBody {
        name: "the value of a block",
        before: I32,
        body: &[b"\0\x02\x7F\x41\x03\x0B\x24\0\x0B"],
        after: b"\x7F\x01\x41\x03\x0B",
        data: &[DATA],
        line: "wizer: 5 ticks, 1 pages, 1 segments, 107 bytes\n",
    },
    // (i32.const 20) (block (type $n) (i32.const 1) (i32.add)) (global.set 0)
    ShortBody {
        name: "a block with a parameter",
        before: I32,
        body: &[b"\0\x41\x14\x02\x01\x41\x01\x6A\x0B\x24\0\x0B"],
        after: b"\x7F\x01\x41\x15\x0B",
        data: &[DATA],
        line: "wizer: 7 ticks, 1 pages, 1 segments, 110 bytes\n",
    },
    // (block (block (br 1)) (unreachable)) (global.set 0 (i32.const 4))
    ShortBody {
        name: "a branch past two blocks",
        before: I32,
        body: &[b"\0\x02\x40\x02\x40\x0C\x01\x0B\0\x0B\x41\x04\x24\0\x0B"],
        after: b"\x7F\x01\x41\x04\x0B",
        data: &[DATA],
        line: "wizer: 6 ticks, 1 pages, 1 segments, 113 bytes\n",
    },
    // (global.set 0 (block (result i32) (i32.const 7) (i32.const 8) (br 0)))
    ShortBody {
        name: "a branch that keeps one value",
        before: I32,
        body: &[b"\0\x02\x7F\x41\x07\x41\x08\x0C\0\x0B\x24\0\x0B"],
        after: b"\x7F\x01\x41\x08\x0B",
        data: &[DATA],
        line: "wizer: 6 ticks, 1 pages, 1 segments, 111 bytes\n",
    },
    // (loop (local.set 0 (i32.add (local.get 0) (i32.const 1))) (br_if 0 (i32.lt_u (local.get 0)
    //   (i32.const 5)))) (global.set 0 (local.get 0))
    ShortBody {
        name: "a loop of five rounds",
        before: I32,
        body: &[
            b"\x01\x01\x7F\x03\x40\x20\0\x41\x01\x6A\x21\0",
            b"\x20\0\x41\x05\x49\x0D\0\x0B\x20\0\x24\0\x0B",
        ],
        after: b"\x7F\x01\x41\x05\x0B",
        data: &[DATA],
        line: "wizer: 45 ticks, 1 pages, 1 segments, 123 bytes\n",
    },
    // (i32.const 1) (loop (type $n) (i32.const 1) (i32.add) (local.tee 0) (br_if 0 (i32.lt_u
    //   (local.get 0) (i32.const 4)))) (global.set 0)
    ShortBody {
        name: "a loop with a parameter",
        before: I32,
        body: &[
            b"\x01\x01\x7F\x41\x01\x03\x01\x41\x01\x6A\x22\0\x20\0\x41\x04\x49\x0D\0\x0B\x24\0\x0B",
        ],
        after: b"\x7F\x01\x41\x04\x0B",
        data: &[DATA],
        line: "wizer: 26 ticks, 1 pages, 1 segments, 121 bytes\n",
    },
    // (if (i32.const -1) (then (global.set 0 (i32.const 2))) (else (global.set 0 (i32.const 3))))
    ShortBody {
        name: "the first arm",
        before: I32,
        body: &[b"\0\x41\x7F\x04\x40\x41\x02\x24\0\x05\x41\x03\x24\0\x0B\x0B"],
        after: b"\x7F\x01\x41\x02\x0B",
        data: &[DATA],
        line: "wizer: 6 ticks, 1 pages, 1 segments, 114 bytes\n",
    },
    // (if (i32.const 0) (then (global.set 0 (i32.const 2))) (else (global.set 0 (i32.const 3))))
    ShortBody {
        name: "the second arm",
        before: I32,
        body: &[b"\0\x41\0\x04\x40\x41\x02\x24\0\x05\x41\x03\x24\0\x0B\x0B"],
        after: b"\x7F\x01\x41\x03\x0B",
        data: &[DATA],
        line: "wizer: 6 ticks, 1 pages, 1 segments, 114 bytes\n",
    },
    // (global.set 0 (i32.const 1)) (if (i32.const 0) (then (global.set 0 (i32.const 2))))
    ShortBody {
        name: "no second arm",
        before: I32,
        body: &[b"\0\x41\x01\x24\0\x41\0\x04\x40\x41\x02\x24\0\x0B\x0B"],
        after: b"\x7F\x01\x41\x01\x0B",
        data: &[DATA],
        line: "wizer: 6 ticks, 1 pages, 1 segments, 113 bytes\n",
    },
    // (global.set 0 (block (result i32) (i32.const 5) (br_if 0 (i32.const 1)) (drop) (i32.const
    //   6)))
    ShortBody {
        name: "br_if, taken",
        before: I32,
        body: &[b"\0\x02\x7F\x41\x05\x41\x01\x0D\0\x1A\x41\x06\x0B\x24\0\x0B"],
        after: b"\x7F\x01\x41\x05\x0B",
        data: &[DATA],
        line: "wizer: 6 ticks, 1 pages, 1 segments, 114 bytes\n",
    },
    // (global.set 0 (block (result i32) (i32.const 5) (br_if 0 (i32.const 0)) (drop) (i32.const
    //   6)))
    ShortBody {
        name: "br_if, not taken",
        before: I32,
        body: &[b"\0\x02\x7F\x41\x05\x41\0\x0D\0\x1A\x41\x06\x0B\x24\0\x0B"],
        after: b"\x7F\x01\x41\x06\x0B",
        data: &[DATA],
        line: "wizer: 9 ticks, 1 pages, 1 segments, 114 bytes\n",
    },
    // (block (block (br_table 0 1 (i32.const 0))) (global.set 0 (i32.const 10)) (return))
    //   (global.set 0 (i32.const 20))
    ShortBody {
        name: "br_table, the first label",
        before: I32,
        body: &[
            b"\0\x02\x40\x02\x40\x41\0\x0E\x01\0\x01\x0B\x41\x0A\x24\0\x0F\x0B\x41\x14\x24\0\x0B",
        ],
        after: b"\x7F\x01\x41\x0A\x0B",
        data: &[DATA],
        line: "wizer: 7 ticks, 1 pages, 1 segments, 121 bytes\n",
    },
    // (block (block (br_table 0 1 (i32.const 1))) (global.set 0 (i32.const 10)) (return))
    //   (global.set 0 (i32.const 20))
    ShortBody {
        name: "br_table, the last label",
        before: I32,
        body: &[
            b"\0\x02\x40\x02\x40\x41\x01\x0E\x01\0\x01\x0B\x41\x0A\x24\0\x0F\x0B\x41\x14\x24\0\x0B",
        ],
        after: b"\x7F\x01\x41\x14\x0B",
        data: &[DATA],
        line: "wizer: 7 ticks, 1 pages, 1 segments, 121 bytes\n",
    },
    // (block (block (br_table 0 1 (i32.const -1))) (global.set 0 (i32.const 10)) (return))
    //   (global.set 0 (i32.const 20))
    ShortBody {
        name: "br_table, the last label for any other number",
        before: I32,
        body: &[
            b"\0\x02\x40\x02\x40\x41\x7F\x0E\x01\0\x01\x0B\x41\x0A\x24\0\x0F\x0B\x41\x14\x24\0\x0B",
        ],
        after: b"\x7F\x01\x41\x14\x0B",
        data: &[DATA],
        line: "wizer: 7 ticks, 1 pages, 1 segments, 121 bytes\n",
    },
    // (global.set 0 (i32.const 9)) (block (return)) (unreachable)
    ShortBody {
        name: "return from a block",
        before: I32,
        body: &[b"\0\x41\x09\x24\0\x02\x40\x0F\x0B\0\x0B"],
        after: b"\x7F\x01\x41\x09\x0B",
        data: &[DATA],
        line: "wizer: 4 ticks, 1 pages, 1 segments, 109 bytes\n",
    },
    // (global.set 0 (call $next (i32.const 41)))
    ShortBody {
        name: "call",
        before: I32,
        body: &[b"\0\x41\x29\x10\x01\x24\0\x0B"],
        after: b"\x7F\x01\x41\x2A\x0B",
        data: &[DATA],
        line: "wizer: 8 ticks, 1 pages, 1 segments, 106 bytes\n",
    },
    // (global.set 0 (call_indirect (type $n) (i32.const 41) (i32.const 0)))
    ShortBody {
        name: "call_indirect",
        before: I32,
        body: &[b"\0\x41\x29\x41\0\x11\x01\0\x24\0\x0B"],
        after: b"\x7F\x01\x41\x2A\x0B",
        data: &[DATA],
        line: "wizer: 9 ticks, 1 pages, 1 segments, 109 bytes\n",
    },
    // (global.set 0 (ref.is_null (ref.null extern)))
    ShortBody {
        name: "ref.null",
        before: I32,
        body: &[b"\0\xD0\x6F\xD1\x24\0\x0B"],
        after: b"\x7F\x01\x41\x01\x0B",
        data: &[DATA],
        line: "wizer: 4 ticks, 1 pages, 1 segments, 105 bytes\n",
    },
    // (global.set 0 (i32.eqz (ref.is_null (ref.func $next))))
    ShortBody {
        name: "ref.is_null of a function",
        before: I32,
        body: &[b"\0\xD2\x01\xD1\x45\x24\0\x0B"],
        after: b"\x7F\x01\x41\x01\x0B",
        data: &[DATA],
        line: "wizer: 5 ticks, 1 pages, 1 segments, 106 bytes\n",
    },
    // (global.set 0 (ref.func $next))
    ShortBody {
        name: "ref.func",
        before: FUNCREF,
        body: &[b"\0\xD2\x01\x24\0\x0B"],
        after: b"\x70\x01\xD2\x01\x0B",
        data: &[DATA],
        line: "wizer: 3 ticks, 1 pages, 1 segments, 104 bytes\n",
    },
    // (i32.const 1) (i32.const 2) (drop) (global.set 0)
    ShortBody {
        name: "drop",
        before: I32,
        body: &[b"\0\x41\x01\x41\x02\x1A\x24\0\x0B"],
        after: b"\x7F\x01\x41\x01\x0B",
        data: &[DATA],
        line: "wizer: 5 ticks, 1 pages, 1 segments, 107 bytes\n",
    },
    // (global.set 0 (select (i32.const 3) (i32.const 4) (i32.const 2)))
    ShortBody {
        name: "select, the first",
        before: I32,
        body: &[b"\0\x41\x03\x41\x04\x41\x02\x1B\x24\0\x0B"],
        after: b"\x7F\x01\x41\x03\x0B",
        data: &[DATA],
        line: "wizer: 6 ticks, 1 pages, 1 segments, 109 bytes\n",
    },
    // (global.set 0 (select (i32.const 3) (i32.const 4) (i32.const 0)))
    ShortBody {
        name: "select, the second",
        before: I32,
        body: &[b"\0\x41\x03\x41\x04\x41\0\x1B\x24\0\x0B"],
        after: b"\x7F\x01\x41\x04\x0B",
        data: &[DATA],
        line: "wizer: 6 ticks, 1 pages, 1 segments, 109 bytes\n",
    },
    // (global.set 0 (select (result funcref) (ref.null func) (ref.func $stop) (i32.const 0)))
    ShortBody {
        name: "select with a type",
        before: FUNCREF,
        body: &[b"\0\xD0\x70\xD2\x02\x41\0\x1C\x01\x70\x24\0\x0B"],
        after: b"\x70\x01\xD2\x02\x0B",
        data: &[DATA],
        line: "wizer: 6 ticks, 1 pages, 1 segments, 111 bytes\n",
    },
    // (global.set 0 (i32.add (local.get 0) (ref.is_null (local.get 1))))
    ShortBody {
        name: "locals at the start",
        before: I32,
        body: &[b"\x02\x01\x7F\x01\x70\x20\0\x20\x01\xD1\x6A\x24\0\x0B"],
        after: b"\x7F\x01\x41\x01\x0B",
        data: &[DATA],
        line: "wizer: 6 ticks, 1 pages, 1 segments, 112 bytes\n",
    },
    // (global.set 0 (i64.add (local.tee 0 (i64.const 5)) (local.get 0)))
    ShortBody {
        name: "local.tee",
        before: I64,
        body: &[b"\x01\x01\x7E\x42\x05\x22\0\x20\0\x7C\x24\0\x0B"],
        after: b"\x7E\x01\x42\x0A\x0B",
        data: &[DATA],
        line: "wizer: 6 ticks, 1 pages, 1 segments, 111 bytes\n",
    },
    // (local.set 1 (f32.const nan:0x200000)) (global.set 0 (local.get 1))
    ShortBody {
        name: "local.set",
        before: F32,
        body: &[b"\x01\x02\x7D\x43\0\0\xA0\x7F\x21\x01\x20\x01\x24\0\x0B"],
        after: b"\x7D\x01\x43\0\0\xA0\x7F\x0B",
        data: &[DATA],
        line: "wizer: 5 ticks, 1 pages, 1 segments, 116 bytes\n",
    },
    // (global.set 0 (i32.add (global.get 0) (i32.const 2)))
    ShortBody {
        name: "global.get",
        before: I32,
        body: &[b"\0\x23\0\x41\x02\x6A\x24\0\x0B"],
        after: b"\x7F\x01\x41\x02\x0B",
        data: &[DATA],
        line: "wizer: 5 ticks, 1 pages, 1 segments, 107 bytes\n",
    },
    // (global.set 0 (table.get 0 (i32.const 1)))
    ShortBody {
        name: "table.get",
        before: FUNCREF,
        body: &[b"\0\x41\x01\x25\0\x24\0\x0B"],
        after: b"\x70\x01\xD2\x02\x0B",
        data: &[DATA],
        line: "wizer: 4 ticks, 1 pages, 1 segments, 106 bytes\n",
    },
    // (global.set 0 (table.size 0))
    ShortBody {
        name: "table.size",
        before: I32,
        body: &[b"\0\xFC\x10\0\x24\0\x0B"],
        after: b"\x7F\x01\x41\x03\x0B",
        data: &[DATA],
        line: "wizer: 3 ticks, 1 pages, 1 segments, 105 bytes\n",
    },
    // (global.set 0 (memory.size))
    ShortBody {
        name: "memory.size",
        before: I32,
        body: &[b"\0\x3F\0\x24\0\x0B"],
        after: b"\x7F\x01\x41\x01\x0B",
        data: &[DATA],
        line: "wizer: 3 ticks, 1 pages, 1 segments, 104 bytes\n",
    },
    // (global.set 0 (f64.const -nan:0x4000000000001))
    ShortBody {
        name: "f64.const",
        before: F64,
        body: &[b"\0\x44\x01\0\0\0\0\0\xF4\xFF\x24\0\x0B"],
        after: b"\x7C\x01\x44\x01\0\0\0\0\0\xF4\xFF\x0B",
        data: &[DATA],
        line: "wizer: 3 ticks, 1 pages, 1 segments, 118 bytes\n",
    },
];
