//! Each way to trap.

use super::Trap;

pub(super) static CASES: [Trap; 27] = [
    // (unreachable)
    Trap {
        name: "unreachable",
        body: b"\0\0\x0B",
        fuel: "1",
        less: "0",
        line: "wizer: initialisation trapped: unreachable\n",
    },
    // (drop (i32.div_s (i32.const 1) (i32.const 0)))
    Trap {
        name: "a division of i32 by zero",
        body: b"\0\x41\x01\x41\0\x6D\x1A\x0B",
        fuel: "3",
        less: "2",
        line: "wizer: initialisation trapped: integer divide by zero\n",
    },
    // (drop (i32.div_u (i32.const 1) (i32.const 0)))
    Trap {
        name: "an unsigned division of i32 by zero",
        body: b"\0\x41\x01\x41\0\x6E\x1A\x0B",
        fuel: "3",
        less: "2",
        line: "wizer: initialisation trapped: integer divide by zero\n",
    },
    // (drop (i32.rem_s (i32.const 1) (i32.const 0)))
    Trap {
        name: "a rest of i32 by zero",
        body: b"\0\x41\x01\x41\0\x6F\x1A\x0B",
        fuel: "3",
        less: "2",
        line: "wizer: initialisation trapped: integer divide by zero\n",
    },
    // (drop (i32.rem_u (i32.const 1) (i32.const 0)))
    Trap {
        name: "an unsigned rest of i32 by zero",
        body: b"\0\x41\x01\x41\0\x70\x1A\x0B",
        fuel: "3",
        less: "2",
        line: "wizer: initialisation trapped: integer divide by zero\n",
    },
    // (drop (i64.div_s (i64.const 1) (i64.const 0)))
    Trap {
        name: "a division of i64 by zero",
        body: b"\0\x42\x01\x42\0\x7F\x1A\x0B",
        fuel: "3",
        less: "2",
        line: "wizer: initialisation trapped: integer divide by zero\n",
    },
    // (drop (i64.div_u (i64.const 1) (i64.const 0)))
    Trap {
        name: "an unsigned division of i64 by zero",
        body: b"\0\x42\x01\x42\0\x80\x1A\x0B",
        fuel: "3",
        less: "2",
        line: "wizer: initialisation trapped: integer divide by zero\n",
    },
    // (drop (i64.rem_s (i64.const 1) (i64.const 0)))
    Trap {
        name: "a rest of i64 by zero",
        body: b"\0\x42\x01\x42\0\x81\x1A\x0B",
        fuel: "3",
        less: "2",
        line: "wizer: initialisation trapped: integer divide by zero\n",
    },
    // (drop (i64.rem_u (i64.const 1) (i64.const 0)))
    Trap {
        name: "an unsigned rest of i64 by zero",
        body: b"\0\x42\x01\x42\0\x82\x1A\x0B",
        fuel: "3",
        less: "2",
        line: "wizer: initialisation trapped: integer divide by zero\n",
    },
    // (drop (i32.div_s (i32.const -2147483648) (i32.const -1)))
    Trap {
        name: "the least i32 by -1",
        body: b"\0\x41\x80\x80\x80\x80\x78\x41\x7F\x6D\x1A\x0B",
        fuel: "3",
        less: "2",
        line: "wizer: initialisation trapped: integer overflow\n",
    },
    // (drop (i64.div_s (i64.const -9223372036854775808) (i64.const -1)))
    Trap {
        name: "the least i64 by -1",
        body: b"\0\x42\x80\x80\x80\x80\x80\x80\x80\x80\x80\x7F\x42\x7F\x7F\x1A\x0B",
        fuel: "3",
        less: "2",
        line: "wizer: initialisation trapped: integer overflow\n",
    },
    // (drop (i32.load (i32.const 65533)))
    Trap {
        name: "a load past the end",
        body: b"\0\x41\xFD\xFF\x03\x28\x02\0\x1A\x0B",
        fuel: "2",
        less: "1",
        line: "wizer: initialisation trapped: out of bounds memory access\n",
    },
    // (drop (i32.load8_u offset=0xFFFFFFFF (i32.const 1)))
    Trap {
        name: "a load whose place would wrap",
        body: b"\0\x41\x01\x2D\0\xFF\xFF\xFF\xFF\x0F\x1A\x0B",
        fuel: "2",
        less: "1",
        line: "wizer: initialisation trapped: out of bounds memory access\n",
    },
    // (i64.store32 (i32.const -1) (i64.const 1))
    Trap {
        name: "a store past the end",
        body: b"\0\x41\x7F\x42\x01\x3E\x02\0\x0B",
        fuel: "3",
        less: "2",
        line: "wizer: initialisation trapped: out of bounds memory access\n",
    },
    // (memory.fill (i32.const 65535) (i32.const 1) (i32.const 2))
    Trap {
        name: "memory.fill past the end",
        body: b"\0\x41\xFF\xFF\x03\x41\x01\x41\x02\xFC\x0B\0\x0B",
        fuel: "4",
        less: "3",
        line: "wizer: initialisation trapped: out of bounds memory access\n",
    },
    // (memory.fill (i32.const 65537) (i32.const 1) (i32.const 0))
    Trap {
        name: "memory.fill of nothing past the end",
        body: b"\0\x41\x81\x80\x04\x41\x01\x41\0\xFC\x0B\0\x0B",
        fuel: "4",
        less: "3",
        line: "wizer: initialisation trapped: out of bounds memory access\n",
    },
    // (memory.copy (i32.const 65535) (i32.const 0) (i32.const 2))
    Trap {
        name: "memory.copy to past the end",
        body: b"\0\x41\xFF\xFF\x03\x41\0\x41\x02\xFC\x0A\0\0\x0B",
        fuel: "4",
        less: "3",
        line: "wizer: initialisation trapped: out of bounds memory access\n",
    },
    // (memory.copy (i32.const 0) (i32.const -1) (i32.const 2))
    Trap {
        name: "memory.copy from past the end",
        body: b"\0\x41\0\x41\x7F\x41\x02\xFC\x0A\0\0\x0B",
        fuel: "4",
        less: "3",
        line: "wizer: initialisation trapped: out of bounds memory access\n",
    },
    // (memory.init 1 (i32.const 0) (i32.const 2) (i32.const 2))
    Trap {
        name: "memory.init past the segment",
        body: b"\0\x41\0\x41\x02\x41\x02\xFC\x08\x01\0\x0B",
        fuel: "4",
        less: "3",
        line: "wizer: initialisation trapped: out of bounds memory access\n",
    },
    // (memory.init 0 (i32.const 0) (i32.const 0) (i32.const 1))
    Trap {
        name: "memory.init of an active segment",
        body: b"\0\x41\0\x41\0\x41\x01\xFC\x08\0\0\x0B",
        fuel: "4",
        less: "3",
        line: "wizer: initialisation trapped: out of bounds memory access\n",
    },
    // (data.drop 1) (memory.init 1 (i32.const 0) (i32.const 0) (i32.const 1))
    Trap {
        name: "memory.init behind data.drop",
        body: b"\0\xFC\x09\x01\x41\0\x41\0\x41\x01\xFC\x08\x01\0\x0B",
        fuel: "5",
        less: "4",
        line: "wizer: initialisation trapped: out of bounds memory access\n",
    },
    // (drop (table.get 0 (i32.const 3)))
    Trap {
        name: "table.get past the end",
        body: b"\0\x41\x03\x25\0\x1A\x0B",
        fuel: "2",
        less: "1",
        line: "wizer: initialisation trapped: out of bounds table access\n",
    },
    // (call_indirect (type $v) (i32.const 3))
    Trap {
        name: "call_indirect past the end",
        body: b"\0\x41\x03\x11\0\0\x0B",
        fuel: "2",
        less: "1",
        line: "wizer: initialisation trapped: undefined element\n",
    },
    // (call_indirect (type $v) (i32.const 2))
    Trap {
        name: "call_indirect of null",
        body: b"\0\x41\x02\x11\0\0\x0B",
        fuel: "2",
        less: "1",
        line: "wizer: initialisation trapped: uninitialized element\n",
    },
    // (call_indirect (type $v) (i32.const 0))
    Trap {
        name: "call_indirect of another type",
        body: b"\0\x41\0\x11\0\0\x0B",
        fuel: "2",
        less: "1",
        line: "wizer: initialisation trapped: indirect call type mismatch\n",
    },
    // (call_indirect (type $v) (i32.const 1))
    Trap {
        name: "a trap of a callee",
        body: b"\0\x41\x01\x11\0\0\x0B",
        fuel: "3",
        less: "2",
        line: "wizer: initialisation trapped: unreachable\n",
    },
    // (global.set 0 (i32.const 1)) (block (loop (unreachable)))
    Trap {
        name: "a trap behind a change",
        body: b"\0\x41\x01\x24\0\x02\x40\x03\x40\0\x0B\x0B\x0B",
        fuel: "5",
        less: "4",
        line: "wizer: initialisation trapped: unreachable\n",
    },
];
