//! Sessions: what is done with an instance, and what is seen of it.

use super::moves::{Access, Move, Seen};
use wz_code::NumOp;
use wz_machine::{EnterFault, FloatReply, Growth, HostTarget};
use wz_types::{RefKind, Reference, TrapKind, Value};

/// What is done with an instance, move by move, and what is seen of each.
#[derive(Clone, Copy)]
pub struct Session {
    pub name: &'static str,
    pub moves: &'static [(Move, Seen)],
}

pub static COPYING: [Session; 2] = [
    Session {
        name: "calls, a host that never returns, and accesses from outside",
        moves: &[
            (Move::Call(2, None), Seen::Went),
            (Move::Ticks(1), Seen::HostCall(HostTarget::Import(0), None)),
            (Move::Memory(Access::Write(10, 7)), Seen::Went),
            // while the first one waits for the host
            (Move::Call(2, None), Seen::Went),
            (Move::Ticks(1), Seen::HostCall(HostTarget::Import(0), None)),
            (Move::Abort, Seen::Trapped(TrapKind::Host)),
            (Move::Return(None), Seen::Went),
            (Move::Ticks(1), Seen::Went),
            (
                Move::Ticks(1),
                Seen::GrowAsked(Growth::Memory { index: 0, by: 1 }),
            ),
            (Move::Grow(false), Seen::Went),
            (Move::Ticks(6), Seen::Done(None)),
            (Move::Memory(Access::Read(0, 2)), Seen::Bytes(0xCDAB)),
            (Move::Memory(Access::Read(10, 1)), Seen::Bytes(7)),
            (Move::Ticks(1), Seen::Idle),
        ],
    },
    Session {
        name: "what doesn't fit",
        moves: &[
            (
                Move::Call(9, None),
                Seen::NotEntered(EnterFault::NoFunction),
            ),
            (
                Move::Call(2, Some(Value::I32(1))),
                Seen::NotEntered(EnterFault::Unfit),
            ),
            (Move::Float(FloatReply::Trap), Seen::Refused),
            (Move::Grow(false), Seen::Refused),
            (Move::Return(None), Seen::Refused),
            (Move::Abort, Seen::Refused),
            (Move::Ticks(1), Seen::Idle),
            (Move::Memory(Access::Read(65534, 2)), Seen::Bytes(0)),
            (Move::Memory(Access::Read(65535, 2)), Seen::Refused),
            (Move::Memory(Access::Write(65536, 1)), Seen::Refused),
        ],
    },
];

pub static ASKING: [Session; 6] = [
    Session {
        name: "growth that is granted, and growth past the maximum",
        moves: &[
            (Move::Call(3, Some(Value::I32(1))), Seen::Went),
            (
                Move::Ticks(2),
                Seen::GrowAsked(Growth::Memory { index: 0, by: 1 }),
            ),
            (
                Move::Ticks(1),
                Seen::GrowAsked(Growth::Memory { index: 0, by: 1 }),
            ),
            (Move::Grow(true), Seen::Went),
            (Move::Ticks(1), Seen::Done(Some(Value::I32(2)))),
            (Move::Call(3, Some(Value::I32(1))), Seen::Went),
            (Move::Ticks(3), Seen::Done(Some(Value::I32(u32::MAX)))),
        ],
    },
    Session {
        name: "growth that is not within the maximum any more",
        moves: &[
            (Move::Call(3, Some(Value::I32(1))), Seen::Went),
            (
                Move::Ticks(2),
                Seen::GrowAsked(Growth::Memory { index: 0, by: 1 }),
            ),
            (Move::Memory(Access::Enlarge(1)), Seen::Held(2)),
            (Move::Grow(true), Seen::Refused),
            (Move::Grow(false), Seen::Went),
            (Move::Ticks(1), Seen::Done(Some(Value::I32(u32::MAX)))),
        ],
    },
    Session {
        name: "float operations: a result, and a trap",
        moves: &[
            (
                Move::Call(4, Some(Value::F64(0x3FF8_0000_0000_0000))),
                Seen::Went,
            ),
            (
                Move::Ticks(3),
                Seen::FloatAsked(NumOp::F64Add, Some(Value::F64(0x3FF8_0000_0000_0000))),
            ),
            (Move::Float(FloatReply::Gives(Value::I32(3))), Seen::Refused),
            (Move::Grow(true), Seen::Refused),
            (
                Move::Float(FloatReply::Gives(Value::F64(0x4008_0000_0000_0000))),
                Seen::Went,
            ),
            (
                Move::Ticks(1),
                Seen::Done(Some(Value::F64(0x4008_0000_0000_0000))),
            ),
            (
                Move::Call(4, Some(Value::F64(0x3FF8_0000_0000_0000))),
                Seen::Went,
            ),
            (
                Move::Ticks(3),
                Seen::FloatAsked(NumOp::F64Add, Some(Value::F64(0x3FF8_0000_0000_0000))),
            ),
            (
                Move::Float(FloatReply::Trap),
                Seen::Trapped(TrapKind::Float),
            ),
            (Move::Ticks(1), Seen::Idle),
        ],
    },
    Session {
        name: "a call while one waits for the host",
        moves: &[
            (Move::Call(2, Some(Value::I32(7))), Seen::Went),
            (
                Move::Ticks(2),
                Seen::HostCall(HostTarget::Import(0), Some(Value::I32(7))),
            ),
            (Move::Call(3, Some(Value::I32(0))), Seen::Went),
            (
                Move::Call(2, Some(Value::I32(8))),
                Seen::NotEntered(EnterFault::NotNow),
            ),
            (
                Move::Ticks(2),
                Seen::GrowAsked(Growth::Memory { index: 0, by: 0 }),
            ),
            (Move::Return(Some(Value::I32(1))), Seen::Refused),
            (Move::Grow(true), Seen::Went),
            (Move::Ticks(1), Seen::Done(Some(Value::I32(2)))),
            (Move::Memory(Access::Read(0, 1)), Seen::Bytes(5)),
            (Move::Memory(Access::Write(0, 9)), Seen::Went),
            (Move::Return(Some(Value::F64(0))), Seen::Refused),
            (Move::Return(Some(Value::I32(40))), Seen::Went),
            (Move::Ticks(4), Seen::Done(Some(Value::I32(49)))),
        ],
    },
    Session {
        name: "an import that is called from outside, twice, and aborted once",
        moves: &[
            (Move::Call(0, Some(Value::I32(5))), Seen::Went),
            (
                Move::Ticks(1),
                Seen::HostCall(HostTarget::Import(0), Some(Value::I32(5))),
            ),
            (Move::Call(0, Some(Value::I32(6))), Seen::Went),
            (
                Move::Ticks(1),
                Seen::HostCall(HostTarget::Import(0), Some(Value::I32(6))),
            ),
            (Move::Abort, Seen::Trapped(TrapKind::Host)),
            (
                Move::Ticks(1),
                Seen::HostCall(HostTarget::Import(0), Some(Value::I32(5))),
            ),
            (Move::Return(Some(Value::I32(8))), Seen::Went),
            (Move::Ticks(1), Seen::Done(Some(Value::I32(8)))),
            (Move::Abort, Seen::Refused),
        ],
    },
    Session {
        name: "a segment that was dropped",
        moves: &[
            (Move::Call(5, None), Seen::Went),
            (Move::Ticks(4), Seen::Trapped(TrapKind::MemoryBounds)),
            (Move::Ticks(1), Seen::Idle),
        ],
    },
];

pub static TABLES: [Session; 2] = [
    Session {
        name: "table instructions",
        moves: &[
            (Move::Call(1, Some(Value::I32(0))), Seen::Went),
            (Move::Ticks(4), Seen::Done(None)),
            (Move::Call(6, Some(Value::I32(0))), Seen::Went),
            (
                Move::Ticks(3),
                Seen::Done(Some(Value::Ref(Reference::Fn(0)))),
            ),
            (Move::Call(2, Some(Value::I32(2))), Seen::Went),
            (Move::Ticks(5), Seen::Done(None)),
            (Move::Call(6, Some(Value::I32(3))), Seen::Went),
            (
                Move::Ticks(3),
                Seen::Done(Some(Value::Ref(Reference::Fn(1)))),
            ),
            (Move::Call(3, Some(Value::I32(1))), Seen::Went),
            (Move::Ticks(5), Seen::Done(None)),
            (Move::Call(6, Some(Value::I32(1))), Seen::Went),
            (
                Move::Ticks(3),
                Seen::Done(Some(Value::Ref(Reference::Fn(0)))),
            ),
            (Move::Call(4, Some(Value::I32(2))), Seen::Went),
            (Move::Ticks(5), Seen::Done(None)),
            (Move::Call(6, Some(Value::I32(3))), Seen::Went),
            (
                Move::Ticks(3),
                Seen::Done(Some(Value::Ref(Reference::Fn(3)))),
            ),
            (Move::Call(5, Some(Value::I32(1))), Seen::Went),
            (
                Move::Ticks(3),
                Seen::GrowAsked(Growth::Table { index: 0, by: 1 }),
            ),
            (Move::Grow(true), Seen::Went),
            (Move::Ticks(1), Seen::Done(Some(Value::I32(4)))),
            (Move::Call(6, Some(Value::I32(4))), Seen::Went),
            (
                Move::Ticks(3),
                Seen::Done(Some(Value::Ref(Reference::Null(RefKind::Func)))),
            ),
            (Move::Call(5, Some(Value::I32(1))), Seen::Went),
            (Move::Ticks(4), Seen::Done(Some(Value::I32(u32::MAX)))),
        ],
    },
    Session {
        name: "table instructions past the end",
        moves: &[
            (Move::Call(1, Some(Value::I32(4))), Seen::Went),
            (Move::Ticks(3), Seen::Trapped(TrapKind::TableBounds)),
            (Move::Call(2, Some(Value::I32(3))), Seen::Went),
            (Move::Ticks(4), Seen::Trapped(TrapKind::TableBounds)),
            (Move::Call(3, Some(Value::I32(3))), Seen::Went),
            (Move::Ticks(4), Seen::Trapped(TrapKind::TableBounds)),
            (Move::Call(4, Some(Value::I32(3))), Seen::Went),
            (Move::Ticks(4), Seen::Trapped(TrapKind::TableBounds)),
            (Move::Call(6, Some(Value::I32(4))), Seen::Went),
            (Move::Ticks(2), Seen::Trapped(TrapKind::TableBounds)),
        ],
    },
];
