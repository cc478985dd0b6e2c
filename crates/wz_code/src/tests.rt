ghost use Rattle.std.specs.Prelude.{◌≡◌, ◌+◌, ◌≤◌, ℕ};

use crate::accesses::{AccessShape, MemOp, access, access_from_opcode};
use crate::body::Body;
use crate::builder::BodyBuilder;
use crate::instr::{Instr, Shape};
use crate::numeric::{NumOp, OpTypes, from_opcode, opcode, signature};
use crate::walk::{Walk, walk_body};
use std::alloc::{AllocError, Global};
use std::test::Fail;
use wz_types::ValType;

#[test]
fn rows_of_the_tables(rt: HostRuntime) {
    let rows = [
        (NumOp::I32Eqz, 0x45, None),
        (NumOp::I32Add, 0x6A, None),
        (NumOp::I64Rotr, 0x8A, None),
        (NumOp::F32ReinterpretI32, 0xBE, None),
        (NumOp::I64Extend32S, 0xC4, None),
        (NumOp::I32TruncSatF32S, 0xFC, Some(0)),
        (NumOp::I64TruncSatF64U, 0xFC, Some(7)),
    ];
    for (op, byte, second) in rows {
        assert!(rt;
            opcode(op) == (byte, second),
            "opcode of row {byte:#x} {second:?}"
        );
        assert!(rt;
            from_opcode(byte, second) == Some(op),
            "row {byte:#x} {second:?} read"
        );
    }
    let missing = [
        (0x44, None),
        (0xC5, None),
        (0xFC, None),
        (0xFC, Some(8)),
        (0x6A, Some(0)),
    ];
    for (byte, second) in missing {
        assert!(rt;
            from_opcode(byte, second) == None,
            "no row {byte:#x} {second:?}"
        );
    }
    let OpTypes {
        first,
        second,
        result,
    } = signature(NumOp::I64Ne);
    assert!(rt; (first, second, result) == (ValType::I64, Some(ValType::I64), ValType::I32));
}

#[test]
fn rows_of_the_accesses(rt: HostRuntime) {
    let rows = [
        (MemOp::I32Load, 0x28, ValType::I32, 4, false, false),
        (MemOp::I64Load32S, 0x34, ValType::I64, 4, true, false),
        (MemOp::I64Load32U, 0x35, ValType::I64, 4, false, false),
        (MemOp::I64Store32, 0x3E, ValType::I64, 4, false, true),
    ];
    for (op, byte, kind, count, extends, writes) in rows {
        let AccessShape {
            value,
            bytes,
            signed,
            store,
        } = access(op);
        let shape = (value, bytes, signed, store);
        assert!(rt;
            shape == (kind, count, extends, writes),
            "shape of row {byte:#x}"
        );
        assert!(rt; access_from_opcode(byte) == Some(op), "row {byte:#x} read");
    }
    assert!(rt; access_from_opcode(0x27) == None);
    assert!(rt; access_from_opcode(0x3F) == None);
}

/// `block (br 0) end`, with an instruction of each pool in front of it.
fn sample(alloc: Global) -> Result<Body, AllocError> {
    let mut builder = BodyBuilder::new(alloc);
    builder.add_locals(2, ValType::I64)?;
    let first = builder.add_label(3)?;
    builder.add_instr(
        0,
        Instr::BrTable {
            first,
            count: 1,
            last: 0,
        },
    )?;
    let first = builder.add_type(ValType::F32)?;
    builder.add_instr(0, Instr::SelectTyped { first, count: 1 })?;
    let body = builder.add_block()?;
    builder.add_instr(body, Instr::Br(0))?;
    builder.add_instr(
        0,
        Instr::Block {
            shape: Shape::Empty,
            body,
        },
    )?;
    Ok(builder.finish())
}

/// Counts instructions up to a limit.
#[derive(Drop)]
struct Counter {
    seen: u32,
    limit: u32,
}

impl Walk for Counter {
    type Fault = ();

    ghost Meaning = { ℕ × ℕ };

    ghost meaning = { λ counter. (counter.seen, counter.limit) };

    ghost after = { λ _ _ meaning. (meaning.0 + 1, meaning.1) };

    ghost refuses = { λ _ _ meaning _. meaning.1 ≤ meaning.0 };

    fn see(&mut self, _body: &Body, _instr: &Instr) -> Result<(), ()> {
        if self.seen >= self.limit {
            return Err(());
        }
        self.seen += 1;
        Ok(())
    }
}

#[test]
fn bodies_are_built_and_walked(rt: HostRuntime) -> Result<(), Fail> {
    let body = sample(rt.alloc())?;
    assert!(rt; body.locals() == [(2, ValType::I64)].as_slice());
    assert!(rt; body.labels() == [3].as_slice());
    assert!(rt; body.types() == [ValType::F32].as_slice());
    assert_eq!(rt; body.block_count(), 2);
    assert_eq!(rt; size_of::<Instr>(), 24);
    assert_eq!(rt; size_of::<Body>(), 32);
    assert!(rt; matches!(body.block(1), Some([Instr::Br(0)])));
    assert!(rt; body.block(2).is_none());
    let mut all = Counter { seen: 0, limit: 9 };
    assert!(rt; walk_body(&body, &mut all).is_ok());
    assert_eq!(rt; all.seen, 4);
    let mut few = Counter { seen: 0, limit: 3 };
    assert!(rt; walk_body(&body, &mut few).is_err());
    assert_eq!(rt; few.seen, 3);
    Ok(())
}
