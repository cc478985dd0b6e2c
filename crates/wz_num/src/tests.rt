//! Published examples, and tables of results that were worked out apart from this program, by whole
//! numbers and strings of bits.

use crate::answer::NumAnswer;
use crate::patterns::two_i32;
use crate::shapes::{OperandShape, operand_shape};
use crate::values::eval;
use wz_code::{NumOp, from_opcode, signature};
use wz_types::{RefKind, Reference, TrapKind, ValType, Value};

/// A pattern as a value of the type, by its low bits where it has 32; none is a reference.
fn value_of(kind: ValType, pattern: u64) -> Value {
    let low = (pattern % 0x1_0000_0000) as u32;
    match kind {
        ValType::I32 => Value::I32(low),
        ValType::I64 => Value::I64(pattern),
        ValType::F32 => Value::F32(low),
        ValType::F64 => Value::F64(pattern),
        ValType::FuncRef => Value::Ref(Reference::Null(RefKind::Func)),
        ValType::ExternRef => Value::Ref(Reference::Null(RefKind::Extern)),
    }
}

/// What a letter of the tables stands for, by the least signed pattern and the number of bits.
fn result_of(letter: u8, kind: ValType, least: u64, bits: u64) -> NumAnswer {
    let half = least / 2;
    let pattern = match letter {
        b'0' => 0,
        b'1' => 1,
        b'2' => 2,
        b'n' => bits,
        b'h' => bits.wrapping_sub(1),
        // the greatest pattern, and the one before
        b'm' => least.wrapping_add(least).wrapping_sub(1),
        b'k' => least.wrapping_add(least).wrapping_sub(2),
        // the least signed one, and those after it
        b'l' => least,
        b'a' => least.wrapping_add(1),
        b'b' => least.wrapping_add(2),
        // the greatest signed one, and the one before
        b'g' => least.wrapping_sub(1),
        b'f' => least.wrapping_sub(2),
        // a half of the least one and the number before, without and with the top bit
        b'q' => half,
        b'p' => half.wrapping_sub(1),
        b'Q' => half.wrapping_add(least),
        b'P' => half.wrapping_add(least).wrapping_sub(1),
        b'z' => return NumAnswer::Trap(TrapKind::DivideByZero),
        b'o' => return NumAnswer::Trap(TrapKind::IntegerOverflow),
        _ => return NumAnswer::Stuck,
    };
    NumAnswer::Gives(value_of(kind, pattern))
}

const LEAST_32: u64 = 0x8000_0000;

const LEAST_64: u64 = 0x8000_0000_0000_0000;

/// 0, 1, the greatest pattern, the least and the greatest signed one.
fn samples(least: u64) -> [u64; 5] {
    [
        0,
        1,
        least.wrapping_add(least).wrapping_sub(1),
        least,
        least.wrapping_sub(1),
    ]
}

// A row has a group for each first operand, in the order of `samples`, and in it a letter for each
// second one. It is the same at both widths.
const TWO_INTEGERS: [(NumOp, NumOp, [&[u8; 5]; 5]); 25] = [
    (
        NumOp::I32Eq,
        NumOp::I64Eq,
        [b"10000", b"01000", b"00100", b"00010", b"00001"],
    ),
    (
        NumOp::I32Ne,
        NumOp::I64Ne,
        [b"01111", b"10111", b"11011", b"11101", b"11110"],
    ),
    (
        NumOp::I32LtS,
        NumOp::I64LtS,
        [b"01001", b"00001", b"11001", b"11101", b"00000"],
    ),
    (
        NumOp::I32LtU,
        NumOp::I64LtU,
        [b"01111", b"00111", b"00000", b"00100", b"00110"],
    ),
    (
        NumOp::I32GtS,
        NumOp::I64GtS,
        [b"00110", b"10110", b"00010", b"00000", b"11110"],
    ),
    (
        NumOp::I32GtU,
        NumOp::I64GtU,
        [b"00000", b"10000", b"11011", b"11001", b"11000"],
    ),
    (
        NumOp::I32LeS,
        NumOp::I64LeS,
        [b"11001", b"01001", b"11101", b"11111", b"00001"],
    ),
    (
        NumOp::I32LeU,
        NumOp::I64LeU,
        [b"11111", b"01111", b"00100", b"00110", b"00111"],
    ),
    (
        NumOp::I32GeS,
        NumOp::I64GeS,
        [b"10110", b"11110", b"00110", b"00010", b"11111"],
    ),
    (
        NumOp::I32GeU,
        NumOp::I64GeU,
        [b"10000", b"11000", b"11111", b"11011", b"11001"],
    ),
    (
        NumOp::I32Add,
        NumOp::I64Add,
        [b"01mlg", b"120al", b"m0kgf", b"lag0m", b"glfmk"],
    ),
    (
        NumOp::I32Sub,
        NumOp::I64Sub,
        [b"0m1la", b"102ab", b"mk0gl", b"lga01", b"gflm0"],
    ),
    (
        NumOp::I32Mul,
        NumOp::I64Mul,
        [b"00000", b"01mlg", b"0m1la", b"0ll0l", b"0gal1"],
    ),
    (
        NumOp::I32DivS,
        NumOp::I64DivS,
        [b"z0000", b"z1m00", b"zm100", b"zlo1m", b"zga01"],
    ),
    (
        NumOp::I32DivU,
        NumOp::I64DivU,
        [b"z0000", b"z1000", b"zm112", b"zl011", b"zg001"],
    ),
    (
        NumOp::I32RemS,
        NumOp::I64RemS,
        [b"z0000", b"z0011", b"z00mm", b"z000m", b"z00g0"],
    ),
    (
        NumOp::I32RemU,
        NumOp::I64RemU,
        [b"z0000", b"z0111", b"z00g1", b"z0l01", b"z0gg0"],
    ),
    (
        NumOp::I32And,
        NumOp::I64And,
        [b"00000", b"01101", b"01mlg", b"00ll0", b"01g0g"],
    ),
    (
        NumOp::I32Or,
        NumOp::I64Or,
        [b"01mlg", b"11mag", b"mmmmm", b"lamlm", b"ggmmg"],
    ),
    (
        NumOp::I32Xor,
        NumOp::I64Xor,
        [b"01mlg", b"10kaf", b"mk0gl", b"lag0m", b"gflm0"],
    ),
    (
        NumOp::I32Shl,
        NumOp::I64Shl,
        [b"00000", b"12l1l", b"mklml", b"l00l0", b"gklgl"],
    ),
    (
        NumOp::I32ShrS,
        NumOp::I64ShrS,
        [b"00000", b"10010", b"mmmmm", b"lQmlm", b"gp0g0"],
    ),
    (
        NumOp::I32ShrU,
        NumOp::I64ShrU,
        [b"00000", b"10010", b"mg1m1", b"lq1l1", b"gp0g0"],
    ),
    (
        NumOp::I32Rotl,
        NumOp::I64Rotl,
        [b"00000", b"12l1l", b"mmmmm", b"l1qlq", b"gkPgP"],
    ),
    (
        NumOp::I32Rotr,
        NumOp::I64Rotr,
        [b"00000", b"1l212", b"mmmmm", b"lq1l1", b"gPkgk"],
    ),
];

// A row has a letter for each operand.
const ONE_INTEGER: [(NumOp, NumOp, &[u8; 5]); 6] = [
    (NumOp::I32Eqz, NumOp::I64Eqz, b"10000"),
    (NumOp::I32Clz, NumOp::I64Clz, b"nh001"),
    (NumOp::I32Ctz, NumOp::I64Ctz, b"n00h0"),
    (NumOp::I32Popcnt, NumOp::I64Popcnt, b"01n1h"),
    (NumOp::I32Extend8S, NumOp::I64Extend8S, b"01m0m"),
    (NumOp::I32Extend16S, NumOp::I64Extend16S, b"01m0m"),
];

/// Whether the row's results are those of the operation, on integers of the width.
fn two_as_listed(op: NumOp, groups: &[&[u8; 5]; 5], least: u64, bits: u64) -> bool {
    let types = signature(op);
    for (a, letters) in samples(least).iter().zip(groups) {
        for (b, letter) in samples(least).iter().zip(letters.iter()) {
            let operands = [value_of(types.first, *a), value_of(types.first, *b)];
            if eval(op, &operands) != result_of(*letter, types.result, least, bits) {
                return false;
            }
        }
    }
    true
}

fn one_as_listed(op: NumOp, letters: &[u8; 5], least: u64, bits: u64) -> bool {
    let types = signature(op);
    for (a, letter) in samples(least).iter().zip(letters) {
        let operand = value_of(types.first, *a);
        if eval(op, &[operand]) != result_of(*letter, types.result, least, bits) {
            return false;
        }
    }
    true
}

#[test]
fn integers_at_the_ends_of_their_widths(rt: HostRuntime) {
    for (row, (narrow, wide, groups)) in TWO_INTEGERS.iter().enumerate() {
        assert!(rt;
            two_as_listed(*narrow, groups, LEAST_32, 32),
            "row {row} at 32 bits"
        );
        assert!(rt;
            two_as_listed(*wide, groups, LEAST_64, 64),
            "row {row} at 64 bits"
        );
    }
    for (row, (narrow, wide, letters)) in ONE_INTEGER.iter().enumerate() {
        assert!(rt;
            one_as_listed(*narrow, letters, LEAST_32, 32),
            "row {row} at 32 bits"
        );
        assert!(rt;
            one_as_listed(*wide, letters, LEAST_64, 64),
            "row {row} at 64 bits"
        );
    }
    assert!(rt; one_as_listed(NumOp::I64Extend32S, b"01m0m", LEAST_64, 64));
}

#[test]
fn published_examples(rt: HostRuntime) {
    let two = [
        (
            NumOp::I32DivS,
            Value::I32(7),
            Value::I32(0xFFFF_FFFE),
            Value::I32(0xFFFF_FFFD),
        ),
        (
            NumOp::I32RemS,
            Value::I32(0x8000_0000),
            Value::I32(0xFFFF_FFFF),
            Value::I32(0),
        ),
        (NumOp::I64Rotl, Value::I64(1), Value::I64(65), Value::I64(2)),
        (
            NumOp::I64Shl,
            Value::I64(1),
            Value::I64(0x1_0000_0001),
            Value::I64(2),
        ),
        (
            NumOp::F32Copysign,
            Value::F32(0x7FC0_0001),
            Value::F32(0x8000_0000),
            Value::F32(0xFFC0_0001),
        ),
    ];
    for (row, (op, a, b, result)) in two.iter().enumerate() {
        assert!(rt;
            eval(*op, &[*a, *b]) == NumAnswer::Gives(*result),
            "row {row}"
        );
    }
    let one = [
        (
            NumOp::I32WrapI64,
            Value::I64(0xF_8000_0001),
            Value::I32(0x8000_0001),
        ),
        (
            NumOp::I64ExtendI32S,
            Value::I32(0x8000_0001),
            Value::I64(0xFFFF_FFFF_8000_0001),
        ),
        (
            NumOp::I64ExtendI32U,
            Value::I32(0x8000_0001),
            Value::I64(0x8000_0001),
        ),
        (
            NumOp::I32Extend8S,
            Value::I32(0x1280),
            Value::I32(0xFFFF_FF80),
        ),
        (
            NumOp::I32Extend16S,
            Value::I32(0x1_8000),
            Value::I32(0xFFFF_8000),
        ),
        (
            NumOp::I64Extend32S,
            Value::I64(0x1_8000_0000),
            Value::I64(0xFFFF_FFFF_8000_0000),
        ),
    ];
    for (row, (op, a, result)) in one.iter().enumerate() {
        assert!(rt; eval(*op, &[*a]) == NumAnswer::Gives(*result), "row {row}");
    }
}

#[test]
fn operands_of_other_types_are_stuck(rt: HostRuntime) {
    let number = Value::I32(1);
    let null = Value::Ref(Reference::Null(RefKind::Func));
    assert!(rt; eval(NumOp::I32Add, &[]) == NumAnswer::Stuck);
    assert!(rt; eval(NumOp::I32Add, &[number]) == NumAnswer::Stuck);
    assert!(rt; eval(NumOp::I32Add, &[number, number, number]) == NumAnswer::Stuck);
    assert!(rt; eval(NumOp::I32Add, &[number, Value::I64(1)]) == NumAnswer::Stuck);
    assert!(rt; eval(NumOp::I32Add, &[Value::F32(1), Value::F32(1)]) == NumAnswer::Stuck);
    assert!(rt; eval(NumOp::F32Add, &[number, number]) == NumAnswer::Stuck);
    assert!(rt; eval(NumOp::I32Clz, &[null]) == NumAnswer::Stuck);
    assert!(rt; eval(NumOp::I32Clz, &[number, number]) == NumAnswer::Stuck);
}

// Bits of NaNs, quiet and signalling, of both signs.
const NAN_32: u32 = 0x7FA0_0001;

const NAN_64: u64 = 0x7FF4_0000_0000_0001;

#[test]
fn bits_of_a_nan_are_kept(rt: HostRuntime) {
    let minus_32 = Value::F32(0xFFA0_0001);
    let minus_64 = Value::F64(0xFFF4_0000_0000_0001);
    let one = [
        (NumOp::F32Abs, minus_32, Value::F32(NAN_32)),
        (NumOp::F32Abs, Value::F32(NAN_32), Value::F32(NAN_32)),
        (NumOp::F32Neg, minus_32, Value::F32(NAN_32)),
        (NumOp::F32Neg, Value::F32(NAN_32), minus_32),
        (NumOp::F64Abs, minus_64, Value::F64(NAN_64)),
        (NumOp::F64Neg, minus_64, Value::F64(NAN_64)),
        (NumOp::F64Neg, Value::F64(NAN_64), minus_64),
        (
            NumOp::I32ReinterpretF32,
            Value::F32(NAN_32),
            Value::I32(NAN_32),
        ),
        (
            NumOp::F32ReinterpretI32,
            Value::I32(NAN_32),
            Value::F32(NAN_32),
        ),
        (
            NumOp::I64ReinterpretF64,
            Value::F64(NAN_64),
            Value::I64(NAN_64),
        ),
        (
            NumOp::F64ReinterpretI64,
            Value::I64(NAN_64),
            Value::F64(NAN_64),
        ),
    ];
    for (row, (op, a, result)) in one.iter().enumerate() {
        assert!(rt; eval(*op, &[*a]) == NumAnswer::Gives(*result), "row {row}");
    }
    let copied = eval(NumOp::F64Copysign, &[Value::F64(NAN_64), minus_64]);
    assert!(rt; copied == NumAnswer::Gives(minus_64));
}

/// Whether an operation of this opcode asks: those on floats that do more than move bits.
fn is_question(byte: u8, second: Option<u32>) -> bool {
    second.is_some()
        || matches!(byte, 0x5B..=0x66 | 0x8D..=0x97 | 0x9B..=0xA5 | 0xA8..=0xAB | 0xAE..=0xBB)
}

/// The answer to the operation of an opcode on NaNs, or on integers of the same bits.
fn answer_at(byte: u8, second: Option<u32>) -> NumAnswer {
    let Some(op) = from_opcode(byte, second) else {
        return NumAnswer::Stuck;
    };
    let operand = value_of(signature(op).first, NAN_64);
    match signature(op).second {
        Some(_) => eval(op, &[operand, operand]),
        None => eval(op, &[operand]),
    }
}

#[test]
fn operations_on_floats_ask(rt: HostRuntime) {
    for byte in 0x45..=0xC4 {
        let answer = answer_at(byte, None);
        assert!(rt;
            (answer == NumAnswer::Ask) == is_question(byte, None),
            "opcode {byte}"
        );
        assert!(rt; answer != NumAnswer::Stuck, "opcode {byte}");
    }
    for number in 0..8 {
        assert!(rt;
            answer_at(0xFC, Some(number)) == NumAnswer::Ask,
            "opcode 252 {number}"
        );
    }
}

#[test]
fn kinds_of_operands(rt: HostRuntime) {
    assert!(rt; operand_shape(NumOp::I64Eqz) == OperandShape::OneI64);
    assert!(rt; operand_shape(NumOp::F32Copysign) == OperandShape::TwoF32);
    assert!(rt;
        NumAnswer::from(two_i32(NumOp::I32Sub, 1, 2))
            == eval(NumOp::I32Sub, &[Value::I32(1), Value::I32(2)])
    );
}
