//! The numeric instructions (Core Specification 2.0, sections 2.4.1 and 5.4.7), by one table.

ghost use Rattle.std.specs.Prelude.{◌≡◌, ◌≢◌, IfSome, IsNone};
ghost use Rattle.wz_code.specs.declared.numeric.NumOp.{NumOp};
ghost use Rattle.wz_code.specs.Numeric.{opcode_of, types_of, op_at};

use wz_types::ValType;

/// A numeric instruction that has nothing behind its opcode.
#[derive(Clone, Copy, PartialEq, Eq)]
pub enum NumOp {
    I32Eqz,
    I32Eq,
    I32Ne,
    I32LtS,
    I32LtU,
    I32GtS,
    I32GtU,
    I32LeS,
    I32LeU,
    I32GeS,
    I32GeU,
    I64Eqz,
    I64Eq,
    I64Ne,
    I64LtS,
    I64LtU,
    I64GtS,
    I64GtU,
    I64LeS,
    I64LeU,
    I64GeS,
    I64GeU,
    F32Eq,
    F32Ne,
    F32Lt,
    F32Gt,
    F32Le,
    F32Ge,
    F64Eq,
    F64Ne,
    F64Lt,
    F64Gt,
    F64Le,
    F64Ge,
    I32Clz,
    I32Ctz,
    I32Popcnt,
    I32Add,
    I32Sub,
    I32Mul,
    I32DivS,
    I32DivU,
    I32RemS,
    I32RemU,
    I32And,
    I32Or,
    I32Xor,
    I32Shl,
    I32ShrS,
    I32ShrU,
    I32Rotl,
    I32Rotr,
    I64Clz,
    I64Ctz,
    I64Popcnt,
    I64Add,
    I64Sub,
    I64Mul,
    I64DivS,
    I64DivU,
    I64RemS,
    I64RemU,
    I64And,
    I64Or,
    I64Xor,
    I64Shl,
    I64ShrS,
    I64ShrU,
    I64Rotl,
    I64Rotr,
    F32Abs,
    F32Neg,
    F32Ceil,
    F32Floor,
    F32Trunc,
    F32Nearest,
    F32Sqrt,
    F32Add,
    F32Sub,
    F32Mul,
    F32Div,
    F32Min,
    F32Max,
    F32Copysign,
    F64Abs,
    F64Neg,
    F64Ceil,
    F64Floor,
    F64Trunc,
    F64Nearest,
    F64Sqrt,
    F64Add,
    F64Sub,
    F64Mul,
    F64Div,
    F64Min,
    F64Max,
    F64Copysign,
    I32WrapI64,
    I32TruncF32S,
    I32TruncF32U,
    I32TruncF64S,
    I32TruncF64U,
    I64ExtendI32S,
    I64ExtendI32U,
    I64TruncF32S,
    I64TruncF32U,
    I64TruncF64S,
    I64TruncF64U,
    F32ConvertI32S,
    F32ConvertI32U,
    F32ConvertI64S,
    F32ConvertI64U,
    F32DemoteF64,
    F64ConvertI32S,
    F64ConvertI32U,
    F64ConvertI64S,
    F64ConvertI64U,
    F64PromoteF32,
    I32ReinterpretF32,
    I64ReinterpretF64,
    F32ReinterpretI32,
    F64ReinterpretI64,
    I32Extend8S,
    I32Extend16S,
    I64Extend8S,
    I64Extend16S,
    I64Extend32S,
    I32TruncSatF32S,
    I32TruncSatF32U,
    I32TruncSatF64S,
    I32TruncSatF64U,
    I64TruncSatF32S,
    I64TruncSatF32U,
    I64TruncSatF64S,
    I64TruncSatF64U,
}

/// The operands of a numeric instruction, the first one pushed first, and its result.
#[derive(Clone, Copy)]
pub struct OpTypes {
    pub first: ValType,
    pub second: Option<ValType>,
    pub result: ValType,
}

// The table: the operation, its opcode with the number behind it, the types that it takes and the
// type that it gives.
macro_rules! numeric {
    ($expand:ident $arguments:tt) => {
        $expand! {
            $arguments
            I32Eqz: 0x45, I32 -> I32;
            I32Eq: 0x46, I32 I32 -> I32;
            I32Ne: 0x47, I32 I32 -> I32;
            I32LtS: 0x48, I32 I32 -> I32;
            I32LtU: 0x49, I32 I32 -> I32;
            I32GtS: 0x4A, I32 I32 -> I32;
            I32GtU: 0x4B, I32 I32 -> I32;
            I32LeS: 0x4C, I32 I32 -> I32;
            I32LeU: 0x4D, I32 I32 -> I32;
            I32GeS: 0x4E, I32 I32 -> I32;
            I32GeU: 0x4F, I32 I32 -> I32;
            I64Eqz: 0x50, I64 -> I32;
            I64Eq: 0x51, I64 I64 -> I32;
            I64Ne: 0x52, I64 I64 -> I32;
            I64LtS: 0x53, I64 I64 -> I32;
            I64LtU: 0x54, I64 I64 -> I32;
            I64GtS: 0x55, I64 I64 -> I32;
            I64GtU: 0x56, I64 I64 -> I32;
            I64LeS: 0x57, I64 I64 -> I32;
            I64LeU: 0x58, I64 I64 -> I32;
            I64GeS: 0x59, I64 I64 -> I32;
            I64GeU: 0x5A, I64 I64 -> I32;
            F32Eq: 0x5B, F32 F32 -> I32;
            F32Ne: 0x5C, F32 F32 -> I32;
            F32Lt: 0x5D, F32 F32 -> I32;
            F32Gt: 0x5E, F32 F32 -> I32;
            F32Le: 0x5F, F32 F32 -> I32;
            F32Ge: 0x60, F32 F32 -> I32;
            F64Eq: 0x61, F64 F64 -> I32;
            F64Ne: 0x62, F64 F64 -> I32;
            F64Lt: 0x63, F64 F64 -> I32;
            F64Gt: 0x64, F64 F64 -> I32;
            F64Le: 0x65, F64 F64 -> I32;
            F64Ge: 0x66, F64 F64 -> I32;
            I32Clz: 0x67, I32 -> I32;
            I32Ctz: 0x68, I32 -> I32;
            I32Popcnt: 0x69, I32 -> I32;
            I32Add: 0x6A, I32 I32 -> I32;
            I32Sub: 0x6B, I32 I32 -> I32;
            I32Mul: 0x6C, I32 I32 -> I32;
            I32DivS: 0x6D, I32 I32 -> I32;
            I32DivU: 0x6E, I32 I32 -> I32;
            I32RemS: 0x6F, I32 I32 -> I32;
            I32RemU: 0x70, I32 I32 -> I32;
            I32And: 0x71, I32 I32 -> I32;
            I32Or: 0x72, I32 I32 -> I32;
            I32Xor: 0x73, I32 I32 -> I32;
            I32Shl: 0x74, I32 I32 -> I32;
            I32ShrS: 0x75, I32 I32 -> I32;
            I32ShrU: 0x76, I32 I32 -> I32;
            I32Rotl: 0x77, I32 I32 -> I32;
            I32Rotr: 0x78, I32 I32 -> I32;
            I64Clz: 0x79, I64 -> I64;
            I64Ctz: 0x7A, I64 -> I64;
            I64Popcnt: 0x7B, I64 -> I64;
            I64Add: 0x7C, I64 I64 -> I64;
            I64Sub: 0x7D, I64 I64 -> I64;
            I64Mul: 0x7E, I64 I64 -> I64;
            I64DivS: 0x7F, I64 I64 -> I64;
            I64DivU: 0x80, I64 I64 -> I64;
            I64RemS: 0x81, I64 I64 -> I64;
            I64RemU: 0x82, I64 I64 -> I64;
            I64And: 0x83, I64 I64 -> I64;
            I64Or: 0x84, I64 I64 -> I64;
            I64Xor: 0x85, I64 I64 -> I64;
            I64Shl: 0x86, I64 I64 -> I64;
            I64ShrS: 0x87, I64 I64 -> I64;
            I64ShrU: 0x88, I64 I64 -> I64;
            I64Rotl: 0x89, I64 I64 -> I64;
            I64Rotr: 0x8A, I64 I64 -> I64;
            F32Abs: 0x8B, F32 -> F32;
            F32Neg: 0x8C, F32 -> F32;
            F32Ceil: 0x8D, F32 -> F32;
            F32Floor: 0x8E, F32 -> F32;
            F32Trunc: 0x8F, F32 -> F32;
            F32Nearest: 0x90, F32 -> F32;
            F32Sqrt: 0x91, F32 -> F32;
            F32Add: 0x92, F32 F32 -> F32;
            F32Sub: 0x93, F32 F32 -> F32;
            F32Mul: 0x94, F32 F32 -> F32;
            F32Div: 0x95, F32 F32 -> F32;
            F32Min: 0x96, F32 F32 -> F32;
            F32Max: 0x97, F32 F32 -> F32;
            F32Copysign: 0x98, F32 F32 -> F32;
            F64Abs: 0x99, F64 -> F64;
            F64Neg: 0x9A, F64 -> F64;
            F64Ceil: 0x9B, F64 -> F64;
            F64Floor: 0x9C, F64 -> F64;
            F64Trunc: 0x9D, F64 -> F64;
            F64Nearest: 0x9E, F64 -> F64;
            F64Sqrt: 0x9F, F64 -> F64;
            F64Add: 0xA0, F64 F64 -> F64;
            F64Sub: 0xA1, F64 F64 -> F64;
            F64Mul: 0xA2, F64 F64 -> F64;
            F64Div: 0xA3, F64 F64 -> F64;
            F64Min: 0xA4, F64 F64 -> F64;
            F64Max: 0xA5, F64 F64 -> F64;
            F64Copysign: 0xA6, F64 F64 -> F64;
            I32WrapI64: 0xA7, I64 -> I32;
            I32TruncF32S: 0xA8, F32 -> I32;
            I32TruncF32U: 0xA9, F32 -> I32;
            I32TruncF64S: 0xAA, F64 -> I32;
            I32TruncF64U: 0xAB, F64 -> I32;
            I64ExtendI32S: 0xAC, I32 -> I64;
            I64ExtendI32U: 0xAD, I32 -> I64;
            I64TruncF32S: 0xAE, F32 -> I64;
            I64TruncF32U: 0xAF, F32 -> I64;
            I64TruncF64S: 0xB0, F64 -> I64;
            I64TruncF64U: 0xB1, F64 -> I64;
            F32ConvertI32S: 0xB2, I32 -> F32;
            F32ConvertI32U: 0xB3, I32 -> F32;
            F32ConvertI64S: 0xB4, I64 -> F32;
            F32ConvertI64U: 0xB5, I64 -> F32;
            F32DemoteF64: 0xB6, F64 -> F32;
            F64ConvertI32S: 0xB7, I32 -> F64;
            F64ConvertI32U: 0xB8, I32 -> F64;
            F64ConvertI64S: 0xB9, I64 -> F64;
            F64ConvertI64U: 0xBA, I64 -> F64;
            F64PromoteF32: 0xBB, F32 -> F64;
            I32ReinterpretF32: 0xBC, F32 -> I32;
            I64ReinterpretF64: 0xBD, F64 -> I64;
            F32ReinterpretI32: 0xBE, I32 -> F32;
            F64ReinterpretI64: 0xBF, I64 -> F64;
            I32Extend8S: 0xC0, I32 -> I32;
            I32Extend16S: 0xC1, I32 -> I32;
            I64Extend8S: 0xC2, I64 -> I64;
            I64Extend16S: 0xC3, I64 -> I64;
            I64Extend32S: 0xC4, I64 -> I64;
            I32TruncSatF32S: 0xFC 0, F32 -> I32;
            I32TruncSatF32U: 0xFC 1, F32 -> I32;
            I32TruncSatF64S: 0xFC 2, F64 -> I32;
            I32TruncSatF64U: 0xFC 3, F64 -> I32;
            I64TruncSatF32S: 0xFC 4, F32 -> I64;
            I64TruncSatF32U: 0xFC 5, F32 -> I64;
            I64TruncSatF64S: 0xFC 6, F64 -> I64;
            I64TruncSatF64U: 0xFC 7, F64 -> I64;
        }
    };
}

macro_rules! other_type {
    () => {
        None
    };
    ($type:ident) => {
        Some(ValType::$type)
    };
}

macro_rules! number {
    () => {
        None
    };
    ($number:literal) => {
        Some($number)
    };
}

macro_rules! signature_rows {
    (($op:expr)
        $($name:ident: $byte:literal $($number:literal)?,
            $first:ident $($other:ident)? -> $result:ident;)*) => {
        match $op {
            $(NumOp::$name => OpTypes {
                first: ValType::$first,
                second: other_type!($($other)?),
                result: ValType::$result,
            },)*
        }
    };
}

macro_rules! opcode_rows {
    (($op:expr)
        $($name:ident: $byte:literal $($number:literal)?,
            $first:ident $($other:ident)? -> $result:ident;)*) => {
        match $op {
            $(NumOp::$name => ($byte, number!($($number)?)),)*
        }
    };
}

macro_rules! operation_rows {
    (($opcode:expr)
        $($name:ident: $byte:literal $($number:literal)?,
            $first:ident $($other:ident)? -> $result:ident;)*) => {
        match $opcode {
            $(($byte, number!($($number)?)) => Some(NumOp::$name),)*
            _ => None,
        }
    };
}

/// What the operation takes and gives (Core Specification 2.0, section 3.3.1).
pub fn signature(op: NumOp) -> OpTypes
    ensures { result ≡ types_of op }
{
    numeric!(signature_rows(op))
}

/// The operation's opcode, and the number behind it.
pub fn opcode(op: NumOp) -> (u8, Option<u32>)
    ensures { result ≡ opcode_of op }
{
    numeric!(opcode_rows(op))
}

/// The row of the table that has this opcode.
fn find_row(byte: u8, second: Option<u32>) -> Option<NumOp>
    ensures found { IfSome result (λ op. opcode_of op ≡ (byte, second)) }
    ensures none { IsNone result → (op : NumOp) → opcode_of op ≢ (byte, second) }
{
    numeric!(operation_rows((byte, second)))
}

/// The operation that has this opcode, with this number behind it.
pub fn from_opcode(byte: u8, second: Option<u32>) -> Option<NumOp>
    ensures found { IfSome result (λ op. opcode_of op ≡ (byte, second)) }
    ensures none { IsNone result → (op : NumOp) → opcode_of op ≢ (byte, second) }
    ensures value { result ≡ op_at byte second }
{
    find_row(byte, second)
}
