//! The loads and stores of memories (Core Specification 2.0, sections 2.4.7 and 5.4.6), by one
//! table.

ghost use Rattle.std.specs.Prelude.{◌≡◌, ◌≢◌, IfSome, IsNone};
ghost use Rattle.wz_code.specs.declared.accesses.MemOp.{MemOp};
ghost use Rattle.wz_code.specs.Accesses.{shape_of, access_opcode_of, access_at};

use wz_types::ValType;

/// A load or a store.
#[derive(Clone, Copy, PartialEq, Eq)]
pub enum MemOp {
    I32Load,
    I64Load,
    F32Load,
    F64Load,
    I32Load8S,
    I32Load8U,
    I32Load16S,
    I32Load16U,
    I64Load8S,
    I64Load8U,
    I64Load16S,
    I64Load16U,
    I64Load32S,
    I64Load32U,
    I32Store,
    I64Store,
    F32Store,
    F64Store,
    I32Store8,
    I32Store16,
    I64Store8,
    I64Store16,
    I64Store32,
}

/// What an access reads or writes: the type of the value on the stack, and how many bytes of
/// memory. A load of fewer bytes than the value has extends them with their sign where it is
/// `signed`.
#[derive(Clone, Copy)]
pub struct AccessShape {
    pub value: ValType,
    pub bytes: u32,
    pub signed: bool,
    pub store: bool,
}

// The table: the access, its opcode, the value's type, the bytes in memory, whether they are signed
// and whether it is a store.
macro_rules! accesses {
    ($expand:ident $arguments:tt) => {
        $expand! {
            $arguments
            I32Load: 0x28 I32 4 false false;
            I64Load: 0x29 I64 8 false false;
            F32Load: 0x2A F32 4 false false;
            F64Load: 0x2B F64 8 false false;
            I32Load8S: 0x2C I32 1 true false;
            I32Load8U: 0x2D I32 1 false false;
            I32Load16S: 0x2E I32 2 true false;
            I32Load16U: 0x2F I32 2 false false;
            I64Load8S: 0x30 I64 1 true false;
            I64Load8U: 0x31 I64 1 false false;
            I64Load16S: 0x32 I64 2 true false;
            I64Load16U: 0x33 I64 2 false false;
            I64Load32S: 0x34 I64 4 true false;
            I64Load32U: 0x35 I64 4 false false;
            I32Store: 0x36 I32 4 false true;
            I64Store: 0x37 I64 8 false true;
            F32Store: 0x38 F32 4 false true;
            F64Store: 0x39 F64 8 false true;
            I32Store8: 0x3A I32 1 false true;
            I32Store16: 0x3B I32 2 false true;
            I64Store8: 0x3C I64 1 false true;
            I64Store16: 0x3D I64 2 false true;
            I64Store32: 0x3E I64 4 false true;
        }
    };
}

macro_rules! shape_rows {
    (($op:expr)
        $($name:ident: $byte:literal
            $value:ident $bytes:literal $signed:literal $store:literal;)*) => {
        match $op {
            $(MemOp::$name => AccessShape {
                value: ValType::$value,
                bytes: $bytes,
                signed: $signed,
                store: $store,
            },)*
        }
    };
}

macro_rules! access_rows {
    (($opcode:expr)
        $($name:ident: $byte:literal
            $value:ident $bytes:literal $signed:literal $store:literal;)*) => {
        match $opcode {
            $($byte => Some(MemOp::$name),)*
            _ => None,
        }
    };
}

/// What the access reads or writes (Core Specification 2.0, section 4.4.7).
pub fn access(op: MemOp) -> AccessShape
    ensures { result ≡ shape_of op }
{
    accesses!(shape_rows(op))
}

/// The row of the table that has this opcode.
fn find_row(byte: u8) -> Option<MemOp>
    ensures found { IfSome result (λ op. access_opcode_of op ≡ byte) }
    ensures none { IsNone result → (op : MemOp) → access_opcode_of op ≢ byte }
{
    accesses!(access_rows(byte))
}

/// The access that has this opcode.
pub fn access_from_opcode(byte: u8) -> Option<MemOp>
    ensures found { IfSome result (λ op. access_opcode_of op ≡ byte) }
    ensures none { IsNone result → (op : MemOp) → access_opcode_of op ≢ byte }
    ensures value { result ≡ access_at byte }
{
    find_row(byte)
}
