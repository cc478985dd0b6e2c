//! The payload of a global section whose globals begin with given values (Core Specification 2.0,
//! section 5.5.9).

ghost use Rattle.std.specs.Prelude.{◌≡◌, ◌++◌, [], ◌∷◌, length, take, OnOk, OnErr};
ghost use Rattle.wz_types.specs.declared.value.Value.TheVariants.{Ref};
ghost use Rattle.wz_decode_code.specs.Types.{type_byte, kind_byte};
ghost use Rattle.wz_encode.specs.Constants.{constant_text, constant_expression_text};
ghost use Rattle.wz_encode.specs.Globals.{mutability_byte, global_text, globals_text};

use crate::append::all_or_nothing;
use std::alloc::AllocError;
use wz_bytes::{put_signed, put_unsigned};
use wz_types::{GlobalType, RefKind, Reference, ValType, Value};

const END: u8 = 0x0B;

/// Appends the payload of a global section: globals of these types, each of which begins with its
/// value by one constant instruction. No instruction gives what the host has.
pub fn put_globals(
    out: &mut Vec<u8>,
    kinds: &[GlobalType],
    values: &[Value],
) -> Result<(), AllocError>
    requires { length kinds.now ≡ length values.now }
    ensures ok { OnOk result (out.new.items ≡ out.old.items ++ globals_text kinds.now values.now) }
    ensures err { OnErr result (out.new.items ≡ out.old.items) }
{
    let start = out.len();
    let appended = append_globals(out, kinds, values);
    all_or_nothing(out, start, appended)
}

fn append_globals(
    out: &mut Vec<u8>,
    kinds: &[GlobalType],
    values: &[Value],
) -> Result<(), AllocError>
    requires { length kinds.now ≡ length values.now }
    ensures ok { OnOk result (out.new.items ≡ out.old.items ++ globals_text kinds.now values.now) }
    ensures err { OnErr result (take (length out.old.items) out.new.items ≡ out.old.items) }
{
    put_unsigned(out, kinds.len() as u64)?;
    for (kind, value) in kinds.iter().zip(values) {
        append_global(out, *kind, *value)?;
    }
    Ok(())
}

fn append_global(out: &mut Vec<u8>, kind: GlobalType, value: Value) -> Result<(), AllocError>
    ensures ok { OnOk result (out.new.items ≡ out.old.items ++ global_text (kind, value)) }
    ensures err { OnErr result (take (length out.old.items) out.new.items ≡ out.old.items) }
{
    out.extend_from_slice(&[type_byte(kind.value), mutability_byte(kind.mutable)])?;
    append_constant_expression(out, value)
}

/// Appends the expression of one instruction that gives the value.
pub(crate) fn append_constant_expression(out: &mut Vec<u8>, value: Value) -> Result<(), AllocError>
    ensures ok { OnOk result (out.new.items ≡ out.old.items ++ constant_expression_text value) }
    ensures err { OnErr result (take (length out.old.items) out.new.items ≡ out.old.items) }
{
    append_constant(out, value)?;
    out.push(END)?;
    Ok(())
}

fn append_constant(out: &mut Vec<u8>, value: Value) -> Result<(), AllocError>
    ensures ok { OnOk result (out.new.items ≡ out.old.items ++ constant_text value) }
    ensures err { OnErr result (take (length out.old.items) out.new.items ≡ out.old.items) }
{
    match value {
        Value::I32(bits) => {
            out.push(0x41)?;
            put_signed(out, i64::from(bits.cast_signed()))
        }
        Value::I64(bits) => {
            out.push(0x42)?;
            put_signed(out, bits.cast_signed())
        }
        Value::F32(bits) => {
            out.push(0x43)?;
            out.extend_from_slice(&bits.to_le_bytes())
        }
        Value::F64(bits) => {
            out.push(0x44)?;
            out.extend_from_slice(&bits.to_le_bytes())
        }
        Value::Ref(reference) => append_reference(out, reference),
    }
}

fn append_reference(out: &mut Vec<u8>, reference: Reference) -> Result<(), AllocError>
    ensures ok { OnOk result (out.new.items ≡ out.old.items ++ constant_text (Ref reference)) }
    ensures err { OnErr result (take (length out.old.items) out.new.items ≡ out.old.items) }
{
    match reference {
        Reference::Null(kind) => out.extend_from_slice(&[0xD0, kind_byte(kind)]),
        Reference::Fn(index) => {
            out.push(0xD2)?;
            put_unsigned(out, u64::from(index))
        }
        Reference::Foreign { .. } => Ok(()),
    }
}

fn type_byte(kind: ValType) -> u8
    ensures { result ≡ type_byte kind }
{
    match kind {
        ValType::I32 => 0x7F,
        ValType::I64 => 0x7E,
        ValType::F32 => 0x7D,
        ValType::F64 => 0x7C,
        ValType::FuncRef => kind_byte(RefKind::Func),
        ValType::ExternRef => kind_byte(RefKind::Extern),
    }
}

fn kind_byte(kind: RefKind) -> u8
    ensures { result ≡ kind_byte kind }
{
    match kind {
        RefKind::Func => 0x70,
        RefKind::Extern => 0x6F,
    }
}

fn mutability_byte(mutable: bool) -> u8
    ensures { result ≡ mutability_byte mutable }
{
    u8::from(mutable)
}
