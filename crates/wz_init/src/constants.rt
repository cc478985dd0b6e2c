//! Constant expressions (Core Specification, section 3.3.10), which in a valid module that imports
//! functions alone are one instruction each.

ghost use Rattle.std.specs.Prelude.{◌≡◌, IsSome};
ghost use Rattle.wz_init.specs.Plain.{instr_value, plain_constant, plain_number, plain_reference};
ghost use Rattle.wz_init.specs.Plain.{IsPlainConstant, IsPlainNumber, IsPlainReference};

use wz_code::{Body, Instr};
use wz_types::{Reference, Value};

/// The value of a constant instruction.
fn instr_value(instr: &Instr) -> Option<Value>
    ensures { result ≡ instr_value instr.now }
{
    match instr {
        Instr::I32Const(bits) => Some(Value::I32(*bits)),
        Instr::I64Const(bits) => Some(Value::I64(*bits)),
        Instr::F32Const(bits) => Some(Value::F32(*bits)),
        Instr::F64Const(bits) => Some(Value::F64(*bits)),
        Instr::RefNull(kind) => Some(Value::Ref(Reference::Null(*kind))),
        Instr::RefFunc(function) => Some(Value::Ref(Reference::Fn(*function))),
        _ => None,
    }
}

pub(crate) fn constant(body: &Body) -> Value
    requires { IsPlainConstant body.now }
    ensures { result ≡ plain_constant body.now }
{
    let block = body.block(0).unwrap_or(&[]);
    match block {
        [instr] => match instr_value(instr) {
            Some(value) => value,
            None => unreachable!(),
        },
        _ => unreachable!(),
    }
}

pub(crate) fn constant_number(body: &Body) -> u32
    requires { IsPlainNumber body.now }
    ensures { result ≡ plain_number body.now }
{
    match constant(body) {
        Value::I32(bits) => bits,
        _ => unreachable!(),
    }
}

pub(crate) fn constant_reference(body: &Body) -> Reference
    requires { IsPlainReference body.now }
    ensures { result ≡ plain_reference body.now }
{
    match constant(body) {
        Value::Ref(reference) => reference,
        _ => unreachable!(),
    }
}
