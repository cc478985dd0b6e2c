//! The operations on bare patterns, one function for each kind of operands (Core Specification 2.0,
//! section 4.3).
//!
//! Operations that two widths have in common are rows of one table, which each width expands. The
//! arms end in a catch-all for the operations of other operands: one that were forgotten would be
//! stuck, and the function's clause refused.

ghost use Rattle.std.specs.Prelude.{◌≡◌, [], ◌∷◌, Bool};
ghost use Rattle.wz_types.specs.declared.value.Value.TheVariants as value;
ghost use Rattle.wz_num.specs.Integers.{truth_of};
ghost use Rattle.wz_num.specs.Answers.{answer_of};
ghost use Rattle.wz_num.specs.Number.{number};

use crate::answer::NumResult;
use wz_code::NumOp;
use wz_types::TrapKind;

#[inline(always)]
fn truth(holds: bool) -> u32
    ensures { result ≡ truth_of holds }
{
    if holds { 1 } else { 0 }
}

// ---- the tables: an operation's names at 32 and at 64 bits, and what it makes of its operands

// `by` is the second operand as a number of bits, which shifts and rotations take modulo the width.
macro_rules! two_integers {
    ($names:ident($($width:tt)*) $a:ident $b:ident $by:ident) => {
        $names! {
            $($width)*, {},
            I32Eq I64Eq: test($a == $b);
            I32Ne I64Ne: test($a != $b);
            I32LtS I64LtS: test($a.cast_signed() < $b.cast_signed());
            I32LtU I64LtU: test($a < $b);
            I32GtS I64GtS: test($a.cast_signed() > $b.cast_signed());
            I32GtU I64GtU: test($a > $b);
            I32LeS I64LeS: test($a.cast_signed() <= $b.cast_signed());
            I32LeU I64LeU: test($a <= $b);
            I32GeS I64GeS: test($a.cast_signed() >= $b.cast_signed());
            I32GeU I64GeU: test($a >= $b);
            I32Add I64Add: gives($a.wrapping_add($b));
            I32Sub I64Sub: gives($a.wrapping_sub($b));
            I32Mul I64Mul: gives($a.wrapping_mul($b));
            I32DivS I64DivS: div_s($a, $b);
            I32DivU I64DivU: div_u($a, $b);
            I32RemS I64RemS: rem_s($a, $b);
            I32RemU I64RemU: rem_u($a, $b);
            I32And I64And: gives($a & $b);
            I32Or I64Or: gives($a | $b);
            I32Xor I64Xor: gives($a ^ $b);
            I32Shl I64Shl: gives($a.wrapping_shl($by));
            I32ShrS I64ShrS: gives($a.cast_signed().wrapping_shr($by).cast_unsigned());
            I32ShrU I64ShrU: gives($a.wrapping_shr($by));
            I32Rotl I64Rotl: gives($a.rotate_left($by));
            I32Rotr I64Rotr: gives($a.rotate_right($by));
        }
    };
}

macro_rules! one_integer {
    ($names:ident($($width:tt)*) $a:ident, $others:tt) => {
        $names! {
            $($width)*, $others,
            I32Eqz I64Eqz: test($a == 0);
            I32Clz I64Clz: counts($a.leading_zeros());
            I32Ctz I64Ctz: counts($a.trailing_zeros());
            I32Popcnt I64Popcnt: counts($a.count_ones());
            I32Extend8S I64Extend8S: extends((($a % 0x100) as u8).cast_signed());
            I32Extend16S I64Extend16S: extends((($a % 0x1_0000) as u16).cast_signed());
        }
    };
}

macro_rules! one_float {
    ($names:ident($($width:tt)*) $a:ident $sign:ident, $others:tt) => {
        $names! {
            $($width)*, $others,
            F32Abs F64Abs: gives($a & !$sign);
            F32Neg F64Neg: gives($a ^ $sign);
            F32Ceil F64Ceil: asks();
            F32Floor F64Floor: asks();
            F32Trunc F64Trunc: asks();
            F32Nearest F64Nearest: asks();
            F32Sqrt F64Sqrt: asks();
            I32TruncF32S I32TruncF64S: asks();
            I32TruncF32U I32TruncF64U: asks();
            I64TruncF32S I64TruncF64S: asks();
            I64TruncF32U I64TruncF64U: asks();
            F64PromoteF32 F32DemoteF64: asks();
            I32TruncSatF32S I32TruncSatF64S: asks();
            I32TruncSatF32U I32TruncSatF64U: asks();
            I64TruncSatF32S I64TruncSatF64S: asks();
            I64TruncSatF32U I64TruncSatF64U: asks();
        }
    };
}

macro_rules! two_floats {
    ($names:ident($($width:tt)*) $a:ident $b:ident $sign:ident) => {
        $names! {
            $($width)*, {},
            F32Eq F64Eq: asks();
            F32Ne F64Ne: asks();
            F32Lt F64Lt: asks();
            F32Gt F64Gt: asks();
            F32Le F64Le: asks();
            F32Ge F64Ge: asks();
            F32Add F64Add: asks();
            F32Sub F64Sub: asks();
            F32Mul F64Mul: asks();
            F32Div F64Div: asks();
            F32Min F64Min: asks();
            F32Max F64Max: asks();
            F32Copysign F64Copysign: gives(($a & !$sign) | ($b & $sign));
        }
    };
}

// ---- a table at one width: with the result's type, and Rust's types of its patterns and numbers

macro_rules! narrow {
    (
        $op:ident $result:tt, { $($others:tt)* },
        $($name:ident $wide:ident: $how:ident($($value:expr),*);)*
    ) => {
        match $op {
            $(NumOp::$name => $how!($result, $($value),*),)*
            $($others)*
            _ => NumResult::NoRule,
        }
    };
}

macro_rules! wide {
    (
        $op:ident $result:tt, { $($others:tt)* },
        $($narrow:ident $name:ident: $how:ident($($value:expr),*);)*
    ) => {
        match $op {
            $(NumOp::$name => $how!($result, $($value),*),)*
            $($others)*
            _ => NumResult::NoRule,
        }
    };
}

// ---- what a row gives

macro_rules! gives {
    (($type:ident $unsigned:ident $signed:ident), $value:expr) => {
        NumResult::$type($value)
    };
}

macro_rules! div_u {
    (($type:ident $unsigned:ident $signed:ident), $dividend:expr, $divisor:expr) => {
        match $dividend.checked_div($divisor) {
            Some(value) => NumResult::$type(value),
            None => NumResult::Trap(TrapKind::DivideByZero),
        }
    };
}

macro_rules! rem_u {
    (($type:ident $unsigned:ident $signed:ident), $dividend:expr, $divisor:expr) => {
        match $dividend.checked_rem($divisor) {
            Some(value) => NumResult::$type(value),
            None => NumResult::Trap(TrapKind::DivideByZero),
        }
    };
}

macro_rules! div_s {
    (($type:ident $unsigned:ident $signed:ident), $dividend:expr, $divisor:expr) => {
        if $divisor == 0 {
            NumResult::Trap(TrapKind::DivideByZero)
        } else {
            match $dividend.cast_signed().checked_div($divisor.cast_signed()) {
                Some(value) => NumResult::$type(value.cast_unsigned()),
                None => NumResult::Trap(TrapKind::IntegerOverflow),
            }
        }
    };
}

macro_rules! rem_s {
    (($type:ident $unsigned:ident $signed:ident), $dividend:expr, $divisor:expr) => {
        if $divisor == 0 {
            NumResult::Trap(TrapKind::DivideByZero)
        } else {
            let rest = $dividend.cast_signed().wrapping_rem($divisor.cast_signed());
            NumResult::$type(rest.cast_unsigned())
        }
    };
}

macro_rules! test {
    (($type:ident $unsigned:ident $signed:ident), $holds:expr) => {
        NumResult::I32(truth($holds))
    };
}

macro_rules! counts {
    (($type:ident $unsigned:ident $signed:ident), $count:expr) => {
        NumResult::$type($unsigned::from($count))
    };
}

macro_rules! extends {
    (($type:ident $unsigned:ident $signed:ident), $value:expr) => {
        NumResult::$type($signed::from($value).cast_unsigned())
    };
}

macro_rules! asks {
    (($type:ident $unsigned:ident $signed:ident),) => {
        NumResult::Ask
    };
}

// ---- the functions

/// An operation on two i32.
#[tactic(auto, unfolding(crate::specs::Number::number))]
#[inline(always)]
pub fn two_i32(op: NumOp, a: u32, b: u32) -> NumResult
    ensures { answer_of result ≡ number op (value.I32 a ∷ value.I32 b ∷ []) }
{
    two_integers!(narrow(op(I32 u32 i32)) a b b)
}

/// An operation on two i64.
#[tactic(auto, unfolding(crate::specs::Number::number))]
#[inline(always)]
pub fn two_i64(op: NumOp, a: u64, b: u64) -> NumResult
    ensures { answer_of result ≡ number op (value.I64 a ∷ value.I64 b ∷ []) }
{
    let by = (b % 64) as u32;
    two_integers!(wide(op(I64 u64 i64)) a b by)
}

/// An operation on one i32.
#[tactic(auto, unfolding(crate::specs::Number::number))]
#[inline(always)]
pub fn one_i32(op: NumOp, a: u32) -> NumResult
    ensures { answer_of result ≡ number op (value.I32 a ∷ []) }
{
    one_integer!(narrow(op(I32 u32 i32)) a, {
        NumOp::I64ExtendI32S => extends!((I64 u64 i64), a.cast_signed()),
        NumOp::I64ExtendI32U => NumResult::I64(u64::from(a)),
        NumOp::F32ReinterpretI32 => NumResult::F32(a),
        NumOp::F32ConvertI32S => NumResult::Ask,
        NumOp::F32ConvertI32U => NumResult::Ask,
        NumOp::F64ConvertI32S => NumResult::Ask,
        NumOp::F64ConvertI32U => NumResult::Ask,
    })
}

/// An operation on one i64.
#[tactic(auto, unfolding(crate::specs::Number::number))]
#[inline(always)]
pub fn one_i64(op: NumOp, a: u64) -> NumResult
    ensures { answer_of result ≡ number op (value.I64 a ∷ []) }
{
    one_integer!(wide(op(I64 u64 i64)) a, {
        NumOp::I64Extend32S => extends!((I64 u64 i64), ((a % 0x1_0000_0000) as u32).cast_signed()),
        NumOp::I32WrapI64 => NumResult::I32((a % 0x1_0000_0000) as u32),
        NumOp::F64ReinterpretI64 => NumResult::F64(a),
        NumOp::F32ConvertI64S => NumResult::Ask,
        NumOp::F32ConvertI64U => NumResult::Ask,
        NumOp::F64ConvertI64S => NumResult::Ask,
        NumOp::F64ConvertI64U => NumResult::Ask,
    })
}

const SIGN_32: u32 = 0x8000_0000;

const SIGN_64: u64 = 0x8000_0000_0000_0000;

/// An operation on one f32.
#[tactic(auto, unfolding(crate::specs::Number::number))]
#[inline(always)]
pub fn one_f32(op: NumOp, a: u32) -> NumResult
    ensures { answer_of result ≡ number op (value.F32 a ∷ []) }
{
    one_float!(narrow(op(F32 u32 i32)) a SIGN_32, {
        NumOp::I32ReinterpretF32 => NumResult::I32(a),
    })
}

/// An operation on one f64.
#[tactic(auto, unfolding(crate::specs::Number::number))]
#[inline(always)]
pub fn one_f64(op: NumOp, a: u64) -> NumResult
    ensures { answer_of result ≡ number op (value.F64 a ∷ []) }
{
    one_float!(wide(op(F64 u64 i64)) a SIGN_64, {
        NumOp::I64ReinterpretF64 => NumResult::I64(a),
    })
}

/// An operation on two f32.
#[tactic(auto, unfolding(crate::specs::Number::number))]
#[inline(always)]
pub fn two_f32(op: NumOp, a: u32, b: u32) -> NumResult
    ensures { answer_of result ≡ number op (value.F32 a ∷ value.F32 b ∷ []) }
{
    two_floats!(narrow(op(F32 u32 i32)) a b SIGN_32)
}

/// An operation on two f64.
#[tactic(auto, unfolding(crate::specs::Number::number))]
#[inline(always)]
pub fn two_f64(op: NumOp, a: u64, b: u64) -> NumResult
    ensures { answer_of result ≡ number op (value.F64 a ∷ value.F64 b ∷ []) }
{
    two_floats!(wide(op(F64 u64 i64)) a b SIGN_64)
}
