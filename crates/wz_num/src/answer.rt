//! What a numeric instruction may answer (Core Specification 2.0, section 4.4.1).

use wz_types::{TrapKind, Value};

/// The answer of a numeric operation.
#[derive(Clone, Copy, Debug, PartialEq, Eq)]
pub enum NumAnswer {
    Gives(Value),
    Trap(TrapKind),
    /// An operation on floats, which the environment answers.
    Ask,
    /// The operands aren't of the operation's types.
    Stuck,
}

/// A `NumAnswer` in 16 bytes: no operation gives a reference, so the variant is the value's type
/// and holds its bits.
#[derive(Clone, Copy)]
pub enum NumResult {
    I32(u32),
    I64(u64),
    F32(u32),
    F64(u64),
    Trap(TrapKind),
    Ask,
    NoRule,
}

impl From<NumResult> for NumAnswer {
    ghost use Rattle.std.specs.Prelude.{◌≡◌};
    ghost use Rattle.wz_num.specs.Answers.{answer_of};

    ghost from_gives = { λ small answer. answer ≡ answer_of small };

    #[inline]
    fn from(small: NumResult) -> NumAnswer {
        match small {
            NumResult::I32(bits) => NumAnswer::Gives(Value::I32(bits)),
            NumResult::I64(bits) => NumAnswer::Gives(Value::I64(bits)),
            NumResult::F32(bits) => NumAnswer::Gives(Value::F32(bits)),
            NumResult::F64(bits) => NumAnswer::Gives(Value::F64(bits)),
            NumResult::Trap(kind) => NumAnswer::Trap(kind),
            NumResult::Ask => NumAnswer::Ask,
            NumResult::NoRule => NumAnswer::Stuck,
        }
    }
}
