//! The last values of a block, from which instructions take their operands.

ghost use Rattle.std.specs.Prelude.{◌≡◌, ◌<◌, ◌≤◌, ◌+◌, ◌∷◌, [], None, length, MatchOption};
ghost use Rattle.wz_machine.specs.PlainSteps.{used};
ghost use Rattle.wz_machine.specs.Operands.{IsOnTop, number_on_top, HasNumber, reference_on_top, HasReference, three_on_top, HasThree};

use wz_types::{Reference, Value};

/// The last of so many values.
#[inline(always)]
pub(super) fn value_on(own: &[Value], have: usize) -> Option<Value>
    requires { have ≤ length own.now }
    ensures { MatchOption result (used have own.now ≡ []) (λ value. IsOnTop value have own.now) }
{
    if have == 0 {
        return None;
    }
    Some(own[have - 1])
}

/// The same, where it is an i32.
#[inline(always)]
pub(crate) fn number_on(own: &[Value], have: usize) -> Option<u32>
    requires { have ≤ length own.now }
    ensures { MatchOption result (number_on_top (used have own.now) ≡ None)
        (λ number. HasNumber number have own.now) }
{
    match value_on(own, have)? {
        Value::I32(number) => Some(number),
        Value::I64(_) | Value::F32(_) | Value::F64(_) | Value::Ref(_) => None,
    }
}

/// The same, where it is a reference.
#[inline(always)]
pub(super) fn reference_on(own: &[Value], have: usize) -> Option<Reference>
    requires { have ≤ length own.now }
    ensures { MatchOption result (reference_on_top (used have own.now) ≡ None)
        (λ reference. HasReference reference have own.now) }
{
    match value_on(own, have)? {
        Value::Ref(reference) => Some(reference),
        Value::I32(_) | Value::I64(_) | Value::F32(_) | Value::F64(_) => None,
    }
}

/// The last three, where they are i32, in the order of pushing.
#[inline(always)]
pub(super) fn three_on(own: &[Value], have: usize) -> Option<(u32, u32, u32)>
    requires { have ≤ length own.now }
    ensures { MatchOption result (three_on_top (used have own.now) ≡ None)
        (λ three. HasThree three.0 three.1 three.2 have own.now) }
{
    let third = number_on(own, have)?;
    let second = number_on(own, have - 1)?;
    let first = number_on(own, have - 2)?;
    Some((first, second, third))
}

/// Writes a value behind so many others.
#[inline(always)]
pub(super) fn put(own: &mut [Value], at: usize, value: Value)
    requires { at < length own.old }
    ensures { used (at + 1) own.new ≡ value ∷ used at own.old }
{
    own[at] = value;
}
