//! Values of which the first are used: room for more, and values that are put behind them.

ghost use Rattle.std.specs.Prelude.{◌≡◌, ◌+◌, ◌-◌, ◌≤◌, ◌++◌, length, take, drop, replicate, OnOk, IfOk};
ghost use Rattle.wz_types.specs.Zeros.{zero_of, zeros_of};
ghost use Rattle.wz_valid_code.specs.Context.{locals_of_runs};

use std::alloc::AllocError;
use wz_types::{RefKind, Reference, ValType, Value};

/// More values than this are refused as if there were no memory for them.
pub(crate) const MOST: usize = 0x1_0000_0000;

/// Makes room for so many values behind the used ones.
#[inline]
pub(crate) fn make_room(values: &mut Vec<Value>, have: usize, more: usize) -> Result<(), AllocError>
    requires { have ≤ length values.old.items }
    ensures room { OnOk result (have + more ≤ length values.new.items) }
    ensures kept { take have values.new.items ≡ take have values.old.items }
    ensures longer { length values.old.items ≤ length values.new.items }
{
    if more <= values.len() - have {
        return Ok(());
    }
    grow(values, have, more)
}

#[cold]
#[inline(never)]
fn grow(values: &mut Vec<Value>, have: usize, more: usize) -> Result<(), AllocError>
    requires short { length values.old.items - have ≤ more }
    requires used { have ≤ length values.old.items }
    ensures room { OnOk result (have + more ≤ length values.new.items) }
    ensures kept { take have values.new.items ≡ take have values.old.items }
    ensures longer { length values.old.items ≤ length values.new.items }
{
    if have > MOST || more > MOST {
        return Err(AllocError);
    }
    values.resize((have + more) * 2, Value::I32(0))?;
    Ok(())
}

/// Puts values behind the used ones, where there is room for them.
#[inline]
pub(crate) fn put(values: &mut [Value], have: usize, more: &[Value])
    requires { have + length more.now ≤ length values.old }
    ensures put { take (have + length more.now) values.new ≡ take have values.old ++ more.now }
    ensures len { length values.new ≡ length values.old }
{
    let end = have + more.len();
    let place = &mut values[have..end];
    place.copy_from_slice(more);
}

/// Moves values of the used ones down, over what stands there.
#[inline]
pub(crate) fn move_down(values: &mut Vec<Value>, to: usize, from: usize, count: usize)
    requires down { to ≤ from }
    requires inside { from + count ≤ length values.old.items }
    ensures moved { take (to + count) values.new.items ≡
        take to values.old.items ++ take count (drop from values.old.items) }
    ensures len { length values.new.items ≡ length values.old.items }
{
    if count == 0 {
        return;
    }
    // a block's own values stand where it begins
    if to == from {
        return;
    }
    if count == 1 {
        values[to] = values[from];
        return;
    }
    values.copy_within(from..from + count, to);
}

/// The value with which a local that is no parameter starts.
pub(crate) fn zero(kind: ValType) -> Value
    ensures { result ≡ zero_of kind }
{
    match kind {
        ValType::I32 => Value::I32(0),
        ValType::I64 => Value::I64(0),
        ValType::F32 => Value::F32(0),
        ValType::F64 => Value::F64(0),
        ValType::FuncRef => Value::Ref(Reference::Null(RefKind::Func)),
        ValType::ExternRef => Value::Ref(Reference::Null(RefKind::Extern)),
    }
}

/// Puts so many of one value behind the used ones, where there is room for them.
fn put_same(values: &mut [Value], have: usize, count: usize, value: Value)
    requires { have + count ≤ length values.old }
    ensures put { take (have + count) values.new ≡ take have values.old ++ replicate count value }
    ensures kept { take have values.new ≡ take have values.old }
    ensures len { length values.new ≡ length values.old }
{
    let place = &mut values[have..have + count];
    place.fill(value);
}

/// Puts the locals of one run behind the used values, and answers how many are used then.
fn put_run(values: &mut Vec<Value>, have: usize, run: (u32, ValType)) -> Result<usize, AllocError>
    requires { have ≤ length values.old.items }
    ensures used { IfOk result (λ now. (have ≤ now) × (now ≤ length values.new.items)) }
    ensures put { IfOk result (λ now. take now values.new.items ≡
        take have values.old.items ++ replicate run.0 (zero_of run.1)) }
    ensures kept { take have values.new.items ≡ take have values.old.items }
    ensures longer { length values.old.items ≤ length values.new.items }
{
    let count = run.0 as usize;
    make_room(values, have, count)?;
    put_same(values, have, count, zero(run.1));
    Ok(have + count)
}

/// Puts the locals of these runs behind the used values, each with its zero, and answers how many
/// are used then. Where it is refused, the used values stay.
pub(crate) fn put_locals(
    values: &mut Vec<Value>,
    have: usize,
    runs: &[(u32, ValType)],
) -> Result<usize, AllocError>
    requires { have ≤ length values.old.items }
    ensures used { IfOk result (λ now. now ≤ length values.new.items) }
    ensures put { IfOk result (λ now. take now values.new.items ≡
        take have values.old.items ++ zeros_of (locals_of_runs runs.now)) }
    ensures kept { take have values.new.items ≡ take have values.old.items }
    ensures longer { length values.old.items ≤ length values.new.items }
{
    let mut now = have;
    for run in runs {
        now = put_run(values, now, *run)?;
    }
    Ok(now)
}
