//! Parametric instructions (Core Specification 2.0, section 4.4.4).

ghost use Rattle.std.specs.Prelude.{◌≤◌, length};
ghost use Rattle.wz_machine.specs.PlainSteps.{used, ValueReply};
ghost use Rattle.wz_machine.specs.ParametricSteps.{drop_step, select_step};

use crate::plain::Plain;
use crate::plain::operands::{number_on, put, value_on};
use wz_types::Value;

#[inline(always)]
pub(super) fn drop_value(own: &[Value], have: usize) -> Plain
    requires { have ≤ length own.now }
    ensures { ValueReply result (drop_step (used have own.now)) have own.now own.now }
{
    match value_on(own, have) {
        Some(_) => Plain::Went(have - 1),
        None => Plain::NoRule,
    }
}

#[inline(always)]
pub(super) fn select(own: &mut [Value], have: usize) -> Plain
    requires { have ≤ length own.old }
    ensures { ValueReply result (select_step (used have own.old)) have own.old own.new }
{
    let Some(condition) = number_on(own, have) else {
        return Plain::NoRule;
    };
    let Some(second) = value_on(own, have - 1) else {
        return Plain::NoRule;
    };
    let Some(_) = value_on(own, have - 2) else {
        return Plain::NoRule;
    };
    if condition == 0 {
        put(own, have - 3, second);
        return Plain::Went(have - 2);
    }
    Plain::Went(have - 2)
}
