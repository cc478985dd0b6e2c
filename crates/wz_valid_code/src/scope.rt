//! What the instructions of one function's body may name.

use crate::context::Context;
use crate::locals::Locals;
use std::marker::Model;
use wz_types::ValType;

/// The module's context with the function's locals and results.
#[derive(Drop)]
pub struct Scope<'c> {
    pub context: &'c Context<'c>,
    pub locals: Locals<'c>,
    pub results: &'c [ValType],
}

impl<'c> Model for Scope<'c> {
    ghost use Rattle.wz_valid_code.specs.Context.{Scope as TheScope};

    ghost Value = { TheScope };

    ghost view = { λ s. record {
      context = s.context.now;
      locals = s.locals;
      results = s.results.now;
    } };
}
