//! The numeric instructions (Core Specification 2.0, sections 4.3 and 4.4.1).
//!
//! `eval` answers an operation on a list of operands: it gives a value, traps, asks the environment
//! (as most operations on floats do), or is stuck on operands of other types. It is made of one
//! function for each kind of operands (`two_i32`, `one_i64`, ..), which takes bare patterns and
//! gives a small answer; a machine that knows which operands it has calls these. All of them are
//! the same `number`.
#![tactic(auto)]

mod answer;
pub mod laws;
mod patterns;
mod shapes;
mod values;

pub use answer::{NumAnswer, NumResult};
pub use patterns::{one_f32, one_f64, one_i32, one_i64, two_f32, two_f64, two_i32, two_i64};
pub use shapes::{OperandShape, operand_shape};
pub use values::eval;

#[cfg(test)]
mod tests;
