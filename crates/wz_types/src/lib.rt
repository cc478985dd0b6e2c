//! The types and values of WebAssembly, and names as texts.
//!
//! Contracts see a `Text` as the list of its bytes, a `FuncType` as its two lists and a `Values` as
//! the list of its items; all else is plain data. When a value may stand where a type is asked for
//! is said once, by `Fits`, and `Value::fits` decides it: a number fits its type where its bits are
//! those of the type's width. `laws` says what it is to fit, part by part, and that the tests by
//! which definitions compare types are equality.
#![tactic(auto)]

mod function_type;
pub mod laws;
mod text;
mod trap;
mod types;
mod value;
mod values;

pub use function_type::FuncType;
pub use text::Text;
pub use trap::TrapKind;
pub use types::{GlobalType, Limits, MemType, RefKind, TableType, ValType};
pub use value::{Reference, Sort, Value};
pub use values::Values;

#[cfg(test)]
mod tests;
