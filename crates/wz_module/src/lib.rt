//! A module in memory: its sections as they stand in the binary, and what they hold.
//!
//! All of it is plain data. Names, payloads and the bytes of data segments are borrowed from the
//! bytes that the module was read from. What a `Module` means is the record that `specs.Module`
//! defines after section 2.5 of the WebAssembly Core Specification 2.0, in which bodies and
//! expressions are trees; `module_of` gives it. `specs.Sections` has the order of sections and the
//! payload of each.
//!
//! What bodies, element segments and exports name of functions can be gathered in a set, for those
//! who ask which functions are declared (section 3.4.10).
//!
//! What to cite:
//! - what a call lends: its clause, by which the items are those of `module_of`;
//! - what a call adds to a set: its clause, by `AddsFunctions` of wz_code;
//! - that numbers of 32 bits count and name everything in a module: the ghost field `short_lists`.
#![tactic(auto)]

mod items;
mod module;
mod references;
#[cfg(test)]
mod tests;

pub use items::{
    DataMode, DataSegment, Elem, ElemItems, ElemMode, Export, ExportTarget, GlobalDef, Import,
    ImportKind, Section, Span,
};
pub use module::{Module, ModuleParts};
pub use references::{
    add_exported_function, add_function, add_referred_in_bodies, add_referred_in_body,
    add_referred_in_segments,
};
