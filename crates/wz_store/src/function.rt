//! Functions as a store keeps them.

/// A function of an instance (WebAssembly Core Specification, section 4.2.6): the number of its
/// type, and the number of its body or of its import.
#[derive(Clone, Copy, Debug, PartialEq, Eq)]
pub enum Function {
    Own { signature: u32, body: u32 },
    Import { signature: u32, import: u32 },
}
