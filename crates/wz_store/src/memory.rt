//! A memory of a store (WebAssembly Core Specification, section 4.2.8).

ghost use Rattle.std.specs.Prelude.{◌≡◌, ◌≤◌, IfOk};
ghost use Rattle.std.specs.Borrow.{sem};

use std::alloc::{AllocError, Global};
use std::marker::Model;
use wz_linear::{Linear, MAX_PAGES};
use wz_types::{Limits, MemType};

#[derive(Drop)]
pub(crate) struct MemoryInstance<M: Linear> {
    memory: M,
    max: Option<u32>,
}

impl<M: Linear> Model for MemoryInstance<M> {
    ghost use Rattle.wz_store.specs.State.{Memory};

    ghost Value = { Memory };

    ghost view = { λ m. record { bytes = M.contents m.memory; maximum = m.max } };
}

impl<M: Linear> MemoryInstance<M> {
    ghost use Rattle.wz_store.specs.State.{memory_type_of};
    ghost use Rattle.wz_store.specs.Made.{new_memory};
    ghost use Rattle.wz_store.specs.Lending.{LendsBytes};

    /// A memory of zeros, of as many pages as the type's minimum.
    pub(crate) fn new(alloc: Global, kind: MemType) -> Result<MemoryInstance<M>, AllocError>
        requires { kind.limits.min ≤ MAX_PAGES }
        ensures { IfOk result (λ memory. memory ≡ new_memory kind) }
    {
        Ok(MemoryInstance {
            memory: M::zeroed(alloc, kind.limits.min)?,
            max: kind.limits.max,
        })
    }

    #[inline]
    pub(crate) fn memory(&self) -> &M
        ensures { M.contents result.now ≡ self.now.bytes }
    {
        &self.memory
    }

    #[inline]
    pub(crate) fn memory_mut(&mut self) -> &mut M
        ensures* lent { sem 𝓛 (LendsBytes M.row M.Linear self.entry result) }
        ensures value { M.contents result.now ≡ self.old.bytes }
    {
        &mut self.memory
    }

    /// The type as it is now.
    pub(crate) fn memory_type(&self) -> MemType
        ensures { result ≡ memory_type_of self.now }
    {
        MemType {
            limits: Limits {
                min: self.memory.size_pages(),
                max: self.max,
            },
        }
    }
}
