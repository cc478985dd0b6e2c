//! What a linear memory is.

ghost use Rattle.std.specs.Prelude.{◌≡◌, ℕ, ◌+◌, ◌*◌, ◌^◌, ◌<◌, ◌≤◌, ◌↔◌, ◌++◌, List, length, replicate, Bool, true, IsTrue, IsFalse, IsOk, IfOk, OnOk, OnErr, IfSome, SomeIff};
ghost use Rattle.std.specs.Bool.{OnTrue, OnFalse};
ghost use Rattle.std.specs.List.{All};
ghost use Rattle.wz_linear.specs.Bytes.{IsAccessWidth, IsWithin, number_of, bytes_of, part, written};

use std::alloc::{AllocError, Global};

/// How many bytes a page has.
pub const PAGE_SIZE: u32 = 65_536;

/// How many pages a memory has at most.
pub const MAX_PAGES: u32 = 65_536;

/// A linear memory (WebAssembly Core Specification, section 4.2.8).
///
/// Places are counted in bytes from 0 and never wrap. A range that ends past the memory is answered
/// None or false, also where it is empty.
pub trait Linear: Drop {
    /// The bytes of the memory, in the order of their places.
    ghost contents: { Self → List ℕ };

    /// Whether a write may be refused for memory.
    ghost may_refuse: { Bool } = { true };

    /// Makes a memory of so many pages of zeros.
    fn zeroed(alloc: Global, pages: u32) -> Result<Self, AllocError>
        requires { pages ≤ MAX_PAGES }
        ensures zeros { IfOk result (λ memory. contents memory ≡ replicate (pages * PAGE_SIZE) 0) };

    /// How many pages there are.
    fn size_pages(&self) -> u32
        ensures whole { length (contents self.now) ≡ result * PAGE_SIZE }
        ensures bounded { result ≤ MAX_PAGES }
        ensures octets { All (λ byte. byte < 256) (contents self.now) };

    /// Adds so many pages of zeros at the end.
    fn grow(&mut self, pages: u32) -> Result<(), AllocError>
        requires { length (contents self.old) + pages * PAGE_SIZE ≤ MAX_PAGES * PAGE_SIZE }
        ensures grown { OnOk result
            (contents self.new ≡ contents self.old ++ replicate (pages * PAGE_SIZE) 0) }
        ensures refused { OnErr result (contents self.new ≡ contents self.old) };

    /// The number whose bytes, the lowest first, stand at `at`.
    fn load(&self, at: u64, width: u32) -> Option<u64>
        requires { IsAccessWidth width }
        ensures found { SomeIff result
            (IsWithin (contents self.now) at width)
            (number_of (part (contents self.now) at width)) }
        ensures narrow { IfSome result (λ number. number < 256 ^ width) };

    /// Writes the lowest bytes of the value, the lowest first, at `at`.
    fn store(&mut self, at: u64, value: u64, width: u32) -> Result<bool, AllocError>
        requires { IsAccessWidth width }
        ensures within { IfOk result (λ done. IsTrue done ↔ IsWithin (contents self.old) at width) }
        ensures stored { IfOk result (λ done. OnTrue done
            (contents self.new ≡ written (contents self.old) at (bytes_of width value))) }
        ensures outside { IfOk result (λ done. OnFalse done
            (contents self.new ≡ contents self.old)) }
        ensures refused { OnErr result (contents self.new ≡ contents self.old) }
        ensures spared { IsFalse may_refuse → IsOk result };

    /// Writes the byte to each of `len` places from `at` on.
    fn fill(&mut self, at: u64, byte: u8, len: u64) -> Result<bool, AllocError>
        ensures within { IfOk result (λ done. IsTrue done ↔ IsWithin (contents self.old) at len) }
        ensures filled { IfOk result (λ done. OnTrue done
            (contents self.new ≡ written (contents self.old) at (replicate len byte))) }
        ensures outside { IfOk result (λ done. OnFalse done
            (contents self.new ≡ contents self.old)) }
        ensures refused { OnErr result (contents self.new ≡ contents self.old) }
        ensures spared { IsFalse may_refuse → IsOk result };

    /// Writes the `len` bytes that stood at `from` to `to`, as if through a buffer.
    fn copy(&mut self, to: u64, from: u64, len: u64) -> Result<bool, AllocError>
        ensures within { IfOk result (λ done. IsTrue done ↔
            (IsWithin (contents self.old) to len × IsWithin (contents self.old) from len)) }
        ensures copied { IfOk result (λ done. OnTrue done
            (contents self.new ≡
            written (contents self.old) to (part (contents self.old) from len))) }
        ensures outside { IfOk result (λ done. OnFalse done
            (contents self.new ≡ contents self.old)) }
        ensures refused { OnErr result (contents self.new ≡ contents self.old) }
        ensures spared { IsFalse may_refuse → IsOk result };

    /// Writes these bytes from `at` on.
    fn write_slice(&mut self, at: u64, bytes: &[u8]) -> Result<bool, AllocError>
        ensures within { IfOk result (λ done. IsTrue done ↔
            IsWithin (contents self.old) at (length bytes.now)) }
        ensures copied { IfOk result (λ done. OnTrue done
            (contents self.new ≡ written (contents self.old) at bytes.now)) }
        ensures outside { IfOk result (λ done. OnFalse done
            (contents self.new ≡ contents self.old)) }
        ensures refused { OnErr result (contents self.new ≡ contents self.old) }
        ensures spared { IsFalse may_refuse → IsOk result };

    /// Copies the bytes from `at` on, as many as `out` takes.
    fn read_into(&self, at: u64, out: &mut [u8]) -> bool
        ensures within { IsTrue result ↔ IsWithin (contents self.now) at (length out.old) }
        ensures copied { OnTrue result (out.new ≡ part (contents self.now) at (length out.old)) }
        ensures outside { OnFalse result (out.new ≡ out.old) };

    /// Whether it is known, without a look at its bytes, that the page holds zeros alone. Takes no
    /// memory.
    fn untouched(&self, page: u32) -> bool
        requires { (page + 1) * PAGE_SIZE ≤ length (contents self.now) }
        ensures { OnTrue result
            (All (λ byte. byte ≡ 0) (part (contents self.now) (page * PAGE_SIZE) PAGE_SIZE)) };
}
