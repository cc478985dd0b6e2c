//! Runs of non-zero bytes.

ghost use Rattle.std.specs.Prelude.{◌≡◌, ◌≢◌, ℕ, ◌+◌, ◌-◌, ◌^◌, ◌<◌, ◌≤◌, ◌↔◌, length, drop, slice_index, IsNone, IfSome};
ghost use Rattle.std.specs.List.{All};
ghost use Rattle.wz_plan.specs.Ranges.{end_of, hull};
ghost use Rattle.wz_plan.specs.Scanned.{IsFirstRun};

use crate::lanes::{nonzeros_by_lanes, zeros_by_lanes};

/// A range of places in a memory: its first place, and its length in bytes.
#[derive(Clone, Copy, Debug, PartialEq, Eq)]
pub struct Run {
    pub at: u32,
    pub len: u32,
}

impl Run {
    /// The place behind the range.
    pub(crate) fn end(self) -> u32
        requires { end_of self < 2 ^ 32 }
        ensures { result ≡ end_of self }
    {
        self.at + self.len
    }

    /// The range from the first place of this one to the last of a higher one.
    pub(crate) fn up_to(self, upper: Run) -> Run
        requires higher { self.at ≤ upper.at }
        requires fits { end_of upper < 2 ^ 32 }
        ensures { result ≡ hull self upper }
    {
        Run {
            at: self.at,
            len: upper.end() - self.at,
        }
    }
}

/// The first run of non-zero bytes at or behind a place.
pub fn next_run(bytes: &[u8], from: usize) -> Option<Run>
    requires { length bytes.now ≤ 2 ^ 30 }
    ensures none { IsNone result ↔ All (λ byte. byte ≡ 0) (drop from bytes.now) }
    ensures first { IfSome result (IsFirstRun bytes.now from) }
{
    let at = from + first_nonzero(bytes.get(from..)?)?;
    let len = nonzero_len(&bytes[at..]);
    Some(Run {
        at: at as u32,
        len: len as u32,
    })
}

/// The place of the first byte that isn't zero.
fn first_nonzero(bytes: &[u8]) -> Option<usize>
    ensures none { IsNone result ↔ All (λ byte. byte ≡ 0) bytes.now }
    ensures within { IfSome result (λ place. place < length bytes.now) }
    ensures here { IfSome result (λ place. slice_index bytes.now place ≢ 0) }
    ensures before { IfSome result (λ place. (k : ℕ) → k < place → slice_index bytes.now k ≡ 0) }
{
    let at = zeros_by_lanes(bytes);
    let rest = first_nonzero_by_byte(&bytes[at..])?;
    Some(at + rest)
}

/// The same, where one byte is looked at after the other.
fn first_nonzero_by_byte(bytes: &[u8]) -> Option<usize>
    ensures none { IsNone result ↔ All (λ byte. byte ≡ 0) bytes.now }
    ensures within { IfSome result (λ place. place < length bytes.now) }
    ensures here { IfSome result (λ place. slice_index bytes.now place ≢ 0) }
    ensures before { IfSome result (λ place. (k : ℕ) → k < place → slice_index bytes.now k ≡ 0) }
{
    bytes.iter().position(|byte| *byte != 0)
}

/// How many bytes at the front aren't zero.
fn nonzero_len(bytes: &[u8]) -> usize
    ensures within { result ≤ length bytes.now }
    ensures before { (k : ℕ) → k < result → slice_index bytes.now k ≢ 0 }
    ensures ends { slice_index bytes.now result ≡ 0 }
{
    let at = nonzeros_by_lanes(bytes);
    at + nonzero_len_by_byte(&bytes[at..])
}

/// The same, where one byte is looked at after the other.
fn nonzero_len_by_byte(bytes: &[u8]) -> usize
    ensures within { result ≤ length bytes.now }
    ensures before { (k : ℕ) → k < result → slice_index bytes.now k ≢ 0 }
    ensures ends { slice_index bytes.now result ≡ 0 }
{
    bytes
        .iter()
        .position(|byte| *byte == 0)
        .unwrap_or(bytes.len())
}
