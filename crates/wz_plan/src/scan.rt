//! A scan of a memory for its runs, in pieces.

ghost use Rattle.std.specs.Prelude.{◌≡◌, ℕ, ◌+◌, ◌^◌, ◌<◌, ◌≤◌, ◌++◌, [], List, length, nat_lt, IfSome, OnOk, OnErr};
ghost use Rattle.wz_plan.specs.Ranges.{RisesFrom, EndsBy, longest_merged, shortest_cut};
ghost use Rattle.wz_plan.specs.Collected.{KeepsFront, last_gap};
ghost use Rattle.wz_plan.specs.Plan.{runs_at};
ghost use Rattle.wz_plan.specs.Scanned.{Found, found_in, found_after, followed_at, merged};

use crate::ranges::{add, gap_before};
use crate::{Run, next_run};
use std::alloc::{AllocError, Global};
use std::marker::Model;

/// The longest gap between two runs that is written along with them.
const LONGEST_MERGED: u32 = 8;

/// What was found in the bytes of a memory so far.
///
/// Contracts see it as the runs, with gaps of up to 8 bytes merged, and the place behind the bytes
/// that were pushed. Bytes that are never pushed count as zero. It takes memory for these runs
/// alone.
#[derive(Drop)]
pub struct Scan {
    runs: Vec<Run>,
    end: u32,
}

impl Model for Scan {
    ghost use Rattle.wz_plan.specs.Scanned.{Found, IsScan};

    ghost Value = { Found };

    ghost view = { λ scan. record { runs = scan.runs.items; end = scan.end } };

    ghost invariant = { λ scan. IsScan record { runs = scan.runs.items; end = scan.end } };
}

impl Scan {
    pub fn new(alloc: Global) -> Scan
        ensures { result ≡ found_in [] }
    {
        Scan {
            runs: Vec::new(alloc),
            end: 0,
        }
    }

    /// Looks at more bytes, which stand at `at`.
    pub fn push(&mut self, at: u32, bytes: &[u8]) -> Result<(), AllocError>
        requires behind { self.old.end ≤ at }
        requires small { at + length bytes.now ≤ 2 ^ 30 }
        ensures found { OnOk result (self.new ≡ found_after self.old at bytes.now) }
        ensures together { OnOk result ((before : List ℕ) → self.old ≡ found_in before
            → self.new ≡ found_in (followed_at before at bytes.now)) }
        ensures refused { OnErr result (self.new ≡ self.old) }
    {
        push_runs(&mut self.runs, at, bytes)?;
        self.end = at + bytes.len() as u32;
        Ok(())
    }

    /// The runs so far, with gaps of up to 8 bytes merged.
    pub fn runs(&self) -> &[Run]
        ensures found { result.now ≡ self.now.runs }
        ensures apart { RisesFrom shortest_cut 0 result.now }
        ensures ends { EndsBy (2 ^ 30) result.now }
    {
        self.runs.as_slice()
    }
}

/// Adds the runs of bytes that stand at `at`, or none of them.
fn push_runs(runs: &mut Vec<Run>, at: u32, bytes: &[u8]) -> Result<(), AllocError>
    requires apart { RisesFrom shortest_cut 0 runs.old.items }
    requires ends { EndsBy at runs.old.items }
    requires small { at + length bytes.now ≤ 2 ^ 30 }
    ensures merged { OnOk result
        (runs.new.items ≡ merged (runs.old.items ++ runs_at at bytes.now)) }
    ensures ends { OnOk result (EndsBy (at + length bytes.now) runs.new.items) }
    ensures refused { OnErr result (runs.new.items ≡ runs.old.items) }
{
    let kept = runs.len();
    let last = runs.last().copied();
    let added = add_runs(runs, at, bytes);
    if added.is_err() {
        runs.truncate(kept);
        if let Some(run) = last {
            runs[kept - 1] = run;
        }
    }
    added
}

/// Adds the runs of bytes that stand at `at`, as far as memory serves.
fn add_runs(runs: &mut Vec<Run>, at: u32, bytes: &[u8]) -> Result<(), AllocError>
    requires apart { RisesFrom shortest_cut 0 runs.old.items }
    requires ends { EndsBy at runs.old.items }
    requires small { at + length bytes.now ≤ 2 ^ 30 }
    ensures merged { OnOk result
        (runs.new.items ≡ merged (runs.old.items ++ runs_at at bytes.now)) }
    ensures ends { OnOk result (EndsBy (at + length bytes.now) runs.new.items) }
    ensures front { KeepsFront runs.old.items runs.new.items }
{
    let mut from = 0;
    while let Some(found) = next_run(bytes, from) {
        from = found.end() as usize;
        let run = Run {
            at: at + found.at,
            len: found.len,
        };
        let cut = is_apart(runs, run);
        add(runs, run, cut)?;
    }
    Ok(())
}

/// Whether the gap between the last of the ranges and a run behind them is too long to be merged.
fn is_apart(ranges: &[Run], run: Run) -> bool
    requires { EndsBy run.at ranges.now }
    ensures { IfSome (last_gap ranges.now run) (λ gap. result ≡ nat_lt longest_merged gap.len) }
{
    match gap_before(ranges, run) {
        Some(gap) => gap.len > LONGEST_MERGED,
        None => true,
    }
}
