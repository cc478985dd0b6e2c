//! The choice of the gaps that are cut.

ghost use Rattle.std.specs.Prelude.{◌≡◌, ℕ, ◌+◌, ◌-◌, ◌^◌, ◌≤◌, List, length, nat_lt, IfSome, IfOk};
ghost use Rattle.wz_plan.specs.declared.runs.Run.{Run as TheRun};
ghost use Rattle.wz_plan.specs.Ranges.{RisesFrom, EndsBy, gaps, shortest_cut};
ghost use Rattle.wz_plan.specs.Plan.{goes_before, rank, chosen, plan};
ghost use Rattle.wz_plan.specs.Least.{IsLeast};
ghost use Rattle.wz_plan.specs.Scanned.{found_in};
ghost use Rattle.wz_plan.specs.Collected.{cuts_gap, last_gap};

use crate::Run;
use crate::ranges::{add, gap_before};
use std::alloc::{AllocError, Global};

/// Which gaps are cut.
#[derive(Clone, Copy)]
enum Cuts {
    Every,
    NoGap,
    /// This one, and each that goes before it.
    UpTo(Run),
}

/// The ranges that are left of the runs where the limit - 1 longest gaps are cut, of equally long
/// ones the lower first, and all others are merged: at most as many ranges as the limit, and of
/// all that cover the memory those that cost least.
pub fn choose(alloc: Global, runs: &[Run], limit: u32) -> Result<Vec<Run>, AllocError>
    requires some { 1 ≤ limit }
    requires apart { RisesFrom shortest_cut 0 runs.now }
    requires ends { EndsBy (2 ^ 30) runs.now }
    ensures chosen { IfOk result (λ ranges. ranges.items ≡ chosen runs.now limit) }
    ensures few { IfOk result (λ ranges. length ranges.items ≤ limit) }
    ensures plan { IfOk result (λ ranges. (bytes : List ℕ) → runs.now ≡ (found_in bytes).runs
        → ranges.items ≡ plan bytes limit) }
    ensures least { IfOk result (λ ranges. (bytes : List ℕ) → runs.now ≡ (found_in bytes).runs
        → IsLeast bytes limit ranges.items) }
{
    let cuts = cuts_of(alloc, runs, limit - 1)?;
    let mut ranges = Vec::new(alloc);
    for run in runs {
        let cut = is_cut_before(cuts, &ranges, *run);
        add(&mut ranges, *run, cut)?;
    }
    Ok(ranges)
}

/// Which gaps are cut where only so many may be.
fn cuts_of(alloc: Global, runs: &[Run], count: u32) -> Result<Cuts, AllocError>
    requires apart { RisesFrom shortest_cut 0 runs.now }
    requires ends { EndsBy (2 ^ 30) runs.now }
    ensures { IfOk result (λ cuts. (gap : TheRun) →
        cuts_gap cuts gap ≡ nat_lt (rank (gaps runs.now) gap) count) }
{
    let Some(last) = (count as usize).checked_sub(1) else {
        return Ok(Cuts::NoGap);
    };
    let mut order = gaps_of(alloc, runs)?;
    if last >= order.len() {
        return Ok(Cuts::Every);
    }
    order.sort_by(|gap, other| other.len.cmp(&gap.len).then(gap.at.cmp(&other.at)))?;
    Ok(Cuts::UpTo(order[last]))
}

/// The gaps between the runs, from the lowest.
fn gaps_of(alloc: Global, runs: &[Run]) -> Result<Vec<Run>, AllocError>
    requires apart { RisesFrom shortest_cut 0 runs.now }
    requires ends { EndsBy (2 ^ 30) runs.now }
    ensures { IfOk result (λ found. found.items ≡ gaps runs.now) }
{
    let mut found = Vec::new(alloc);
    for i in 1..runs.len() {
        let at = runs[i - 1].end();
        found.push(Run {
            at,
            len: runs[i].at - at,
        })?;
    }
    Ok(found)
}

/// Whether the gap between the last of the ranges and a run behind them is cut.
fn is_cut_before(cuts: Cuts, ranges: &[Run], run: Run) -> bool
    requires { EndsBy run.at ranges.now }
    ensures { IfSome (last_gap ranges.now run) (λ gap. result ≡ cuts_gap cuts gap) }
{
    match (gap_before(ranges, run), cuts) {
        (Some(gap), Cuts::UpTo(last)) => !goes_before(last, gap),
        (_, Cuts::NoGap) => false,
        _ => true,
    }
}

/// Whether a gap is cut before another.
fn goes_before(gap: Run, other: Run) -> bool
    ensures { result ≡ goes_before gap other }
{
    gap.len > other.len || gap.len == other.len && gap.at < other.at
}
