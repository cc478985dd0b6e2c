//! Ranges in rising order that are merged while they are collected.

ghost use Rattle.std.specs.Prelude.{◌≡◌, ◌+◌, ◌^◌, ◌<◌, ◌≤◌, OnOk, OnErr};
ghost use Rattle.wz_plan.specs.Ranges.{end_of, EndsBy};
ghost use Rattle.wz_plan.specs.Collected.{last_gap, added, KeepsFront};

use crate::Run;
use std::alloc::AllocError;

/// The gap between the last of the ranges and a run behind them.
pub(crate) fn gap_before(ranges: &[Run], run: Run) -> Option<Run>
    requires { EndsBy run.at ranges.now }
    ensures { result ≡ last_gap ranges.now run }
{
    let at = ranges.last()?.end();
    Some(Run {
        at,
        len: run.at - at,
    })
}

/// Puts a run behind ranges: as one more where the gap between them is cut, and else as the end of
/// the last one.
pub(crate) fn add(ranges: &mut Vec<Run>, run: Run, cut: bool) -> Result<(), AllocError>
    requires behind { EndsBy run.at ranges.old.items }
    requires fits { end_of run < 2 ^ 32 }
    ensures added { OnOk result (ranges.new.items ≡ added (λ _. cut) ranges.old.items run) }
    ensures ends { OnOk result (EndsBy (end_of run) ranges.new.items) }
    ensures front { OnOk result (KeepsFront ranges.old.items ranges.new.items) }
    ensures refused { OnErr result (ranges.new.items ≡ ranges.old.items) }
{
    match ranges.len().checked_sub(1) {
        Some(last) if !cut => ranges[last] = ranges[last].up_to(run),
        _ => ranges.push(run)?,
    }
    Ok(())
}
