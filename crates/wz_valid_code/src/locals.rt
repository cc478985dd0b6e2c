//! A function's locals, kept as runs of one type each.

ghost use Rattle.std.specs.Prelude.{◌≡◌, ◌++◌, ◌<◌, ◌^◌, slice_get, length, IfOk};
ghost use Rattle.wz_valid_code.specs.Context.{locals_of_runs};
ghost use Rattle.wz_valid_code.specs.Runs.{ends_of, run_of_place, Rise};

use std::alloc::{AllocError, Global};
use std::marker::Model;
use wz_types::ValType;

/// The parameters, and behind them the runs of locals, each so many of one type. It takes memory in
/// proportion to the number of runs, and finds a local by halving them.
#[derive(Drop)]
pub struct Locals<'c> {
    params: &'c [ValType],
    runs: &'c [(u32, ValType)],
    ends: Vec<u64>,
}

impl<'c> Model for Locals<'c> {
    ghost use Rattle.std.specs.Prelude.{◌≡◌, ◌++◌, List};
    ghost use Rattle.wz_types.specs.declared.types.ValType.{ValType};
    ghost use Rattle.wz_valid_code.specs.Context.{locals_of_runs};
    ghost use Rattle.wz_valid_code.specs.Runs.{ends_of};

    ghost Value = { List ValType };

    ghost view = { λ l. l.params.now ++ locals_of_runs l.runs.now };

    ghost invariant = { λ l. l.ends.items ≡ ends_of 0 l.runs.now };
}

/// The first run that ends behind this place.
fn find_run(ends: &[u64], place: u64) -> usize
    requires { Rise ends.now }
    ensures { result ≡ run_of_place place ends.now }
{
    let mut low = 0;
    let mut high = ends.len();
    while low < high {
        let middle = low + (high - low) / 2;
        if ends[middle] <= place {
            low = middle + 1;
        } else {
            high = middle;
        }
    }
    low
}

/// Where each run ends.
fn ends_of(alloc: Global, runs: &[(u32, ValType)]) -> Result<Vec<u64>, AllocError>
    requires { length runs.now < 2 ^ 32 }
    ensures { IfOk result (λ ends. ends.items ≡ ends_of 0 runs.now) }
{
    let mut ends = Vec::new(alloc);
    let mut end = 0u64;
    for run in runs {
        end += u64::from(run.0);
        ends.push(end)?;
    }
    Ok(ends)
}

/// The type of the local at a place behind the parameters.
fn type_of_place(ends: &[u64], runs: &[(u32, ValType)], place: u64) -> Option<ValType>
    requires { ends.now ≡ ends_of 0 runs.now }
    ensures { result ≡ slice_get (locals_of_runs runs.now) place }
{
    let at = find_run(ends, place);
    if at < runs.len() {
        Some(runs[at].1)
    } else {
        None
    }
}

impl<'c> Locals<'c> {
    pub fn new(
        alloc: Global,
        params: &'c [ValType],
        runs: &'c [(u32, ValType)],
    ) -> Result<Locals<'c>, AllocError>
        requires { length runs.now < 2 ^ 32 }
        ensures { IfOk result (λ locals. locals ≡ params.now ++ locals_of_runs runs.now) }
    {
        let ends = ends_of(alloc, runs)?;
        Ok(Locals { params, runs, ends })
    }

    pub fn get(&self, index: u32) -> Option<ValType>
        ensures { result ≡ slice_get self.now index }
    {
        let index = index as usize;
        if index < self.params.len() {
            return Some(self.params[index]);
        }
        let place = (index - self.params.len()) as u64;
        type_of_place(self.ends.as_slice(), self.runs, place)
    }
}
