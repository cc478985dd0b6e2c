//! The ranges of memories that become data segments.

ghost use Rattle.std.specs.Prelude.{◌≡◌, ◌+◌, ◌*◌, ◌/◌, ◌^◌, ◌≤◌, ◌++◌, length, map, IfOk, OnOk};
ghost use Rattle.wz_plan.specs.Scanned.{found_in};
ghost use Rattle.wz_snapshot.specs.Recorded.{chosen_segment, chosen_in, chosen_segments};
ghost use Rattle.wz_store.specs.State.{pages_together};
ghost use Rattle.wz_snapshot.specs.Scanning.{IsScannedTo};

use crate::segment::ChosenSegment;
use std::alloc::{AllocError, Global};
use wz_linear::{Linear, PAGE_SIZE};
use wz_plan::{Run, Scan, choose, laws};
use wz_store::Store;

/// How many data segments are chosen at most.
const SEGMENTS_LIMIT: u32 = 10_000;

/// Looks at one page, unless it is known to hold zeros alone.
fn scan_page<M: Linear>(
    scan: &mut Scan,
    memory: &M,
    page: u32,
    buffer: &mut [u8],
) -> Result<(), AllocError>
    requires scanned { IsScannedTo (M.contents memory.now) (page * PAGE_SIZE) scan.old }
    requires there { (page + 1) * PAGE_SIZE ≤ length (M.contents memory.now) }
    requires small { length (M.contents memory.now) ≤ 2 ^ 30 }
    requires buffer { length buffer.old ≡ PAGE_SIZE }
    ensures scanned { OnOk result
        (IsScannedTo (M.contents memory.now) ((page + 1) * PAGE_SIZE) scan.new) }
    ensures buffer { length buffer.new ≡ PAGE_SIZE }
{
    if memory.untouched(page) {
        return Ok(());
    }
    let at = page * PAGE_SIZE;
    let _within = memory.read_into(u64::from(at), buffer);
    scan.push(at, buffer)
}

/// Finds the runs of non-zero bytes of a memory, page by page.
fn scan_memory<M: Linear>(alloc: Global, memory: &M) -> Result<Scan, AllocError>
    requires { length (M.contents memory.now) / PAGE_SIZE ≤ 16384 }
    ensures { IfOk result (λ scan. scan.runs ≡ (found_in (M.contents memory.now)).runs) }
{
    // zeros behind what was shown add no run
    laws::plan_by_scan();
    let mut scan = Scan::new(alloc);
    let mut buffer = vec![in alloc; 0u8; PAGE_SIZE as usize]?;
    for page in 0..memory.size_pages() {
        scan_page(&mut scan, memory, page, &mut buffer)?;
    }
    Ok(scan)
}

/// Adds ranges of the memory of this number.
fn add_ranges(
    segments: &mut Vec<ChosenSegment>,
    memory: u32,
    ranges: &[Run],
) -> Result<(), AllocError>
    ensures { OnOk result
        (segments.new.items ≡ segments.old.items ++ map (chosen_segment memory) ranges.now) }
{
    for range in ranges {
        segments.push(ChosenSegment {
            memory,
            at: range.at,
            len: range.len,
        })?;
    }
    Ok(())
}

/// Adds the ranges planned for the memory of this number.
fn add_memory<M: Linear>(
    alloc: Global,
    segments: &mut Vec<ChosenSegment>,
    number: u32,
    memory: &M,
    limit: u32,
) -> Result<(), AllocError>
    requires some { 1 ≤ limit }
    requires small { length (M.contents memory.now) / PAGE_SIZE ≤ 16384 }
    ensures { OnOk result
        (segments.new.items ≡
        segments.old.items ++ chosen_in limit number (M.contents memory.now)) }
{
    let scan = scan_memory(alloc, memory)?;
    let ranges = choose(alloc, scan.runs(), limit)?;
    add_ranges(segments, number, &ranges)
}

/// The ranges planned for all memories, each with its share of the limit.
pub(crate) fn planned_segments<M: Linear>(
    alloc: Global,
    store: &Store<'_, M>,
) -> Result<Vec<ChosenSegment>, AllocError>
    requires few { length store.now.memories ≤ 100 }
    requires small { pages_together store.now.memories ≤ 16384 }
    ensures { IfOk result (λ segments. segments.items ≡ chosen_segments store.now.memories) }
{
    let mut segments = Vec::new(alloc);
    let count = store.memory_count();
    for number in 0..count {
        if let Some(memory) = store.memory(number) {
            let limit = SEGMENTS_LIMIT / count;
            add_memory(alloc, &mut segments, number, memory, limit)?;
        }
    }
    Ok(segments)
}
