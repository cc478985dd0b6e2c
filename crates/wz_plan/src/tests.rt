//! Plans of memories, against worked rows, against a slow program that goes by places, and against
//! a search through all cuts.

ghost use Rattle.std.specs.Prelude.{◌+◌, ◌≤◌, ◌^◌, length};

use crate::{Run, Scan, choose, next_run};
use std::alloc::{AllocError, Global};
use std::process::Abort;
use std::test::Fail;

/// The first place and the length of the zeros around a place, where non-zero bytes enclose them.
fn gap_at(bytes: &[u8], place: usize) -> Option<(usize, usize)> {
    let before = bytes.get(..place)?.iter().rposition(|byte| *byte != 0)?;
    let zeros = bytes.get(place..)?.iter().position(|byte| *byte != 0)?;
    if zeros == 0 {
        return None;
    }
    Some((before + 1, place + zeros - (before + 1)))
}

/// Whether fewer than limit - 1 gaps go before this one, which is longer than 8.
fn is_cut(bytes: &[u8], at: usize, len: usize, limit: u32) -> bool {
    let mut before = 0usize;
    for place in 0..bytes.len() {
        if let Some((other, size)) = gap_at(bytes, place) {
            if other == place && (size > len || size == len && other < at) {
                before = before.saturating_add(1);
            }
        }
    }
    len > 8 && before.saturating_add(1) < limit as usize
}

/// Whether a place is written: it isn't zero, or it lies in a gap that isn't cut.
fn is_written(bytes: &[u8], place: usize, limit: u32) -> bool {
    match gap_at(bytes, place) {
        Some((at, len)) => !is_cut(bytes, at, len, limit),
        None => bytes.get(place).is_some_and(|byte| *byte != 0),
    }
}

/// The maximal ranges of places that are written.
fn plan_by_places(alloc: Global, bytes: &[u8], limit: u32) -> Result<Vec<Run>, AllocError>
    requires { length bytes.now ≤ 2 ^ 30 }
{
    let mut ranges: Vec<Run> = Vec::new(alloc);
    let mut follows = false;
    for place in 0..bytes.len() {
        let written = is_written(bytes, place, limit);
        if written && !follows {
            ranges.push(Run {
                at: place as u32,
                len: 1,
            })?;
        } else if written {
            if let Some(last) = ranges.last_mut() {
                last.len = last.len.saturating_add(1);
            }
        }
        follows = written;
    }
    Ok(ranges)
}

/// A memory with gaps of these lengths between non-zero bytes, and a zero at each end.
fn memory_of(alloc: Global, gaps: &[usize]) -> Result<Vec<u8>, AllocError> {
    let mut bytes = vec![in alloc; 0, 7]?;
    for gap in gaps {
        for _ in 0..*gap {
            bytes.push(0)?;
        }
        bytes.push(7)?;
    }
    bytes.push(0)?;
    Ok(bytes)
}

/// Scans a memory in two pieces, chooses, and compares with the slow program.
fn agrees(rt: &impl Abort, alloc: Global, gaps: &[usize], limit: u32) -> Result<(), Fail> {
    let bytes = memory_of(alloc, gaps)?;
    assert!(rt; bytes.len() <= 1_000 && limit >= 1);
    let (front, back) = bytes.split_at(bytes.len() / 2);
    let chosen = chosen_of(alloc, front, back, limit)?;
    let wanted = plan_by_places(alloc, &bytes, limit)?;
    assert_eq!(rt;
        chosen.as_slice(),
        wanted.as_slice(),
        "gaps {gaps:?}, limit {limit}"
    );
    Ok(())
}

#[test]
fn plans_of_small_memories(rt: HostRuntime) -> Result<(), Fail> {
    let table: [(&[usize], u32); 10] = [
        (&[], 1),
        (&[8], 9),
        (&[9], 9),
        (&[9], 1),
        (&[9, 9, 9], 2),
        (&[9, 10, 9], 2),
        (&[0, 8, 9, 8, 0], 2),
        (&[12, 9, 12, 30, 9, 12], 3),
        (&[12, 9, 12, 30, 9, 12], 4),
        (&[12, 9, 12, 30, 9, 12], 7),
    ];
    for (gaps, limit) in table {
        agrees(&rt, rt.alloc(), gaps, limit)?;
    }
    Ok(())
}

/// The gap of 8 is merged, and that of 9 is cut.
#[test]
fn gaps_of_8_and_9(rt: HostRuntime) -> Result<(), Fail> {
    let mut bytes = [0; 24];
    bytes[0] = 1;
    bytes[9] = 1;
    bytes[19] = 1;
    assert_eq!(rt; next_run(&bytes, 0), Some(Run { at: 0, len: 1 }));
    assert_eq!(rt; next_run(&bytes, 10), Some(Run { at: 19, len: 1 }));
    assert_eq!(rt; next_run(&bytes, 20), None);
    let mut scan = Scan::new(rt.alloc());
    scan.push(0, &bytes)?;
    let chosen = choose(rt.alloc(), scan.runs(), 10_000)?;
    assert_eq!(rt;
        chosen.as_slice(),
        [Run { at: 0, len: 10 }, Run { at: 19, len: 1 }].as_slice()
    );
    Ok(())
}

/// Non-zero bytes at 0, 10, 20 up to 199,990 and at 200,091.
fn sparse_memory(alloc: Global) -> Result<Vec<u8>, AllocError> {
    let mut bytes = Vec::new(alloc);
    for place in 0..200_091u32 {
        let byte = if place % 10 == 0 && place <= 199_990 {
            1
        } else {
            0
        };
        bytes.push(byte)?;
    }
    bytes.push(1)?;
    Ok(bytes)
}

/// Scans a memory in two pieces, and chooses among the runs.
fn chosen_of(alloc: Global, front: &[u8], back: &[u8], limit: u32) -> Result<Vec<Run>, AllocError>
    requires some { 1 ≤ limit }
    requires small { length front.now + length back.now ≤ 2 ^ 30 }
{
    let mut scan = Scan::new(alloc);
    scan.push(0, front)?;
    scan.push(front.len() as u32, back)?;
    choose(alloc, scan.runs(), limit)
}

/// One gap more than may be cut: of 19,999 equally long ones, the lowest 9,998 are.
#[test]
fn more_gaps_than_the_limit(rt: HostRuntime) -> Result<(), Fail> {
    let bytes = sparse_memory(rt.alloc())?;
    assert_eq!(rt; bytes.len(), 200_092);
    let (front, back) = bytes.split_at(65_536);
    let chosen = chosen_of(rt.alloc(), front, back, 10_000)?;
    assert_eq!(rt; chosen.len(), 10_000);
    for (i, range) in chosen.iter().enumerate() {
        let wanted = match i {
            9_999 => Run {
                at: 200_091,
                len: 1,
            },
            9_998 => Run {
                at: 99_980,
                len: 100_011,
            },
            _ => Run {
                at: (i as u32).wrapping_mul(10),
                len: 1,
            },
        };
        assert_eq!(rt; *range, wanted, "range {i}");
    }
    Ok(())
}

/// The only non-zero byte at each end of bytes that fill lanes, nearly fill them, or go past them.
#[test]
fn runs_at_the_ends_of_lanes(rt: HostRuntime) -> Result<(), Fail> {
    assert_eq!(rt; next_run(&[], 0), None);
    for len in [1, 63, 64, 65, 128] {
        assert!(rt; len > 0 && len <= 128);
        let mut bytes = Vec::from_elem(rt.alloc(), 0u8, len)?;
        assert_eq!(rt; bytes.len(), len, "{len} bytes");
        assert_eq!(rt; next_run(&bytes, 0), None, "{len} zeros");
        bytes[0] = 7;
        assert_eq!(rt;
            next_run(&bytes, 0),
            Some(Run { at: 0, len: 1 }),
            "first of {len}"
        );
        bytes[0] = 0;
        bytes[len - 1] = 7;
        let at = len as u32 - 1;
        assert_eq!(rt;
            next_run(&bytes, 0),
            Some(Run { at, len: 1 }),
            "last of {len}"
        );
    }
    Ok(())
}

/// What single bytes with these gaps between them cost as segments, and how many ranges they are,
/// where the gaps with a bit in `cuts` are cut.
fn cost_of_cuts(gaps: &[usize], cuts: u32) -> (usize, usize) {
    let mut cost = 9usize;
    let mut ranges = 1usize;
    let mut bits = cuts;
    for gap in gaps {
        if bits % 2 == 1 {
            cost = cost.saturating_add(9);
            ranges = ranges.saturating_add(1);
        } else {
            cost = cost.saturating_add(*gap).saturating_add(1);
        }
        bits /= 2;
    }
    (cost, ranges)
}

/// The least cost of at most so many ranges, and of these the least number, by trying all cuts.
fn least_by_search(gaps: &[usize], limit: u32) -> (usize, usize) {
    let mut least = (usize::MAX, usize::MAX);
    for cuts in 0..16u32 {
        let (cost, ranges) = cost_of_cuts(gaps, cuts);
        let less = cost < least.0 || cost == least.0 && ranges < least.1;
        if ranges <= limit as usize && less {
            least = (cost, ranges);
        }
    }
    least
}

/// What ranges cost as segments.
fn cost_of(ranges: &[Run]) -> usize {
    let mut cost = 0usize;
    for range in ranges {
        cost = cost.saturating_add(range.len as usize).saturating_add(8);
    }
    cost
}

/// Whether a place lies in one of the ranges.
fn is_in_one(ranges: &[Run], place: usize) -> bool {
    for range in ranges {
        let at = range.at as usize;
        if at <= place && place < at.saturating_add(range.len as usize) {
            return true;
        }
    }
    false
}

/// The chosen ranges cover the memory, cost no more than any others, and are no more of them.
fn costs_least(rt: &impl Abort, alloc: Global, gaps: &[usize], limit: u32) -> Result<(), Fail> {
    let bytes = memory_of(alloc, gaps)?;
    assert!(rt; bytes.len() <= 1_000 && limit >= 1);
    let (front, back) = bytes.split_at(bytes.len() / 2);
    let chosen = chosen_of(alloc, front, back, limit)?;
    let (cost, ranges) = least_by_search(gaps, limit);
    assert_eq!(rt;
        cost_of(&chosen),
        cost,
        "cost: gaps {gaps:?}, limit {limit}"
    );
    assert_eq!(rt;
        chosen.len(),
        ranges,
        "ranges: gaps {gaps:?}, limit {limit}"
    );
    for (place, byte) in bytes.iter().enumerate() {
        let covered = *byte == 0 || is_in_one(&chosen, place);
        assert!(rt; covered, "place {place}: gaps {gaps:?}, limit {limit}");
    }
    Ok(())
}

/// Up to five runs with gaps of 7 to 11 between them, every pattern, limits 1 to 5.
#[test]
fn no_choice_costs_less(rt: HostRuntime) -> Result<(), Fail> {
    for pattern in 0..625usize {
        let gaps = [
            7 + pattern % 5,
            7 + pattern / 5 % 5,
            7 + pattern / 25 % 5,
            7 + pattern / 125 % 5,
        ];
        for count in 0..5usize {
            for limit in 1..6u32 {
                costs_least(&rt, rt.alloc(), &gaps[..count], limit)?;
            }
        }
    }
    Ok(())
}
