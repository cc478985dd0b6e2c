//! What stands in the output's data section.

ghost use Rattle.std.specs.Prelude.{◌≡◌, ◌∷◌, ◌++◌, List, map, IfOk, OnOk};
ghost use Rattle.wz_module.specs.Views.{data_of};
ghost use Rattle.wz_encode.specs.Views.{slot_of};
ghost use Rattle.wz_encode.specs.Datas.{Slot};
ghost use Rattle.wz_snapshot.specs.declared.segment.ChosenSegment.{ChosenSegment as Segment};
ghost use Rattle.wz_rewrite.specs.Slots.{passive_slot, head_slot, slots_at, slots_from};

use crate::dropped::is_empty_at;
use std::alloc::{AllocError, Global};
use wz_encode::DataSlot;
use wz_module::{DataMode, DataSegment};
use wz_snapshot::ChosenSegment;

/// The place of a passive segment that is empty or not in the state.
fn passive_slot(bytes: &[u8], empty: bool) -> DataSlot<'_>
    ensures { slot_of result ≡ passive_slot bytes.now empty }
{
    if !bytes.is_empty() && empty {
        DataSlot::Nothing
    } else {
        DataSlot::Passive(bytes)
    }
}

/// A chosen range as an active segment.
fn head_slot(segment: ChosenSegment) -> DataSlot<'static>
    ensures { slot_of result ≡ head_slot segment }
{
    DataSlot::Head {
        memory: segment.memory,
        at: segment.at,
        len: segment.len,
    }
}

/// What stands in the place of a segment, and which of the chosen ranges are left.
fn next_slot<'a, 'c>(
    segment: &DataSegment<'a>,
    empty: bool,
    chosen: &'c [ChosenSegment],
) -> (DataSlot<'a>, &'c [ChosenSegment])
    ensures { let d = data_of segment.now in (others : List Segment → List Slot)
        → slots_at d.mode d.bytes empty chosen.now others ≡ slot_of result.0 ∷ others result.1.now }
{
    match segment.mode {
        DataMode::Passive => (passive_slot(segment.bytes, empty), chosen),
        DataMode::Active { .. } => match chosen {
            [] => (DataSlot::Nothing, chosen),
            [first, left @ ..] => (head_slot(*first), left),
        },
    }
}

/// Adds the chosen ranges that are left.
fn add_heads(slots: &mut Vec<DataSlot<'_>>, chosen: &[ChosenSegment]) -> Result<(), AllocError>
    ensures { OnOk result (map slot_of slots.new.items ≡
        map slot_of slots.old.items ++ map head_slot chosen.now) }
{
    for segment in chosen {
        slots.push(head_slot(*segment))?;
    }
    Ok(())
}

/// The slots of the output's data section. Marks say which segments are empty in the state.
pub(crate) fn slots<'a>(
    alloc: Global,
    segments: &[DataSegment<'a>],
    marks: &[bool],
    chosen: &[ChosenSegment],
) -> Result<Vec<DataSlot<'a>>, AllocError>
    ensures { IfOk result (λ slots. map slot_of slots.items ≡
        slots_from marks.now 0 (map data_of segments.now) chosen.now) }
{
    let mut slots = Vec::new(alloc);
    let mut left = chosen;
    for (number, segment) in segments.iter().enumerate() {
        let (slot, rest) = next_slot(segment, is_empty_at(marks, number), left);
        slots.push(slot)?;
        left = rest;
    }
    add_heads(&mut slots, left)?;
    Ok(slots)
}
