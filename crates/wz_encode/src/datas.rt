//! The entries of a data section (Core Specification 2.0, section 5.5.14).

ghost use Rattle.std.specs.Prelude.{◌≡◌, ◌++◌, length, take, OnOk, OnErr};
ghost use Rattle.wz_encode.specs.Vectors.{bytes_text};
ghost use Rattle.wz_encode.specs.Datas.{active_text, slot_text, HeadSlot};
ghost use Rattle.wz_encode.specs.Views.{slot_of};

use crate::append::all_or_nothing;
use crate::globals::append_constant_expression;
use std::alloc::AllocError;
use wz_bytes::put_unsigned;
use wz_types::Value;

/// What stands in the place of a data segment.
#[derive(Clone, Copy, Debug, PartialEq, Eq)]
pub enum DataSlot<'a> {
    /// A passive segment with its bytes.
    Passive(&'a [u8]),
    /// A passive segment without bytes.
    Nothing,
    /// What an active segment has in front of its bytes: its memory, its address and how many bytes
    /// follow, which the caller writes behind it.
    Head { memory: u32, at: u32, len: u32 },
}

/// Appends one entry of a data section, or what it has in front of its bytes.
pub fn put_data(out: &mut Vec<u8>, slot: DataSlot<'_>) -> Result<(), AllocError>
    ensures ok { OnOk result (out.new.items ≡ out.old.items ++ slot_text (slot_of slot.entry)) }
    ensures err { OnErr result (out.new.items ≡ out.old.items) }
{
    let start = out.len();
    let appended = append_data(out, slot);
    all_or_nothing(out, start, appended)
}

fn append_data(out: &mut Vec<u8>, slot: DataSlot<'_>) -> Result<(), AllocError>
    ensures ok { OnOk result (out.new.items ≡ out.old.items ++ slot_text (slot_of slot.entry)) }
    ensures err { OnErr result (take (length out.old.items) out.new.items ≡ out.old.items) }
{
    match slot {
        DataSlot::Passive(bytes) => {
            out.push(0x01)?;
            put_unsigned(out, bytes.len() as u64)?;
            out.extend_from_slice(bytes)
        }
        DataSlot::Nothing => out.extend_from_slice(&[0x01, 0x00]),
        DataSlot::Head { memory, at, len } => append_head(out, memory, at, len),
    }
}

fn append_head(out: &mut Vec<u8>, memory: u32, at: u32, len: u32) -> Result<(), AllocError>
    ensures ok { OnOk result (out.new.items ≡ out.old.items ++ slot_text (HeadSlot memory at len)) }
    ensures err { OnErr result (take (length out.old.items) out.new.items ≡ out.old.items) }
{
    append_active(out, memory)?;
    append_constant_expression(out, Value::I32(at))?;
    put_unsigned(out, u64::from(len))
}

/// The flag of an active segment, with its memory where that isn't the first.
fn append_active(out: &mut Vec<u8>, memory: u32) -> Result<(), AllocError>
    ensures ok { OnOk result (out.new.items ≡ out.old.items ++ active_text memory) }
    ensures err { OnErr result (take (length out.old.items) out.new.items ≡ out.old.items) }
{
    if memory == 0 {
        out.push(0x00)?;
        return Ok(());
    }
    out.push(0x02)?;
    put_unsigned(out, u64::from(memory))
}
