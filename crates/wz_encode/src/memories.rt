//! The payload of a memory section (Core Specification 2.0, section 5.5.8).

ghost use Rattle.std.specs.Prelude.{◌≡◌, ◌++◌, length, take, OnOk, OnErr};
ghost use Rattle.wz_encode.specs.Limits.{memory_type_text, memories_text};

use crate::append::all_or_nothing;
use std::alloc::AllocError;
use wz_bytes::put_unsigned;
use wz_types::MemType;

/// Appends the payload of a memory section.
pub fn put_memories(out: &mut Vec<u8>, memories: &[MemType]) -> Result<(), AllocError>
    ensures ok { OnOk result (out.new.items ≡ out.old.items ++ memories_text memories.now) }
    ensures err { OnErr result (out.new.items ≡ out.old.items) }
{
    let start = out.len();
    let appended = append_memories(out, memories);
    all_or_nothing(out, start, appended)
}

fn append_memories(out: &mut Vec<u8>, memories: &[MemType]) -> Result<(), AllocError>
    ensures ok { OnOk result (out.new.items ≡ out.old.items ++ memories_text memories.now) }
    ensures err { OnErr result (take (length out.old.items) out.new.items ≡ out.old.items) }
{
    put_unsigned(out, memories.len() as u64)?;
    for memory in memories {
        append_memory_type(out, *memory)?;
    }
    Ok(())
}

fn append_memory_type(out: &mut Vec<u8>, kind: MemType) -> Result<(), AllocError>
    ensures ok { OnOk result (out.new.items ≡ out.old.items ++ memory_type_text kind) }
    ensures err { OnErr result (take (length out.old.items) out.new.items ≡ out.old.items) }
{
    match kind.limits.max {
        None => {
            out.push(0x00)?;
            put_unsigned(out, u64::from(kind.limits.min))
        }
        Some(max) => {
            out.push(0x01)?;
            put_unsigned(out, u64::from(kind.limits.min))?;
            put_unsigned(out, u64::from(max))
        }
    }
}
