//! Sections with their size, and the data count (Core Specification 2.0, sections 5.5.2, 5.5.15).

ghost use Rattle.std.specs.Prelude.{◌≡◌, ◌++◌, length, take, OnOk, OnErr};
ghost use Rattle.wz_bytes.specs.Shortest.{shortest_unsigned};
ghost use Rattle.wz_encode.specs.SectionText.{section_text};

use crate::append::all_or_nothing;
use std::alloc::AllocError;
use wz_bytes::put_unsigned;

/// Appends a section of this id with these contents.
pub fn put_section(out: &mut Vec<u8>, id: u8, payload: &[u8]) -> Result<(), AllocError>
    ensures ok { OnOk result (out.new.items ≡ out.old.items ++ section_text id payload.now) }
    ensures err { OnErr result (out.new.items ≡ out.old.items) }
{
    let start = out.len();
    let appended = append_section(out, id, payload);
    all_or_nothing(out, start, appended)
}

fn append_section(out: &mut Vec<u8>, id: u8, payload: &[u8]) -> Result<(), AllocError>
    ensures ok { OnOk result (out.new.items ≡ out.old.items ++ section_text id payload.now) }
    ensures err { OnErr result (take (length out.old.items) out.new.items ≡ out.old.items) }
{
    out.push(id)?;
    put_unsigned(out, payload.len() as u64)?;
    out.extend_from_slice(payload)
}

/// Appends the payload of a data count section.
pub fn put_count(out: &mut Vec<u8>, count: u32) -> Result<(), AllocError>
    ensures ok { OnOk result (out.new.items ≡ out.old.items ++ shortest_unsigned count) }
    ensures err { OnErr result (out.new.items ≡ out.old.items) }
{
    put_unsigned(out, u64::from(count))
}
