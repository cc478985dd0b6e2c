//! The entries of an export section (Core Specification 2.0, section 5.5.10).

ghost use Rattle.std.specs.Prelude.{◌≡◌, ◌++◌, length, take, OnOk, OnErr};
ghost use Rattle.wz_encode.specs.Exports.{target_text, export_text};

use crate::append::all_or_nothing;
use std::alloc::AllocError;
use wz_bytes::put_unsigned;
use wz_module::ExportTarget;

/// Appends one entry of an export section.
pub fn put_export(out: &mut Vec<u8>, name: &str, target: ExportTarget) -> Result<(), AllocError>
    ensures ok { OnOk result (out.new.items ≡ out.old.items ++ export_text name.now target) }
    ensures err { OnErr result (out.new.items ≡ out.old.items) }
{
    let start = out.len();
    let appended = append_export(out, name, target);
    all_or_nothing(out, start, appended)
}

fn append_export(out: &mut Vec<u8>, name: &str, target: ExportTarget) -> Result<(), AllocError>
    ensures ok { OnOk result (out.new.items ≡ out.old.items ++ export_text name.now target) }
    ensures err { OnErr result (take (length out.old.items) out.new.items ≡ out.old.items) }
{
    put_unsigned(out, name.len() as u64)?;
    out.extend_from_slice(name.as_bytes())?;
    append_target(out, target)
}

fn append_target(out: &mut Vec<u8>, target: ExportTarget) -> Result<(), AllocError>
    ensures ok { OnOk result (out.new.items ≡ out.old.items ++ target_text target) }
    ensures err { OnErr result (take (length out.old.items) out.new.items ≡ out.old.items) }
{
    let (kind, index) = match target {
        ExportTarget::Func(index) => (0x00, index),
        ExportTarget::Table(index) => (0x01, index),
        ExportTarget::Memory(index) => (0x02, index),
        ExportTarget::Global(index) => (0x03, index),
    };
    out.push(kind)?;
    put_unsigned(out, u64::from(index))
}
