//! What data segments hold are bytes, by the types of the structs.

ghost use Rattle.std.specs.Prelude.{◌<◌};
ghost use Rattle.std.specs.List.{All};
ghost use Rattle.wz_module.specs.Meaning.{module_of};
ghost use Rattle.wz_init.specs.Typed.{DatasHoldBytes};

use wz_module::{DataSegment, Module};

/// What the type says of each item.
fn items_are_bytes(bytes: &[u8])
    ensures { All (λ byte. byte < 256) bytes.now }
{}

/// What the types say of the items of data segments. Nothing is done, and no item is read.
fn segments_hold_bytes(segments: &[DataSegment<'_>])
    ensures { All (λ segment. All (λ byte. byte < 256) segment.bytes.now) segments.now }
{
    for segment in segments {
        items_are_bytes(segment.bytes);
    }
}

/// What the typing of a module's states stands on.
pub(crate) fn datas_hold_bytes(module: &Module<'_>)
    ensures { DatasHoldBytes (module_of «module».now) }
{
    segments_hold_bytes(module.datas());
}
