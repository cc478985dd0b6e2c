//! Several pieces, of which all are appended or none.

ghost use Rattle.std.specs.Prelude.{◌≡◌, take, OnOk, OnErr};

use std::alloc::AllocError;

/// Takes back what was appended from `start` on, where not all of it could be.
pub(crate) fn all_or_nothing(
    out: &mut Vec<u8>,
    start: usize,
    appended: Result<(), AllocError>,
) -> Result<(), AllocError>
    ensures same { result ≡ appended }
    ensures ok { OnOk result (out.new.items ≡ out.old.items) }
    ensures err { OnErr result (out.new.items ≡ take start out.old.items) }
{
    if appended.is_err() {
        out.truncate(start);
    }
    appended
}
