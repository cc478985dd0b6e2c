//! Faults of code, as those of items.

ghost use Rattle.std.specs.Prelude.{◌≡◌};
ghost use Rattle.wz_decode_sections.specs.Faults.{item_fault_of};

use wz_bytes::ItemFault;
use wz_decode_code::CodeFault;

/// A fault of code, as that of an item.
pub(crate) fn item_fault(fault: CodeFault) -> ItemFault
    ensures { result ≡ item_fault_of fault }
{
    match fault {
        CodeFault::Bad => ItemFault::Bad,
        CodeFault::NoMemory => ItemFault::NoMemory,
    }
}
