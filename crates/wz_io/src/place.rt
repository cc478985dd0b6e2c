//! Changes of one place, each with its own contract.

ghost use Rattle.std.specs.Prelude.{◌≡◌, ◌≤◌};
ghost use Rattle.wz_io.specs.World.{Rose};

/// Puts a value in the place of another, which is let go.
pub fn put<T: Drop>(place: &mut T, next: T)
    ensures { place.new ≡ next }
{
    *place = next;
}

/// Counts a fault; the count stands still at its last value.
pub fn count_fault(faults: &mut u64)
    ensures rose { Rose faults.old faults.new }
    ensures later { faults.old ≤ faults.new }
{
    *faults = faults.saturating_add(1);
}
