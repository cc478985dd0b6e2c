//! What holds of the chosen data segments, for the proofs of the crates above.
//!
//! This function does nothing: what it ensures speaks of lists alone.

ghost use Rattle.wz_snapshot.specs.Laws.{ChosenAreFew, ChosenAreRanges};

/// There are at most 10,000 chosen segments, and each is a range of a memory that is there.
pub fn chosen_segments()
    ensures few { ChosenAreFew }
    ensures ranges { ChosenAreRanges }
{
    // a plan has at most as many ranges as its limit, within the bytes, none of them empty
    wz_plan::laws::ranges_of_plan();
}
