//! What holds of the payloads of sections, whatever reads or writes them: the contract of each
//! function is a law, and its body is empty.

ghost use Rattle.wz_decode_sections.specs.Laws.{OnePayload, ElementsFollowCount, SpansAreOfAll};

/// A payload holds at most one list of items, or one number.
#[tactic(auto, using(crate::proofs::PayloadLaws::one_payload))]
pub fn at_most_one()
    ensures { OnePayload }
{}

/// An element payload is a spelling of the number of its segments, and then their bytes in order;
/// spans are those of all segments.
#[tactic(auto, using(crate::proofs::PayloadLaws::elements_follow_count))]
pub fn elements_are_split()
    ensures count { ElementsFollowCount }
    ensures spans { SpansAreOfAll }
{}
