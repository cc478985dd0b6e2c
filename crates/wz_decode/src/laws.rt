//! What holds of the spellings of modules, whatever reads or writes them: the contract of each
//! function is a law, and its body is empty.

ghost use Rattle.wz_decode.specs.Laws.{OneModule, OneFrontOfSections};
ghost use Rattle.wz_decode.specs.Laws.{CauseIsOne, SpelledHasNone, WholeIsFront, FrontIsWhole};

/// Bytes spell at most one module.
#[tactic(auto, using(crate::proofs::OneModule::one_module))]
pub fn at_most_one()
    ensures { OneModule }
{}

/// Bytes have at most one front of so many sections.
#[tactic(auto, using(crate::proofs::OneModule::one_front_of_sections))]
pub fn at_most_one_front()
    ensures { OneFrontOfSections }
{}

/// Bytes have at most one cause why they spell no module, at one place; and where they spell one,
/// there is none.
pub fn one_cause()
    ensures one { CauseIsOne }
    ensures spelled { SpelledHasNone }
{}

/// All of the bytes are a front of so many sections exactly where they are the sections of a
/// module, so `IsBadSection` and `HasBadCounts` speak of the same fronts.
pub fn whole_is_front()
    ensures front { WholeIsFront }
    ensures whole { FrontIsWhole }
{}
