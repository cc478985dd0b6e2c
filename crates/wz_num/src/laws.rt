//! Laws of the numeric operations, for the proofs of other crates.
//! A law is the contract of a function that does nothing.

ghost use Rattle.wz_num.specs.Laws.{NumbersServe};
ghost use Rattle.wz_num.specs.Laws.{SignsAreExact, QuotientsAreExact, BitsAreExact};
ghost use Rattle.wz_num.specs.Laws.{LeadingZerosAreExact, TrailingZerosAreExact, OnesAreExact};

/// Operands that fit the types that an operation takes are never stuck: they give a value that fits
/// its result's type, trap, or ask.
#[tactic(auto, using(crate::proofs::ServeLemmas::numbers_serve))]
pub fn operands_are_served()
    ensures { NumbersServe }
{}

/// The words of std in the definitions are those of the standard: the signed interpretation,
/// division towards zero, the three operations bit by bit, and the counts of zeros and ones.
pub fn words_are_exact()
    ensures signs { SignsAreExact }
    ensures quotients { QuotientsAreExact }
    ensures bits { BitsAreExact }
    ensures leading_zeros { LeadingZerosAreExact }
    ensures trailing_zeros { TrailingZerosAreExact }
    ensures ones { OnesAreExact }
{}
