//! What holds of runs, scans and plans, for proofs of the crates above.
//!
//! These functions do nothing: what they ensure speaks of lists of bytes alone.

ghost use Rattle.wz_plan.specs.Laws.{FindsMore, ZerosAddNothing, ChoiceIsPlan};
ghost use Rattle.wz_plan.specs.Laws.{RunsAreNonzero, RunsRise, RunsCover};
ghost use Rattle.wz_plan.specs.Laws.{PlanCovers, PlanRises, PlanIsWithin, PlanIsTight, PlanIsFew};
ghost use Rattle.wz_plan.specs.Laws.{PlanIsLeast};

/// Scans of bytes in several pieces, and the choice among what a scan found.
pub fn plan_by_scan()
    ensures more { FindsMore }
    ensures zeros { ZerosAddNothing }
    ensures choice { ChoiceIsPlan }
{}

/// The runs are the maximal ranges of non-zero bytes.
pub fn runs_of_bytes()
    ensures nonzero { RunsAreNonzero }
    ensures rise { RunsRise }
    ensures cover { RunsCover }
{}

/// The ranges of a plan, and what they hold.
pub fn ranges_of_plan()
    ensures covers { PlanCovers }
    ensures rises { PlanRises }
    ensures within { PlanIsWithin }
    ensures tight { PlanIsTight }
    ensures few { PlanIsFew }
{}

/// No ranges that cover the bytes cost less than a plan.
pub fn cost_of_plan()
    ensures least { PlanIsLeast }
{}
