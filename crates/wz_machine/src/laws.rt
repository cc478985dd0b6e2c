//! Laws of steps and of sessions, for the proofs of other crates. A law is the contract of a
//! function that does nothing.

ghost use Rattle.wz_machine.specs.Contexts.{StepWithin, FramesWithin, LocalsWithin};
ghost use Rattle.wz_machine.specs.Flat.{PlainStep, LocalStep, OpeningStep};
ghost use Rattle.wz_machine.specs.Flat.{LeavingTerm, LoopingTerm};
ghost use Rattle.wz_machine.specs.Laws.{LeafReads, StepReads, MemoryGrowthReads, TableGrowthReads};
ghost use Rattle.wz_machine.specs.Laws.{ChangeKeeps, ChangeReachesState, StepAddsNone, StepNames};
ghost use Rattle.wz_machine.specs.Laws.{LeafSame, StepSame, ObservesSame, TypedNames, ContextLasts};
ghost use Rattle.wz_machine.specs.References.{TakesOwn, is_own, StepAddsNoReference};
ghost use Rattle.wz_machine.specs.References.{ChangeAddsNoReference, EntryAddsNoReference};
ghost use Rattle.wz_machine.specs.References.{PutAddsNoReference};
ghost use Rattle.wz_machine.specs.TypedLaws.{ChangeKeepsTyping, ContentsKeepTyping};
ghost use Rattle.wz_machine.specs.TypedLaws.{EntryIsTyped, StepKeepsTyping};
ghost use Rattle.wz_machine.specs.TypedLaws.{ContentNeverSticks, MoveKeepsTyping};
ghost use Rattle.wz_machine.specs.TypedLaws.{TypedIsNotStuck, NeverStuck};
ghost use Rattle.wz_machine.specs.TypedStores.{ValidFunctionsAreTyped};

/// What an instruction or a step does rests on nothing of the state but types, functions and what
/// it names; growth looks at the present size and the maximum alone.
#[tactic(auto, using(crate::proofs::ReadLemmas::leaf_reads, crate::proofs::ReadLemmas::step_reads))]
pub fn steps_read()
    ensures leaf { LeafReads }
    ensures step { StepReads }
    ensures memory { MemoryGrowthReads }
    ensures table { TableGrowthReads }
{}

/// What no change of the state touches; and a change of a store is the change of its state.
pub fn steps_write()
    ensures kept { ChangeKeeps }
    ensures store { ChangeReachesState }
{}

/// A step comes to no instructions but those of its term and of the functions, so it names no
/// more segments.
pub fn steps_add_no_code()
    ensures code { StepAddsNone }
    ensures segments { StepNames }
{}

/// Where null and the instance's own functions pass a test of references, a step puts none
/// anywhere that fails it, if there was none before; nor does a change, a call or an answer. The
/// test that references of the host fail is such a test.
pub fn steps_add_no_references()
    ensures steps { StepAddsNoReference }
    ensures changes { ChangeAddsNoReference }
    ensures entries { EntryAddsNoReference }
    ensures answers { PutAddsNoReference }
    ensures own { TakesOwn is_own }
{}

/// More segments than are named change no step, and nothing that is seen of an instance.
pub fn more_segments_are_not_seen()
    ensures leaf { LeafSame }
    ensures step { StepSame }
    ensures session { ObservesSame }
{}

/// A step of what stands in a context of labels and frames is a step of the whole term.
#[tactic(auto, using(crate::proofs::ContextLemmas::step_within))]
pub fn steps_within()
    ensures { StepWithin }
{}

/// How many frames and locals a term has, by what stands around its innermost code.
pub fn frames_within()
    ensures frames { FramesWithin }
    ensures locals { LocalsWithin }
{}

/// A step of the innermost block of flat stacks is a step of the term that they stand for.
pub fn flat_steps()
    ensures plain { PlainStep }
    ensures local { LocalStep }
    ensures opening { OpeningStep }
{}

/// What is left of flat stacks where a block or a call was left, or a branch leads to a loop, is
/// the term that the step comes to.
pub fn flat_terms()
    ensures leaving { LeavingTerm }
    ensures looping { LoopingTerm }
{}

/// The functions of a typed state name no segment that isn't there, and the context in which it
/// is typed is the same after each change. What changes it keeps it typed, and so do other bytes in
/// a memory; and functions that are valid in their module are typed in the state that a store and
/// the module's bodies are.
pub fn typed_states()
    ensures segments { TypedNames }
    ensures context { ContextLasts }
    ensures changes { ChangeKeepsTyping }
    ensures contents { ContentsKeepTyping }
    ensures functions { ValidFunctionsAreTyped }
{}

/// A call gives a typed term; a step of a typed term keeps the typing, and whatever stands in its
/// labels and frames has a rule.
pub fn typed_terms()
    ensures entries { EntryIsTyped }
    ensures steps { StepKeepsTyping }
    ensures contents { ContentNeverSticks }
{
    // a numeric operation answers operands of its types
    wz_num::laws::operands_are_served();
}

/// Any move from outside keeps the typing, and no typed term is stuck; so no list of moves from a
/// typed state meets a step without a rule.
pub fn never_stuck()
    ensures moves { MoveKeepsTyping }
    ensures steps { TypedIsNotStuck }
    ensures sessions { NeverStuck }
{
    // a numeric operation answers operands of its types
    wz_num::laws::operands_are_served();
}
