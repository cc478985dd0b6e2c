//! Laws of trees, of bodies that are being built and of the tables, for the proofs of other crates.
//!
//! A law is the contract of a function that does nothing. A proof that wants it as a term takes it
//! from `proofs.LawLemmas`, where each has a name.

ghost use Rattle.wz_code.specs.Accesses.{NamesAccess, AccessNamed};
ghost use Rattle.wz_code.specs.Numeric.{NamesOperation, OperationNamed};
ghost use Rattle.wz_code.specs.Laws.{TreeOfBlock, CodeAtStart, CodeAtInstr, CodeAtEnd};
ghost use Rattle.wz_code.specs.Laws.{JoinedEnd, JoinedAssoc, TimesAppend, TimesHere, NotTimes};
ghost use Rattle.wz_code.specs.Laws.{StartsBuilding, HeldIsThere, TakingInstr, TakingBlock};
ghost use Rattle.wz_code.specs.Laws.{TakingLabel, TakingType, TakingPools, TakingLocals};
ghost use Rattle.wz_code.specs.Laws.{CountsInstr, CountsBlock, CountsLabel, CountsType};
ghost use Rattle.wz_code.specs.Laws.{CountsLocals, ShortByCount};

/// A block's tree is its instructions in order, each with the trees of the blocks that it names.
#[tactic(auto, using(crate::proofs::LawLemmas::tree_of_block))]
pub fn tree_of_block()
    ensures { TreeOfBlock }
{}

/// The code at a place of a block: all of the block at its start, an instruction and what follows
/// it, nothing at its end.
pub fn code_at_place()
    ensures start { CodeAtStart }
    ensures instr { CodeAtInstr }
    ensures end { CodeAtEnd }
{}

/// Code is joined as lists are.
pub fn code_is_joined()
    ensures end { JoinedEnd }
    ensures assoc { JoinedAssoc }
{}

/// How often a number stands in lists that are put together.
pub fn numbers_are_counted()
    ensures append { TimesAppend }
    ensures here { TimesHere }
    ensures none { NotTimes }
{}

/// A new builder holds block 0 back, and what is held back is there.
pub fn building()
    ensures starts { StartsBuilding }
    ensures held { HeldIsThere }
{}

/// What an added item does to the trees, and to the blocks that nothing names yet.
pub fn building_takes()
    ensures instr { TakingInstr }
    ensures block { TakingBlock }
    ensures label { TakingLabel }
    ensures type_ { TakingType }
    ensures pools { TakingPools }
    ensures locals { TakingLocals }
{}

/// Each added item counts one, and a body of fewer than 2^32 - 1 items has short lists.
pub fn items_are_counted()
    ensures instr { CountsInstr }
    ensures block { CountsBlock }
    ensures label { CountsLabel }
    ensures type_ { CountsType }
    ensures locals { CountsLocals }
    ensures short { ShortByCount }
{}

/// What the tables read backwards name is what has the opcode.
pub fn opcodes_name_rows()
    ensures names { NamesOperation }
    ensures named { OperationNamed }
    ensures names_access { NamesAccess }
    ensures access_named { AccessNamed }
{}
