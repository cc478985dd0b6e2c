//! Laws of typing, for the proofs of other crates. A law is the contract of a function that does
//! nothing.

ghost use Rattle.wz_valid_code.specs.Laws.{BlocksOfTree, TreeOfBlocks, TypingServes, TypedHasWidth, ConstantHasWidth};
ghost use Rattle.wz_valid_code.specs.Widening.{TypingWidens, ConstantWidens};

/// A block's tree is typed where its own instructions are, each block that they name taken by its
/// type, and each of those blocks is; and the other way.
pub fn tree_and_blocks()
    ensures blocks { BlocksOfTree }
    ensures tree { TreeOfBlocks }
{
    // the tree of a block is its instructions, each with the trees of the blocks that it names
    wz_code::laws::tree_of_block();
}

/// Typing rests only on the types of what can be named: not on sizes, values or what was dropped,
/// nor on how many globals are imported; and it stays where more functions may be referred to.
pub fn typing_serves()
    ensures { TypingServes }
{}

/// Typing stays, of code and of constant expressions, where element and data segments are added and
/// the functions that may be referred to are others, if each that the code refers to is among them.
pub fn typing_widens()
    ensures typing { TypingWidens }
    ensures constant { ConstantWidens }
{}

/// A constant that has a typing has its width: an i32 of 2^32 has none, though a tree in a clause
/// may hold it.
pub fn constants_have_width()
    ensures typed { TypedHasWidth }
    ensures constant { ConstantHasWidth }
{}
