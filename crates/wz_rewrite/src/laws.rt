//! What holds of the output, whatever writes it: the contract of each function is a law, and its
//! body is empty.

ghost use Rattle.wz_rewrite.specs.Laws.{PiecesAreOutput, PiecesAreChosen, PiecesAreKept};
ghost use Rattle.wz_rewrite.specs.Laws.{OutputSpells, InputSpellsElements, InputIsInOrder};
ghost use Rattle.wz_rewrite.specs.ValidOutput.{StateHasTypes, OutputIsValid, HasNoStartSection};

/// The pieces, with each range read from its memory, are the output's bytes; their ranges are the
/// chosen ones; and what they have of the input is just the contents that stay.
pub fn pieces_are_output()
    ensures bytes { PiecesAreOutput }
    ensures ranges { PiecesAreChosen }
    ensures kept { PiecesAreKept }
{}

/// The output as bytes spells the output as a module.
pub fn output_is_spelled()
    ensures { OutputSpells }
{}

/// A module that was read is what `prepare` asks for: its element section spells its element
/// segments, and its sections are in order.
pub fn input_is_spelled()
    ensures elements { InputSpellsElements }
    ensures order { InputIsInOrder }
{}

/// The output of a valid module within the profile is one too. It has the kept exports, and
/// nothing runs when it starts: of no module does the output have a start section.
pub fn output_is_valid()
    ensures valid { OutputIsValid }
    ensures sections { HasNoStartSection }
{
    // each function that a body names is named elsewhere in the output, or declared anew
    wz_exports::laws::references_are_found();
}

/// What is recorded of a state is what a valid output asks for, where the state's globals and
/// memories have the module's types: values that fit, none of them the host's, and sizes within
/// the maxima and the profile.
pub fn state_has_types()
    ensures { StateHasTypes }
{}
