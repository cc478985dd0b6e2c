//! What holds of the spellings of numbers and names, whatever reads or writes them: the contract of
//! each function is a law, and its body is empty.

ghost use Rattle.wz_bytes.specs.Laws.{UnsignedIsExact, SignedIsExact, NameIsExact};
ghost use Rattle.wz_bytes.specs.Laws.{OneUnsigned, OneSigned, OneName};
ghost use Rattle.wz_bytes.specs.Laws.{UnsignedIsBounded, SignedIsBounded, UnsignedIsShort, SignedIsShort};
ghost use Rattle.wz_bytes.specs.Laws.{UnsignedIsShortest, SignedIsShortest, NameIsSpelled};
ghost use Rattle.wz_bytes.specs.Laws.{OneUnsignedOfEachLength, OneSignedOfEachLength};
ghost use Rattle.wz_bytes.specs.Laws.{UnsignedIsReadAgain, SignedIsReadAgain, NameIsReadAgain};

/// The reading as a function, which contracts of readers cite, gives just what the bytes spell.
pub fn reading_is_exact()
    ensures unsigned { UnsignedIsExact }
    ensures signed { SignedIsExact }
    ensures name { NameIsExact }
{}

/// Bytes have at most one number of a width and at most one name in front of them, with its length.
pub fn at_most_one()
    ensures unsigned { OneUnsigned }
    ensures signed { OneSigned }
    ensures name { OneName }
{}

/// A spelling's value lies within the width, and its length within the width's groups of seven
/// bits.
pub fn spelling_is_bounded()
    ensures unsigned { UnsignedIsBounded }
    ensures signed { SignedIsBounded }
    ensures unsigned_length { UnsignedIsShort }
    ensures signed_length { SignedIsShort }
{}

/// What is written spells the number at each width that holds it; no spelling is shorter, and no
/// other is as short.
pub fn written_is_shortest()
    ensures unsigned { UnsignedIsShortest }
    ensures signed { SignedIsShortest }
    ensures only_unsigned { OneUnsignedOfEachLength }
    ensures only_signed { OneSignedOfEachLength }
    ensures name { NameIsSpelled }
{}

/// What is written is read again, whatever follows it.
pub fn written_is_read_again()
    ensures unsigned { UnsignedIsReadAgain }
    ensures signed { SignedIsReadAgain }
    ensures name { NameIsReadAgain }
{}
