//! What holds of the spellings of code, whatever reads them: the contract of each function is a
//! law, and its body is empty.

ghost use Rattle.wz_decode_code.specs.Laws.{OneExpression, OneEntry, ExpressionIsExact, EntryIsExact, ValTypeIsExact, RefKindIsExact};

/// Bytes have at most one expression in front of them, and a code entry's bytes spell at most one
/// function.
pub fn at_most_one()
    ensures expression { OneExpression }
    ensures entry { OneEntry }
{}

/// The reading as a function, which contracts of readers cite, gives just what the bytes spell.
pub fn reading_is_exact()
    ensures expression { ExpressionIsExact }
    ensures entry { EntryIsExact }
    ensures type_ { ValTypeIsExact }
    ensures kind { RefKindIsExact }
{}
