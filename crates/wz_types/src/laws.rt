//! Laws of the tests on types and values, for the proofs of other crates.
//! A law is the contract of a function that does nothing.

ghost use Rattle.wz_types.specs.Laws.{SameType, SameKind, SameTypes, SameFunctionType};
ghost use Rattle.wz_types.specs.Laws.{FitsExactly, AllFitHaveTypes, ZeroFits, ZerosFit};

/// The tests by which definitions decide whether two types are one are equality.
pub fn same_types_are_equal()
    ensures type_ { SameType }
    ensures kind { SameKind }
    ensures types { SameTypes }
    ensures function_type { SameFunctionType }
{}

/// A value fits a type exactly where it has that type, a number's bits are those of its width, and
/// the function that a reference names is there. So an i32 of 2^32 is none.
pub fn what_fits()
    ensures exactly { FitsExactly }
    ensures all { AllFitHaveTypes }
{}

/// The default value of a type fits it.
pub fn default_values_fit()
    ensures one { ZeroFits }
    ensures all { ZerosFit }
{}
