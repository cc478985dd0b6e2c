//! Laws of valid modules, for the proofs of other crates. A law is the contract of a function that
//! does nothing.

ghost use Rattle.wz_valid.specs.Laws.{StartTakesNothing, ExportsAreThere, GlobalsAreOk};
ghost use Rattle.wz_valid.specs.Laws.{ElementsAreOk};
ghost use Rattle.wz_valid.specs.Laws.{DatasAreOk, TypesAreThere, BodiesAreTyped, DeclaredAreThere};
ghost use Rattle.wz_valid.specs.Laws.{FirstIsOne, ValidHasNone, InsideIsNotOutside};

/// What each item of a valid module is.
pub fn valid_items()
    ensures start { StartTakesNothing }
    ensures exports { ExportsAreThere }
    ensures globals { GlobalsAreOk }
    ensures elements { ElementsAreOk }
    ensures datas { DatasAreOk }
{}

/// A valid module's functions have types and typed bodies, and each function that its globals,
/// element segments and exports name is there.
pub fn valid_functions()
    ensures types { TypesAreThere }
    ensures bodies { BodiesAreTyped }
    ensures declared { DeclaredAreThere }
{}

/// A module is valid or has a first item that isn't ok, and just one such; and what is within the
/// profile isn't outside.
pub fn one_cause()
    ensures first { FirstIsOne }
    ensures valid { ValidHasNone }
    ensures profile { InsideIsNotOutside }
{}
