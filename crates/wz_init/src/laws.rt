//! Laws of fresh instances and reached states, for the proofs of other crates. A law is the
//! contract of a function that does nothing.

ghost use Rattle.wz_init.specs.Laws.{FreshIsReached, RunIsReached, StateByBodies};
ghost use Rattle.wz_init.specs.Typed.{FreshIsTyped, RunIsTyped, RunIsNeverStuck};
ghost use Rattle.wz_init.specs.Typed.{FreshIsNeverStuck, ReachedIsNeverStuck};

/// What a valid module's fresh instance holds, and the state that its run reaches: the module's
/// types, functions, kinds and numbers of parts, tables as instantiation left them, segments as
/// they were written or empty, memories of at most 16,384 pages together and none above its
/// maximum, and in each global a value that fits its type and is no reference to something of the
/// host.
pub fn reached_states()
    ensures fresh { FreshIsReached }
    ensures run { RunIsReached }
{
    wz_valid::laws::valid_items();
}

/// A store with the module's bodies in numbered blocks is the state that it is in the module.
pub fn states_by_bodies()
    ensures { StateByBodies }
{}

/// A valid module's fresh instance is typed, and so is the state that its run reaches; and whatever
/// ends a run, it isn't a step without a rule. Here the bytes of data segments are below 256, and
/// the functions of the order are of type [] to [].
pub fn states_are_typed()
    ensures fresh { FreshIsTyped }
    ensures run { RunIsTyped }
    ensures stuck { RunIsNeverStuck }
{
    // what a valid module's items and functions are
    wz_valid::laws::valid_items();
    wz_valid::laws::valid_functions();
    // changes, calls and steps keep the typing, and bring no reference to something of the host
    wz_machine::laws::typed_states();
    wz_machine::laws::typed_terms();
    wz_machine::laws::steps_add_no_references();
}

/// Whatever is done with a valid module's fresh instance, or with the state that its run reaches,
/// no tick comes to a step without a rule.
pub fn sessions_are_never_stuck()
    ensures fresh { FreshIsNeverStuck }
    ensures reached { ReachedIsNeverStuck }
{
    // the states are typed, and from a typed state no move is stuck
    states_are_typed();
    wz_machine::laws::never_stuck();
}
