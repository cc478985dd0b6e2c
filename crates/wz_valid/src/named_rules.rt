//! The rules of items that name others: exports and the start (Core Specification 2.0, sections
//! 3.4.7 and 3.4.8).

ghost use Rattle.std.specs.Prelude.{MatchBool};
ghost use Rattle.wz_module.specs.Meaning.{module_of};
ghost use Rattle.wz_valid.specs.Items.{IsTarget, IsStartOk};
ghost use Rattle.wz_valid.specs.Checking.{IsContextOf, TellsItem, AreNamesNew, AreItemsBeforeOk};
ghost use Rattle.wz_valid.specs.declared.faults.Part.TheVariants as part;

use crate::checker::Checker;
use wz_module::ExportTarget;

/// Whether an export names something that is there.
fn is_target(checker: &Checker<'_, '_>, target: ExportTarget) -> bool
    requires { IsContextOf (module_of checker.now.module.now) checker.now.context }
    ensures { let there = IsTarget (module_of checker.now.module.now) target in
        MatchBool result there (there → ⊥) }
{
    let context = &checker.context;
    match target {
        ExportTarget::Func(index) => (index as usize) < context.functions.len(),
        ExportTarget::Table(index) => (index as usize) < context.tables.len(),
        ExportTarget::Memory(index) => index < context.memories,
        ExportTarget::Global(index) => (index as usize) < context.globals.len(),
    }
}

pub fn is_export_ok(checker: &Checker<'_, '_>, index: usize) -> bool
    requires says { IsContextOf (module_of checker.now.module.now) checker.now.context }
    requires names { AreNamesNew (module_of checker.now.module.now) checker.now.new_names }
    requires before { AreItemsBeforeOk (module_of checker.now.module.now) part.Export index }
    ensures { TellsItem (module_of checker.now.module.now) part.Export index result }
{
    if index >= checker.new_names {
        return false;
    }
    match checker.module.exports().get(index) {
        Some(export) => is_target(checker, export.target),
        None => false,
    }
}

/// Whether a function is there, without parameters and results.
fn takes_nothing(checker: &Checker<'_, '_>, function: u32) -> bool
    requires { IsContextOf (module_of checker.now.module.now) checker.now.context }
    ensures { let fine = IsStartOk (module_of checker.now.module.now) function in
        MatchBool result fine (fine → ⊥) }
{
    match checker.context.function_type(function) {
        Some(kind) => kind.params.is_empty() && kind.results.is_empty(),
        None => false,
    }
}

pub fn is_start_ok(checker: &Checker<'_, '_>, index: usize) -> bool
    requires { IsContextOf (module_of checker.now.module.now) checker.now.context }
    ensures { TellsItem (module_of checker.now.module.now) part.Start index result }
{
    match checker.module.start() {
        Some(function) => index == 0 && takes_nothing(checker, function),
        None => false,
    }
}
