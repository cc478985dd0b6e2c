//! Which exports are kept, and which functions run.

ghost use Rattle.std.specs.Prelude.{◌≡◌, ◌≢◌, ◌⊎◌, List, ℕ, [], ◌++◌, None, IfSome, AllPairs, map};
ghost use Rattle.std.specs.Prelude.{option_copied, Ok, Err, Some, IfOk, IfErr, OnOk};
ghost use Rattle.std.specs.HashSet.{contains_by};
ghost use Rattle.std.specs.Str.{bytes_eq};
ghost use Rattle.wz_module.specs.Meaning.{module_of};
ghost use Rattle.wz_module.specs.Views.{export_of};
ghost use Rattle.wz_words.specs.Settings.{settings_of};
ghost use Rattle.wz_words.specs.Faults.{renames_to};
ghost use Rattle.wz_exports.specs.Names.{target_named};
ghost use Rattle.wz_exports.specs.Kept.{function_named, reactor_in, leaves, kept_name};
ghost use Rattle.wz_exports.specs.Kept.{kept_exports, under_name};
ghost use Rattle.wz_exports.specs.Kept.{misnamed_at, first_misnamed, kept};
ghost use Rattle.wz_exports.specs.Answers.{IsAnsweredAs, Refuses, HasTargets, HasNewNames};
ghost use Rattle.wz_exports.specs.declared.fault.ExportFault.TheVariants.{NoMemory};

use crate::fault::ExportFault;
use crate::kept::Kept;
use crate::names::{NewNames, Targets, names_given, new_names, targets_by_name};
use crate::signatures::takes_nothing;
use std::alloc::{AllocError, Global};
use std::collections::HashSet;
use wz_module::{Export, ExportTarget, Module};
use wz_types::Text;
use wz_words::Settings;

/// The name of the function that a reactor runs first.
const REACTOR: &str = "_initialize";

/// The function that the export of a name gives out, where that may run by itself.
fn function_named(
    alloc: Global,
    module: &Module<'_>,
    targets: &Targets<'_>,
    name: &str,
) -> Result<u32, ExportFault>
    requires { HasTargets targets.now (module_of «module».now).exports }
    ensures { IsAnsweredAs result (function_named (module_of «module».now) name.now) }
{
    let target = targets.get(name).copied();
    let name = Text::new(alloc, name)?;
    match target {
        None => Err(ExportFault::NoInit { name }),
        Some(ExportTarget::Func(index)) => {
            if takes_nothing(module, index) {
                Ok(index)
            } else {
                Err(ExportFault::InitType { name })
            }
        }
        Some(ExportTarget::Table(_) | ExportTarget::Memory(_) | ExportTarget::Global(_)) => {
            Err(ExportFault::InitNotFunction { name })
        }
    }
}

/// The reactor's function, where it runs.
fn reactor_in(
    alloc: Global,
    module: &Module<'_>,
    targets: &Targets<'_>,
    settings: &Settings,
) -> Result<Option<u32>, ExportFault>
    requires { HasTargets targets.now (module_of «module».now).exports }
    ensures { IsAnsweredAs result (reactor_in (module_of «module».now) (settings_of settings.now)) }
{
    if !settings.reactor {
        return Ok(None);
    }
    let function = function_named(alloc, module, targets, REACTOR)?;
    Ok(Some(function))
}

/// Whether the export of a name leaves because a function that ran was named by it.
fn leaves(settings: &Settings, name: &str) -> bool
    ensures { result ≡ leaves (settings_of settings.now) name.now }
{
    !settings.keep_init
        && (name == settings.function.as_str() || settings.reactor && name == REACTOR)
}

/// Looks whether the export of a name may be renamed.
fn check_rename(
    alloc: Global,
    settings: &Settings,
    target: Option<ExportTarget>,
    src: &str,
) -> Result<(), ExportFault>
    ensures { Refuses result (misnamed_at (settings_of settings.now) src.now target) }
{
    let name = Text::new(alloc, src)?;
    match target {
        None => Err(ExportFault::RenameMissing { src: name }),
        Some(ExportTarget::Func(_)) => {
            if leaves(settings, src) {
                Err(ExportFault::RenameInit { src: name })
            } else {
                Ok(())
            }
        }
        Some(ExportTarget::Table(_) | ExportTarget::Memory(_) | ExportTarget::Global(_)) => {
            Err(ExportFault::RenameNotFunction { src: name })
        }
    }
}

/// Looks at the renames in the order of the words.
fn check_renames(
    alloc: Global,
    settings: &Settings,
    exports: &[Export<'_>],
    targets: &Targets<'_>,
) -> Result<(), ExportFault>
    requires { HasTargets targets.now (map export_of exports.now) }
    ensures { let s = settings_of settings.now in
        Refuses result (first_misnamed s (map export_of exports.now) s.renames) }
{
    for rename in &settings.renames {
        let src = rename.src.as_str();
        let target = targets.get(src).copied();
        check_rename(alloc, settings, target, src)?;
    }
    Ok(())
}

/// The name that the export of a name has in the output, if it stays.
pub(crate) fn kept_name<'a>(
    settings: &Settings,
    names: &NewNames<'a>,
    given: &HashSet<&'a str>,
    name: &'a str,
) -> Option<&'a str>
    requires names { HasNewNames names.now (settings_of settings.now).renames }
    requires given { (q : List ℕ) →
        contains_by (λ k. bytes_eq q k.now) given.now
        ≡ renames_to q (settings_of settings.now).renames }
    ensures { option_copied result ≡ kept_name (settings_of settings.now) name.now }
{
    if leaves(settings, name) {
        return None;
    }
    match names.get(name) {
        Some(new) => Some(*new),
        None if given.contains(name) => None,
        None => Some(name),
    }
}

/// Adds an export under its name in the output, if it stays.
fn add_export(
    alloc: Global,
    kept: &mut Kept,
    name: Option<&str>,
    target: ExportTarget,
) -> Result<(), AllocError>
    requires { IfSome name (λ n. target_named n.now kept.old.entries ≡ None) }
    ensures { OnOk result (kept.new ≡ record kept.old {
      entries = kept.old.entries ++ under_name target (option_copied name.entry);
    }) }
{
    match name {
        Some(name) => kept.add(alloc, name, target),
        None => Ok(()),
    }
}

/// Adds the exports that stay, each in its place.
fn add_exports(
    alloc: Global,
    kept: &mut Kept,
    settings: &Settings,
    exports: &[Export<'_>],
) -> Result<(), AllocError>
    requires names { AllPairs (λ x y. x.name ≢ y.name) (map export_of exports.now) }
    requires renames { AllPairs (λ x y. x.dst ≢ y.dst) (settings_of settings.now).renames }
    requires none { kept.old.entries ≡ [] }
    ensures { OnOk result (kept.new ≡ record kept.old {
      entries = kept_exports (settings_of settings.now) (map export_of exports.now);
    }) }
{
    let names = new_names(alloc, &settings.renames)?;
    let given = names_given(alloc, &settings.renames)?;
    for export in exports {
        let name = kept_name(settings, &names, &given, export.name);
        add_export(alloc, kept, name, export.target)?;
    }
    Ok(())
}

/// The exports of the output and the functions that run; or the first fault, where the function
/// that is to run is looked at first, then the reactor's, and then the renames in their order.
///
/// # Errors
///
/// The fault, exactly where there is one; or `NoMemory`.
pub fn keep(alloc: Global, module: &Module<'_>, settings: &Settings) -> Result<Kept, ExportFault>
    requires names { AllPairs (λ x y. x.name ≢ y.name) (module_of «module».now).exports }
    requires renames { AllPairs (λ x y. x.dst ≢ y.dst) (settings_of settings.now).renames }
    ensures kept { IfOk result
        (λ k. kept (module_of «module».now) (settings_of settings.now) ≡ Ok k) }
    ensures fault { IfErr result (λ f. (f ≡ NoMemory)
        ⊎ (kept (module_of «module».now) (settings_of settings.now) ≡ Err f)) }
    ensures distinct { IfOk result (λ k. AllPairs (λ x y. x.name ≢ y.name) k.entries) }
{
    let exports = module.exports();
    let targets = targets_by_name(alloc, exports)?;
    let function = function_named(alloc, module, &targets, settings.function.as_str())?;
    let reactor = reactor_in(alloc, module, &targets, settings)?;
    check_renames(alloc, settings, exports, &targets)?;
    let mut kept = Kept::new(alloc, function, reactor);
    add_exports(alloc, &mut kept, settings, exports)?;
    Ok(kept)
}
