//! Exports and renames by their names.

ghost use Rattle.std.specs.Prelude.{◌≡◌, ℕ, List, IfOk};
ghost use Rattle.std.specs.HashSet.{contains_by};
ghost use Rattle.std.specs.Str.{bytes_eq};
ghost use Rattle.wz_module.specs.Views.{export_of};
ghost use Rattle.std.specs.Prelude.{map};
ghost use Rattle.wz_words.specs.Faults.{renames_to};
ghost use Rattle.wz_exports.specs.Answers.{HasTargets, HasNewNames};

use std::alloc::{AllocError, Global};
use std::collections::{HashMap, HashSet};
use wz_module::{Export, ExportTarget};
use wz_words::Rename;

/// What exports give out, by their names.
pub(crate) type Targets<'m> = HashMap<&'m str, ExportTarget>;

/// The new names that renames ask for, by the names of the exports.
pub(crate) type NewNames<'s> = HashMap<&'s str, &'s str>;

/// Of exports with one name, the first stands in the map.
pub(crate) fn targets_by_name<'m>(
    alloc: Global,
    exports: &[Export<'m>],
) -> Result<Targets<'m>, AllocError>
    ensures { IfOk result (λ targets. HasTargets targets (map export_of exports.now)) }
{
    let mut targets = HashMap::new(alloc);
    for done in 0..exports.len() {
        let export = &exports[exports.len() - 1 - done];
        targets.insert(export.name, export.target)?;
    }
    Ok(targets)
}

/// Of renames of one export, the first stands in the map.
pub(crate) fn new_names<'s>(
    alloc: Global,
    renames: &'s [Rename],
) -> Result<NewNames<'s>, AllocError>
    ensures { IfOk result (λ names. HasNewNames names renames.now) }
{
    let mut names = HashMap::new(alloc);
    for done in 0..renames.len() {
        let rename = &renames[renames.len() - 1 - done];
        let src = rename.src.as_str();
        let dst = rename.dst.as_str();
        names.insert(src, dst)?;
    }
    Ok(names)
}

/// The names that renames give.
pub(crate) fn names_given<'s>(
    alloc: Global,
    renames: &'s [Rename],
) -> Result<HashSet<&'s str>, AllocError>
    ensures { IfOk result (λ names. (q : List ℕ) →
        contains_by (λ k. bytes_eq q k.now) names ≡ renames_to q renames.now) }
{
    let mut names = HashSet::new(alloc);
    for done in 0..renames.len() {
        let rename = &renames[renames.len() - 1 - done];
        names.insert(rename.dst.as_str())?;
    }
    Ok(names)
}
