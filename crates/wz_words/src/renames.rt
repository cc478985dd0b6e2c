//! The renames that were read so far.

ghost use Rattle.std.specs.Prelude.{◌≡◌, List, [], ◌∷◌, ◌++◌, IfOk, IfErr, OnOk};
ghost use Rattle.wz_words.specs.Views.{AreSound, AddsRename, AddsName};

use crate::options::split_at_sign;
use crate::settings::{Rename, Usage};
use std::alloc::Global;
use std::collections::BTreeSet;
use wz_types::Text;

/// How many bytes the values of all renames may have together.
const RENAMES_LIMIT: usize = 1_048_576;

/// Renames, with the sets of their names.
#[derive(Drop)]
pub struct RenamesSoFar<'w> {
    pub list: Vec<Rename>,
    /// Of all values.
    pub bytes: usize,
    pub names_to: BTreeSet<&'w str>,
    pub names_from: BTreeSet<&'w str>,
}

/// Copies a text.
pub fn copied(alloc: Global, text: &str) -> Result<Text, Usage>
    ensures ok { IfOk result (λ t. t ≡ text.now) }
    ensures err { IfErr result (λ usage. usage ≡ Usage.NoMemory) }
{
    match Text::new(alloc, text) {
        Ok(text) => Ok(text),
        Err(_) => Err(Usage::NoMemory),
    }
}

/// Whether the name is new in the set, which has it then.
fn add_name<'w>(names: &mut BTreeSet<&'w str>, name: &'w str) -> Result<bool, Usage>
    ensures ok { IfOk result (λ added. AddsName names.old name.entry added names.new) }
    ensures err { IfErr result (λ usage. usage ≡ Usage.NoMemory) }
{
    match names.insert(name) {
        Ok(added) => Ok(added),
        Err(_) => Err(Usage::NoMemory),
    }
}

impl<'w> RenamesSoFar<'w> {
    pub fn new(alloc: Global) -> RenamesSoFar<'w>
        ensures sound { AreSound result }
        ensures list { result.list.items ≡ [] }
        ensures bytes { result.bytes ≡ 0 }
    {
        RenamesSoFar {
            list: Vec::new(alloc),
            bytes: 0,
            names_to: BTreeSet::new(alloc),
            names_from: BTreeSet::new(alloc),
        }
    }

    /// Puts a rename behind the others.
    fn push(&mut self, rename: Rename) -> Result<(), Usage>
        ensures ok { OnOk result (self.new.list.items ≡ self.old.list.items ++ rename ∷ []) }
        ensures err { IfErr result (λ usage. usage ≡ Usage.NoMemory) }
        ensures bytes { self.new.bytes ≡ self.old.bytes }
        ensures names_to { self.new.names_to ≡ self.old.names_to }
        ensures names_from { self.new.names_from ≡ self.old.names_from }
    {
        match self.list.push(rename) {
            Ok(()) => Ok(()),
            Err(_) => Err(Usage::NoMemory),
        }
    }

    /// Adds the rename `dst=src`, whose word has this place.
    pub fn add(&mut self, alloc: Global, at: usize, value: &'w str) -> Result<(), Usage>
        requires { AreSound self.old }
        ensures adds { AddsRename self.old at value.now result self.new }
        ensures sound { OnOk result (AreSound self.new) }
    {
        let Some((dst, src)) = split_at_sign(value) else {
            return Err(Usage::BadRename { at });
        };
        if RENAMES_LIMIT - self.bytes < value.len() {
            return Err(Usage::RenamesTooLong { at });
        }
        if !add_name(&mut self.names_to, dst)? {
            return Err(Usage::RenameTwiceTo { at });
        }
        if !add_name(&mut self.names_from, src)? {
            return Err(Usage::RenameTwiceFrom { at });
        }
        self.bytes += value.len();
        let rename = Rename {
            dst: copied(alloc, dst)?,
            src: copied(alloc, src)?,
        };
        self.push(rename)
    }
}
