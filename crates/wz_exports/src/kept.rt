//! The kept exports.

ghost use Rattle.std.specs.Prelude.{◌≡◌, ◌++◌, ◌∷◌, [], length, slice_get, option_map, Option};
ghost use Rattle.std.specs.Prelude.{None, IsNone, IfSome, OnOk};
ghost use Rattle.std.specs.List.{All};
ghost use Rattle.wz_exports.specs.Names.{target_named};

use indexmap::IndexMap;
use std::alloc::{AllocError, Global};
use std::marker::Model;
use wz_module::ExportTarget;

/// The exports of the output in their order, and the functions that run.
///
/// An export is found by its name in constant time.
#[derive(Drop)]
pub struct Kept {
    exports: IndexMap<String, ExportTarget>,
    function: u32,
    reactor: Option<u32>,
}

impl Model for Kept {
    ghost use Rattle.wz_exports.specs.Kept.{KeptExports};
    ghost use Rattle.wz_exports.specs.Listed.{exports_in};

    ghost Value = { KeptExports };

    ghost view = { λ k. record {
      entries = exports_in k.exports.entries;
      function = k.function;
      reactor = k.reactor;
    } };
}

impl Kept {
    ghost use Rattle.wz_module.specs.Exports.{Export};

    /// No export yet.
    pub(crate) fn new(alloc: Global, function: u32, reactor: Option<u32>) -> Kept
        ensures { result ≡ record { entries = []; function = function; reactor = reactor } }
    {
        Kept {
            exports: IndexMap::new(alloc),
            function,
            reactor,
        }
    }

    /// Adds an export behind the others, under a name that none of them has.
    pub(crate) fn add(
        &mut self,
        alloc: Global,
        name: &str,
        target: ExportTarget,
    ) -> Result<(), AllocError>
        requires { target_named name.now self.old.entries ≡ None }
        ensures { let e : Export = record { name = name.now; target = target } in OnOk result
            (self.new ≡ record self.old { entries = self.old.entries ++ e ∷ [] }) }
    {
        let name = String::from_str(alloc, name)?;
        self.exports.insert(name, target)?;
        Ok(())
    }

    /// How many exports there are.
    pub fn len(&self) -> usize
        ensures { result ≡ length self.now.entries }
    {
        self.exports.len()
    }

    /// The export of a place, by its name and what it gives out.
    pub fn entry(&self, at: usize) -> Option<(&str, ExportTarget)>
        ensures { option_map (λ e. record { name = e.0.now; target = e.1 }) result ≡
            slice_get self.now.entries at }
    {
        let (name, target) = self.exports.get_index(at)?;
        Some((name.as_str(), *target))
    }

    /// What the export of a name gives out.
    pub fn find(&self, name: &str) -> Option<ExportTarget>
        ensures { result ≡ target_named name.now self.now.entries }
    {
        self.exports.get(name).copied()
    }

    /// The function that is run ahead of time.
    pub fn function(&self) -> u32
        ensures { result ≡ self.now.function }
    {
        self.function
    }

    /// The function that runs before it, where there is one.
    pub fn reactor(&self) -> Option<u32>
        ensures { result ≡ self.now.reactor }
    {
        self.reactor
    }
}
