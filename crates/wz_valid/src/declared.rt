//! The functions of which bodies may make references (Core Specification 2.0, section 3.4.10):
//! those that occur in globals, element segments and exports.

ghost use Rattle.std.specs.Prelude.{OnOk, IfOk, map};
ghost use Rattle.std.specs.List.{flat_map};
ghost use Rattle.wz_code.specs.References.{AddsFunctions, referred_in};
ghost use Rattle.wz_module.specs.Meaning.{module_of};
ghost use Rattle.wz_module.specs.Views.{export_of, global_of};
ghost use Rattle.wz_module.specs.References.{exported_function};
ghost use Rattle.wz_valid.specs.DeclaredFunctions.{HaveSameNumbers, declared_in};

use std::alloc::{AllocError, Global};
use std::collections::BTreeSet;
use wz_module::{
    Export, GlobalDef, Module, add_exported_function, add_referred_in_body,
    add_referred_in_segments,
};

fn add_globals(globals: &[GlobalDef], declared: &mut BTreeSet<u32>) -> Result<(), AllocError>
    ensures { let more = flat_map (λ g. referred_in g.init) (map global_of globals.now) in
        OnOk result (AddsFunctions declared.old.keys declared.new.keys more) }
{
    for global in globals {
        add_referred_in_body(&global.init, declared)?;
    }
    Ok(())
}

fn add_exports(exports: &[Export<'_>], declared: &mut BTreeSet<u32>) -> Result<(), AllocError>
    ensures { let more = flat_map (λ e. exported_function e.target) (map export_of exports.now) in
        OnOk result (AddsFunctions declared.old.keys declared.new.keys more) }
{
    for export in exports {
        add_exported_function(export.target, declared)?;
    }
    Ok(())
}

/// The functions that occur in globals, element segments and exports.
pub fn declared_functions(alloc: Global, module: &Module<'_>) -> Result<BTreeSet<u32>, AllocError>
    ensures { let all = declared_in (module_of «module».now) in
        IfOk result (λ set. HaveSameNumbers set.keys all) }
{
    let mut declared = BTreeSet::new(alloc);
    add_globals(module.globals(), &mut declared)?;
    add_referred_in_segments(module.elements(), &mut declared)?;
    add_exports(module.exports(), &mut declared)?;
    Ok(declared)
}
