//! The functions that code, element segments and exports name, added to a set.
//!
//! Each call adds the functions of what it is given. After an `Err` some of them may be there.

ghost use Rattle.std.specs.Prelude.{OnOk, map, [], ◌∷◌};
ghost use Rattle.std.specs.List.{flat_map};
ghost use Rattle.wz_code.specs.BodyParts.{block_at};
ghost use Rattle.wz_code.specs.Trees.{tree_of};
ghost use Rattle.wz_code.specs.References.{AddsFunctions, referred_by, referred_in};
ghost use Rattle.wz_module.specs.Elements.{function_reference};
ghost use Rattle.wz_module.specs.Views.{trees_of, init_of, elem_mode_of, elem_of};
ghost use Rattle.wz_module.specs.References.{referred_in_mode, referred_in_segment};
ghost use Rattle.wz_module.specs.References.{exported_function};

use crate::items::{Elem, ElemItems, ElemMode, ExportTarget};
use std::alloc::AllocError;
use std::collections::BTreeSet;
use wz_code::{Body, Instr};

/// Adds a function by its index (Core Specification 2.0, section 2.5.1).
pub fn add_function(function: u32, functions: &mut BTreeSet<u32>) -> Result<(), AllocError>
    ensures { OnOk result (AddsFunctions functions.old.keys functions.new.keys (function ∷ [])) }
{
    functions.insert(function)?;
    Ok(())
}

fn add_referred_by(instr: Instr, functions: &mut BTreeSet<u32>) -> Result<(), AllocError>
    ensures { let more = referred_by instr in
        OnOk result (AddsFunctions functions.old.keys functions.new.keys more) }
{
    // no other instruction makes a reference to a function that it names
    if let Instr::RefFunc(function) = instr {
        add_function(function, functions)?;
    }
    Ok(())
}

fn add_referred_by_each(code: &[Instr], functions: &mut BTreeSet<u32>) -> Result<(), AllocError>
    ensures { let more = flat_map referred_by code.now in
        OnOk result (AddsFunctions functions.old.keys functions.new.keys more) }
{
    for instr in code {
        add_referred_by(*instr, functions)?;
    }
    Ok(())
}

fn add_referred_in_block(
    body: &Body,
    number: u32,
    functions: &mut BTreeSet<u32>,
) -> Result<(), AllocError>
    ensures { let more = flat_map referred_by (block_at body.now.blocks number) in
        OnOk result (AddsFunctions functions.old.keys functions.new.keys more) }
{
    match body.block(number) {
        Some(code) => add_referred_by_each(code, functions),
        None => Ok(()),
    }
}

/// Adds the functions to which a body or an expression refers by `ref.func` (Core Specification
/// 2.0, section 2.4.3).
pub fn add_referred_in_body(body: &Body, functions: &mut BTreeSet<u32>) -> Result<(), AllocError>
    ensures { let more = referred_in (tree_of body.now 0) in
        OnOk result (AddsFunctions functions.old.keys functions.new.keys more) }
{
    // the tree of a body is its blocks, each of which is named once
    for number in 0..body.block_count() {
        add_referred_in_block(body, number, functions)?;
    }
    Ok(())
}

/// Adds the functions to which bodies refer by `ref.func` (Core Specification 2.0, section 2.4.3).
pub fn add_referred_in_bodies(
    bodies: &[Body],
    functions: &mut BTreeSet<u32>,
) -> Result<(), AllocError>
    ensures { let more = flat_map referred_in (trees_of bodies.now) in
        OnOk result (AddsFunctions functions.old.keys functions.new.keys more) }
{
    for body in bodies {
        add_referred_in_body(body, functions)?;
    }
    Ok(())
}

fn add_functions(indices: &[u32], functions: &mut BTreeSet<u32>) -> Result<(), AllocError>
    ensures { let more = flat_map referred_in (map function_reference indices.now) in
        OnOk result (AddsFunctions functions.old.keys functions.new.keys more) }
{
    for function in indices {
        add_function(*function, functions)?;
    }
    Ok(())
}

fn add_referred_in_mode(mode: &ElemMode, functions: &mut BTreeSet<u32>) -> Result<(), AllocError>
    ensures { let more = referred_in_mode (elem_mode_of mode.now) in
        OnOk result (AddsFunctions functions.old.keys functions.new.keys more) }
{
    match mode {
        ElemMode::Active { table: _, offset } => add_referred_in_body(offset, functions),
        ElemMode::Passive => Ok(()),
        ElemMode::Declarative => Ok(()),
    }
}

fn add_referred_in_items(items: &ElemItems, functions: &mut BTreeSet<u32>) -> Result<(), AllocError>
    ensures { let more = flat_map referred_in (init_of items.now) in
        OnOk result (AddsFunctions functions.old.keys functions.new.keys more) }
{
    match items {
        ElemItems::Funcs(indices) => add_functions(indices, functions),
        ElemItems::Exprs(bodies) => add_referred_in_bodies(bodies, functions),
    }
}

fn add_referred_in_segment(segment: &Elem, functions: &mut BTreeSet<u32>) -> Result<(), AllocError>
    ensures { let more = referred_in_segment (elem_of segment.now) in
        OnOk result (AddsFunctions functions.old.keys functions.new.keys more) }
{
    add_referred_in_mode(&segment.mode, functions)?;
    add_referred_in_items(&segment.items, functions)
}

/// Adds the functions to which element segments refer, in the offsets of active ones too (Core
/// Specification 2.0, section 2.5.7).
pub fn add_referred_in_segments(
    segments: &[Elem],
    functions: &mut BTreeSet<u32>,
) -> Result<(), AllocError>
    ensures { let more = flat_map referred_in_segment (map elem_of segments.now) in
        OnOk result (AddsFunctions functions.old.keys functions.new.keys more) }
{
    for segment in segments {
        add_referred_in_segment(segment, functions)?;
    }
    Ok(())
}

/// Adds the function that an export gives out, if it gives out one (Core Specification 2.0, section
/// 2.5.10).
pub fn add_exported_function(
    target: ExportTarget,
    functions: &mut BTreeSet<u32>,
) -> Result<(), AllocError>
    ensures { let more = exported_function target in
        OnOk result (AddsFunctions functions.old.keys functions.new.keys more) }
{
    match target {
        ExportTarget::Func(function) => add_function(function, functions),
        ExportTarget::Table(_) => Ok(()),
        ExportTarget::Memory(_) => Ok(()),
        ExportTarget::Global(_) => Ok(()),
    }
}
