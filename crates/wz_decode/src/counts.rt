//! The rules between sections (Core Specification 2.0, section 5.5.16).

ghost use Rattle.std.specs.Prelude.{◌≡◌, ℕ, map, IfSome, IsSome, IsTrue, MatchBool};
ghost use Rattle.std.specs.List.{list_any};
ghost use Rattle.wz_code.specs.BodyParts.{block_at};
ghost use Rattle.wz_code.specs.Trees.{tree_of};
ghost use Rattle.wz_module.specs.Functions.{body_tree_of};
ghost use Rattle.wz_module.specs.Views.{module_with};
ghost use Rattle.wz_decode.specs.CountRules.{names_data as does_name_data, code_names_data, CountsAgree};
ghost use Rattle.wz_decode.specs.Front.{HasCount, HasCountFor};

use wz_code::{Body, Instr};
use wz_module::ModuleParts;

fn names_data(instr: &Instr) -> bool
    ensures { result ≡ does_name_data instr.now }
{
    matches!(instr, Instr::MemoryInit { .. } | Instr::DataDrop(_))
}

fn block_names_data(block: &[Instr]) -> bool
    ensures { result ≡ list_any does_name_data block.now }
{
    let mut found = false;
    for instr in block {
        found = found || names_data(instr);
    }
    found
}

/// Whether an instruction of the block with this number does.
fn numbered_names_data(body: &Body, number: u32) -> bool
    ensures { result ≡ list_any does_name_data (block_at body.now.blocks number) }
{
    match body.block(number) {
        Some(block) => block_names_data(block),
        None => false,
    }
}

/// Whether an instruction of the body names a data segment.
fn body_names_data(body: &Body) -> bool
    ensures { result ≡ code_names_data (tree_of body.now 0) }
{
    let mut found = false;
    for number in 0..body.block_count() {
        found |= numbered_names_data(body, number);
    }
    found
}

/// Whether one of the bodies does.
pub(crate) fn any_names_data(bodies: &[Body]) -> bool
    ensures { result ≡ list_any (λ body. code_names_data body.1) (map body_tree_of bodies.now) }
{
    let mut found = false;
    for body in bodies {
        found = found || body_names_data(body);
    }
    found
}

/// Whether a data count is this number of data segments.
fn is_count(data_count: Option<u32>, datas: usize) -> bool
    ensures { MatchBool result (HasCount data_count datas) (HasCount data_count datas → ⊥) }
{
    match data_count {
        Some(count) => count as usize == datas,
        None => true,
    }
}

/// Whether there is a data count if the bodies want one.
fn is_there_for(data_count: Option<u32>, bodies: &[Body]) -> bool
    ensures { let there = HasCountFor data_count (map body_tree_of bodies.now)
        in MatchBool result there (there → ⊥) }
{
    match data_count {
        Some(_) => true,
        None => !any_names_data(bodies),
    }
}

/// Whether the rules between sections hold.
pub(crate) fn counts_agree(parts: &ModuleParts<'_>) -> bool
    ensures { let agree = CountsAgree (module_with parts.now)
        in MatchBool result agree (agree → ⊥) }
{
    if parts.functions.len() != parts.bodies.len() {
        return false;
    }
    if !is_count(parts.data_count, parts.datas.len()) {
        return false;
    }
    is_there_for(parts.data_count, parts.bodies.as_slice())
}
