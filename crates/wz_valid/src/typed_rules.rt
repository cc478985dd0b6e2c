//! The rules of items that hold code: globals, element segments, bodies and data segments (Core
//! Specification 2.0, sections 3.4.1 and 3.4.4 to 3.4.6).

ghost use Rattle.std.specs.Prelude.{◌≡◌, map, slice_get, IsSomeAnd, MatchBool, IfOk};
ghost use Rattle.wz_types.specs.Fits.{type_of_kind};
ghost use Rattle.wz_code.specs.Trees.{tree_of};
ghost use Rattle.wz_valid_code.specs.Context.{HasTypes};
ghost use Rattle.wz_valid_code.specs.Typing.{IsConstant, IsBodyTyped};
ghost use Rattle.wz_module.specs.Meaning.{module_of};
ghost use Rattle.wz_module.specs.Elements.{function_reference};
ghost use Rattle.wz_module.specs.Views.{trees_of, init_of, elem_mode_of, elem_of, data_mode_of};
ghost use Rattle.wz_valid.specs.Indices.{all_tables};
ghost use Rattle.wz_valid.specs.Contexts.{context_of};
ghost use Rattle.wz_valid.specs.Items.{IsElemModeOk, IsElemOk, IsDataModeOk};
ghost use Rattle.wz_valid.specs.Checking.{IsContextOf, AreConstant, TellsItem};
ghost use Rattle.wz_valid.specs.declared.faults.Part.TheVariants as part;

use crate::checker::Checker;
use std::alloc::AllocError;
use wz_code::Body;
use wz_module::{DataMode, Elem, ElemItems, ElemMode};
use wz_types::{FuncType, RefKind, ValType};
use wz_valid_code::{BodyFault, check_body, check_constant, laws};

/// Whether an expression is constant and gives a value of this type.
fn is_constant(checker: &Checker<'_, '_>, body: &Body, kind: ValType) -> Result<bool, AllocError>
    requires says { IsContextOf (module_of checker.now.module.now) checker.now.context }
    requires types { HasTypes checker.now.context }
    ensures { let context = context_of (module_of checker.now.module.now) in
        let constant = IsConstant context (tree_of body.now 0) kind in
        IfOk result (λ ok. MatchBool ok constant (constant → ⊥)) }
{
    match check_constant(checker.alloc, &checker.context, kind, body) {
        Ok(()) => Ok(true),
        Err(BodyFault::Untyped) => Ok(false),
        Err(BodyFault::NoMemory) => Err(AllocError),
    }
}

pub fn is_global_ok(checker: &Checker<'_, '_>, index: usize) -> Result<bool, AllocError>
    requires says { IsContextOf (module_of checker.now.module.now) checker.now.context }
    requires types { HasTypes checker.now.context }
    ensures { let m = module_of checker.now.module.now in
        IfOk result (λ ok. TellsItem m part.Global index ok) }
{
    match checker.module.globals().get(index) {
        Some(global) => is_constant(checker, &global.init, global.kind.value),
        None => Ok(false),
    }
}

/// Whether the reference that a function's index stands for is constant and of this kind.
fn is_reference_ok(checker: &Checker<'_, '_>, kind: RefKind, function: u32) -> bool
    requires { IsContextOf (module_of checker.now.module.now) checker.now.context }
    ensures { let context = context_of (module_of checker.now.module.now) in
        let constant = IsConstant context (function_reference function) (type_of_kind kind) in
        MatchBool result constant (constant → ⊥) }
{
    match kind {
        RefKind::Func => checker.context.may_refer(function),
        RefKind::Extern => false,
    }
}

fn are_references_ok(checker: &Checker<'_, '_>, kind: RefKind, functions: &[u32]) -> bool
    requires { IsContextOf (module_of checker.now.module.now) checker.now.context }
    ensures { let m = module_of checker.now.module.now in
        let fine = AreConstant m kind (map function_reference functions.now) in
        MatchBool result fine (fine → ⊥) }
{
    for function in functions {
        if !is_reference_ok(checker, kind, *function) {
            return false;
        }
    }
    true
}

fn are_expressions_ok(
    checker: &Checker<'_, '_>,
    kind: RefKind,
    bodies: &[Body],
) -> Result<bool, AllocError>
    requires says { IsContextOf (module_of checker.now.module.now) checker.now.context }
    requires types { HasTypes checker.now.context }
    ensures { let m = module_of checker.now.module.now in
        let fine = AreConstant m kind (trees_of bodies.now) in
        IfOk result (λ ok. MatchBool ok fine (fine → ⊥)) }
{
    for body in bodies {
        if !is_constant(checker, body, ValType::from(kind))? {
            return Ok(false);
        }
    }
    Ok(true)
}

fn are_items_ok(
    checker: &Checker<'_, '_>,
    kind: RefKind,
    items: &ElemItems,
) -> Result<bool, AllocError>
    requires says { IsContextOf (module_of checker.now.module.now) checker.now.context }
    requires types { HasTypes checker.now.context }
    ensures { let m = module_of checker.now.module.now in
        let fine = AreConstant m kind (init_of items.now) in
        IfOk result (λ ok. MatchBool ok fine (fine → ⊥)) }
{
    match items {
        ElemItems::Funcs(functions) => Ok(are_references_ok(checker, kind, functions)),
        ElemItems::Exprs(bodies) => are_expressions_ok(checker, kind, bodies),
    }
}

/// Whether a table is there and has this kind.
fn is_table_of(checker: &Checker<'_, '_>, kind: RefKind, table: u32) -> bool
    requires { IsContextOf (module_of checker.now.module.now) checker.now.context }
    ensures { let m = module_of checker.now.module.now in
        let fine = IsSomeAnd (slice_get (all_tables m) table) (λ type. type.kind ≡ kind) in
        MatchBool result fine (fine → ⊥) }
{
    match checker.context.table(table) {
        Some(found) => found == kind,
        None => false,
    }
}

fn is_mode_ok(checker: &Checker<'_, '_>, segment: &Elem) -> Result<bool, AllocError>
    requires says { IsContextOf (module_of checker.now.module.now) checker.now.context }
    requires types { HasTypes checker.now.context }
    ensures { let m = module_of checker.now.module.now in
        let fine = IsElemModeOk m (elem_of segment.now) (elem_mode_of segment.now.mode) in
        IfOk result (λ ok. MatchBool ok fine (fine → ⊥)) }
{
    match &segment.mode {
        ElemMode::Passive => Ok(true),
        ElemMode::Active { table, offset } => {
            if !is_table_of(checker, segment.kind, *table) {
                return Ok(false);
            }
            is_constant(checker, offset, ValType::I32)
        }
        ElemMode::Declarative => Ok(true),
    }
}

fn is_segment_ok(checker: &Checker<'_, '_>, segment: &Elem) -> Result<bool, AllocError>
    requires says { IsContextOf (module_of checker.now.module.now) checker.now.context }
    requires types { HasTypes checker.now.context }
    ensures { let fine = IsElemOk (module_of checker.now.module.now) (elem_of segment.now) in
        IfOk result (λ ok. MatchBool ok fine (fine → ⊥)) }
{
    if !is_mode_ok(checker, segment)? {
        return Ok(false);
    }
    are_items_ok(checker, segment.kind, &segment.items)
}

pub fn is_element_ok(checker: &Checker<'_, '_>, index: usize) -> Result<bool, AllocError>
    requires says { IsContextOf (module_of checker.now.module.now) checker.now.context }
    requires types { HasTypes checker.now.context }
    ensures { let m = module_of checker.now.module.now in
        IfOk result (λ ok. TellsItem m part.Element index ok) }
{
    match checker.module.elements().get(index) {
        Some(segment) => is_segment_ok(checker, segment),
        None => Ok(false),
    }
}

/// Whether a body of a function of this type is typed.
fn is_typed(checker: &Checker<'_, '_>, kind: &FuncType, body: &Body) -> Result<bool, AllocError>
    requires says { IsContextOf (module_of checker.now.module.now) checker.now.context }
    requires types { HasTypes checker.now.context }
    ensures { let context = context_of (module_of checker.now.module.now) in
        let typed = IsBodyTyped context kind.now body.now in
        IfOk result (λ ok. MatchBool ok typed (typed → ⊥)) }
{
    // the checker's context says what the module's does, and typing rests on no more
    laws::typing_serves();
    match check_body(checker.alloc, &checker.context, kind, body) {
        Ok(()) => Ok(true),
        Err(BodyFault::Untyped) => Ok(false),
        Err(BodyFault::NoMemory) => Err(AllocError),
    }
}

pub fn is_code_ok(checker: &Checker<'_, '_>, index: usize) -> Result<bool, AllocError>
    requires says { IsContextOf (module_of checker.now.module.now) checker.now.context }
    requires types { HasTypes checker.now.context }
    ensures { let m = module_of checker.now.module.now in
        IfOk result (λ ok. TellsItem m part.Code index ok) }
{
    let Some(body) = checker.module.bodies().get(index) else {
        return Ok(false);
    };
    let Some(number) = checker.module.functions().get(index) else {
        return Ok(false);
    };
    match checker.module.types().get(*number as usize) {
        Some(kind) => is_typed(checker, kind, body),
        None => Ok(false),
    }
}

fn is_data_mode_ok(checker: &Checker<'_, '_>, mode: &DataMode) -> Result<bool, AllocError>
    requires says { IsContextOf (module_of checker.now.module.now) checker.now.context }
    requires types { HasTypes checker.now.context }
    ensures { let m = module_of checker.now.module.now in
        let fine = IsDataModeOk m (data_mode_of mode.now) in
        IfOk result (λ ok. MatchBool ok fine (fine → ⊥)) }
{
    match mode {
        DataMode::Passive => Ok(true),
        DataMode::Active { memory, offset } => {
            if !checker.context.has_memory(*memory) {
                return Ok(false);
            }
            is_constant(checker, offset, ValType::I32)
        }
    }
}

pub fn is_data_ok(checker: &Checker<'_, '_>, index: usize) -> Result<bool, AllocError>
    requires says { IsContextOf (module_of checker.now.module.now) checker.now.context }
    requires types { HasTypes checker.now.context }
    ensures { let m = module_of checker.now.module.now in
        IfOk result (λ ok. TellsItem m part.DataSegment index ok) }
{
    match checker.module.datas().get(index) {
        Some(segment) => is_data_mode_ok(checker, &segment.mode),
        None => Ok(false),
    }
}
