//! `call_indirect` (Core Specification 2.0, sections 4.4.8 and 4.4.10).

ghost use Rattle.std.specs.Prelude.{◌≡◌, ◌≤◌, ◌∷◌, length, slice_get, OnErr, IfOk};
ghost use Rattle.std.specs.Option.{option_map};
ghost use Rattle.wz_types.specs.SameType.{same_type as is_same_type, same_types as are_same_types, same_function_type as is_same_function_type};
ghost use Rattle.wz_code.specs.declared.instr.Instr.TheVariants.{CallIndirect};
ghost use Rattle.wz_machine.specs.State.{state_of};
ghost use Rattle.wz_machine.specs.CallSteps.{host_call, expected_call, sort_call, entry_call};
ghost use Rattle.wz_machine.specs.Step.{step};
ghost use Rattle.wz_machine.specs.Stacks.{stacks_term};
ghost use Rattle.wz_machine.specs.Turns.{own_of};
ghost use Rattle.wz_machine.specs.Callees.{callable_in};
ghost use Rattle.wz_machine.specs.Asks.{AskTurned, OutcomeTurned};

use crate::asking::{AskTurn, number_in};
use crate::callee::{Callee, callee_at};
use crate::questions::HostTarget;
use crate::stacks::Stacks;
use crate::standing::Pending;
use std::alloc::AllocError;
use wz_code::{Body, Instr};
use wz_linear::Linear;
use wz_store::Store;
use wz_types::{FuncType, Reference, Sort, TrapKind, ValType};

fn same_type(a: ValType, b: ValType) -> bool
    ensures { result ≡ is_same_type a b }
{
    match a {
        ValType::I32 => matches!(b, ValType::I32),
        ValType::I64 => matches!(b, ValType::I64),
        ValType::F32 => matches!(b, ValType::F32),
        ValType::F64 => matches!(b, ValType::F64),
        ValType::FuncRef => matches!(b, ValType::FuncRef),
        ValType::ExternRef => matches!(b, ValType::ExternRef),
    }
}

fn same_types(one: &[ValType], other: &[ValType]) -> bool
    ensures { result ≡ are_same_types one.now other.now }
{
    let mut one = one;
    let mut other = other;
    while let [a, more @ ..] = one {
        let [b, others @ ..] = other else {
            return false;
        };
        if !same_type(*a, *b) {
            return false;
        }
        one = more;
        other = others;
    }
    other.is_empty()
}

/// Whether two types have the same contents.
fn same_function_type(one: &FuncType, other: &FuncType) -> bool
    ensures { result ≡ is_same_function_type one.now other.now }
{
    same_types(one.params(), other.params()) && same_types(one.results(), other.results())
}

/// The type of this number.
fn type_at<'m>(types: &'m [FuncType], number: u32) -> Option<&'m FuncType>
    ensures { option_map (λ kind. kind.now) result ≡ slice_get types.now number }
{
    types.get(number as usize)
}

/// What the table holds at a place; None where there is no such table.
fn entry_at<M: Linear>(store: &Store<'_, M>, table: u32, at: u32) -> Option<Option<Reference>>
    ensures { result ≡ option_map
        (λ table. slice_get table.entries at) (slice_get store.now.tables table) }
{
    let entries = store.table(table)?;
    Some(entries.get(at as usize).copied())
}

impl<'m> Stacks<'m> {
    /// Asks for a function of the host, with the last of the first `have` values as arguments.
    fn call_host(&self, rest: &'m [Instr], kind: &'m FuncType, id: u32, have: usize) -> AskTurn<'m>
        requires values { have ≤ length self.now.values }
        requires own { self.now.top.height ≤ have }
        ensures { OutcomeTurned self.now rest.now
            (host_call kind.now id (own_of self.now have)) result self.now }
    {
        let params = kind.params().len();
        if have - self.top.height < params {
            return AskTurn::NoRule;
        }
        let pending = Pending::Host {
            target: HostTarget::Foreign(id),
            kind,
        };
        AskTurn::Asks {
            pending,
            count: params,
            have,
        }
    }

    /// Calls what a foreign reference of this sort refers to, where `kind` is expected.
    fn call_sort(
        &self,
        rest: &'m [Instr],
        types: &'m [FuncType],
        kind: &'m FuncType,
        id: u32,
        sort: Sort,
        have: usize,
    ) -> AskTurn<'m>
        requires values { have ≤ length self.now.values }
        requires own { self.now.top.height ≤ have }
        ensures { OutcomeTurned self.now rest.now
            (sort_call types.now kind.now id sort (own_of self.now have)) result self.now }
    {
        let _ = &self.have;
        match sort {
            Sort::Extern => AskTurn::NoRule,
            Sort::OtherFunc => AskTurn::Trapped(TrapKind::IndirectType),
            Sort::Func(number) => match type_at(types, number) {
                None => AskTurn::NoRule,
                Some(actual) => {
                    if !same_function_type(actual, kind) {
                        return AskTurn::Trapped(TrapKind::IndirectType);
                    }
                    self.call_host(rest, kind, id, have)
                }
            },
        }
    }

    /// Calls the function that was found, where `kind` is expected.
    fn call_expected(
        &mut self,
        rest: &'m [Instr],
        kind: &'m FuncType,
        found: Option<Callee<'m>>,
        have: usize,
    ) -> Result<AskTurn<'m>, AllocError>
        requires values { have ≤ length self.old.values }
        requires own { self.old.top.height ≤ have }
        ensures turned { IfOk result (λ turn. OutcomeTurned self.old rest.now
            (expected_call kind.now (option_map (λ callee. callable_in callee) found.entry)
            (own_of self.old have)) turn self.new) }
        ensures refused { OnErr result (self.new ≡ self.old) }
    {
        let _ = &self.have;
        let Some(callee) = found else {
            return Ok(AskTurn::NoRule);
        };
        if !same_function_type(callee.kind, kind) {
            return Ok(AskTurn::Trapped(TrapKind::IndirectType));
        }
        self.call_callee(rest, callee, have)
    }

    /// Calls what a table holds, where `kind` is expected.
    fn call_entry<M: Linear>(
        &mut self,
        rest: &'m [Instr],
        bodies: &'m [Body],
        store: &Store<'m, M>,
        kind: &'m FuncType,
        entry: Option<Reference>,
        have: usize,
    ) -> Result<AskTurn<'m>, AllocError>
        requires values { have ≤ length self.old.values }
        requires own { self.old.top.height ≤ have }
        ensures turned { IfOk result (λ turn. OutcomeTurned self.old rest.now
            (entry_call store.now.types (state_of bodies.now store.now).functions kind.now entry
            (own_of self.old have)) turn self.new) }
        ensures refused { OnErr result (self.new ≡ self.old) }
    {
        let _ = &self.have;
        let Some(reference) = entry else {
            return Ok(AskTurn::Trapped(TrapKind::UndefinedElement));
        };
        match reference {
            Reference::Null(_) => Ok(AskTurn::Trapped(TrapKind::UninitializedElement)),
            Reference::Fn(index) => {
                let found = callee_at(bodies, store, index);
                self.call_expected(rest, kind, found, have)
            }
            Reference::Foreign { id, sort } => {
                Ok(self.call_sort(rest, store.types(), kind, id, sort, have))
            }
        }
    }

    /// `call_indirect x y`.
    pub fn call_indirect<M: Linear>(
        &mut self,
        rest: &'m [Instr],
        signature: u32,
        table: u32,
        bodies: &'m [Body],
        store: &Store<'m, M>,
    ) -> Result<AskTurn<'m>, AllocError>
        requires { self.old.top.rest ≡ CallIndirect signature table ∷ rest.now }
        ensures turned { IfOk result (λ turn. AskTurned
            (step (state_of bodies.now store.now) (stacks_term self.old)) self.old rest.now turn
            self.new) }
        ensures refused { OnErr result (self.new ≡ self.old) }
    {
        let Some(at) = number_in(self.own()) else {
            return Ok(AskTurn::NoRule);
        };
        let Some(kind) = type_at(store.types(), signature) else {
            return Ok(AskTurn::NoRule);
        };
        let Some(entry) = entry_at(store, table, at) else {
            return Ok(AskTurn::NoRule);
        };
        let have = self.have.saturating_sub(1);
        self.call_entry(rest, bodies, store, kind, entry, have)
    }
}
