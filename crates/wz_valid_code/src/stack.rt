//! The stack of operand types, with a type that fits any (Core Specification 2.0, section 7.3).

ghost use Rattle.std.specs.Prelude.{◌≡◌, [], ◌∷◌, ◌++◌, reverse, is_some, OnOk, IfOk, false, true, IsTrue, ◌↔◌};
ghost use Rattle.std.specs.Option.{option_to_list};
ghost use Rattle.wz_types.specs.SameType.{same_type};
ghost use Rattle.wz_valid_code.specs.Operands.{fits, is_numeric, is_reference, pushed};
ghost use Rattle.wz_valid_code.specs.Rules.{Exchange, Stop, DropOne, SelectOne, TestReference};
ghost use Rattle.wz_valid_code.specs.Instructions.{operation_rule, bulk_rule};
ghost use Rattle.wz_valid_code.specs.Checking.{common_type, after_taking, AfterTaking, AfterPopping, Followed};

use std::alloc::{AllocError, Global};
use std::marker::Model;
use wz_code::OpTypes;
use wz_types::ValType;

fn is_same(a: ValType, b: ValType) -> bool
    ensures { result ≡ same_type a b }
{
    match (a, b) {
        (ValType::I32, ValType::I32) => true,
        (ValType::I64, ValType::I64) => true,
        (ValType::F32, ValType::F32) => true,
        (ValType::F64, ValType::F64) => true,
        (ValType::FuncRef, ValType::FuncRef) => true,
        (ValType::ExternRef, ValType::ExternRef) => true,
        _ => false,
    }
}

fn does_fit(found: Option<ValType>, asked: ValType) -> bool
    ensures { result ≡ fits found asked }
{
    match found {
        None => true,
        Some(found) => is_same(found, asked),
    }
}

fn is_numeric(kind: Option<ValType>) -> bool
    ensures { result ≡ is_numeric kind }
{
    match kind {
        Some(ValType::FuncRef) | Some(ValType::ExternRef) => false,
        _ => true,
    }
}

fn is_reference(kind: Option<ValType>) -> bool
    ensures { result ≡ is_reference kind }
{
    match kind {
        None | Some(ValType::FuncRef) | Some(ValType::ExternRef) => true,
        _ => false,
    }
}

/// The type that both operands of a select have.
fn common_type(a: Option<ValType>, b: Option<ValType>) -> Option<Option<ValType>>
    ensures { result ≡ common_type a b }
{
    match (a, b) {
        (None, b) => Some(b),
        (Some(a), None) => Some(Some(a)),
        (Some(a), Some(b)) => if is_same(a, b) { Some(Some(a)) } else { None },
    }
}

/// The known operands of the block that is checked; None is one that may be of any type. A `dead`
/// stack goes on below them with as many more of any type as are asked for.
#[derive(Drop)]
pub struct Stack {
    items: Vec<Option<ValType>>,
    dead: bool,
}

impl Model for Stack {
    ghost use Rattle.std.specs.Prelude.{reverse};
    ghost use Rattle.wz_valid_code.specs.Checking.{Known};

    ghost Value = { Known };

    ghost view = { λ s. record { items = reverse s.items.items; dead = s.dead } };
}

impl Stack {
    pub fn new(alloc: Global) -> Self
        ensures { result ≡ record { items = []; dead = false } }
    {
        Stack {
            items: Vec::new(alloc),
            dead: false,
        }
    }

    pub fn clear(&mut self)
        ensures { self.new ≡ record { items = []; dead = false } }
    {
        self.items.clear();
        self.dead = false;
    }

    pub fn is_empty(&self) -> bool
        ensures { IsTrue result ↔ (self.now.items ≡ []) }
    {
        self.items.is_empty()
    }

    #[inline]
    fn push(&mut self, kind: Option<ValType>) -> Result<(), AllocError>
        ensures { OnOk result (self.new ≡ record self.old { items = kind ∷ self.old.items }) }
    {
        self.items.push(kind)?;
        Ok(())
    }

    #[inline]
    fn pop(&mut self) -> Option<Option<ValType>>
        ensures found { AfterPopping self.old self.new result }
        ensures same { self.new.dead ≡ self.old.dead }
    {
        match self.items.pop() {
            Some(kind) => Some(kind),
            None => if self.dead { Some(None) } else { None },
        }
    }

    /// Takes one operand, and leaves the stack in part where it isn't there.
    #[inline]
    pub fn take_one(&mut self, asked: ValType) -> bool
        ensures taken { AfterTaking (asked ∷ []) self.old self.new result }
        ensures same { self.new.dead ≡ self.old.dead }
    {
        match self.pop() {
            None => false,
            Some(found) => does_fit(found, asked),
        }
    }

    pub fn take(&mut self, types: &[ValType]) -> bool
        ensures taken { AfterTaking (reverse types.now) self.old self.new result }
        ensures same { self.new.dead ≡ self.old.dead }
    {
        let mut left = types.len();
        while left > 0 {
            left -= 1;
            if !self.take_one(types[left]) {
                return false;
            }
        }
        true
    }

    pub fn give(&mut self, types: &[ValType]) -> Result<(), AllocError>
        ensures { let items = pushed types.now self.old.items in
            OnOk result (self.new ≡ record self.old { items = items }) }
    {
        for kind in types {
            self.push(Some(*kind))?;
        }
        Ok(())
    }

    /// Gives one operand.
    #[inline]
    pub fn give_one(&mut self, kind: ValType) -> Result<bool, AllocError>
        ensures { IfOk result (λ ok. Followed (Exchange [] (kind ∷ [])) self.old self.new ok) }
    {
        self.push(Some(kind))?;
        Ok(true)
    }

    /// Takes one operand.
    #[inline]
    pub fn take_only(&mut self, kind: ValType) -> bool
        ensures { Followed (Exchange (kind ∷ []) []) self.old self.new result }
    {
        self.take_one(kind)
    }

    /// Takes one operand, and gives one.
    #[inline]
    pub fn change_one(&mut self, takes: ValType, gives: ValType) -> Result<bool, AllocError>
        ensures { let rule = Exchange (takes ∷ []) (gives ∷ []) in
            IfOk result (λ ok. Followed rule self.old self.new ok) }
    {
        if !self.take_one(takes) {
            return Ok(false);
        }
        self.push(Some(gives))?;
        Ok(true)
    }

    /// Takes two operands, the second of which was pushed last.
    #[inline]
    pub fn take_two(&mut self, first: ValType, second: ValType) -> bool
        ensures { Followed (Exchange (first ∷ second ∷ []) []) self.old self.new result }
    {
        self.take_one(second) && self.take_one(first)
    }

    /// Takes a place, another number and a length.
    pub fn take_three_i32(&mut self) -> Result<bool, AllocError>
        ensures { IfOk result (λ ok. Followed bulk_rule self.old self.new ok) }
    {
        self.exchange(&[ValType::I32, ValType::I32, ValType::I32], &[])
    }

    /// Takes operands of these types, and gives those.
    pub fn exchange(&mut self, takes: &[ValType], gives: &[ValType]) -> Result<bool, AllocError>
        ensures { let rule = Exchange takes.now gives.now in
            IfOk result (λ ok. Followed rule self.old self.new ok) }
    {
        if !self.take(takes) {
            return Ok(false);
        }
        self.give(gives)?;
        Ok(true)
    }

    /// The same with an i32 on top of what is taken.
    pub fn exchange_on(&mut self, takes: &[ValType], gives: &[ValType]) -> Result<bool, AllocError>
        ensures { let rule = Exchange (takes.now ++ ValType.I32 ∷ []) gives.now in
            IfOk result (λ ok. Followed rule self.old self.new ok) }
    {
        if !self.take_one(ValType::I32) {
            return Ok(false);
        }
        self.exchange(takes, gives)
    }

    /// What follows is never reached.
    pub fn set_dead(&mut self)
        ensures { self.new ≡ record { items = []; dead = true } }
    {
        self.clear();
        self.dead = true;
    }

    /// Takes operands of these types; what follows is never reached.
    pub fn stop(&mut self, takes: &[ValType]) -> bool
        ensures { Followed (Stop takes.now) self.old self.new result }
    {
        if !self.take(takes) {
            return false;
        }
        self.set_dead();
        true
    }

    #[inline]
    pub fn drop_one(&mut self) -> bool
        ensures { Followed DropOne self.old self.new result }
    {
        match self.pop() {
            None => false,
            Some(_) => true,
        }
    }

    pub fn select_one(&mut self) -> Result<bool, AllocError>
        ensures { IfOk result (λ ok. Followed SelectOne self.old self.new ok) }
    {
        if !self.take_one(ValType::I32) {
            return Ok(false);
        }
        let Some(second) = self.pop() else {
            return Ok(false);
        };
        let Some(first) = self.pop() else {
            return Ok(false);
        };
        let Some(kind) = common_type(second, first) else {
            return Ok(false);
        };
        if !is_numeric(kind) {
            return Ok(false);
        }
        self.push(kind)?;
        Ok(true)
    }

    pub fn test_reference(&mut self) -> Result<bool, AllocError>
        ensures { IfOk result (λ ok. Followed TestReference self.old self.new ok) }
    {
        let Some(found) = self.pop() else {
            return Ok(false);
        };
        if !is_reference(found) {
            return Ok(false);
        }
        self.push(Some(ValType::I32))?;
        Ok(true)
    }

    #[inline]
    fn take_second(&mut self, second: Option<ValType>) -> bool
        ensures taken { AfterTaking (option_to_list second) self.old self.new result }
        ensures same { self.new.dead ≡ self.old.dead }
    {
        match second {
            Some(second) => self.take_one(second),
            None => true,
        }
    }

    #[inline]
    pub fn operation(&mut self, types: OpTypes) -> Result<bool, AllocError>
        ensures { IfOk result (λ ok. Followed (operation_rule types) self.old self.new ok) }
    {
        if !self.take_second(types.second) {
            return Ok(false);
        }
        if !self.take_one(types.first) {
            return Ok(false);
        }
        self.push(Some(types.result))?;
        Ok(true)
    }

    /// Whether these types could be taken.
    pub fn offers(&self, types: &[ValType]) -> bool
        ensures { result ≡ is_some (after_taking (reverse types.now) self.now.items self.now.dead) }
    {
        let mut left = types.len();
        let mut below = self.items.len();
        while left > 0 {
            left -= 1;
            if below == 0 {
                return self.dead;
            }
            below -= 1;
            if !does_fit(self.items[below], types[left]) {
                return false;
            }
        }
        true
    }
}
