//! What is done with an instance from outside, and what is seen of it. It stays typed throughout.

ghost use Rattle.std.specs.Prelude.{List};
ghost use Rattle.wz_code.specs.BodyParts.{BodyParts};
ghost use Rattle.wz_machine.specs.State.{state_of};
ghost use Rattle.wz_machine.specs.Terms.{Standing};
ghost use Rattle.wz_machine.specs.TypedTerms.{IsMachineTyped};
ghost use Rattle.wz_machine.specs.TypedMachines.{HoldsTyped};

use super::cases::Session;
use std::process::Abort;
use std::test::Fail;
use wz_code::NumOp;
use wz_linear::{Linear, MAX_PAGES};
use wz_machine::{Ask, EnterFault, FloatReply, Growth, HostTarget, Machine, Tick};
use wz_paged::PagedMemory;
use wz_store::Store;
use wz_types::{TrapKind, Value, Values};

/// What is done with an instance. Functions take one argument at most, and give one result.
#[derive(Clone, Copy)]
pub enum Move {
    Call(u32, Option<Value>),
    /// So many ticks, of which all but the last just go on.
    Ticks(u32),
    Float(FloatReply),
    Grow(bool),
    Return(Option<Value>),
    Abort,
    Memory(Access),
}

/// An access from outside to memory 0.
#[derive(Clone, Copy)]
pub enum Access {
    /// One byte or two from a place on.
    Read(u64, u32),
    Write(u64, u8),
    /// By so many pages, within the memory's maximum.
    Enlarge(u32),
}

/// What is seen of it: of values the last, and of bytes the number whose lowest is the first.
#[derive(Clone, Copy, PartialEq, Eq)]
pub enum Seen {
    Refused,
    NotEntered(EnterFault),
    Idle,
    Went,
    Done(Option<Value>),
    Trapped(TrapKind),
    HostCall(HostTarget, Option<Value>),
    FloatAsked(NumOp, Option<Value>),
    GrowAsked(Growth),
    Bytes(u64),
    Held(u32),
}

fn last(values: &Values) -> Option<Value> {
    let last = values.as_slice().last()?;
    Some(*last)
}

fn seen_in(tick: &Tick) -> Seen {
    match tick {
        Tick::Idle => Seen::Idle,
        Tick::Went => Seen::Went,
        Tick::Done(values) => Seen::Done(last(values)),
        Tick::Trapped(kind) => Seen::Trapped(*kind),
        Tick::Asked(Ask::Host { target, args }) => Seen::HostCall(*target, last(args)),
        Tick::Asked(Ask::Float { op, operands }) => Seen::FloatAsked(*op, last(operands)),
        Tick::Asked(Ask::Grow(growth)) => Seen::GrowAsked(*growth),
    }
}

fn went_if(ok: bool) -> Seen {
    if ok { Seen::Went } else { Seen::Refused }
}

fn entered(answer: Result<(), EnterFault>) -> Seen {
    match answer {
        Ok(()) => Seen::Went,
        Err(fault) => Seen::NotEntered(fault),
    }
}

fn enter(machine: &mut Machine<'_, PagedMemory>, function: u32, value: Option<Value>) -> Seen
    requires { HoldsTyped machine.old }
    ensures { HoldsTyped machine.new }
{
    match value {
        Some(value) => entered(machine.enter(function, &[value])),
        None => entered(machine.enter(function, &[])),
    }
}

fn make_ticks(machine: &mut Machine<'_, PagedMemory>, count: u32) -> Result<Seen, Fail>
    requires { HoldsTyped machine.old }
    ensures { HoldsTyped machine.new }
{
    for _ in 1..count {
        if seen_in(&machine.tick()?) != Seen::Went {
            return Err(Fail::from("a tick before the last one doesn't just go on"));
        }
    }
    Ok(seen_in(&machine.tick()?))
}

fn answer_float(machine: &mut Machine<'_, PagedMemory>, reply: FloatReply) -> Seen
    requires { HoldsTyped machine.old }
    ensures { HoldsTyped machine.new }
{
    if machine.answer_float(reply).is_err() {
        return Seen::Refused;
    }
    match reply {
        FloatReply::Gives(_) => Seen::Went,
        FloatReply::Trap => Seen::Trapped(TrapKind::Float),
    }
}

fn answer_host(machine: &mut Machine<'_, PagedMemory>, value: Option<Value>) -> Seen
    requires { HoldsTyped machine.old }
    ensures { HoldsTyped machine.new }
{
    match value {
        Some(value) => went_if(machine.answer_host(&[value]).is_ok()),
        None => went_if(machine.answer_host(&[]).is_ok()),
    }
}

fn abort(machine: &mut Machine<'_, PagedMemory>) -> Seen
    requires { HoldsTyped machine.old }
    ensures { HoldsTyped machine.new }
{
    match machine.abort() {
        Ok(()) => Seen::Trapped(TrapKind::Host),
        Err(_) => Seen::Refused,
    }
}

fn read(memory: &PagedMemory, at: u64, len: u32) -> Seen {
    let bytes = match len {
        1 => memory.load(at, 1),
        2 => memory.load(at, 2),
        _ => None,
    };
    match bytes {
        Some(number) => Seen::Bytes(number),
        None => Seen::Refused,
    }
}

fn enlarge(memory: &mut PagedMemory, by: u32) -> Result<Seen, Fail> {
    let pages = memory.size_pages();
    if by > MAX_PAGES - pages {
        return Ok(Seen::Refused);
    }
    memory.grow(by)?;
    Ok(Seen::Held(pages))
}

fn access_bytes(memory: &mut PagedMemory, access: Access) -> Result<Seen, Fail> {
    match access {
        Access::Read(at, len) => Ok(read(memory, at, len)),
        Access::Write(at, byte) => Ok(went_if(memory.store(at, u64::from(byte), 1)?)),
        Access::Enlarge(by) => enlarge(memory, by),
    }
}

/// Whatever stands over the store stays typed.
fn access_store(store: &mut Store<'_, PagedMemory>, access: Access) -> Result<Seen, Fail>
    ensures { (bodies : List BodyParts) (stack : List Standing) →
        IsMachineTyped (state_of bodies store.old) stack →
        IsMachineTyped (state_of bodies store.new) stack }
{
    // other bytes in a memory, on whole pages, keep what stands typed
    wz_machine::laws::typed_states();
    let Some(memory) = store.memory_mut(0) else {
        return Ok(Seen::Refused);
    };
    let seen = access_bytes(memory, access);
    // so many pages, of bytes
    let _pages = memory.size_pages();
    seen
}

fn access_memory(machine: &mut Machine<'_, PagedMemory>, access: Access) -> Result<Seen, Fail>
    requires { HoldsTyped machine.old }
    ensures { HoldsTyped machine.new }
{
    access_store(machine.store_mut(), access)
}

fn act(machine: &mut Machine<'_, PagedMemory>, step: Move) -> Result<Seen, Fail>
    requires { HoldsTyped machine.old }
    ensures { HoldsTyped machine.new }
{
    match step {
        Move::Call(function, value) => Ok(enter(machine, function, value)),
        Move::Ticks(count) => make_ticks(machine, count),
        Move::Float(reply) => Ok(answer_float(machine, reply)),
        Move::Grow(granted) => Ok(went_if(machine.answer_grow(granted).is_ok())),
        Move::Return(value) => Ok(answer_host(machine, value)),
        Move::Abort => Ok(abort(machine)),
        Move::Memory(access) => access_memory(machine, access),
    }
}

/// Fails where something else is seen than the session has.
pub fn observe(
    rt: &impl Abort,
    machine: &mut Machine<'_, PagedMemory>,
    session: &Session,
) -> Result<(), Fail>
    requires typed { HoldsTyped machine.old }
    ensures typed { HoldsTyped machine.new }
{
    for (number, (step, wanted)) in session.moves.iter().enumerate() {
        let seen = act(machine, *step)?;
        assert!(rt; seen == *wanted, "{}: move {number}", session.name);
    }
    Ok(())
}
