//! The machine makes the ticks of a run.

ghost use Rattle.std.specs.Prelude.{◌≡◌, ◌≤◌, ◌∷◌, [], Some, IsSome, IfOk, OnOk};
ghost use Rattle.wz_store.specs.Changes.{applied};
ghost use Rattle.wz_machine.specs.Terms.{Runs};
ghost use Rattle.wz_machine.specs.Advance.{head_changes_table};
ghost use Rattle.wz_machine.specs.Next.{next};
ghost use Rattle.wz_machine.specs.Replies.{put, question_event};
ghost use Rattle.wz_machine.specs.Ticks.{event_of, asked_event};
ghost use Rattle.wz_machine.specs.Frames.{frame_count, local_count};
ghost use Rattle.wz_machine.specs.Machines.{machine_state, machine_stack};
ghost use Rattle.wz_machine.specs.Moves.{GrowAsked, HostCall};
ghost use Rattle.wz_machine.specs.TypedTerms.{IsMachineTyped};
ghost use Rattle.wz_init.specs.Run.{is_granted, granted_growth, growth_value};
ghost use Rattle.wz_store.specs.State.{pages_together};
ghost use Rattle.wz_init.specs.Turns.{top_term, IsAlone, IsEntered, IsTicked, IsAskedHere};
ghost use Rattle.wz_init.specs.Turns.{HasAdvanced, TakesNothing};
ghost use Rattle.wz_init.specs.Events.{turned_by, entered_as};

use crate::stepping::Steps;
use crate::turn::{Entered, Turned};
use std::alloc::AllocError;
use wz_linear::Linear;
use wz_machine::{
    Advance, Ask, EnterFault, GrowFault, Growth, HostTarget, Machine, Tick, is_table_change,
};
use wz_store::{Function, Store};

/// Whether the next tick of the only term would change a table.
fn would_change_table<'m, M: Linear>(machine: &Machine<'m, M>) -> bool
    requires { IsAlone (machine_stack machine.now) }
    ensures { result ≡ head_changes_table (next (top_term (machine_stack machine.now))) }
{
    match machine.peek() {
        Some(instr) => is_table_change(&instr),
        None => false,
    }
}

fn called(target: HostTarget) -> Turned
    ensures { turned_by (HostCall target []) ≡ Some result }
{
    match target {
        HostTarget::Import(number) => Turned::Import(number),
        HostTarget::Foreign(id) => Turned::Foreign(id),
    }
}

fn growing(growth: Growth) -> Turned
    ensures { turned_by (GrowAsked growth) ≡ Some result }
{
    match growth {
        Growth::Memory { index, by } => Turned::Memory { index, by },
        Growth::Table { index: _, by: _ } => Turned::Table,
    }
}

fn asked(ask: &Ask) -> Turned
    ensures { turned_by (asked_event ask.now) ≡ Some result }
{
    match ask {
        Ask::Float { op, operands: _ } => Turned::Float(*op),
        Ask::Grow(growth) => growing(*growth),
        Ask::Host { target, args: _ } => called(*target),
    }
}

/// What a tick of a typed term came to.
fn turned(tick: &Tick) -> Turned
    requires { IsSome (turned_by (event_of tick.now)) }
    ensures { turned_by (event_of tick.now) ≡ Some result }
{
    match tick {
        Tick::Went => Turned::Went,
        Tick::Done(_) => Turned::Ended,
        Tick::Trapped(kind) => Turned::Trapped(*kind),
        Tick::Asked(ask) => asked(ask),
        // a term stands
        Tick::Idle => unreachable!(),
    }
}

/// A tick of the only term.
fn tick<'m, M: Linear>(machine: &mut Machine<'m, M>) -> Result<Turned, AllocError>
    requires alone { IsAlone (machine_stack machine.old) }
    requires typed { IsMachineTyped (machine_state machine.old) (machine_stack machine.old) }
    ensures ticked { IfOk result (λ turned. IsTicked (machine_state machine.old)
        (top_term (machine_stack machine.old)) turned (machine_state machine.new)
        (machine_stack machine.new)) }
    ensures typed { OnOk result
        (IsMachineTyped (machine_state machine.new) (machine_stack machine.new)) }
    ensures bodies { OnOk result (machine.new.bodies ≡ machine.old.bodies) }
{
    // a typed term isn't stuck
    wz_machine::laws::steps_write();
    wz_machine::laws::never_stuck();
    let tick = machine.tick()?;
    Ok(turned(&tick))
}

/// Many ticks of the only term.
fn advance<'m, M: Linear>(machine: &mut Machine<'m, M>, limit: u64) -> Result<Advance, AllocError>
    requires alone { IsAlone (machine_stack machine.old) }
    requires typed { IsMachineTyped (machine_state machine.old) (machine_stack machine.old) }
    ensures limit { IfOk result (λ done. done.made ≤ limit) }
    ensures made { IfOk result (λ done. HasAdvanced done (machine_state machine.old)
        (top_term (machine_stack machine.old)) (machine_state machine.new)
        (machine_stack machine.new)) }
    ensures typed { OnOk result
        (IsMachineTyped (machine_state machine.new) (machine_stack machine.new)) }
    ensures bodies { OnOk result (machine.new.bodies ≡ machine.old.bodies) }
{
    let done = machine.advance(limit)?;
    Ok(done)
}

/// What entering a function comes to.
fn entered(function: Function) -> Entered
    ensures { result ≡ entered_as function }
{
    match function {
        Function::Own {
            signature: _,
            body: _,
        } => Entered::Own,
        Function::Import {
            signature: _,
            import,
        } => Entered::Import(import),
    }
}

fn enter<'m, M: Linear>(machine: &mut Machine<'m, M>, function: u32) -> Result<Entered, AllocError>
    requires empty { machine_stack machine.old ≡ [] }
    requires takes { TakesNothing (machine_state machine.old) function }
    requires typed { IsMachineTyped (machine_state machine.old) (machine_stack machine.old) }
    ensures entered { IfOk result (λ entered. IsEntered (machine_state machine.old) function
        entered (machine_state machine.new) (machine_stack machine.new)) }
    ensures typed { OnOk result
        (IsMachineTyped (machine_state machine.new) (machine_stack machine.new)) }
    ensures bodies { OnOk result (machine.new.bodies ≡ machine.old.bodies) }
{
    wz_machine::laws::steps_write();
    let Some(stored) = machine.store().function(function) else {
        // the function is there
        unreachable!()
    };
    match machine.enter(function, &[]) {
        Ok(()) => Ok(entered(stored)),
        Err(EnterFault::NoMemory) => Err(AllocError),
        // the machine is empty, and the function is there and takes nothing
        Err(EnterFault::NotNow) => unreachable!(),
        Err(EnterFault::NoFunction) => unreachable!(),
        Err(EnterFault::Unfit) => unreachable!(),
    }
}

/// The pages of all memories together.
fn pages<'m, M: Linear>(store: &Store<'m, M>) -> u64
    ensures { result ≡ pages_together store.now.memories }
{
    let mut pages: u64 = 0;
    for index in 0..store.memory_count() {
        match store.memory_type(index) {
            Some(kind) => pages += u64::from(kind.limits.min),
            None => {}
        }
    }
    pages
}

/// Answers the question whether a memory grows.
fn answer_growth<'m, M: Linear>(
    machine: &mut Machine<'m, M>,
    index: u32,
    by: u32,
    granted: bool,
) -> Result<(), AllocError>
    requires asked { IsAskedHere (machine_state machine.old) (machine_stack machine.old) index by }
    requires granted { granted ≡ is_granted (machine_state machine.old) by }
    requires typed { IsMachineTyped (machine_state machine.old) (machine_stack machine.old) }
    ensures state { OnOk result (machine_state machine.new ≡
        applied (granted_growth (machine_state machine.old) index by)
        (machine_state machine.old)) }
    ensures stack { OnOk result (machine_stack machine.new ≡
        Runs (put (growth_value (machine_state machine.old) index by ∷ [])
        (top_term (machine_stack machine.old))) ∷ []) }
    ensures typed { OnOk result
        (IsMachineTyped (machine_state machine.new) (machine_stack machine.new)) }
    ensures bodies { OnOk result (machine.new.bodies ≡ machine.old.bodies) }
{
    wz_machine::laws::steps_write();
    match machine.answer_grow(granted) {
        Ok(()) => Ok(()),
        Err(GrowFault::NoMemory) => Err(AllocError),
        // just this growth is asked for, within the limits
        Err(GrowFault::NotNow) => unreachable!(),
    }
}

impl<'m, M: Linear> Steps for Machine<'m, M> {
    ghost use Rattle.wz_machine.specs.Machines.{machine_state, machine_stack};

    ghost state = { λ machine. machine_state machine };

    ghost stack = { λ machine. machine_stack machine };

    ghost bodies = { λ machine. machine.bodies };

    fn enter(&mut self, function: u32) -> Result<Entered, AllocError> {
        enter(self, function)
    }

    fn would_change_table(&self) -> bool {
        would_change_table(self)
    }

    fn tick(&mut self) -> Result<Turned, AllocError> {
        tick(self)
    }

    fn advance(&mut self, limit: u64) -> Result<Advance, AllocError> {
        advance(self, limit)
    }

    fn frames(&self) -> u64 {
        self.frames()
    }

    fn frame_locals(&self) -> u64 {
        self.frame_locals()
    }

    fn pages(&self) -> u64 {
        pages(self.store())
    }

    fn answer_growth(&mut self, index: u32, by: u32, granted: bool) -> Result<(), AllocError> {
        answer_growth(self, index, by, granted)
    }
}
