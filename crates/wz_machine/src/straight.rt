//! Runs of plain instructions within one block.
//!
//! The loop has few variables, and its code is a slice that a tick shortens by one, so that fuel,
//! place and room cost nothing.

ghost use Rattle.std.specs.Prelude.{◌≡◌, ◌≤◌, ◌+◌, length, drop};
ghost use Rattle.wz_machine.specs.PlainSteps.{site};
ghost use Rattle.wz_machine.specs.Straight.{changes_table, point, RunsTo};
ghost use Rattle.wz_machine.specs.Tried.{is_control as is_control_instr};

use crate::plain::common::tries;
use crate::plain::{Plain, run_plain};
use wz_code::{Body, Instr};
use wz_linear::Linear;
use wz_store::Store;
use wz_types::Value;

/// Where a run came to: how many instructions it made, and how many values the block has then.
#[derive(Clone, Copy)]
pub(crate) struct Pause {
    pub made: usize,
    pub have: usize,
}

/// Whether the instruction changes a table, which is not done in a run.
#[inline(always)]
pub fn is_table_change(instr: &Instr) -> bool
    ensures { result ≡ changes_table instr.now }
{
    match *instr {
        Instr::TableSet(_)
        | Instr::TableInit {
            segment: _,
            table: _,
        }
        | Instr::TableCopy { to: _, from: _ }
        | Instr::TableGrow(_)
        | Instr::TableFill(_) => true,
        _ => false,
    }
}

/// Whether the instruction enters or leaves a block or a function, or grows something: it is never
/// plain.
#[inline(always)]
pub(crate) fn is_control(instr: &Instr) -> bool
    ensures { result ≡ is_control_instr instr.now }
{
    match *instr {
        Instr::Block { shape: _, body: _ }
        | Instr::Loop { shape: _, body: _ }
        | Instr::If {
            shape: _,
            yes: _,
            no: _,
        }
        | Instr::Br(_)
        | Instr::BrIf(_)
        | Instr::BrTable {
            first: _,
            count: _,
            last: _,
        }
        | Instr::Return
        | Instr::Call(_)
        | Instr::CallIndirect {
            signature: _,
            table: _,
        }
        | Instr::TableGrow(_)
        | Instr::MemoryGrow(_) => true,
        _ => false,
    }
}

/// Runs at most so many plain instructions of what is left of a block, up to one that doesn't
/// plainly go on or changes a table. Behind its values there is room for one by each of them.
#[inline(always)]
pub(crate) fn straight<M: Linear>(
    body: &Body,
    code: &[Instr],
    limit: usize,
    locals: &mut [Value],
    own: &mut [Value],
    have: usize,
    store: &mut Store<'_, M>,
) -> Pause
    requires { have + length code.now ≤ length own.old }
    ensures ran { RunsTo body.now result.made
        (point code.now have (site locals.old own.old store.old))
        (point (drop result.made code.now) result.have (site locals.new own.new store.new)) }
    ensures limited { result.made ≤ limit }
    ensures within { result.made ≤ length code.now }
    ensures room { result.have + length code.now ≤ length own.new + result.made }
{
    let started = if limit < code.len() {
        limit
    } else {
        code.len()
    };
    let mut rest = &code[..started];
    let mut now = have;
    while let Some((instr, tail)) = rest.split_first() {
        if tries(instr, locals, own, &mut now, store) {
            rest = tail;
            continue;
        }
        let made = started - rest.len();
        if is_control(instr) {
            return Pause { made, have: now };
        }
        if is_table_change(instr) {
            return Pause { made, have: now };
        }
        match run_plain(body, instr, locals, own, now, store) {
            Ok(Plain::Went(next)) => now = next,
            Ok(Plain::Trapped(_)) => return Pause { made, have: now },
            Ok(Plain::NoRule) => return Pause { made, have: now },
            Ok(Plain::Special) => return Pause { made, have: now },
            Err(_) => return Pause { made, have: now },
        }
        rest = tail;
    }
    Pause {
        made: started,
        have: now,
    }
}
