//! Blocks that are entered (Core Specification 2.0, sections 4.4.8 and 4.4.9).

ghost use Rattle.std.specs.Prelude.{◌≡◌, ◌+◌, ◌≤◌, length, OnOk, OnErr};
ghost use Rattle.wz_machine.specs.Kept.{entry_kind};
ghost use Rattle.wz_machine.specs.Opening.{IsBlockKind, with_block_opened};

use crate::stacks::{Kind, Stacks};
use std::alloc::AllocError;
use wz_code::Instr;

impl<'m> Stacks<'m> {
    /// Enters a block, where so many values stay, and so many of them are its parameters.
    #[inline(always)]
    pub fn push_block(
        &mut self,
        rest: &'m [Instr],
        kind: Kind<'m>,
        code: &'m [Instr],
        have: usize,
        params: usize,
        arity: usize,
    ) -> Result<(), AllocError>
        requires block { IsBlockKind (entry_kind kind) }
        requires values { have ≤ length self.old.values }
        requires own { self.old.top.height + params ≤ have }
        ensures entered { let opened = entry_kind kind.entry in OnOk result (self.new ≡
            with_block_opened self.old rest.now opened code.now have params arity) }
        ensures refused { OnErr result (self.new ≡ self.old) }
    {
        let Some(depth) = self.top.depth.checked_add(1) else {
            return Err(AllocError);
        };
        self.outer.reserve(1)?;
        self.top.rest = rest;
        self.outer.push_reserved(self.top);
        self.top.kind = kind;
        self.top.rest = code;
        self.top.arity = arity;
        self.top.base = have - params;
        self.top.height = have - params;
        self.top.depth = depth;
        self.have = have;
        Ok(())
    }
}
