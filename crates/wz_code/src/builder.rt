//! Bodies that are being made.

ghost use Rattle.std.specs.Prelude.{◌≡◌, ◌<◌, ◌-◌, ◌^◌, length, IfOk, OnOk, OnErr, IsSome};
ghost use Rattle.wz_code.specs.BodyParts.{block_at, no_parts, with_locals, with_instr, with_block};
ghost use Rattle.wz_code.specs.BodyParts.{with_label, with_type};
ghost use Rattle.wz_code.specs.BlockRule.{BlockRule, IsShort};

use crate::body::{Body, Parts, Whole};
use crate::instr::Instr;
use crate::order::lay_out;
use std::alloc::{AllocError, Global};
use std::marker::Model;
use wz_types::ValType;

/// A body that is being made, item by item. An add call gives the new item's number in its list.
///
/// While block 0 is the only one, its instructions go to `code`. From the first further block on
/// each instruction is noted in `added` with its block, and `code` gets a place more, so that
/// `finish` can put them in order and needs no memory.
#[derive(Drop)]
pub struct BodyBuilder {
    alloc: Global,
    code: Vec<Instr>,
    /// How many instructions of block 0 were there when the first further block came.
    settled: usize,
    added: Vec<(u32, Instr)>,
    /// How many instructions each block has, once there are several blocks.
    counts: Vec<usize>,
    locals: Vec<(u32, ValType)>,
    labels: Vec<u32>,
    types: Vec<ValType>,
    /// Where `finish` puts all of it. It is made with the first item other than an instruction.
    spare: Option<Box<Whole>>,
}

impl Model for BodyBuilder {
    ghost use Rattle.wz_code.specs.BodyParts.{BodyParts};

    ghost Value = { BodyParts };

    ghost use Rattle.wz_code.specs.Layout.{blocks_of};
    ghost use Rattle.wz_code.specs.Laid.{IsBuilt};

    ghost view = { λ b. record {
      locals = b.locals.items;
      blocks = blocks_of b.code.items b.settled b.added.items b.counts.items;
      labels = b.labels.items;
      types = b.types.items;
    } };

    ghost invariant = { λ b. IsBuilt b.code.items b.settled b.added.items b.counts.items b.spare
        b.locals.items b.labels.items b.types.items };
}

/// Makes the place for a body that is more than instructions of block 0, where there is none yet.
fn make_place(spare: &mut Option<Box<Whole>>, alloc: Global) -> Result<(), AllocError>
    ensures made { OnOk result (IsSome spare.new) }
    ensures err { OnErr result (spare.new ≡ spare.old) }
{
    if spare.is_none() {
        let whole = Whole {
            code: Vec::new(alloc),
            starts: Vec::new(alloc),
            locals: Vec::new(alloc),
            labels: Vec::new(alloc),
            types: Vec::new(alloc),
        };
        *spare = Some(Box::new(alloc, whole)?);
    }
    Ok(())
}

/// Makes room for one instruction where there is none yet. `push` would make room for four, and a
/// module may have millions of bodies with a single instruction.
#[inline]
fn make_first_room(code: &mut Vec<Instr>, alloc: Global) -> Result<(), AllocError>
    ensures { code.new.items ≡ code.old.items }
{
    if code.is_empty() {
        *code = Vec::with_capacity(alloc, 1)?;
    }
    Ok(())
}

impl BodyBuilder {
    /// No instruction yet, but block 0.
    pub fn new(alloc: Global) -> BodyBuilder
        ensures { result ≡ no_parts }
    {
        BodyBuilder {
            alloc,
            code: Vec::new(alloc),
            settled: 0,
            added: Vec::new(alloc),
            counts: Vec::new(alloc),
            locals: Vec::new(alloc),
            labels: Vec::new(alloc),
            types: Vec::new(alloc),
            spare: None,
        }
    }

    /// Adds a run of locals.
    pub fn add_locals(&mut self, count: u32, kind: ValType) -> Result<u32, AllocError>
        requires { length self.old.locals < 2 ^ 32 - 1 }
        ensures number { IfOk result (λ number. number ≡ length self.old.locals) }
        ensures added { OnOk result (self.new ≡ with_locals self.old count kind) }
        ensures err { OnErr result (self.new ≡ self.old) }
    {
        make_place(&mut self.spare, self.alloc)?;
        let number = self.locals.len() as u32;
        self.locals.push((count, kind))?;
        Ok(number)
    }

    /// Adds an instruction at the end of a block.
    #[inline]
    pub fn add_instr(&mut self, block: u32, instr: Instr) -> Result<u32, AllocError>
        requires there { block < length self.old.blocks }
        requires room { length (block_at self.old.blocks block) < 2 ^ 32 - 1 }
        ensures number { IfOk result (λ number. number ≡ length (block_at self.old.blocks block)) }
        ensures added { OnOk result (self.new ≡ with_instr self.old block instr) }
        ensures err { OnErr result (self.new ≡ self.old) }
    {
        if self.counts.is_empty() {
            let number = self.code.len() as u32;
            make_first_room(&mut self.code, self.alloc)?;
            self.code.push(instr)?;
            return Ok(number);
        }
        let number = self.counts[block as usize];
        self.code.push(instr)?;
        self.added.push((block, instr))?;
        self.counts[block as usize] = number + 1;
        Ok(number as u32)
    }

    /// Adds an empty block.
    pub fn add_block(&mut self) -> Result<u32, AllocError>
        requires { length self.old.blocks < 2 ^ 32 - 1 }
        ensures number { IfOk result (λ number. number ≡ length self.old.blocks) }
        ensures added { OnOk result (self.new ≡ with_block self.old) }
        ensures err { OnErr result (self.new ≡ self.old) }
    {
        make_place(&mut self.spare, self.alloc)?;
        if self.counts.is_empty() {
            let first = self.code.len();
            self.counts = [first, 0].to_vec(self.alloc)?;
            self.settled = first;
            return Ok(1);
        }
        let number = self.counts.len() as u32;
        self.counts.push(0)?;
        Ok(number)
    }

    /// Adds a label to those that `BrTable` instructions name.
    pub fn add_label(&mut self, label: u32) -> Result<u32, AllocError>
        requires { length self.old.labels < 2 ^ 32 - 1 }
        ensures number { IfOk result (λ number. number ≡ length self.old.labels) }
        ensures added { OnOk result (self.new ≡ with_label self.old label) }
        ensures err { OnErr result (self.new ≡ self.old) }
    {
        make_place(&mut self.spare, self.alloc)?;
        let number = self.labels.len() as u32;
        self.labels.push(label)?;
        Ok(number)
    }

    /// Adds a type to those that `SelectTyped` instructions name.
    pub fn add_type(&mut self, kind: ValType) -> Result<u32, AllocError>
        requires { length self.old.types < 2 ^ 32 - 1 }
        ensures number { IfOk result (λ number. number ≡ length self.old.types) }
        ensures added { OnOk result (self.new ≡ with_type self.old kind) }
        ensures err { OnErr result (self.new ≡ self.old) }
    {
        make_place(&mut self.spare, self.alloc)?;
        let number = self.types.len() as u32;
        self.types.push(kind)?;
        Ok(number)
    }

    /// The body of what was added.
    pub fn finish(self) -> Body
        requires rule { BlockRule self }
        requires short { IsShort self }
        ensures { result ≡ self }
    {
        let BodyBuilder {
            alloc: _,
            mut code,
            settled,
            added,
            counts: mut starts,
            locals,
            labels,
            types,
            spare,
        } = self;
        let Some(mut whole) = spare else {
            let parts = Parts::Plain(code);
            return Body { parts };
        };
        lay_out(&mut code, settled, &added, &mut starts);
        *whole = Whole {
            code,
            starts,
            locals,
            labels,
            types,
        };
        let parts = Parts::Whole(whole);
        Body { parts }
    }
}
