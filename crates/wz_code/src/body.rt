//! Bodies of functions and expressions, in numbered blocks.

ghost use Rattle.std.specs.Prelude.{◌≡◌, ◌↔◌, ◌≤◌, ◌∷◌, length, slice_get, slice_index};
ghost use Rattle.std.specs.Prelude.{slice_index_or, IsNone};
ghost use Rattle.std.specs.Option.{option_map};
ghost use Rattle.wz_code.specs.BlockRule.{IsBody};
ghost use Rattle.wz_code.specs.Layout.{cut, IsCut};

use crate::instr::Instr;
use std::marker::Model;
use wz_types::ValType;

/// The body of a function, or an expression: its runs of locals, its instructions in numbered
/// blocks, and the labels and types that the instructions name. Block 0 is the body itself. Each
/// other block is named by one instruction, which stands in a block of a lower number.
///
/// All instructions stand in one vector, block behind block. A body takes 32 bytes and its
/// instructions, and one that has more than instructions of block 0 some 128 bytes more.
#[derive(Drop)]
pub struct Body {
    pub(crate) parts: Parts,
}

/// What a body has: instructions of block 0 alone, or more.
#[derive(Drop)]
pub(crate) enum Parts {
    Plain(Vec<Instr>),
    Whole(Box<Whole>),
}

/// All lists of a body.
#[derive(Drop)]
pub(crate) struct Whole {
    pub code: Vec<Instr>,
    /// Where the instructions of blocks 1, 2 and so on begin. Block 0 begins at 0, and each block
    /// ends where the next one begins, the last one at the end.
    pub starts: Vec<usize>,
    pub locals: Vec<(u32, ValType)>,
    pub labels: Vec<u32>,
    pub types: Vec<ValType>,
}

impl Model for Body {
    ghost use Rattle.wz_code.specs.BodyParts.{BodyParts};

    ghost Value = { BodyParts };

    ghost use Rattle.wz_code.specs.Laid.{IsLaid, parts_of};

    ghost view = { λ b. parts_of b.parts };

    ghost invariant = { λ b. IsLaid b.parts };
}

/// Where a block begins.
#[inline]
fn begin_of(starts: &[usize], number: usize) -> usize
    requires { number ≤ length starts.now }
    ensures { result ≡ slice_index (0 ∷ starts.now) number }
{
    if number == 0 {
        return 0;
    }
    starts[number - 1]
}

/// Where a block ends: where the next one begins, or at the end of the code.
#[inline]
fn end_of(starts: &[usize], number: usize, top: usize) -> usize
    ensures { result ≡ slice_index_or starts.now number top }
{
    if number < starts.len() {
        return starts[number];
    }
    top
}

/// The instructions of a block, where the blocks behind block 0 begin at these places.
#[inline]
fn block_in<'a>(code: &'a [Instr], starts: &[usize], number: usize) -> Option<&'a [Instr]>
    requires { IsCut starts.now (length code.now) }
    ensures { option_map (λ block. block.now) result
        ≡ slice_get (cut code.now 0 starts.now) number }
{
    if number > starts.len() {
        return None;
    }
    let from = begin_of(starts, number);
    let to = end_of(starts, number, code.len());
    Some(&code[from..to])
}

impl Body {
    /// The runs of locals: so many of one type.
    pub fn locals(&self) -> &[(u32, ValType)]
        ensures { result.now ≡ self.now.locals }
    {
        match &self.parts {
            Parts::Plain(_) => &[],
            Parts::Whole(whole) => whole.locals.as_slice(),
        }
    }

    #[inline]
    pub fn block_count(&self) -> u32
        ensures count { result ≡ length self.now.blocks }
        ensures kept { IsBody self.now }
    {
        match &self.parts {
            Parts::Plain(_) => 1,
            Parts::Whole(whole) => whole.starts.len() as u32 + 1,
        }
    }

    /// The instructions of a block.
    #[inline]
    pub fn block(&self, number: u32) -> Option<&[Instr]>
        ensures value { option_map (λ block. block.now) result ≡ slice_get self.now.blocks number }
        ensures none { IsNone result ↔ (length self.now.blocks ≤ number) }
        ensures kept { IsBody self.now }
    {
        match &self.parts {
            Parts::Plain(code) => block_in(code, &[], number as usize),
            Parts::Whole(whole) => block_in(&whole.code, &whole.starts, number as usize),
        }
    }

    /// The labels that the `BrTable` instructions name.
    pub fn labels(&self) -> &[u32]
        ensures { result.now ≡ self.now.labels }
    {
        match &self.parts {
            Parts::Plain(_) => &[],
            Parts::Whole(whole) => whole.labels.as_slice(),
        }
    }

    /// The types that the `SelectTyped` instructions name.
    pub fn types(&self) -> &[ValType]
        ensures { result.now ≡ self.now.types }
    {
        match &self.parts {
            Parts::Plain(_) => &[],
            Parts::Whole(whole) => whole.types.as_slice(),
        }
    }
}
