//! A walk over the instructions of a body.

ghost use Rattle.std.specs.Prelude.{◌≡◌, OnOk, OnErr, IfErr};
ghost use Rattle.wz_code.specs.declared.instr.Instr.{Instr};
ghost use Rattle.wz_code.specs.BodyParts.{BodyParts, block_at};
ghost use Rattle.wz_code.specs.Walking.{instrs_of, gathered, WalkStopsAt};

use crate::body::Body;
use crate::instr::Instr;

/// A visitor that is shown instructions. What it has gathered of them is its meaning.
pub trait Walk {
    /// Why it stops.
    type Fault;

    // What a visitor gathers.
    ghost Meaning: { Type 0 };

    ghost meaning: { Self → Self.Meaning };
    // What an instruction of a body makes of the meaning.
    ghost after: { BodyParts → Instr → Self.Meaning → Self.Meaning };
    // That this fault may be answered at an instruction, where this is the meaning.
    ghost refuses: { BodyParts → Instr → Self.Meaning → Self.Fault → Type 0 };

    fn see(&mut self, body: &Body, instr: &Instr) -> Result<(), Self::Fault>
        ensures seen { OnOk result
            (Self.meaning self.new ≡ Self.after body.now instr.now (Self.meaning self.old)) }
        ensures kept { OnErr result (Self.meaning self.new ≡ Self.meaning self.old) }
        ensures cause { IfErr result
            (λ fault. Self.refuses body.now instr.now (Self.meaning self.old) fault) };
}

/// Shows the instructions of one block.
fn walk_block<V: Walk>(body: &Body, number: u32, visitor: &mut V) -> Result<(), V::Fault>
    ensures all { let instrs = block_at body.now.blocks number in OnOk result
        (V.meaning visitor.new ≡ gathered (V.after body.now) instrs (V.meaning visitor.old)) }
    ensures fault { let instrs = block_at body.now.blocks number in IfErr result
        (WalkStopsAt (V.after body.now) (V.refuses body.now) instrs
        (V.meaning visitor.old) (V.meaning visitor.new)) }
{
    let Some(block) = body.block(number) else {
        return Ok(());
    };
    for instr in block {
        visitor.see(body, instr)?;
    }
    Ok(())
}

/// Shows each instruction of the body once, by block and then by place, up to the first fault.
pub fn walk_body<V: Walk>(body: &Body, visitor: &mut V) -> Result<(), V::Fault>
    ensures all { let instrs = instrs_of body.now in OnOk result
        (V.meaning visitor.new ≡ gathered (V.after body.now) instrs (V.meaning visitor.old)) }
    ensures fault { let instrs = instrs_of body.now in IfErr result
        (WalkStopsAt (V.after body.now) (V.refuses body.now) instrs
        (V.meaning visitor.old) (V.meaning visitor.new)) }
{
    for number in 0..body.block_count() {
        walk_block(body, number, visitor)?;
    }
    Ok(())
}
