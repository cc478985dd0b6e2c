//! Parametric instructions that hold no types (Core Specification 2.0, section 5.4.3).

ghost use Rattle.std.specs.Prelude.{◌≡◌};
ghost use Rattle.wz_decode_code.specs.InstrReading.{parametric_of};

use wz_code::Instr;

/// A parametric instruction, which is its opcode alone.
pub(crate) fn read_parametric(opcode: u8) -> Option<Instr>
    ensures { result ≡ parametric_of opcode }
{
    match opcode {
        0x1A => Some(Instr::Drop),
        0x1B => Some(Instr::Select),
        _ => None,
    }
}
