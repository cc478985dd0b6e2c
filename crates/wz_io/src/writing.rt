//! Writing all of a piece to an output.

ghost use Rattle.std.specs.Prelude.{◌≡◌, ◌≤◌, ◌<◌, OnOk, OnErr, length};
ghost use Rattle.wz_io.specs.World.{World, IsOpen, Rose};
ghost use Rattle.wz_io.specs.Calls.{current_after_transfer};
ghost use Rattle.wz_io.specs.Writing.{WritesAll, WritesSome};
ghost use Rattle.wz_io.specs.declared.files.Side.TheVariants.{Output};

use crate::{Failed, Files};

/// Writes all the bytes to the output, which stays open, by as many writes as it takes.
///
/// `Failed` comes only where a write failed. The output then holds some first bytes of them, not
/// all.
pub fn write_all<F: Files>(files: &mut F, bytes: &[u8]) -> Result<(), Failed>
    requires opened { IsOpen Output (F.world files.old) }

    ensures all { OnOk result (WritesAll bytes.now (F.world files.old) (F.world files.new)) }
    ensures some { OnErr result
        (WritesSome bytes.now (F.world files.old) (F.world files.new)) }
    ensures failed { OnErr result (Rose (F.world files.old).faults (F.world files.new).faults) }

    // The output is the same, and has failed exactly where the answer says so.
    ensures current { (F.world files.new).current
        ≡ current_after_transfer (F.world files.old).current result }
    ensures later { (F.world files.old).faults ≤ (F.world files.new).faults }
    ensures reads { (F.world files.new).reads ≡ (F.world files.old).reads }
{
    let mut at = 0;
    while at < bytes.len() {
        at += files.write(&bytes[at..])?;
    }
    Ok(())
}
