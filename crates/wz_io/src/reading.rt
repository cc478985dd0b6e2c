//! Reading an input to its end.

ghost use Rattle.std.specs.Prelude.{◌≡◌, ◌+◌, ◌≤◌, ◌<◌, [], OnOk, OnErr, IfOk, IfSome, IsErrOf, length};
ghost use Rattle.wz_io.specs.World.{World, IsOpen, Rose};
ghost use Rattle.wz_io.specs.Reading.{TakesFront, TakesSome, current_after_read_all, input_limit};
ghost use Rattle.wz_io.specs.declared.files.Side.TheVariants.{Input};

use crate::Files;
use std::alloc::Global;

/// The longest input that this tool reads, in bytes: `laws::limit_is_named` ties it to the number
/// that contracts cite.
pub const INPUT_LIMIT: usize = 33_554_432;

// The longest piece that one read asks for.
const PIECE: usize = 65_536;

/// Why an input wasn't read to its end.
#[derive(Clone, Copy, Debug, PartialEq, Eq)]
pub enum ReadAll {
    Failed,
    TooLong,
    NoMemory,
}

/// All that is left of the input, which stays open.
///
/// `NoMemory` may come at any time; some of the input was then read. Else `TooLong` comes exactly
/// where the input has more than `limit` bytes left and no read fails.
pub fn read_all<F: Files>(alloc: Global, files: &mut F, limit: usize) -> Result<Vec<u8>, ReadAll>
    requires opened { IsOpen Input (F.world files.old) }
    requires limit { limit ≤ input_limit }

    ensures all { IfOk result (λ all. IfSome (F.world files.old).left (λ left. all.items ≡ left)) }
    ensures within { IfOk result (λ all. length all.items ≤ limit) }
    ensures ended { OnOk result (IfSome (F.world files.new).left (λ left. left ≡ [])) }

    // After any error, some first bytes of what was left are gone.
    ensures begun { OnErr result (TakesFront (F.world files.old).left (F.world files.new).left) }
    // One byte more than the limit was read.
    ensures too_long { IsErrOf result ReadAll.TooLong →
        TakesSome (limit + 1) (F.world files.old).left (F.world files.new).left }
    ensures failed { IsErrOf result ReadAll.Failed →
        Rose (F.world files.old).faults (F.world files.new).faults }

    // The input is the same, and has failed exactly where the answer says so.
    ensures current { (F.world files.new).current
        ≡ current_after_read_all (F.world files.old).current result }
    ensures later { (F.world files.old).faults ≤ (F.world files.new).faults }
    ensures told { (F.world files.new).told ≡ (F.world files.old).told }
    ensures reads { (F.world files.new).reads ≤ (F.world files.old).reads + limit + 2 }
{
    let mut all = Vec::new(alloc);
    let mut buffer = [0u8; PIECE];
    loop {
        let room = (limit + 1 - all.len()).min(PIECE);
        let Ok(count) = files.read(&mut buffer[..room]) else {
            return Err(ReadAll::Failed);
        };
        if count == 0 {
            return Ok(all);
        }
        if all.extend_from_slice(&buffer[..count]).is_err() {
            return Err(ReadAll::NoMemory);
        }
        if all.len() > limit {
            return Err(ReadAll::TooLong);
        }
    }
}
