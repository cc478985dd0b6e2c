//! Making the output and writing it.

ghost use Rattle.std.specs.Prelude.{◌≡◌, OnOk, IfOk, IsErrOf, length};
ghost use Rattle.wz_io.specs.World.{World, HasFailed, name_of};
ghost use Rattle.wz_io.specs.declared.files.Side.TheVariants.{Output as OnOutput};
ghost use Rattle.wz_rewrite.specs.OutputState.{HasRanges};
ghost use Rattle.wz_rewrite.specs.Pieces.{pieces_text, piece_ranges};
ghost use Rattle.wz_top.specs.Devices.{HasWritten, HoldsPrefix};

use wz_io::{FileName, Files, OpenFault, laws};
use wz_linear::Linear;
use wz_rewrite::Output;
use wz_store::Reached;

/// Makes the output of that name, writes all pieces and closes it, and says how many bytes these
/// are.
pub fn deliver<M: Linear, F: Files>(
    files: &mut F,
    name: FileName<'_>,
    output: &mut Output<'_>,
    reached: &Reached<'_, M>,
) -> Result<u64, OpenFault>
    requires ranges { HasRanges reached.now.store.memories (piece_ranges output.old) }
    ensures done { let right = pieces_text reached.now.store.memories output.old in
        OnOk result (HasWritten (name_of name.entry) right
        (F.world files.old) (F.world files.new)) }
    ensures count { let right = pieces_text reached.now.store.memories output.old in
        IfOk result (λ count. count ≡ length right) }
    ensures failed { IsErrOf result OpenFault.Failed →
        HasFailed OnOutput (name_of name.entry) (F.world files.old) (F.world files.new) }
    ensures kept { IsErrOf result OpenFault.NoMemory →
        F.world files.new ≡ F.world files.old }
    ensures reads { (F.world files.new).reads ≡ (F.world files.old).reads }
    ensures prefix { let right = pieces_text reached.now.store.memories output.old in
        HoldsPrefix (name_of name.entry) right (F.world files.old) (F.world files.new) }
{
    // For the proof: a created output holds no bytes, and then those that are written behind them.
    laws::created_is_written();
    laws::writes_are_written();
    files.create(name)?;
    let Ok(count) = output.write_to(reached, files) else {
        return Err(OpenFault::Failed);
    };
    match files.close() {
        Ok(()) => Ok(count),
        Err(_) => Err(OpenFault::Failed),
    }
}
