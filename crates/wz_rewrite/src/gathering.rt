//! Bytes on their way through the buffer to the output.

ghost use Rattle.std.specs.Prelude.{◌≡◌, ◌+◌, ◌<◌, ◌≤◌, ◌++◌, length, take, IfOk, OnErr};
ghost use Rattle.wz_io.specs.World.{World, IsOpen};
ghost use Rattle.wz_io.specs.declared.files.Side.TheVariants.{Output};
ghost use Rattle.wz_linear.specs.Bytes.{IsWithin, part};
ghost use Rattle.wz_rewrite.specs.Gathering.{Gathers, FailsAmong};

use wz_io::{Failed, Files, write_all};
use wz_linear::Linear;

/// Copies bytes into the buffer, behind the first `filled` ones.
fn copy_in(bytes: &[u8], buffer: &mut [u8], filled: usize)
    requires { filled + length bytes.now ≤ length buffer.old }
    ensures { take (filled + length bytes.now) buffer.new ≡ take filled buffer.old ++ bytes.now }
{
    buffer[filled..filled + bytes.len()].copy_from_slice(bytes);
}

/// Copies a range of a memory into the buffer, behind the first `filled` bytes.
fn read_in<M: Linear>(memory: &M, at: u64, count: usize, buffer: &mut [u8], filled: usize)
    requires within { IsWithin (M.contents memory.now) at count }
    requires room { filled + count ≤ length buffer.old }
    ensures { take (filled + count) buffer.new ≡
        take filled buffer.old ++ part (M.contents memory.now) at count }
{
    let _within = memory.read_into(at, &mut buffer[filled..filled + count]);
}

/// Writes the buffer once it is full, and says how many bytes wait in it.
fn write_full<F: Files>(buffer: &[u8], filled: usize, files: &mut F) -> Result<usize, Failed>
    requires opened { IsOpen Output (F.world files.old) }
    requires some { 0 < length buffer.now }
    requires within { filled ≤ length buffer.now }
    ensures room { IfOk result (λ left. left < length buffer.now) }
    ensures gathered { IfOk result (λ left. Gathers
        (take filled buffer.now) (take left buffer.now) (F.world files.old) (F.world files.new)) }
    ensures failed { OnErr result
        (FailsAmong (take filled buffer.now) (F.world files.old) (F.world files.new)) }
{
    if filled < buffer.len() {
        return Ok(filled);
    }
    write_all(files, buffer)?;
    Ok(0)
}

/// Gathers bytes behind the first `filled` ones of the buffer, which is written whenever it is
/// full. Says how many bytes wait in it.
pub(crate) fn gather_bytes<F: Files>(
    bytes: &[u8],
    buffer: &mut [u8],
    filled: usize,
    files: &mut F,
) -> Result<usize, Failed>
    requires opened { IsOpen Output (F.world files.old) }
    requires room { filled < length buffer.old }
    ensures room { IfOk result (λ left. left < length buffer.new) }
    ensures gathered { IfOk result (λ left. Gathers
        (take filled buffer.old ++ bytes.now) (take left buffer.new)
        (F.world files.old) (F.world files.new)) }
    ensures failed { OnErr result
        (FailsAmong (take filled buffer.old ++ bytes.now)
        (F.world files.old) (F.world files.new)) }
{
    let mut waiting = filled;
    let mut done = 0;
    while done < bytes.len() {
        let count = (buffer.len() - waiting).min(bytes.len() - done);
        copy_in(&bytes[done..done + count], buffer, waiting);
        waiting = write_full(buffer, waiting + count, files)?;
        done += count;
    }
    Ok(waiting)
}

/// Gathers a range of a memory, as `gather_bytes` does bytes.
pub(crate) fn gather_range<M: Linear, F: Files>(
    memory: &M,
    at: u32,
    len: u32,
    buffer: &mut [u8],
    filled: usize,
    files: &mut F,
) -> Result<usize, Failed>
    requires within { IsWithin (M.contents memory.now) at len }
    requires opened { IsOpen Output (F.world files.old) }
    requires room { filled < length buffer.old }
    ensures room { IfOk result (λ left. left < length buffer.new) }
    ensures gathered { IfOk result (λ left. Gathers
        (take filled buffer.old ++ part (M.contents memory.now) at len) (take left buffer.new)
        (F.world files.old) (F.world files.new)) }
    ensures failed { OnErr result
        (FailsAmong (take filled buffer.old ++ part (M.contents memory.now) at len)
        (F.world files.old) (F.world files.new)) }
{
    let size = len as usize;
    let mut waiting = filled;
    let mut done = 0;
    while done < size {
        let count = (buffer.len() - waiting).min(size - done);
        read_in(memory, u64::from(at) + done as u64, count, buffer, waiting);
        waiting = write_full(buffer, waiting + count, files)?;
        done += count;
    }
    Ok(waiting)
}
