//! The traits `Files` and `Sink`, seen through what they mean: a `World` and a `Said`.

ghost use Rattle.std.specs.Prelude.{ℕ, ◌<◌, length};
ghost use Rattle.wz_io.specs.World.{World, Said, name_of, IsOpen};
ghost use Rattle.wz_io.specs.Calls.{Opens, Creates, Reads, Writes, Closes, Puts};
ghost use Rattle.wz_io.specs.declared.files.Side.TheVariants.{Input, Output};

use thiserror::Error;

/// A call of a device failed.
#[derive(Clone, Copy, Debug, PartialEq, Eq, Error)]
#[error("a device failed")]
pub struct Failed;

/// Why nothing was opened.
#[derive(Clone, Copy, Debug, PartialEq, Eq)]
pub enum OpenFault {
    Failed,
    NoMemory,
}

/// What is open is read, or is written.
#[derive(Clone, Copy, Debug, PartialEq, Eq)]
pub enum Side {
    Input,
    Output,
}

/// The standard stream of the side that is opened, or the file at a path.
#[derive(Clone, Copy, Debug)]
pub enum FileName<'a> {
    Standard,
    Path(&'a str),
}

/// The files and standard streams that a run may touch. At most one is open at a time.
///
/// What each call does is the record of its clause `did`. In each, the count of faults never falls
/// and `Failed` comes only where it rose, and what the record doesn't name stays as it was.
pub trait Files {
    /// The count of faults, what was opened last, and the bytes where they are told.
    ghost world: { Self → World };

    /// Lets go of what was open, and opens an input. After `NoMemory` nothing changed.
    fn open_input(&mut self, name: FileName<'_>) -> Result<(), OpenFault>
        ensures did { Opens (name_of name.entry) (world self.old) (world self.new) result };

    /// Moves bytes from the front of the input into the buffer: none exactly at its end.
    fn read(&mut self, buffer: &mut [u8]) -> Result<usize, Failed>
        requires opened { IsOpen Input (world self.old) }
        requires room { 0 < length buffer.old }
        ensures did { Reads (world self.old) (world self.new) buffer.new result };

    /// Lets go of what was open, and opens an output: an empty file, or the standard output, which
    /// keeps what it holds. After `NoMemory` nothing changed.
    fn create(&mut self, name: FileName<'_>) -> Result<(), OpenFault>
        ensures did { Creates (name_of name.entry) (world self.old) (world self.new) result };

    /// Appends some first bytes of the piece, at least one, to the output.
    fn write(&mut self, piece: &[u8]) -> Result<usize, Failed>
        requires opened { IsOpen Output (world self.old) }
        requires some { 0 < length piece.now }
        ensures did { Writes (world self.old) (world self.new) piece.now result };

    /// Ends the output. After `Failed` it is still open.
    fn close(&mut self) -> Result<(), Failed>
        requires opened { IsOpen Output (world self.old) }
        ensures did { Closes (world self.old) (world self.new) result };
}

/// Where messages go.
pub trait Sink {
    /// The count of faults, and the text where it is told.
    ghost said: { Self → Said };

    /// Appends some first bytes of the piece, at least one.
    fn put(&mut self, piece: &[u8]) -> Result<usize, Failed>
        requires some { 0 < length piece.now }
        ensures did { Puts (said self.old) (said self.new) piece.now result };
}
