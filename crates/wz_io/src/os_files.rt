//! The files and standard streams of the runtime. They tell no bytes: this is the trusted edge.

ghost use Rattle.std.specs.Prelude.{◌≡◌, ◌≤◌, ◌<◌, length, IfOk};

use crate::names::{OwnedName, copy_name};
use crate::place::{count_fault, put};
use crate::{Failed, FileName, Files, OpenFault};
use std::alloc::AllocGlobal;
use std::io::{Input, Print, Read, Write};
use std::{fs, rt};

#[derive(Drop)]
enum Source<I, F> {
    Stdin(I),
    File(F),
}

#[derive(Drop)]
enum Target<F> {
    Stdout,
    File(F),
}

// The side that was opened last, and what is still open of it.
#[derive(Drop)]
enum Opened<I, F> {
    Nothing,
    Input(Option<Source<I, F>>),
    Output(Option<Target<F>>),
}

/// The real files: paths as the system takes them, and the process's standard input and output.
#[derive(Drop)]
pub struct OsFiles<'r, R: rt::Files + Input> {
    rt: &'r R,
    faults: u64,
    name: OwnedName,
    failed: bool,
    opened: Opened<R::Reader, R::File>,
}

impl<'r, R: rt::Files + Input> OsFiles<'r, R> {
    ghost use Rattle.std.specs.Prelude.{None};
    ghost use Rattle.wz_io.specs.World.{world_at_start};
    ghost use Rattle.wz_io.specs.OsFiles.{os_world, nothing_told};

    pub fn new(rt: &'r R) -> OsFiles<'r, R>
        ensures world { os_world result ≡ world_at_start nothing_told None }
    {
        OsFiles {
            rt,
            faults: 0,
            name: OwnedName::Standard,
            failed: false,
            opened: Opened::Nothing,
        }
    }
}

fn open_source<R: rt::Files + Input>(
    rt: &R,
    name: &FileName<'_>,
) -> Result<Source<R::Reader, R::File>, Failed> {
    match name {
        FileName::Standard => Ok(Source::Stdin(rt.reader())),
        FileName::Path(path) => match fs::open(rt, *path) {
            Ok(file) => Ok(Source::File(file)),
            Err(_) => Err(Failed),
        },
    }
}

fn open_target<R: rt::Files>(rt: &R, name: &FileName<'_>) -> Result<Target<R::File>, Failed> {
    match name {
        FileName::Standard => Ok(Target::Stdout),
        FileName::Path(path) => match fs::create(rt, *path) {
            Ok(file) => Ok(Target::File(file)),
            Err(_) => Err(Failed),
        },
    }
}

fn read_from<I: Read, F: Read>(
    source: &mut Source<I, F>,
    buffer: &mut [u8],
) -> Result<usize, Failed>
    ensures { IfOk result (λ count. count ≤ length buffer.new) }
{
    let read = match source {
        Source::Stdin(stdin) => stdin.read(buffer),
        Source::File(file) => file.read(buffer),
    };
    match read {
        Ok(count) => Ok(count),
        Err(_) => Err(Failed),
    }
}

// A write that takes nothing is an error.
fn write_to<R: Print, F: Write>(
    rt: &R,
    target: &mut Target<F>,
    piece: &[u8],
) -> Result<usize, Failed>
    ensures bound { IfOk result (λ count. count ≤ length piece.now) }
    ensures some { IfOk result (λ count. 0 < count) }
{
    let count = match target {
        Target::Stdout => rt.write_some(piece),
        Target::File(file) => file.write(piece),
    };
    match count {
        Ok(0) | Err(_) => Err(Failed),
        Ok(count) => Ok(count),
    }
}

impl<'r, R: rt::Files + Input + Print + AllocGlobal> Files for OsFiles<'r, R> {
    ghost use Rattle.wz_io.specs.OsFiles.{os_world};

    ghost world = { λ files. os_world files };

    fn open_input(&mut self, name: FileName<'_>) -> Result<(), OpenFault> {
        let Ok(copy) = copy_name(self.rt.alloc(), name) else {
            return Err(OpenFault::NoMemory);
        };
        put(&mut self.opened, Opened::Input(None));
        put(&mut self.name, copy);
        match open_source(self.rt, &name) {
            Ok(source) => {
                self.failed = false;
                put(&mut self.opened, Opened::Input(Some(source)));
                Ok(())
            }
            Err(_) => {
                self.failed = true;
                count_fault(&mut self.faults);
                Err(OpenFault::Failed)
            }
        }
    }

    fn read(&mut self, buffer: &mut [u8]) -> Result<usize, Failed> {
        let Opened::Input(Some(source)) = &mut self.opened else {
            unreachable!()
        };
        match read_from(source, buffer) {
            Ok(taken) => Ok(taken),
            Err(_) => {
                self.failed = true;
                count_fault(&mut self.faults);
                Err(Failed)
            }
        }
    }

    fn create(&mut self, name: FileName<'_>) -> Result<(), OpenFault> {
        let Ok(copy) = copy_name(self.rt.alloc(), name) else {
            return Err(OpenFault::NoMemory);
        };
        put(&mut self.opened, Opened::Output(None));
        put(&mut self.name, copy);
        match open_target(self.rt, &name) {
            Ok(target) => {
                self.failed = false;
                put(&mut self.opened, Opened::Output(Some(target)));
                Ok(())
            }
            Err(_) => {
                self.failed = true;
                count_fault(&mut self.faults);
                Err(OpenFault::Failed)
            }
        }
    }

    fn write(&mut self, piece: &[u8]) -> Result<usize, Failed> {
        let Opened::Output(Some(target)) = &mut self.opened else {
            unreachable!()
        };
        match write_to(self.rt, target, piece) {
            Ok(taken) => Ok(taken),
            Err(_) => {
                self.failed = true;
                count_fault(&mut self.faults);
                Err(Failed)
            }
        }
    }

    fn close(&mut self) -> Result<(), Failed> {
        put(&mut self.opened, Opened::Output(None));
        Ok(())
    }
}
