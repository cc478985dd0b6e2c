//! Files and standard streams in memory, for tests. They tell everything, and fail where they are
//! asked to.

ghost use Rattle.std.specs.Prelude.{◌≡◌, ◌≤◌, ◌<◌, length, min, vec_len};

use crate::memory::{Entry, take_some};
use crate::names::copy_name;
use crate::place::{count_fault, put};
use crate::plan::{CallKind, Failure, count_call};
use crate::stream::{
    Stream, add, copy_input, find_any, make_output, put_file, set_closed, set_failed, settle,
};
use crate::{Failed, FileName, Files, OpenFault};
use std::alloc::{AllocError, Global};
use std::collections::VecDeque;

/// Files and standard streams in memory. A read or a write takes as many bytes as there are, and at
/// most `chunk`.
///
/// `Failed` comes at the calls that `fail` lists, at a missing input, and at a write that finds no
/// memory.
#[derive(Drop)]
pub struct MemFiles {
    alloc: Global,
    chunk: usize,
    stdin: Vec<u8>,
    stdout: Vec<u8>,
    entries: VecDeque<Entry>,
    stream: Stream,
    input: Vec<u8>,
    at: usize,
    faults: u64,
    reads: u64,
    plan: Vec<Failure>,
    ghost chunk_positive: { 0 < chunk },
    ghost at_within: { at ≤ vec_len input },
}

impl MemFiles {
    ghost use Rattle.std.specs.Prelude.{OnOk, OnErr, Some, []};
    ghost use Rattle.std.specs.Option.{option_copied};
    ghost use Rattle.wz_io.specs.World.{World, File, input_of, world_at_start};
    ghost use Rattle.wz_io.specs.Plan.{with_failure_at};
    ghost use Rattle.wz_io.specs.MemFiles.{mem_world, mem_chunk, mem_plan, told_at_start, with_file};

    /// No files, this standard input, and no failure listed.
    pub fn new(alloc: Global, stdin: Vec<u8>, chunk: usize) -> MemFiles
        requires chunk { 0 < chunk }
        ensures world { mem_world result ≡ world_at_start (told_at_start stdin.items) (Some []) }
        ensures chunk { mem_chunk result ≡ chunk }
        ensures plan { mem_plan result ≡ [] }
    {
        MemFiles {
            alloc,
            chunk,
            stdin,
            stdout: Vec::new(alloc),
            entries: VecDeque::new(alloc),
            stream: Stream::Nothing,
            input: Vec::new(alloc),
            at: 0,
            faults: 0,
            reads: 0,
            plan: Vec::new(alloc),
        }
    }

    /// Puts a file there, in place of one of that path.
    pub fn put_file(&mut self, path: &str, bytes: Vec<u8>) -> Result<(), AllocError>
        ensures ok { OnOk result
            (mem_world self.new ≡ with_file (mem_world self.old) path.now bytes.items) }
        ensures err { OnErr result (mem_world self.new ≡ mem_world self.old) }
        ensures chunk { mem_chunk self.new ≡ mem_chunk self.old }
        ensures plan { mem_plan self.new ≡ mem_plan self.old }
    {
        put_file(
            self.alloc,
            &mut self.entries,
            &mut self.stream,
            path.as_bytes(),
            bytes,
        )
    }

    /// The nth call of that kind from here on is to fail, counted from 1.
    pub fn fail(&mut self, kind: CallKind, nth: u32) -> Result<(), AllocError>
        requires nth { 0 < nth }
        ensures ok { OnOk result
            (mem_plan self.new ≡ with_failure_at (mem_plan self.old) kind nth) }
        ensures err { OnErr result (mem_plan self.new ≡ mem_plan self.old) }
        ensures world { mem_world self.new ≡ mem_world self.old }
        ensures chunk { mem_chunk self.new ≡ mem_chunk self.old }
    {
        self.plan.push(Failure { kind, calls: nth })?;
        Ok(())
    }

    /// The bytes of a file; None exactly where there is no such file.
    pub fn file(&self, path: &str) -> Option<&[u8]>
        ensures bytes { option_copied result ≡ input_of (mem_world self.now).told (File path.now) }
    {
        find_any(&self.entries, &self.stream, path.as_bytes())
    }

    /// All that was written to the standard output.
    pub fn stdout(&self) -> &[u8]
        ensures bytes { (mem_world self.now).told.stdout ≡ Some result.now }
    {
        self.stdout.as_slice()
    }
}

impl Files for MemFiles {
    ghost use Rattle.std.specs.Prelude.{◌+◌, ◌-◌, ◌^◌, ◌||◌, ◌↔◌, IsTrue, IsErr, false, IfOk, IfSome, OnOk};
    ghost use Rattle.wz_io.specs.World.{World, IsOpen, name_of};
    ghost use Rattle.wz_io.specs.Calls.{Opens, Creates, Reads, Writes, Closes};
    ghost use Rattle.wz_io.specs.Plan.{is_listed, after_call, after_opening, FailsWhere};
    ghost use Rattle.wz_io.specs.MemFiles.{mem_world, mem_chunk, mem_plan, is_missing};
    ghost use Rattle.wz_io.specs.declared.files.Side.TheVariants.{Input, Output};

    ghost world = { mem_world };

    fn open_input(&mut self, name: FileName<'_>) -> Result<(), OpenFault>
        ensures did { Opens (name_of name.entry) (mem_world self.old) (mem_world self.new) result }
        ensures fails { FailsWhere
            (is_listed (mem_plan self.old) CallKind.OpenInput
            || is_missing (mem_world self.old).told (name_of name.entry))
            result }
        ensures counted { mem_plan self.new
            ≡ after_opening (mem_plan self.old) CallKind.OpenInput result }
        ensures chunk { mem_chunk self.new ≡ mem_chunk self.old }
    {
        let Ok(copy) = copy_name(self.alloc, name) else {
            return Err(OpenFault::NoMemory);
        };
        let Ok(found) = copy_input(self.alloc, &self.stdin, &self.entries, &self.stream, &name)
        else {
            return Err(OpenFault::NoMemory);
        };
        if settle(&mut self.entries, &mut self.stream).is_err() {
            return Err(OpenFault::NoMemory);
        }
        let fails = count_call(&mut self.plan, CallKind::OpenInput);
        match found {
            Some(bytes) if !fails => {
                put(
                    &mut self.stream,
                    Stream::Input {
                        name: copy,
                        opened: true,
                        failed: false,
                    },
                );
                self.at = 0;
                self.input = bytes;
                Ok(())
            }
            _ => {
                put(
                    &mut self.stream,
                    Stream::Input {
                        name: copy,
                        opened: false,
                        failed: true,
                    },
                );
                count_fault(&mut self.faults);
                Err(OpenFault::Failed)
            }
        }
    }

    fn read(&mut self, buffer: &mut [u8]) -> Result<usize, Failed>
        requires opened { IsOpen Input (mem_world self.old) }
        requires room { 0 < length buffer.old }
        ensures did { Reads (mem_world self.old) (mem_world self.new) buffer.new result }
        ensures fails { IsErr result ↔ IsTrue (is_listed (mem_plan self.old) CallKind.Read) }
        ensures taken { IfOk result (λ n. IfSome (mem_world self.old).left (λ left.
            n ≡ min (min (length buffer.new) (mem_chunk self.old)) (length left))) }
        ensures counted { mem_plan self.new ≡ after_call (mem_plan self.old) CallKind.Read }
        ensures reads { (mem_world self.new).reads
            ≡ min ((mem_world self.old).reads + 1) (2 ^ 64 - 1) }
        ensures chunk { mem_chunk self.new ≡ mem_chunk self.old }
    {
        self.reads = self.reads.saturating_add(1);
        if count_call(&mut self.plan, CallKind::Read) {
            count_fault(&mut self.faults);
            set_failed(&mut self.stream);
            return Err(Failed);
        }
        let count = take_some(&self.input, self.at, self.chunk, buffer);
        self.at += count;
        Ok(count)
    }

    fn create(&mut self, name: FileName<'_>) -> Result<(), OpenFault>
        ensures did { Creates (name_of name.entry)
            (mem_world self.old) (mem_world self.new) result }
        ensures fails { FailsWhere (is_listed (mem_plan self.old) CallKind.Create) result }
        ensures counted { mem_plan self.new
            ≡ after_opening (mem_plan self.old) CallKind.Create result }
        ensures chunk { mem_chunk self.new ≡ mem_chunk self.old }
    {
        let Ok(copy) = copy_name(self.alloc, name) else {
            return Err(OpenFault::NoMemory);
        };
        if settle(&mut self.entries, &mut self.stream).is_err() {
            return Err(OpenFault::NoMemory);
        }
        if count_call(&mut self.plan, CallKind::Create) {
            put(&mut self.stream, Stream::Refused(copy));
            count_fault(&mut self.faults);
            return Err(OpenFault::Failed);
        }
        put(&mut self.stream, make_output(self.alloc, copy));
        Ok(())
    }

    fn write(&mut self, piece: &[u8]) -> Result<usize, Failed>
        requires opened { IsOpen Output (mem_world self.old) }
        requires some { 0 < length piece.now }
        ensures did { Writes (mem_world self.old) (mem_world self.new) piece.now result }
        // Any other failure is that of a write that finds no memory.
        ensures fails { OnOk result (is_listed (mem_plan self.old) CallKind.Write ≡ false) }
        ensures taken { IfOk result (λ n. n ≡ min (length piece.now) (mem_chunk self.old)) }
        ensures counted { mem_plan self.new ≡ after_call (mem_plan self.old) CallKind.Write }
        ensures chunk { mem_chunk self.new ≡ mem_chunk self.old }
    {
        if count_call(&mut self.plan, CallKind::Write) {
            count_fault(&mut self.faults);
            set_failed(&mut self.stream);
            return Err(Failed);
        }
        let count = piece.len().min(self.chunk);
        match add(&mut self.stream, &mut self.stdout, &piece[..count]) {
            Ok(()) => Ok(count),
            Err(_) => {
                count_fault(&mut self.faults);
                set_failed(&mut self.stream);
                Err(Failed)
            }
        }
    }

    fn close(&mut self) -> Result<(), Failed>
        requires opened { IsOpen Output (mem_world self.old) }
        ensures did { Closes (mem_world self.old) (mem_world self.new) result }
        ensures fails { IsErr result ↔ IsTrue (is_listed (mem_plan self.old) CallKind.Close) }
        ensures counted { mem_plan self.new ≡ after_call (mem_plan self.old) CallKind.Close }
        ensures chunk { mem_chunk self.new ≡ mem_chunk self.old }
    {
        if count_call(&mut self.plan, CallKind::Close) {
            count_fault(&mut self.faults);
            set_failed(&mut self.stream);
            return Err(Failed);
        }
        set_closed(&mut self.stream);
        Ok(())
    }
}
