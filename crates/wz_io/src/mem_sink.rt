//! A sink in memory, for tests. It tells its text, and fails from a given put on.

ghost use Rattle.std.specs.Prelude.{◌≡◌, ◌≤◌, ◌<◌, ◌-◌, length};

use crate::place::count_fault;
use crate::{Failed, Sink};
use std::alloc::Global;

/// A sink in memory. A put takes the whole piece, or fails.
#[derive(Drop)]
pub struct MemSink {
    text: Vec<u8>,
    // How many more puts go through; None where all do.
    puts_left: Option<u32>,
    faults: u64,
}

impl MemSink {
    ghost use Rattle.std.specs.Prelude.{Some, []};
    ghost use Rattle.std.specs.Option.{ForSome, option_map};
    ghost use Rattle.wz_io.specs.World.{said_at_start};
    ghost use Rattle.wz_io.specs.MemSink.{mem_said, mem_puts_left};

    /// Fails from that put on, counted from 1.
    pub fn new(alloc: Global, fails_from: Option<u32>) -> MemSink
        requires first { ForSome fails_from (λ first. 0 < first) }
        ensures said { mem_said result ≡ said_at_start (Some []) }
        ensures puts_left { mem_puts_left result ≡ option_map (λ first. first - 1) fails_from }
    {
        MemSink {
            text: Vec::new(alloc),
            puts_left: fails_from.map(|first| first.saturating_sub(1)),
            faults: 0,
        }
    }

    /// All that was put.
    pub fn text(&self) -> &[u8]
        ensures bytes { (mem_said self.now).text ≡ Some result.now }
    {
        self.text.as_slice()
    }
}

impl Sink for MemSink {
    ghost use Rattle.std.specs.Prelude.{Some, IfOk, OnOk, IsErr};
    ghost use Rattle.std.specs.Option.{option_map};
    ghost use Rattle.wz_io.specs.World.{Said};
    ghost use Rattle.wz_io.specs.Calls.{Puts};
    ghost use Rattle.wz_io.specs.MemSink.{mem_said, mem_puts_left};

    ghost said = { mem_said };

    fn put(&mut self, piece: &[u8]) -> Result<usize, Failed>
        requires some { 0 < length piece.now }
        ensures did { Puts (mem_said self.old) (mem_said self.new) piece.now result }
        // Any other failure is that of a put that finds no memory.
        ensures fails { mem_puts_left self.old ≡ Some 0 → IsErr result }
        ensures whole { IfOk result (λ n. n ≡ length piece.now) }
        ensures counted { mem_puts_left self.new
            ≡ option_map (λ n. n - 1) (mem_puts_left self.old) }
    {
        match self.puts_left {
            Some(0) => {
                count_fault(&mut self.faults);
                return Err(Failed);
            }
            Some(puts) => self.puts_left = Some(puts - 1),
            None => {}
        }
        match self.text.extend_from_slice(piece) {
            Ok(()) => Ok(piece.len()),
            Err(_) => {
                count_fault(&mut self.faults);
                Err(Failed)
            }
        }
    }
}
