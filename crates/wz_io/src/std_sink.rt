//! A sink over a standard stream of the runtime. It tells no text.

ghost use Rattle.std.specs.Prelude.{◌≡◌};

use crate::{Failed, Sink};
use std::io::Print;

/// Writes to a standard stream: over standard error it is made as `StdSink::new(&rt.stderr())`.
#[derive(Drop)]
pub struct StdSink<'r, R: Print> {
    rt: &'r R,
    faults: u64,
}

impl<'r, R: Print> StdSink<'r, R> {
    ghost use Rattle.std.specs.Prelude.{None};
    ghost use Rattle.wz_io.specs.World.{said_at_start};
    ghost use Rattle.wz_io.specs.StdSink.{std_said};

    pub fn new(rt: &'r R) -> StdSink<'r, R>
        ensures said { std_said result ≡ said_at_start None }
    {
        StdSink { rt, faults: 0 }
    }
}

impl<'r, R: Print> Sink for StdSink<'r, R> {
    ghost use Rattle.wz_io.specs.StdSink.{std_said};

    ghost said = { λ sink. std_said sink };

    fn put(&mut self, piece: &[u8]) -> Result<usize, Failed> {
        match self.rt.write_some(piece) {
            // A write that takes nothing is an error.
            Ok(0) | Err(_) => {
                self.faults = self.faults.saturating_add(1);
                Err(Failed)
            }
            Ok(count) => Ok(count),
        }
    }
}
