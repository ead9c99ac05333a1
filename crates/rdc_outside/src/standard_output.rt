//! Standard output as a sink: the edge where nothing is known of what the system does.
ghost use Rattle.std.specs.Prelude.{◌≡◌, ◌≤◌, None, IfOk, IsErrOf};
ghost use Rattle.rdc_outside.specs.Counts.{Rose};
ghost use Rattle.rdc_outside.specs.Sink.{written_with, part_taken, IsCountOf};
ghost use Rattle.rdc_outside.specs.Output.{out_after};

use crate::transfer::write_some;
use crate::{Sink, SinkFault};
use std::io;
use std::io::Write;

/// Standard output. It doesn't tell what was written.
#[derive(Drop)]
pub struct OutSink<R> {
    runtime: R,
    faults: u64,
}

impl<R: Print> OutSink<R> {
    /// The output of this runtime, with no fault so far. It takes no memory.
    pub fn new(runtime: R) -> OutSink<R>
        ensures { result ≡ record { runtime = runtime; faults = 0 } }
    {
        OutSink { runtime, faults: 0 }
    }
}

impl<R: Print> Sink for OutSink<R> {
    ghost use Rattle.std.specs.Prelude.{None};

    ghost written = { λ _. None };

    ghost faults = { λ sink. sink.faults };

    fn write(&mut self, piece: &[u8]) -> Result<usize, SinkFault>
        ensures after { self.new ≡ out_after self.old result }

        // What every sink ensures.
        ensures value { None ≡ written_with None (part_taken result piece.now) }
        ensures count { IfOk result (λ count. IsCountOf count piece.now) }
        ensures only_failed { IsErrOf result SinkFault.Failed → Rose self.old.faults self.new.faults }
        ensures faults { self.old.faults ≤ self.new.faults }
    {
        let mut printed = Printed {
            runtime: &self.runtime,
        };
        match write_some(&mut printed, piece) {
            Ok(count) => Ok(count),
            Err(fault) => {
                self.faults = self.faults.saturating_add(1);
                Err(fault)
            }
        }
    }
}

// The runtime's output as a writer, which tells nothing.
#[derive(Drop)]
struct Printed<'a, R> {
    runtime: &'a R,
}

impl<R: Print> Write for Printed<'_, R> {
    fn write(&mut self, buf: &[u8]) -> io::Result<usize> {
        self.runtime.write_some(buf)
    }

    fn flush(&mut self) -> io::Result<()> {
        Ok(())
    }
}
