//! A sink in memory, for tests and for reports that are read back.
ghost use Rattle.std.specs.Prelude.{◌≡◌, ◌≢◌, ◌≤◌, Some, IfOk, IsErrOf};
ghost use Rattle.rdc_outside.specs.Counts.{Rose};
ghost use Rattle.rdc_outside.specs.Sink.{written_with, part_taken, IsCountOf};
ghost use Rattle.rdc_outside.specs.MemorySink.{new_sink, write_answer, sink_after};

use crate::reserved::append_reserved;
use crate::{NewFault, Sink, SinkFault};
use std::alloc::Global;
use std::marker::Model;

/// A sink that keeps what is written, and fails where it is told to.
#[derive(Debug, Drop)]
pub struct MemSink {
    bytes: Vec<u8>,
    failing: Vec<u64>,
    most: usize,
    room: usize,
    writes: u64,
    faults: u64,
}

impl Model for MemSink {
    ghost use Rattle.std.specs.Prelude.{◌+◌, ◌<◌, ◌≤◌, vec_len, vec_capacity};
    ghost use Rattle.rdc_outside.specs.MemorySink.{SinkState};

    ghost Value = { SinkState };

    ghost view = { λ sink. record {
      bytes = sink.bytes.items;
      failing = sink.failing.items;
      most = sink.most;
      room = sink.room;
      writes = sink.writes;
      faults = sink.faults;
    } };

    ghost invariant = { λ sink. (vec_len sink.bytes + sink.room ≤ vec_capacity sink.bytes) × (0 < sink.most) };
}

impl MemSink {
    /// An empty sink. The writes whose numbers, from 1 on, are in `failing` are to fail, one write takes at most
    /// `most` bytes, and all of them together at most `room`.
    pub fn new(
        alloc: Global,
        failing: Vec<u64>,
        most: usize,
        room: usize,
    ) -> Result<MemSink, NewFault>
        requires { most ≢ 0 }
        ensures { IfOk result (λ sink. sink ≡ new_sink failing.items most room) }
    {
        let bytes = Vec::with_capacity(alloc, room)?;
        Ok(MemSink {
            bytes,
            failing,
            most,
            room,
            writes: 0,
            faults: 0,
        })
    }

    /// What was written so far.
    pub fn bytes(&self) -> &[u8]
        ensures { result.now ≡ self.now.bytes }
    {
        self.bytes.as_slice()
    }
}

impl Sink for MemSink {
    ghost use Rattle.std.specs.Prelude.{Some};

    ghost written = { λ sink. Some sink.bytes };

    ghost faults = { λ sink. sink.faults };

    fn write(&mut self, piece: &[u8]) -> Result<usize, SinkFault>
        ensures answer { result ≡ write_answer self.old piece.now }
        ensures after { self.new ≡ sink_after self.old piece.now }

        // What every sink ensures.
        ensures value { Some self.new.bytes ≡ written_with (Some self.old.bytes) (part_taken result piece.now) }
        ensures count { IfOk result (λ count. IsCountOf count piece.now) }
        ensures only_failed { IsErrOf result SinkFault.Failed → Rose self.old.faults self.new.faults }
        ensures faults { self.old.faults ≤ self.new.faults }
    {
        self.writes = self.writes.saturating_add(1);
        let is_listed = self.failing.contains(&self.writes);
        if is_listed || self.room == 0 && 0 < piece.len() {
            self.faults = self.faults.saturating_add(1);
            return Err(SinkFault::Failed);
        }
        let count = piece.len().min(self.most).min(self.room);
        append_reserved(&mut self.bytes, &piece[..count]);
        self.room -= count;
        Ok(count)
    }
}
