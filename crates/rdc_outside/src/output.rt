//! A sink of bytes, which takes what is written piece by piece.
ghost use Rattle.std.specs.Prelude.{◌≡◌, ◌≤◌, ℕ, List, Option, IfOk, IsErrOf};
ghost use Rattle.rdc_outside.specs.Counts.{Rose};
ghost use Rattle.rdc_outside.specs.Sink.{written_with, part_taken, IsCountOf};

use crate::SinkFault;

/// A place for bytes. What it tells of itself, and how often it failed, are ghost fields.
pub trait Sink {
    /// The bytes written so far, where the sink tells them.
    ghost written: { Self → Option (List ℕ) };

    /// How often a write failed.
    ghost faults: { Self → ℕ };

    /// Takes the first bytes of the piece, and answers how many. It takes no memory.
    fn write(&mut self, piece: &[u8]) -> Result<usize, SinkFault>
        ensures value { written self.new ≡ written_with (written self.old) (part_taken result piece.now) }
        ensures count { IfOk result (λ count. IsCountOf count piece.now) }
        ensures only_failed { IsErrOf result SinkFault.Failed → Rose (faults self.old) (faults self.new) }
        ensures faults { faults self.old ≤ faults self.new };
}
