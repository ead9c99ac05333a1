//! A shelf of files, which loads and saves by name.
ghost use Rattle.std.specs.Prelude.{◌≡◌, ◌≤◌, ℕ, length, Option, IfOk, IfSome, IsErrOf};
ghost use Rattle.rdc_outside.specs.Counts.{Rose};
ghost use Rattle.rdc_outside.specs.Shelf.{Files, Calls, LoadAnswers, calls_after_load, FilesAfterSave, CallsAfterSave};

use crate::{LoadFault, SaveFault};
use std::alloc::Global;

/// Files by name. What a shelf tells of itself, and how often each fault came, are ghost fields.
pub trait Shelf {
    /// The files, where the shelf tells them.
    ghost files: { Self → Option Files };

    /// The calls made so far, where the shelf tells them.
    ghost calls: { Self → Option Calls };

    /// How often a load or a save failed.
    ghost faults: { Self → ℕ };

    /// How often a name to be loaded was missing.
    ghost absences: { Self → ℕ };

    /// How often a file to be loaded was too long.
    ghost excesses: { Self → ℕ };

    /// The bytes of the named file, of which there are at most `most`.
    fn load(&mut self, alloc: Global, name: &str, most: u64) -> Result<Vec<u8>, LoadFault>
        ensures value { IfSome (files self.old) (λ told. LoadAnswers told name.now most result) }
        ensures within { IfOk result (λ bytes. length bytes.items ≤ most) }

        // Each fault is counted, whether the files are told or not.
        ensures only_failed { IsErrOf result LoadFault.Failed → Rose (faults self.old) (faults self.new) }
        ensures only_absent { IsErrOf result LoadFault.Absent → Rose (absences self.old) (absences self.new) }
        ensures only_too_big { IsErrOf result LoadFault.TooBig → Rose (excesses self.old) (excesses self.new) }

        // A load changes no file and lowers no count, and is listed unless it wanted memory.
        ensures same { files self.new ≡ files self.old }
        ensures listed { calls self.new ≡ calls_after_load (calls self.old) name.now most result }
        ensures faults { faults self.old ≤ faults self.new }
        ensures absences { absences self.old ≤ absences self.new }
        ensures excesses { excesses self.old ≤ excesses self.new };

    /// Gives the named file these bytes, whether it was there or not. It takes no memory.
    fn save(&mut self, name: &str, bytes: &[u8]) -> Result<(), SaveFault>
        ensures value { FilesAfterSave (files self.old) (files self.new) name.now bytes.now result }

        ensures only_failed { IsErrOf result SaveFault.Failed → Rose (faults self.old) (faults self.new) }

        ensures listed { CallsAfterSave (calls self.old) (calls self.new) name.now bytes.now result }
        ensures faults { faults self.old ≤ faults self.new }
        ensures absences { absences self.old ≤ absences self.new }
        ensures excesses { excesses self.old ≤ excesses self.new };
}
