//! The system's files as a shelf: the edge where nothing is known of what the system does.
ghost use Rattle.std.specs.Prelude.{◌≡◌, ◌≤◌, None, length, IfOk, IsErrOf};
ghost use Rattle.rdc_outside.specs.Counts.{Rose};
ghost use Rattle.rdc_outside.specs.Shelf.{calls_after_load, FilesAfterSave, CallsAfterSave};
ghost use Rattle.rdc_outside.specs.Disk.{disk_after_load, disk_after_save};

use crate::transfer::{read_all, write_all};
use crate::{LoadFault, SaveFault, Shelf};
use std::alloc::Global;
use std::fs::File;
use std::io::ErrorKind;
use std::rt::Files;

/// The files of the system, by their paths. It tells neither the files nor the calls made.
#[derive(Drop)]
pub struct DiskShelf<R> {
    runtime: R,
    faults: u64,
    absences: u64,
    excesses: u64,
}

impl<R: Files> DiskShelf<R> {
    /// The files of this runtime, with all counts at 0. It takes no memory.
    pub fn new(runtime: R) -> DiskShelf<R>
        ensures { result ≡ record { runtime = runtime; faults = 0; absences = 0; excesses = 0 } }
    {
        DiskShelf {
            runtime,
            faults: 0,
            absences: 0,
            excesses: 0,
        }
    }
}

impl<R: Files> Shelf for DiskShelf<R> {
    ghost use Rattle.std.specs.Prelude.{None};

    ghost files = { λ _. None };

    ghost calls = { λ _. None };

    ghost faults = { λ shelf. shelf.faults };

    ghost absences = { λ shelf. shelf.absences };

    ghost excesses = { λ shelf. shelf.excesses };

    fn load(&mut self, alloc: Global, name: &str, most: u64) -> Result<Vec<u8>, LoadFault>
        ensures after { self.new ≡ disk_after_load self.old result }

        // What every shelf ensures.
        ensures within { IfOk result (λ bytes. length bytes.items ≤ most) }
        ensures only_failed { IsErrOf result LoadFault.Failed → Rose self.old.faults self.new.faults }
        ensures only_absent { IsErrOf result LoadFault.Absent → Rose self.old.absences self.new.absences }
        ensures only_too_big { IsErrOf result LoadFault.TooBig → Rose self.old.excesses self.new.excesses }
        ensures listed { None ≡ calls_after_load None name.now most result }
        ensures faults { self.old.faults ≤ self.new.faults }
        ensures absences { self.old.absences ≤ self.new.absences }
        ensures excesses { self.old.excesses ≤ self.new.excesses }
    {
        match read_file(&self.runtime, alloc, name, most) {
            Ok(bytes) => Ok(bytes),
            Err(LoadFault::Memory) => Err(LoadFault::Memory),
            Err(LoadFault::Absent) => {
                self.absences = self.absences.saturating_add(1);
                Err(LoadFault::Absent)
            }
            Err(LoadFault::TooBig) => {
                self.excesses = self.excesses.saturating_add(1);
                Err(LoadFault::TooBig)
            }
            Err(LoadFault::Failed) => {
                self.faults = self.faults.saturating_add(1);
                Err(LoadFault::Failed)
            }
        }
    }

    fn save(&mut self, name: &str, bytes: &[u8]) -> Result<(), SaveFault>
        ensures after { self.new ≡ disk_after_save self.old result }

        // What every shelf ensures.
        ensures only_failed { IsErrOf result SaveFault.Failed → Rose self.old.faults self.new.faults }
        ensures listed { CallsAfterSave None None name.now bytes.now result }
        ensures faults { self.old.faults ≤ self.new.faults }
        ensures absences { self.old.absences ≤ self.new.absences }
        ensures excesses { self.old.excesses ≤ self.new.excesses }
    {
        match write_file(&self.runtime, name, bytes) {
            Ok(()) => Ok(()),
            Err(fault) => {
                self.faults = self.faults.saturating_add(1);
                Err(fault)
            }
        }
    }
}

fn read_file<R: Files>(
    runtime: &R,
    alloc: Global,
    name: &str,
    most: u64,
) -> Result<Vec<u8>, LoadFault>
    ensures { IfOk result (λ bytes. length bytes.items ≤ most) }
{
    match File::open(runtime, name) {
        Ok(mut file) => read_all(alloc, &mut file, most),
        Err(error) if error.kind() == ErrorKind::NotFound => Err(LoadFault::Absent),
        Err(_) => Err(LoadFault::Failed),
    }
}

// The file has these bytes and no others afterwards, since opening it empties it.
fn write_file<R: Files>(runtime: &R, name: &str, bytes: &[u8]) -> Result<(), SaveFault> {
    match File::create(runtime, name) {
        Ok(mut file) => write_all(&mut file, bytes),
        Err(_) => Err(SaveFault::Failed),
    }
}
