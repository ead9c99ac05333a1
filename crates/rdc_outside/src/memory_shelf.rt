//! A shelf in memory, for tests and for callers without files.
ghost use Rattle.std.specs.Prelude.{◌≡◌, ◌≤◌, ◌++◌, [], None, Some, map, length, IfOk, IfSome, IsErrOf, IsTrue};
ghost use Rattle.std.specs.Option.{option_copied};
ghost use Rattle.rdc_outside.specs.Counts.{Rose};
ghost use Rattle.rdc_outside.specs.Shelf.{LoadAnswers, calls_after_load, FilesAfterSave, CallsAfterSave};
ghost use Rattle.rdc_outside.specs.MemoryShelf.{given_file, file_in, new_shelf, is_to_fail, load_answer, IsOrWantsMemory, shelf_after_load, save_fits, save_answer, shelf_after_fitting, shelf_after_save, bytes_if};
ghost use Rattle.rdc_outside.specs.Pile.{room_taken};

use crate::call_log::CallLog;
use crate::pile::Pile;
use crate::reserved::copy_of;
use crate::{LoadFault, NewFault, SaveFault, Shelf};
use std::alloc::{AllocError, Global};
use std::marker::Model;

/// Files that are kept in memory, on a shelf that fails where it is told to.
#[derive(Debug, Drop)]
pub struct MemShelf {
    given: Vec<(String, Vec<u8>)>,
    saved: Pile,
    log: CallLog,
    failing: Vec<u64>,
    faults: u64,
    absences: u64,
    excesses: u64,
}

impl Model for MemShelf {
    ghost use Rattle.std.specs.Prelude.{◌≤◌, ◌++◌, map};
    ghost use Rattle.rdc_outside.specs.MemoryShelf.{ShelfState, given_file, file_of};

    ghost Value = { ShelfState };

    ghost view = { λ shelf. record {
      contents = map given_file shelf.given.items ++ map file_of shelf.saved.entries;
      calls = shelf.log.calls;
      failing = shelf.failing.items;
      room = shelf.log.room;
      faults = shelf.faults;
      absences = shelf.absences;
      excesses = shelf.excesses;
    } };

    ghost invariant = { λ shelf. shelf.log.room ≤ shelf.saved.room };
}

impl MemShelf {
    /// A shelf of these files; of several with one name the last counts. The loads and saves whose numbers, counted
    /// together from 1 on, are in `failing` are to fail. Each save takes one, and the lengths of its name and its
    /// bytes, from `room`, and one that is past it fails.
    pub fn new(
        alloc: Global,
        files: Vec<(String, Vec<u8>)>,
        failing: Vec<u64>,
        room: usize,
    ) -> Result<MemShelf, NewFault>
        ensures { IfOk result (λ shelf. shelf ≡ new_shelf (map given_file files.items) failing.items room) }
    {
        let saved = Pile::new(alloc, room)?;
        let log = CallLog::new(alloc, room)?;
        Ok(MemShelf {
            given: files,
            saved,
            log,
            failing,
            faults: 0,
            absences: 0,
            excesses: 0,
        })
    }

    /// The bytes of a file, which is None exactly where no file has the name. It takes no memory.
    pub fn file(&self, name: &str) -> Option<&[u8]>
        ensures { option_copied result ≡ file_in self.now.contents name.now }
    {
        self.saved
            .last(name.as_bytes())
            .or(last_given(&self.given, name))
    }

    fn is_to_fail(&self) -> bool
        ensures { result ≡ is_to_fail self.now }
    {
        self.failing.contains(&self.log.next_number())
    }

    // The answer of the next load.
    fn answer(&self, alloc: Global, name: &str, most: u64) -> Result<Vec<u8>, LoadFault>
        ensures { IsOrWantsMemory result (load_answer self.now name.now most) }
    {
        if self.is_to_fail() {
            return Err(LoadFault::Failed);
        }
        match self.file(name) {
            None => Err(LoadFault::Absent),
            Some(bytes) if bytes.len() as u64 <= most => Ok(copy_of(alloc, bytes)?),
            Some(_) => Err(LoadFault::TooBig),
        }
    }
}

fn last_given<'a>(files: &'a [(String, Vec<u8>)], name: &str) -> Option<&'a [u8]>
    ensures { option_copied result ≡ file_in (map given_file files.now) name.now }
{
    let mut found = None;
    let mut left = files;
    while let [file, others @ ..] = left {
        found = given_if_named(file, name).or(found);
        left = others;
    }
    found
}

// The bytes of a given file, if it has the name.
fn given_if_named<'a>(file: &'a (String, Vec<u8>), name: &str) -> Option<&'a [u8]>
    ensures { option_copied result ≡ bytes_if (given_file file.now) name.now }
{
    if file.0.as_str() == name {
        Some(file.1.as_slice())
    } else {
        None
    }
}

impl Shelf for MemShelf {
    ghost use Rattle.std.specs.Prelude.{Some};
    ghost use Rattle.rdc_outside.specs.MemoryShelf.{file_in};

    ghost files = { λ shelf. Some (file_in shelf.contents) };

    ghost calls = { λ shelf. Some shelf.calls };

    ghost faults = { λ shelf. shelf.faults };

    ghost absences = { λ shelf. shelf.absences };

    ghost excesses = { λ shelf. shelf.excesses };

    fn load(&mut self, alloc: Global, name: &str, most: u64) -> Result<Vec<u8>, LoadFault>
        ensures answer { IsOrWantsMemory result (load_answer self.old name.now most) }
        ensures after { self.new ≡ shelf_after_load self.old name.now most result }

        // What every shelf ensures.
        ensures value { LoadAnswers (file_in self.old.contents) name.now most result }
        ensures within { IfOk result (λ bytes. length bytes.items ≤ most) }
        ensures only_failed { IsErrOf result LoadFault.Failed → Rose self.old.faults self.new.faults }
        ensures only_absent { IsErrOf result LoadFault.Absent → Rose self.old.absences self.new.absences }
        ensures only_too_big { IsErrOf result LoadFault.TooBig → Rose self.old.excesses self.new.excesses }
        ensures same { self.new.contents ≡ self.old.contents }
        ensures listed { Some self.new.calls ≡ calls_after_load (Some self.old.calls) name.now most result }
        ensures faults { self.old.faults ≤ self.new.faults }
        ensures absences { self.old.absences ≤ self.new.absences }
        ensures excesses { self.old.excesses ≤ self.new.excesses }
    {
        let answer = self.answer(alloc, name, most);
        if let Err(LoadFault::Memory) = answer {
            return answer;
        }
        self.log.load(name.as_bytes(), most)?;
        match &answer {
            Err(LoadFault::Absent) => self.absences = self.absences.saturating_add(1),
            Err(LoadFault::TooBig) => self.excesses = self.excesses.saturating_add(1),
            Err(LoadFault::Failed) => self.faults = self.faults.saturating_add(1),
            Ok(_) | Err(LoadFault::Memory) => {}
        }
        answer
    }

    fn save(&mut self, name: &str, bytes: &[u8]) -> Result<(), SaveFault>
        ensures answer { result ≡ save_answer self.old name.now bytes.now }
        ensures after { self.new ≡ shelf_after_save self.old name.now bytes.now }

        // What every shelf ensures.
        ensures value { FilesAfterSave (Some (file_in self.old.contents)) (Some (file_in self.new.contents))
            name.now bytes.now result }
        ensures only_failed { IsErrOf result SaveFault.Failed → Rose self.old.faults self.new.faults }
        ensures listed { CallsAfterSave (Some self.old.calls) (Some self.new.calls) name.now bytes.now result }
        ensures faults { self.old.faults ≤ self.new.faults }
        ensures absences { self.old.absences ≤ self.new.absences }
        ensures excesses { self.old.excesses ≤ self.new.excesses }
    {
        let is_to_fail = self.is_to_fail();
        if self.log.room() < 1 + name.len() + bytes.len() {
            self.log.long_save(name.len(), bytes.len());
            self.faults = self.faults.saturating_add(1);
            return Err(SaveFault::Failed);
        }
        self.log.save(name.as_bytes(), bytes);
        if is_to_fail {
            self.faults = self.faults.saturating_add(1);
            return Err(SaveFault::Failed);
        }
        self.saved.put(None, name.as_bytes(), bytes);
        Ok(())
    }
}
