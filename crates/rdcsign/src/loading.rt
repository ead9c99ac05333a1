//! Loading the constraints of a request.

ghost use Rattle.std.specs.Prelude.{◌≡◌, ◌≤◌, ℕ, IfOk, IfErr};
ghost use Rattle.rdcsign.specs.Outcome.{refused};
ghost use Rattle.rdcsign.specs.Ends.{IsLoaded, IsRefusedLoad};
ghost use Rattle.rdcsign.specs.Loads.{load_of, with_loads, CountsRefusal};

use crate::refusal::{Name, Refusal};
use rdc_outside::{LoadFault, Shelf};
use std::alloc::Global;

/// How many bytes a file has at most.
pub const MOST: u64 = 16_777_216;

/// The bytes of a file of the request.
pub fn load_file<'a, S: Shelf>(
    alloc: Global,
    shelf: &mut S,
    name: &'a str,
) -> Result<Vec<u8>, Refusal<'a>>
    ensures loaded { IfOk result (λ bytes. IsLoaded (S.files shelf.old) name.now bytes.items) }
    ensures refused { IfErr result (λ r. IsRefusedLoad (S.files shelf.old) name.now (refused r)) }

    ensures files { S.files shelf.new ≡ S.files shelf.old }
    ensures listed { S.calls shelf.new ≡ with_loads (S.calls shelf.old) (load_of name.now result) }

    ensures counted { IfErr result (λ r. CountsRefusal (refused r) (S.absences shelf.old) (S.absences shelf.new) (S.faults shelf.old) (S.faults shelf.new)) }
    ensures faults { S.faults shelf.old ≤ S.faults shelf.new }
    ensures absences { S.absences shelf.old ≤ S.absences shelf.new }
{
    match shelf.load(alloc, name, MOST) {
        Ok(bytes) => Ok(bytes),
        Err(LoadFault::Memory) => Err(Refusal::Memory),
        Err(LoadFault::Absent) => Err(Refusal::Absent(Name::Asked(name))),
        Err(LoadFault::TooBig) => Err(Refusal::NotYet(name)),
        Err(LoadFault::Failed) => Err(Refusal::Read(Name::Asked(name))),
    }
}
