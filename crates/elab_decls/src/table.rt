//! What is known of each name of a scope.
ghost use Rattle.std.specs.Prelude.{◌≡◌, OnOk};
ghost use Rattle.std.specs.Option.{option_copied};
ghost use Rattle.elab_decls.specs.Tables.{Changes, Refuses, changed, entries_at, is_directed, no_entries, stepped, table_of, with_entry};

use crate::entry::{Entry, Refusal, entered};
use crate::fault::DeclFault;
use crate::mention::Mention;
use rdc_outside::{Place, Seq};
use std::alloc::{AllocError, Global};
use std::collections::HashMap;

/// What is known of each name.
#[derive(Drop)]
struct Kept {
    table: HashMap<Vec<u8>, Entry>,
}

/// What a scope declares. A look-up takes no scan.
#[derive(Drop)]
pub struct Entries {
    /// In the order in which they are first met.
    names: Seq<Seq<u8>>,
    kept: Kept,
}

/// A refusal of this name at this place.
#[tactic(auto, unfolding(crate::specs::Tables::fault_of))]
pub(crate) fn refused(alloc: Global, why: Refusal, name: &[u8], place: Place) -> DeclFault
    ensures { Refuses result why name.now place }
{
    let Ok(name) = name.to_vec(alloc) else {
        return DeclFault::Memory;
    };
    let name = Seq::from_vec(name);
    match why {
        Refusal::NoPort => DeclFault::NoPort(name, place),
        Refusal::Twice => DeclFault::TwiceDeclared(name, place),
    }
}

impl Kept {
    /// What is known of a name.
    fn get(&self, name: &[u8]) -> Option<&Entry>
        ensures { option_copied result ≡ entries_at self.now name.now }
    {
        self.table.get(name)
    }

    /// Gives a name an entry, in the place of the one that it had.
    fn set(&mut self, name: Vec<u8>, entry: Entry) -> Result<(), AllocError>
        ensures { OnOk result (entries_at self.new ≡ changed (entries_at self.old) name.items entry) }
    {
        self.table.insert(name, entry)?;
        Ok(())
    }
}

impl Entries {
    /// No name is declared. The table keeps the allocator.
    pub(crate) fn new(alloc: Global) -> Entries
        ensures { table_of result ≡ no_entries }
    {
        Entries {
            names: Seq::from_vec(Vec::new(alloc)),
            kept: Kept {
                table: HashMap::new(alloc),
            },
        }
    }

    /// The names, in the order in which they are first met.
    pub fn names(&self) -> &Seq<Seq<u8>>
        ensures { result.now ≡ (table_of self.now).names }
    {
        &self.names
    }

    /// What is known of a name.
    pub fn get(&self, name: &[u8]) -> Option<&Entry>
        ensures { option_copied result ≡ (table_of self.now).at name.now }
    {
        self.kept.get(name)
    }

    /// Whether a name has a direction.
    #[tactic(auto, unfolding(crate::specs::Tables::is_directed))]
    pub(crate) fn has_direction(&self, name: &[u8]) -> bool
        ensures { result ≡ is_directed ((table_of self.now).at name.now) }
    {
        match self.get(name) {
            Some(entry) => entry.direction.is_some(),
            None => false,
        }
    }

    /// Gives a name an entry; a new name is the last.
    #[tactic(auto, unfolding(crate::specs::Tables::with_entry))]
    fn set(&mut self, alloc: Global, name: &[u8], entry: Entry) -> Result<(), AllocError>
        ensures { OnOk result (table_of self.new ≡ with_entry (table_of self.old) name.now entry) }
    {
        if self.get(name).is_none() {
            self.names.push(Seq::from_vec(name.to_vec(alloc)?))?;
        }
        self.kept.set(name.to_vec(alloc)?, entry)
    }

    /// One more declaration.
    #[tactic(auto, unfolding(crate::specs::Tables::settled))]
    pub(crate) fn enter(
        &mut self,
        alloc: Global,
        name: &[u8],
        mention: Mention,
    ) -> Result<(), DeclFault>
        ensures { Changes result (table_of self.new) (stepped (table_of self.old) (record { name = name.now; mention = mention })) }
    {
        let before = self.get(name).copied();
        match entered(before, mention) {
            Ok(entry) => {
                self.set(alloc, name, entry)?;
                Ok(())
            }
            Err(why) => Err(refused(alloc, why, name, mention.place)),
        }
    }
}
