//! What connections are made to, by name and without a scan.
ghost use Rattle.std.specs.Prelude.{◌≡◌, ◌⊎◌, IfOk, OnOk};
ghost use Rattle.elab_names.specs.declared.fault.ElabFault.TheVariants.{Memory, NoPort, TwiceDeclared};
ghost use Rattle.elab_names.specs.Answers.{Answers};
ghost use Rattle.elab_binds.specs.Flags.{first_of, flags_of, no_flags, taking, with_first, with_flag};

use crate::socket::Socket;
use elab_names::ElabFault;
use rdc_outside::{Place, Seq};
use std::alloc::{AllocError, Global};
use std::collections::HashMap;
use vlog_tree::Ident;

/// A flag for some names.
#[derive(Drop)]
pub(crate) struct Flags {
    table: HashMap<Vec<u8>, bool>,
}

impl Flags {
    /// No name has one. The table keeps the allocator.
    pub(crate) fn none(alloc: Global) -> Flags
        ensures { flags_of result ≡ no_flags }
    {
        Flags {
            table: HashMap::new(alloc),
        }
    }

    /// The flag of a name.
    pub(crate) fn get(&self, name: &[u8]) -> Option<bool>
        ensures { result ≡ flags_of self.now name.now }
    {
        self.table.get(name).copied()
    }

    /// Gives a name a flag, in the place of the one that it had.
    fn insert(&mut self, name: Vec<u8>, flag: bool) -> Result<(), AllocError>
        ensures { OnOk result (flags_of self.new ≡ with_flag (flags_of self.old) name.items flag) }
    {
        self.table.insert(name, flag)?;
        Ok(())
    }

    /// The same of a name that is copied.
    pub(crate) fn set(&mut self, alloc: Global, name: &[u8], flag: bool) -> Result<(), AllocError>
        ensures { OnOk result (flags_of self.new ≡ with_flag (flags_of self.old) name.now flag) }
    {
        self.insert(name.to_vec(alloc)?, flag)
    }

    /// Gives a name a flag, unless it has one.
    #[tactic(auto, unfolding(crate::specs::Flags::with_first))]
    fn enter(&mut self, alloc: Global, name: &[u8], flag: bool) -> Result<(), AllocError>
        ensures { OnOk result (flags_of self.new ≡ with_first (flags_of self.old) name.now flag) }
    {
        if self.get(name).is_some() {
            return Ok(());
        }
        self.set(alloc, name, flag)
    }
}

/// The flags of a list; of two of one name the first counts.
pub(crate) fn flags_in<S: Socket>(alloc: Global, all: &[S]) -> Result<Flags, AllocError>
    ensures { IfOk result (λ flags. flags_of flags ≡ first_of S.called S.flagged all.now) }
{
    let mut flags = Flags::none(alloc);
    for one in all {
        flags.enter(alloc, one.called(), one.flagged())?;
    }
    Ok(flags)
}

/// A second connection of one name.
fn twice(alloc: Global, name: &[u8], place: Place) -> ElabFault
    ensures { (result ≡ Memory) ⊎ (result ≡ TwiceDeclared name.now place) }
{
    match name.to_vec(alloc) {
        Ok(name) => ElabFault::TwiceDeclared(Seq::from_vec(name), place),
        Err(_) => ElabFault::Memory,
    }
}

/// A connection to what there is not.
fn no_port(alloc: Global, name: &[u8], place: Place) -> ElabFault
    ensures { (result ≡ Memory) ⊎ (result ≡ NoPort name.now place) }
{
    match name.to_vec(alloc) {
        Ok(name) => ElabFault::NoPort(Seq::from_vec(name), place),
        Err(_) => ElabFault::Memory,
    }
}

/// What a connection by name is made to.
#[tactic(auto, unfolding(crate::specs::Flags::taking_of))]
pub(crate) fn taking(
    alloc: Global,
    known: &Flags,
    taken: &Flags,
    name: &Ident,
) -> Result<bool, ElabFault>
    ensures { Answers (λ b. b) result (taking (flags_of known.now) (flags_of taken.now) name.now) }
{
    match taken.get(name.name.as_slice()) {
        Some(_) => Err(twice(alloc, name.name.as_slice(), name.place)),
        None => match known.get(name.name.as_slice()) {
            Some(flag) => Ok(flag),
            None => Err(no_port(alloc, name.name.as_slice(), name.place)),
        },
    }
}
