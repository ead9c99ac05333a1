//! The list of a shelf's calls, to which saves are added without memory.
ghost use Rattle.std.specs.Prelude.{◌≡◌, ◌-◌, ◌+◌, ◌≤◌, [], None, IfOk, OnOk, OnErr, length, min, is_some, if◌then◌else◌};
ghost use Rattle.rdc_outside.specs.Shelf.{Load, Save, no_calls, list_call, list_long_save};
ghost use Rattle.rdc_outside.specs.Counts.{counted};
ghost use Rattle.rdc_outside.specs.MemoryShelf.{calls_made};
ghost use Rattle.rdc_outside.specs.Pile.{room_taken};

use crate::pile::Pile;
use std::alloc::{AllocError, Global};
use std::marker::Model;

/// The calls made, and how much room saves may still take.
#[derive(Debug, Drop)]
pub(crate) struct CallLog {
    listed: Pile,
    // The lengths of the name and the bytes of the first save past the room.
    long: Option<(usize, usize)>,
    more: u64,
    room: usize,
}

impl Model for CallLog {
    ghost use Rattle.std.specs.Prelude.{◌≤◌, map};
    ghost use Rattle.rdc_outside.specs.Log.{LogState, call_of};

    ghost Value = { LogState };

    ghost view = { λ log. record {
      calls = record { listed = map call_of log.listed.entries; long = log.long; more = log.more };
      room = log.room;
    } };

    ghost invariant = { λ log. log.room ≤ log.listed.room };
}

impl CallLog {
    pub(crate) fn new(alloc: Global, room: usize) -> Result<CallLog, AllocError>
        ensures { IfOk result (λ log. log ≡ record { calls = no_calls; room = room }) }
    {
        let listed = Pile::new(alloc, room)?;
        Ok(CallLog {
            listed,
            long: None,
            more: 0,
            room,
        })
    }

    pub(crate) fn room(&self) -> usize
        ensures { result ≡ self.now.room }
    {
        self.room
    }

    /// The number of the next call, from 1 on.
    pub(crate) fn next_number(&self) -> u64
        ensures { result ≡ counted (calls_made self.now.calls) }
    {
        let fixed = self.listed.len() as u64;
        let long = if self.long.is_some() { 1u64 } else { 0u64 };
        fixed
            .saturating_add(long)
            .saturating_add(self.more)
            .saturating_add(1)
    }

    /// Lists a load, which takes memory.
    pub(crate) fn load(&mut self, name: &[u8], most: u64) -> Result<(), AllocError>
        ensures ok { OnOk result (self.new.calls ≡ list_call self.old.calls (Load name.now most)) }
        ensures err { OnErr result (self.new.calls ≡ self.old.calls) }
        ensures room { self.new.room ≡ self.old.room }
    {
        if self.long.is_some() {
            self.more = self.more.saturating_add(1);
            return Ok(());
        }
        self.listed.add(Some(most), name)
    }

    /// Lists a save for which there is room. It takes no memory.
    pub(crate) fn save(&mut self, name: &[u8], bytes: &[u8])
        requires { room_taken name.now bytes.now ≤ self.old.room }
        ensures calls { self.new.calls ≡ list_call self.old.calls (Save name.now bytes.now) }
        ensures room { self.new.room ≡ self.old.room - room_taken name.now bytes.now }
    {
        self.room -= 1 + name.len() + bytes.len();
        if self.long.is_some() {
            self.more = self.more.saturating_add(1);
        } else {
            self.listed.put(None, name, bytes);
        }
    }

    /// Lists the lengths of a save for which there is no room.
    pub(crate) fn long_save(&mut self, name: usize, bytes: usize)
        ensures calls { self.new.calls ≡ list_long_save self.old.calls name bytes }
        ensures room { self.new.room ≡ self.old.room }
    {
        if self.long.is_some() {
            self.more = self.more.saturating_add(1);
        } else {
            self.long = Some((name, bytes));
        }
    }
}
