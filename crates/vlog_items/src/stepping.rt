//! How a frame goes on.
ghost use Rattle.std.specs.Prelude.{◌≡◌, ℕ, ◌+◌, ◌<◌, ◌≤◌, ◌^◌, ◌++◌, ◌∷◌, [], List, length, drop, false, true, Result};
ghost use Rattle.vlog_items.specs.Items.{Item, place_after, ahead_of, items_of_file, items_of_use};
ghost use Rattle.vlog_items.specs.Stack.{frame_items};

use crate::frames::{Frame, Origin};
use crate::looking::Ahead;
use rdc_outside::{Place, Seq};
use std::alloc::Global;
use std::collections::VecDeque;

// The place after a byte.
#[inline]
fn after(place: Place, b: u8) -> Place
    requires line { place.line + 1 < 2 ^ 32 }
    requires col { place.col + 1 < 2 ^ 32 }
    ensures value { result ≡ place_after place b }
    ensures line { result.line ≤ place.line + 1 }
    ensures col { result.col ≤ place.col + 1 }
{
    if b == b'\n' {
        Place {
            file: place.file,
            line: place.line + 1,
            col: 1,
        }
    } else {
        Place {
            file: place.file,
            line: place.line,
            col: place.col + 1,
        }
    }
}

impl Frame {
    /// What stands first of a frame that isn't done, with items behind it.
    #[inline]
    pub(crate) fn ahead(&self) -> Ahead
        requires { self.now.done ≡ false }
        ensures { (within : List (List ℕ)) (items : List Item) → ahead_of (frame_items within self.now ++ items) ≡ result }
    {
        match self.origin {
            Origin::OfUse => Ahead::Read(self.bytes[self.at], self.place),
            Origin::OfFile => {
                if self.at < self.bytes.len() {
                    Ahead::Read(self.bytes[self.at], self.place)
                } else {
                    Ahead::Ended(self.place)
                }
            }
        }
    }

    /// Goes on by one item.
    #[inline]
    pub(crate) fn step(&mut self)
        requires { self.old.done ≡ false }
        ensures items { (within : List (List ℕ)) (items : List Item) → drop 1 (frame_items within self.old ++ items) ≡ frame_items within self.new ++ items }
        ensures names { self.new.names.items ≡ self.old.names.items }
    {
        match self.origin {
            Origin::OfUse => self.step_in_use(),
            Origin::OfFile => self.step_in_file(),
        }
    }

    #[inline]
    fn step_in_use(&mut self)
        requires open { self.old.done ≡ false }
        requires origin { self.old.origin ≡ Origin.OfUse }
        ensures items { (within : List (List ℕ)) (items : List Item) → drop 1 (frame_items within self.old ++ items) ≡ frame_items within self.new ++ items }
        ensures names { self.new.names.items ≡ self.old.names.items }
    {
        if self.at + 1 == self.bytes.len() {
            self.done = true;
            self.at += 1;
        } else {
            self.at += 1;
        }
    }

    #[inline]
    fn step_in_file(&mut self)
        requires open { self.old.done ≡ false }
        requires origin { self.old.origin ≡ Origin.OfFile }
        ensures items { (within : List (List ℕ)) (items : List Item) → drop 1 (frame_items within self.old ++ items) ≡ frame_items within self.new ++ items }
        ensures names { self.new.names.items ≡ self.old.names.items }
    {
        if self.at == self.bytes.len() {
            self.done = true;
        } else {
            self.place = after(self.place, self.bytes[self.at]);
            self.at += 1;
        }
    }
}

/// A frame of a whole file, whose bytes stand within these macros and those below.
pub(crate) fn file_frame(bytes: Vec<u8>, file: u32, names: VecDeque<Seq<u8>>) -> Frame
    requires { length bytes.items ≤ 16777216 }
    ensures items { (within : List (List ℕ)) → frame_items within result ≡ items_of_file within (record { file = file; line = 1; col = 1 }) bytes.items }
    ensures names { result.names.items ≡ names.items }
    ensures open { result.done ≡ false }
{
    Frame {
        origin: Origin::OfFile,
        bytes,
        at: 0,
        place: Place {
            file,
            line: 1,
            col: 1,
        },
        names,
        done: false,
    }
}

/// A frame of a whole replacement, of one byte at least.
pub(crate) fn use_frame(bytes: Vec<u8>, place: Place, names: VecDeque<Seq<u8>>) -> Frame
    requires { 0 < length bytes.items }
    ensures items { (within : List (List ℕ)) → frame_items within result ≡ items_of_use within place bytes.items }
    ensures names { result.names.items ≡ names.items }
    ensures open { result.done ≡ false }
{
    Frame {
        origin: Origin::OfUse,
        bytes,
        at: 0,
        place,
        names,
        done: false,
    }
}

/// A frame of which nothing is left.
pub(crate) fn empty_frame(alloc: Global) -> Frame
    ensures done { result.done ≡ true }
    ensures names { result.names.items ≡ [] }
{
    Frame {
        origin: Origin::OfUse,
        bytes: Vec::new(alloc),
        at: 0,
        place: Place {
            file: 0,
            line: 0,
            col: 0,
        },
        names: VecDeque::new(alloc),
        done: true,
    }
}
