//! Names with bytes, one after another in one vector, with room reserved for more.
ghost use Rattle.std.specs.Prelude.{◌≡◌, ◌+◌, ◌-◌, ◌≤◌, ◌++◌, [], ◌∷◌, length, drop, IfOk, OnOk, OnErr, map};
ghost use Rattle.std.specs.Option.{option_copied};
ghost use Rattle.rdc_outside.specs.MemoryShelf.{file_in, file_of, bytes_if};
ghost use Rattle.rdc_outside.specs.Pile.{room_taken, span_length, entry_of, entries_of, total_length};

use crate::reserved::append_reserved;
use std::alloc::{AllocError, Global};
use std::marker::Model;

/// How long an entry's name and bytes are in the text, and the number beside it.
#[derive(Clone, Copy, Debug)]
pub(crate) struct Span {
    pub(crate) most: Option<u64>,
    pub(crate) name: usize,
    pub(crate) bytes: usize,
}

/// Entries that can be added to without memory while there is room.
#[derive(Debug, Drop)]
pub(crate) struct Pile {
    text: Vec<u8>,
    spans: Vec<Span>,
    room: usize,
}

impl Model for Pile {
    ghost use Rattle.rdc_outside.specs.Pile.{PileState, entries_of, IsReserved};

    ghost Value = { PileState };

    ghost view = { λ pile. record { entries = entries_of pile.spans.items pile.text.items; room = pile.room } };

    ghost invariant = { λ pile. IsReserved pile.spans pile.text pile.room };
}

impl Pile {
    pub(crate) fn new(alloc: Global, room: usize) -> Result<Pile, AllocError>
        ensures { IfOk result (λ pile. pile ≡ record { entries = []; room = room }) }
    {
        let text = Vec::with_capacity(alloc, room)?;
        let spans = Vec::with_capacity(alloc, room)?;
        Ok(Pile { text, spans, room })
    }

    pub(crate) fn len(&self) -> usize
        ensures { result ≡ length self.now.entries }
    {
        self.spans.len()
    }

    /// Adds an entry for which there is room. It takes no memory.
    pub(crate) fn put(&mut self, most: Option<u64>, name: &[u8], bytes: &[u8])
        requires { room_taken name.now bytes.now ≤ self.old.room }
        ensures entries { self.new.entries ≡ self.old.entries ++ record { most = most; name = name.now; bytes = bytes.now } ∷ [] }
        ensures room { self.new.room ≡ self.old.room - room_taken name.now bytes.now }
    {
        self.room -= 1 + name.len() + bytes.len();
        self.spans.push_reserved(Span {
            most,
            name: name.len(),
            bytes: bytes.len(),
        });
        append_reserved(&mut self.text, name);
        append_reserved(&mut self.text, bytes);
    }

    /// Adds an entry by memory: the room is as it was.
    pub(crate) fn add(&mut self, most: Option<u64>, name: &[u8]) -> Result<(), AllocError>
        ensures ok { OnOk result (self.new.entries ≡ self.old.entries ++ record { most = most; name = name.now; bytes = [] } ∷ []) }
        ensures err { OnErr result (self.new.entries ≡ self.old.entries) }
        ensures room { self.new.room ≡ self.old.room }
    {
        self.widen(1 + name.len())?;
        self.put(most, name, &[]);
        Ok(())
    }

    /// The bytes of the last entry of a name.
    pub(crate) fn last(&self, name: &[u8]) -> Option<&[u8]>
        ensures { option_copied result ≡ file_in (map file_of self.now.entries) name.now }
    {
        last_named(&self.spans, &self.text, name)
    }

    // Makes room for so much more.
    fn widen(&mut self, more: usize) -> Result<(), AllocError>
        ensures ok { OnOk result (self.new.room ≡ self.old.room + more) }
        ensures err { OnErr result (self.new.room ≡ self.old.room) }
        ensures entries { self.new.entries ≡ self.old.entries }
    {
        let room = self.room.checked_add(more).ok_or(AllocError)?;
        self.text.reserve(room)?;
        self.spans.reserve(room)?;
        self.room = room;
        Ok(())
    }
}

fn last_named<'a>(spans: &[Span], text: &'a [u8], name: &[u8]) -> Option<&'a [u8]>
    requires { total_length spans.now ≤ length text.now }
    ensures { option_copied result ≡ file_in (map file_of (entries_of spans.now text.now)) name.now }
{
    let mut found = None;
    let mut left = spans;
    let mut rest = text;
    while let [span, others @ ..] = left {
        found = bytes_if_named(span, rest, name).or(found);
        rest = after(span, rest);
        left = others;
    }
    found
}

// The bytes of the first entry of a text, if it has the name.
fn bytes_if_named<'a>(span: &Span, text: &'a [u8], name: &[u8]) -> Option<&'a [u8]>
    requires { span_length span.now ≤ length text.now }
    ensures { option_copied result ≡ bytes_if (file_of (entry_of span.now text.now)) name.now }
{
    let (own_name, rest) = text.split_at(span.name);
    if own_name != name {
        return None;
    }
    let (bytes, _) = rest.split_at(span.bytes);
    Some(bytes)
}

// What follows the first entry of a text.
fn after<'a>(span: &Span, text: &'a [u8]) -> &'a [u8]
    requires { span_length span.now ≤ length text.now }
    ensures { result.now ≡ drop (span_length span.now) text.now }
{
    let (_, rest) = text.split_at(span.name + span.bytes);
    rest
}
