//! Names in frames, one within the other.
ghost use Rattle.std.specs.Prelude.{◌≡◌, ◌<◌, [], ◌∷◌, drop, length, not, IfOk, OnErr, OnOk};
ghost use Rattle.std.specs.Option.{is_some, option_copied};
ghost use Rattle.elab_names.specs.Meanings.{declared, declaring, found, frames_of, innermost, left, names_of_all, no_names};

use crate::frame::Frame;
use crate::meaning::Meaning;
use std::alloc::{AllocError, Global};
use std::mem;

/// The names that can be used in one place: frames, of which the innermost one counts first.
#[derive(Drop)]
pub struct Scope {
    alloc: Global,
    inner: Frame,
    /// The frames around it, the outermost first.
    outer: Vec<Frame>,
}

/// What a name means in frames, the last of which counts first.
fn found_in<'a>(frames: &'a [Frame], name: &[u8]) -> Option<&'a Meaning>
    ensures { option_copied result ≡ found (names_of_all frames.now) name.now }
{
    match frames {
        [] => None,
        [outer @ .., last] => match last.get(name) {
            Some(meaning) => Some(meaning),
            None => found_in(outer, name),
        },
    }
}

impl Scope {
    /// One frame, without names.
    pub fn new(alloc: Global) -> Scope
        ensures { frames_of result ≡ no_names ∷ [] }
    {
        Scope {
            alloc,
            inner: Frame::new(alloc),
            outer: Vec::new(alloc),
        }
    }

    /// Goes into a frame without names.
    ///
    /// # Errors
    /// Want of memory; then the frames are what they were.
    pub fn enter(&mut self) -> Result<(), AllocError>
        ensures ok { OnOk result (frames_of self.new ≡ no_names ∷ frames_of self.old) }
        ensures err { OnErr result (frames_of self.new ≡ frames_of self.old) }
    {
        self.outer.reserve(1)?;
        let frame = mem::replace(&mut self.inner, Frame::new(self.alloc));
        self.outer.push_reserved(frame);
        Ok(())
    }

    /// Leaves the innermost frame, whose names are forgotten; the last one stays.
    #[tactic(auto, unfolding(crate::specs::Meanings::left))]
    pub fn leave(&mut self)
        ensures { frames_of self.new ≡ left (frames_of self.old) }
    {
        if let Some(frame) = self.outer.pop() {
            self.inner = frame;
        }
    }

    /// Declares a name in the innermost frame, unless that has it: then nothing changes, and the answer is no.
    ///
    /// # Errors
    /// Want of memory; then the frames are what they were.
    #[tactic(auto, unfolding(crate::specs::Meanings::declaring))]
    pub fn declare(&mut self, name: &[u8], meaning: Meaning) -> Result<bool, AllocError>
        ensures answer { IfOk result (λ fresh. fresh ≡ not (is_some (innermost (frames_of self.old) name.now))) }
        ensures ok { OnOk result (frames_of self.new ≡ declaring (frames_of self.old) name.now meaning) }
        ensures err { OnErr result (frames_of self.new ≡ frames_of self.old) }
    {
        if self.inner.has(name) {
            return Ok(false);
        }
        let name = Vec::from_slice(self.alloc, name)?;
        self.inner.set(name, meaning)?;
        Ok(true)
    }

    /// Gives a name a meaning in the innermost frame, in the place of the one that it had there.
    ///
    /// # Errors
    /// Want of memory; then the frames are what they were.
    pub fn set(&mut self, name: &[u8], meaning: Meaning) -> Result<(), AllocError>
        ensures ok { OnOk result (frames_of self.new ≡ declared (frames_of self.old) name.now meaning) }
        ensures err { OnErr result (frames_of self.new ≡ frames_of self.old) }
    {
        let name = Vec::from_slice(self.alloc, name)?;
        self.inner.set(name, meaning)
    }

    /// What a name means: the first frame that has it tells.
    #[tactic(auto, unfolding(crate::specs::Meanings::found))]
    pub fn meaning(&self, name: &[u8]) -> Option<&Meaning>
        ensures { option_copied result ≡ found (frames_of self.now) name.now }
    {
        match self.inner.get(name) {
            Some(meaning) => Some(meaning),
            None => found_in(&self.outer, name),
        }
    }

    /// Whether the innermost frame has a name.
    pub fn has(&self, name: &[u8]) -> bool
        ensures { result ≡ is_some (innermost (frames_of self.now) name.now) }
    {
        self.inner.has(name)
    }
}
