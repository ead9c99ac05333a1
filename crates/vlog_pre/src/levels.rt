//! The files that are open and the conditionals that are open in them.
ghost use Rattle.std.specs.Prelude.{◌≡◌, [], ◌∷◌, OnOk};
ghost use Rattle.vlog_pre.specs.declared.levels.Level.TheVariants.{File};
ghost use Rattle.vlog_pre.specs.Levels.{innermost, outer, is_taken, is_open, may_go_on, with_opening, with_part};

use rdc_outside::Place;
use std::alloc::{AllocError, Global};
use std::collections::VecDeque;
use std::marker::Model;

/// A conditional that is open.
#[derive(Clone, Copy, Debug, PartialEq, Eq)]
pub(crate) struct Opening {
    /// Where it began.
    pub(crate) place: Place,
    /// Whether this part is taken.
    pub(crate) taken: bool,
    /// Whether no later part is.
    pub(crate) spent: bool,
    /// Whether no further part may follow.
    pub(crate) last: bool,
}

/// An open file, or an open conditional.
#[derive(Clone, Copy, Debug, PartialEq, Eq)]
pub(crate) enum Level {
    File,
    Conditional(Opening),
}

/// What is open, the innermost first.
#[derive(Debug, Drop)]
pub(crate) struct Levels {
    levels: VecDeque<Level>,
}

impl Model for Levels {
    ghost use Rattle.std.specs.Prelude.{List};
    ghost use Rattle.vlog_pre.specs.declared.levels.Level.{Level};

    ghost Value = { List Level };

    ghost view = { λ levels. levels.levels.items };
}

impl Levels {
    pub(crate) fn new(alloc: Global) -> Levels
        ensures { result ≡ [] }
    {
        Levels {
            levels: VecDeque::new(alloc),
        }
    }

    /// The innermost level.
    pub(crate) fn top(&self) -> Option<Level>
        ensures { result ≡ innermost self.now }
    {
        self.levels.front().copied()
    }

    /// Whether what stands here is taken.
    pub(crate) fn taken(&self) -> bool
        ensures { result ≡ is_taken self.now }
    {
        match self.top() {
            None => true,
            Some(Level::File) => true,
            Some(Level::Conditional(opening)) => opening.taken,
        }
    }

    /// Whether a conditional is open in this file.
    pub(crate) fn open(&self) -> bool
        ensures { result ≡ is_open self.now }
    {
        match self.top() {
            None => false,
            Some(Level::File) => false,
            Some(Level::Conditional(_)) => true,
        }
    }

    /// Whether a further part may follow.
    pub(crate) fn goes_on(&self) -> bool
        ensures { result ≡ may_go_on self.now }
    {
        match self.top() {
            None => false,
            Some(Level::File) => false,
            Some(Level::Conditional(opening)) => !opening.last,
        }
    }

    /// Leaves the innermost level.
    pub(crate) fn leave(&mut self)
        ensures { self.new ≡ outer self.old }
    {
        self.levels.pop_front();
    }

    /// One open file more.
    pub(crate) fn enter(&mut self) -> Result<(), AllocError>
        ensures { OnOk result (self.new ≡ File ∷ self.old) }
    {
        self.levels.push_front(Level::File)?;
        Ok(())
    }

    /// One conditional more.
    pub(crate) fn begin(&mut self, place: Place, met: bool) -> Result<(), AllocError>
        ensures { OnOk result (self.new ≡ with_opening self.old place met) }
    {
        let around = self.taken();
        self.levels.push_front(Level::Conditional(Opening {
            place,
            taken: around && met,
            spent: !around || met,
            last: false,
        }))?;
        Ok(())
    }

    /// The next part of the innermost conditional.
    pub(crate) fn part(&mut self, met: bool, last: bool) -> Result<(), AllocError>
        ensures { OnOk result (self.new ≡ with_part self.old met last) }
    {
        let Some(Level::Conditional(opening)) = self.top() else {
            return Ok(());
        };
        self.levels.pop_front();
        self.levels.push_front(Level::Conditional(Opening {
            place: opening.place,
            taken: !opening.spent && met,
            spent: opening.spent || met,
            last,
        }))?;
        Ok(())
    }
}
