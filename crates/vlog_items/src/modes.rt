//! What a text is in the middle of.
ghost use Rattle.std.specs.Prelude.{◌≡◌};
ghost use Rattle.vlog_items.specs.Modes.{after_plain, mode_after, is_plain};

use crate::classes::blank;

/// What a text is in the middle of.
#[derive(Clone, Copy, Debug, PartialEq, Eq)]
pub enum Mode {
    Plain,
    /// After a `/`, which may begin a comment.
    Slash,
    LineComment,
    BlockComment,
    /// In a block comment after a `*`, which may end it.
    Star,
    Quoted,
    /// In an escaped name.
    Escaped,
}

#[tactic(auto, unfolding(crate::specs::Modes::after_plain))]
#[inline]
fn opened(b: u8) -> Mode
    ensures { result ≡ after_plain b }
{
    match b {
        b'/' => Mode::Slash,
        b'"' => Mode::Quoted,
        b'\\' => Mode::Escaped,
        _ => Mode::Plain,
    }
}

impl Mode {
    /// The mode after one byte more.
    #[tactic(auto, unfolding(crate::specs::Modes::mode_after))]
    #[inline]
    pub fn after(self, b: u8) -> Mode
        ensures { result ≡ mode_after self b }
    {
        match self {
            Mode::Plain => opened(b),
            Mode::Slash if b == b'/' => Mode::LineComment,
            Mode::Slash if b == b'*' => Mode::BlockComment,
            Mode::Slash => opened(b),
            Mode::LineComment if b == b'\n' => Mode::Plain,
            Mode::LineComment => Mode::LineComment,
            Mode::BlockComment if b == b'*' => Mode::Star,
            Mode::BlockComment => Mode::BlockComment,
            Mode::Star if b == b'/' => Mode::Plain,
            Mode::Star if b == b'*' => Mode::Star,
            Mode::Star => Mode::BlockComment,
            Mode::Quoted if b == b'"' || b == b'\n' => Mode::Plain,
            Mode::Quoted => Mode::Quoted,
            Mode::Escaped if blank(b) => Mode::Plain,
            Mode::Escaped => Mode::Escaped,
        }
    }

    /// Whether nothing is open: no comment, no string and no escaped name.
    #[tactic(auto, unfolding(crate::specs::Modes::is_plain))]
    pub fn is_plain(self) -> bool
        ensures { result ≡ is_plain self }
    {
        match self {
            Mode::Plain => true,
            Mode::Slash => true,
            Mode::LineComment => false,
            Mode::BlockComment => false,
            Mode::Star => false,
            Mode::Quoted => false,
            Mode::Escaped => false,
        }
    }
}
