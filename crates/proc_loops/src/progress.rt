//! How far an unrolling has come.
ghost use Rattle.std.specs.Prelude.{◌≡◌, ◌<◌, false};
ghost use Rattle.proc_loops.specs.Turns.{begun, closed, counted, cut, is_full, most_turns, one_more};

/// So many turns are one too many.
const MOST: u32 = 65536;

/// How far an unrolling has come.
#[derive(Clone, Copy)]
pub struct Progress {
    /// The turns of all loops.
    pub turns: u32,
    /// The widths of the headers of all loops.
    pub headers: u64,
    /// Whether a turn was one too many.
    pub is_cut: bool,
}

/// No turn is made yet.
pub fn begun() -> Progress
    ensures { result ≡ begun }
{
    Progress {
        turns: 0,
        headers: 0,
        is_cut: false,
    }
}

/// So many turns are one too many.
#[tactic(auto, unfolding(crate::specs::Turns::most_turns))]
pub fn most_turns() -> u32
    ensures { result ≡ most_turns }
{
    MOST
}

/// Whether another turn is one too many.
#[tactic(auto, unfolding(crate::specs::Turns::most_turns))]
pub fn is_full(p: Progress) -> bool
    ensures value { result ≡ is_full p }
    ensures room { result ≡ false → p.turns < 65535 }
{
    MOST - 1 <= p.turns
}

/// One more turn.
pub fn one_more(p: Progress) -> Progress
    requires { p.turns < 65535 }
    ensures { result ≡ one_more p }
{
    Progress {
        turns: p.turns + 1,
        ..p
    }
}

/// No more turns.
pub fn cut(p: Progress) -> Progress
    ensures { result ≡ cut p }
{
    Progress { is_cut: true, ..p }
}

/// With a loop behind it, whose last assignment is none of the text: the 32 that it weighs are taken off.
pub fn closed(p: Progress) -> Progress
    ensures { result ≡ closed p }
{
    Progress {
        headers: p.headers.saturating_sub(32),
        ..p
    }
}

/// With the widths of one more header.
pub fn counted(width: u64, p: Progress) -> Progress
    ensures { result ≡ counted width p }
{
    Progress {
        headers: p.headers.saturating_add(width),
        ..p
    }
}
