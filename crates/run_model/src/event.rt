//! What can happen at one moment.
ghost use Rattle.std.specs.Prelude.{◌≡◌, ℕ, Bool, List};

use std::marker::Model;

/// The levels that a change of data inputs gives, by source number. The last one for a source counts.
#[derive(Drop)]
pub struct Levels {
    levels: Vec<(u32, bool)>,
}

impl Model for Levels {
    ghost Value = { List (ℕ × Bool) };

    ghost view = { λ l. l.levels.items };
}

/// One atomic step, by source numbers.
#[derive(Drop)]
pub enum Event {
    /// The rising edge of a clock.
    Rise(u32),
    /// The falling edge of a clock.
    Fall(u32),
    /// A reset port starts to change, at any time.
    Strike(u32),
    /// A reset port, or a flop, has settled: the port is asserted, the flop has its reset value.
    Calm(u32),
    /// A reset port is withdrawn.
    Release(u32),
    /// The data inputs take new levels.
    Drive(Levels),
}

impl Levels {
    /// The levels in their order.
    pub fn new(levels: Vec<(u32, bool)>) -> Self
        ensures { result ≡ levels.items }
    {
        Levels { levels }
    }

    pub fn as_slice(&self) -> &[(u32, bool)]
        ensures { result.now ≡ self.now }
    {
        self.levels.as_slice()
    }
}
