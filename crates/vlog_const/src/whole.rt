//! Numbers with a sign.
ghost use Rattle.std.specs.Prelude.{◌≡◌, ◌≤◌, ◌-◌, ◌^◌, min};
ghost use Rattle.vlog_const.specs.Selects.{counted, span, whole};

use crate::answer::ConstValue;
use crate::selects;

/// A number as its distance from 0, and whether it is below.
#[derive(Clone, Copy, Debug, PartialEq, Eq)]
pub struct Whole {
    pub negative: bool,
    pub magnitude: u128,
}

impl Whole {
    /// A value with its sign.
    pub fn of(value: ConstValue) -> Whole
        requires { value.width ≤ 128 }
        ensures { result ≡ whole value }
    {
        selects::whole(value)
    }

    /// How many a count is; a negative one is none.
    pub fn count(self) -> u128
        ensures { result ≡ counted self }
    {
        selects::counted(self)
    }

    /// How many positions stand from this one down to `lsb`, as far as a `u128` goes.
    pub fn down_to(self, lsb: Whole) -> u128
        ensures { result ≡ min (span self lsb) (2 ^ 128 - 1) }
    {
        selects::span(self, lsb)
    }
}
