//! A ternary value and its gates.

ghost use Rattle.std.specs.Prelude.{◌≡◌, ◌↔◌, IsTrue};

/// A signal's value at one moment. Gates look at both inputs before they choose, so that a pass over a net has no jump to guess.
#[derive(Clone, Copy, Debug, PartialEq, Eq)]
pub enum Tern {
    Zero,
    One,
    /// X: changing, or not known to have settled.
    Unsettled,
}

impl Tern {
    ghost use Rattle.rdc_tern.specs.Kleene.{not_of, and_of, or_of, xor_of, mux_of, join_of, IsBelow};

    /// The inverter.
    pub fn not(self) -> Tern
        ensures { result ≡ not_of self }
    {
        match self {
            Tern::Zero => Tern::One,
            Tern::One => Tern::Zero,
            Tern::Unsettled => Tern::Unsettled,
        }
    }

    /// A 0 decides; else an X does.
    pub fn and(self, other: Tern) -> Tern
        ensures { result ≡ and_of self other }
    {
        if (self == Tern::Zero) | (other == Tern::Zero) {
            Tern::Zero
        } else if (self == Tern::One) & (other == Tern::One) {
            Tern::One
        } else {
            Tern::Unsettled
        }
    }

    /// A 1 decides; else an X does.
    pub fn or(self, other: Tern) -> Tern
        ensures { result ≡ or_of self other }
    {
        if (self == Tern::One) | (other == Tern::One) {
            Tern::One
        } else if (self == Tern::Zero) & (other == Tern::Zero) {
            Tern::Zero
        } else {
            Tern::Unsettled
        }
    }

    /// An X decides.
    pub fn xor(self, other: Tern) -> Tern
        ensures { result ≡ xor_of self other }
    {
        if (self == Tern::Unsettled) | (other == Tern::Unsettled) {
            Tern::Unsettled
        } else if self == other {
            Tern::Zero
        } else {
            Tern::One
        }
    }

    /// The AND-OR selection: `a` where `select` is 1, `b` where it is 0. At X it is 0 where both are 0, and else X:
    /// two branches at 1 don't hide that the selection has not settled.
    pub fn mux(select: Tern, a: Tern, b: Tern) -> Tern
        ensures { result ≡ mux_of select a b }
    {
        select.and(a).or(select.not().and(b))
    }

    /// What two values agree on, else X.
    pub fn join(self, other: Tern) -> Tern
        ensures { result ≡ join_of self other }
    {
        if self == other { self } else { Tern::Unsettled }
    }

    /// Whether `b` is `a`, or X: it tells no more.
    pub fn below(a: Tern, b: Tern) -> bool
        ensures { IsTrue result ↔ IsBelow a b }
    {
        b == Tern::Unsettled || a == b
    }
}
