//! Signals: what a design declares by name.
ghost use Rattle.std.specs.Prelude.{◌≡◌, IsTrue};

use rdc_outside::Seq;

/// What may assign a signal.
#[derive(Clone, Copy, Debug, PartialEq, Eq)]
pub enum SignalKind {
    Wire,
    Register,
    /// Signed, with the range `[31:0]`.
    Integer,
}

/// `[msb:lsb]`, counting down or up.
#[derive(Clone, Copy, Debug, PartialEq, Eq)]
pub struct Bounds {
    /// The index of the most significant bit.
    pub msb: u32,
    /// The index of the least significant bit.
    pub lsb: u32,
}

impl Bounds {
    ghost use Rattle.std.specs.Prelude.{min};
    ghost use Rattle.design_form.specs.Signals.{is_down, lowest, width_of};

    /// Whether indices grow towards the most significant bit.
    pub fn is_down(self) -> bool
        ensures { result ≡ is_down self }
    {
        self.lsb <= self.msb
    }

    /// The lowest index.
    pub fn lowest(self) -> u32
        ensures { result ≡ lowest self }
    {
        self.msb.min(self.lsb)
    }

    /// How many bits there are.
    pub fn width(self) -> usize
        ensures { result ≡ width_of self }
    {
        (self.msb.max(self.lsb) - self.msb.min(self.lsb)) as usize + 1
    }
}

/// A signal under its hierarchical name, which has no index.
#[derive(Drop)]
pub struct Signal {
    pub name: Seq<u8>,
    pub kind: SignalKind,
    pub signed: bool,
    /// None for one bit without an index.
    pub range: Option<Bounds>,
}

impl Signal {
    ghost use Rattle.design_form.specs.Signals.{bounds_of, is_single};

    /// The range, which is `[0:0]` where none is declared.
    pub fn bounds(&self) -> Bounds
        ensures { result ≡ bounds_of self.now }
    {
        match self.range {
            Some(bounds) => bounds,
            None => Bounds { msb: 0, lsb: 0 },
        }
    }

    /// Whether it is one bit that is printed without an index.
    pub fn is_single(&self) -> bool
        ensures { result ≡ is_single self.now }
    {
        let bounds = self.bounds();
        bounds.msb == 0 && bounds.lsb == 0
    }
}
