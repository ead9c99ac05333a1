//! Where a select of a variable index starts.
ghost use Rattle.std.specs.Prelude.{◌≡◌};

use rdc_tern::Tern;

/// A number that an index may be.
#[derive(Clone, Copy)]
pub(crate) enum Start {
    /// So far above 0.
    From(usize),
    /// So far below -1.
    Below(usize),
}

impl Start {
    ghost use Rattle.design_form.specs.Bits.{start_bit, start_rest};

    /// Its lowest bit as an index.
    #[tactic(auto, unfolding(crate::specs::Bits::start_bit))]
    pub(crate) fn low_bit(self) -> Tern
        ensures { result ≡ start_bit self }
    {
        match self {
            Start::From(n) if n % 2 == 1 => Tern::One,
            Start::From(_) => Tern::Zero,
            Start::Below(n) if n % 2 == 1 => Tern::Zero,
            Start::Below(_) => Tern::One,
        }
    }

    /// What stands above its lowest bit.
    #[tactic(auto, unfolding(crate::specs::Bits::start_rest))]
    pub(crate) fn halved(self) -> Start
        ensures { result ≡ start_rest self }
    {
        match self {
            Start::From(n) => Start::From(n / 2),
            Start::Below(n) => Start::Below(n / 2),
        }
    }
}
