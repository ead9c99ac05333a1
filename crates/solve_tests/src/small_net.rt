//! Nets for tests, of a list of gates.
ghost use Rattle.std.specs.Prelude.{◌≡◌, ◌*◌, ◌<◌, ◌^◌, length, IsTrue};
ghost use Rattle.solve_tests.specs.SmallNet.{is_laid_out};

use net_view::{Gate, View};

/// A list of gates, with this many sources in front.
#[derive(Drop)]
pub struct SmallNet<'a> {
    pub gates: &'a [Gate<u32, u32>],
    pub sources: u32,
    ghost laid_out: { IsTrue (is_laid_out sources 0 gates.now) },
    ghost small: { length gates.now < 2 ^ 20 },
}

impl<'a> View for SmallNet<'a> {
    type Node = u32;

    type Src = u32;

    ghost gates = { λ v. v.gates.now };

    ghost source_count = { λ v. v.sources };

    ghost node_number = { λ n. n };

    ghost source_number = { λ s. s };

    fn nodes(&self) -> u32 {
        self.gates.len() as u32
    }

    fn node(&self, n: u32) -> Option<u32> {
        if (n as usize) < self.gates.len() {
            Some(n)
        } else {
            None
        }
    }

    fn index(&self, n: u32) -> u32 {
        n
    }

    fn sources(&self) -> u32 {
        self.sources
    }

    fn src_index(&self, s: u32) -> u32 {
        s
    }

    fn gate(&self, n: u32) -> Gate<u32, u32> {
        self.gates[n as usize]
    }
}
