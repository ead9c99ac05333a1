//! The small net of `cons_bind`, which its definitions describe.
ghost use Rattle.std.specs.Prelude.{◌≡◌};
ghost use Rattle.cons_bind.specs.SmallNet.{small_flop};

use net_view::{FlopNet, FlopOf, Gate, SrcKind, View};

/// Three flops: a register of two bits under the reset r, and u1.f without a pin.
pub(crate) struct Small;

impl View for Small {
    ghost use Rattle.std.specs.Prelude.{ℕ};
    ghost use Rattle.cons_bind.specs.SmallNet.{small_gates};

    type Node = u32;

    type Src = u32;

    ghost gates = { λ _. small_gates };

    ghost source_count = { λ _. 7 };

    ghost node_number = { λ n. n };

    ghost source_number = { λ s. s };

    fn nodes(&self) -> u32 {
        8
    }

    fn node(&self, n: u32) -> Option<u32> {
        if n < 8 { Some(n) } else { None }
    }

    fn index(&self, n: u32) -> u32 {
        n
    }

    fn sources(&self) -> u32 {
        7
    }

    fn src_index(&self, s: u32) -> u32 {
        s
    }

    fn gate(&self, n: u32) -> Gate<u32, u32> {
        match n {
            0 => Gate::Source(0),
            1 => Gate::Source(1),
            2 => Gate::Source(2),
            3 => Gate::Source(3),
            4 => Gate::Source(4),
            5 => Gate::Source(5),
            6 => Gate::Source(6),
            _ => Gate::And(1, 3),
        }
    }
}

/// A flop of clock c.
fn flop(next: u32, pin: Option<u32>, root: u32) -> FlopOf<u32>
    ensures { result ≡ small_flop next pin root }
{
    FlopOf {
        clock: Some(0),
        rising: true,
        next: Some(next),
        calms: true,
        pin,
        high: false,
        reset: false,
        root,
    }
}

impl FlopNet for Small {
    ghost use Rattle.cons_bind.specs.SmallNet.{small_names, small_kinds, small_bits};

    ghost names = { λ _. small_names };

    ghost kinds = { λ _. small_kinds };

    ghost named_bits = { λ _. small_bits };

    fn name(&self, s: u32) -> &str {
        match s {
            0 => "c",
            1 => "d",
            2 => "k",
            3 => "q[0]",
            4 => "q[1]",
            5 => "r",
            _ => "u1.f",
        }
    }

    fn kind(&self, s: u32) -> SrcKind<u32> {
        match s {
            3 => SrcKind::Flop(flop(1, Some(5), 6)),
            4 => SrcKind::Flop(flop(7, Some(5), 6)),
            6 => SrcKind::Flop(flop(3, None, 7)),
            _ => SrcKind::Port,
        }
    }

    fn bits(&self) -> u32 {
        11
    }

    fn bit_name(&self, b: u32) -> &str {
        match b {
            0 => "a+b",
            1 => "c",
            2 => "d",
            3 => "k",
            4 => "q[0]",
            5 => "q[1]",
            6 => "r",
            7 => "u1.f",
            8 => "v[0]",
            9 => "v[1]",
            _ => "w",
        }
    }

    fn bit_node(&self, b: u32) -> u32 {
        match b {
            0 => 7,
            1 => 0,
            2 => 1,
            3 => 2,
            4 => 3,
            5 => 4,
            6 => 5,
            7 => 6,
            8 => 3,
            9 => 7,
            _ => 6,
        }
    }

    fn bit_root(&self, b: u32) -> u32 {
        match b {
            8 => 4,
            10 => 7,
            _ => b,
        }
    }

    fn find(&self, name: &str) -> Option<u32> {
        'bits: for b in 0..11u32 {
            if self.bit_name(b) == name {
                return Some(b);
            }
        }
        None
    }
}
