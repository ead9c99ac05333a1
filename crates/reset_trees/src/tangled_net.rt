//! The net of `specs/TangledNet.antt`.
ghost use Rattle.std.specs.Prelude.{◌≡◌};
ghost use Rattle.reset_trees.specs.TangledNet.{tangled_flop};

use net_view::{FlopNet, FlopOf, Gate, SrcKind, View};

/// Three flops, the pins of which read one another in a cycle where they are `looped`.
pub(crate) struct Tangled {
    pub(crate) looped: bool,
}

impl View for Tangled {
    ghost use Rattle.std.specs.Prelude.{ℕ};
    ghost use Rattle.reset_trees.specs.TangledNet.{tangled_gates};

    type Node = u32;

    type Src = u32;

    ghost gates = { λ _. tangled_gates };

    ghost source_count = { λ _. 5 };

    ghost node_number = { λ n. n };

    ghost source_number = { λ s. s };

    fn nodes(&self) -> u32 {
        5
    }

    fn node(&self, n: u32) -> Option<u32> {
        if n < 5 { Some(n) } else { None }
    }

    fn index(&self, n: u32) -> u32 {
        n
    }

    fn sources(&self) -> u32 {
        5
    }

    fn src_index(&self, s: u32) -> u32 {
        s
    }

    fn gate(&self, n: u32) -> Gate<u32, u32> {
        match n {
            0 => Gate::Source(0),
            1 => Gate::Source(1),
            2 => Gate::Source(2),
            3 => Gate::Source(3),
            _ => Gate::Source(4),
        }
    }
}

/// A flop of clock c.
fn flop(pin: u32, root: u32) -> FlopOf<u32>
    ensures { result ≡ tangled_flop pin root }
{
    FlopOf {
        clock: Some(0),
        rising: true,
        next: Some(4),
        calms: true,
        pin: Some(pin),
        high: false,
        reset: false,
        root,
    }
}

impl FlopNet for Tangled {
    ghost use Rattle.reset_trees.specs.TangledNet.{tangled_names, tangled_kinds, tangled_bits};

    ghost names = { λ _. tangled_names };

    ghost kinds = { λ n. tangled_kinds n.looped };

    ghost named_bits = { λ _. tangled_bits };

    fn name(&self, s: u32) -> &str {
        match s {
            0 => "c",
            1 => "z",
            2 => "a",
            3 => "m",
            _ => "r",
        }
    }

    fn kind(&self, s: u32) -> SrcKind<u32> {
        match s {
            1 => SrcKind::Flop(if self.looped { flop(3, 2) } else { flop(4, 3) }),
            2 => SrcKind::Flop(flop(1, 4)),
            3 => SrcKind::Flop(if self.looped { flop(2, 0) } else { flop(4, 3) }),
            _ => SrcKind::Port,
        }
    }

    fn bits(&self) -> u32 {
        5
    }

    fn bit_name(&self, b: u32) -> &str {
        match b {
            0 => "a",
            1 => "c",
            2 => "m",
            3 => "r",
            _ => "z",
        }
    }

    fn bit_node(&self, b: u32) -> u32 {
        match b {
            0 => 2,
            1 => 0,
            2 => 3,
            3 => 4,
            _ => 1,
        }
    }

    fn bit_root(&self, b: u32) -> u32 {
        b
    }

    fn find(&self, name: &str) -> Option<u32> {
        'bits: for b in 0..5u32 {
            if self.bit_name(b) == name {
                return Some(b);
            }
        }
        None
    }
}
