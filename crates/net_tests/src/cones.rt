//! Cones and slices of a small net, against lists worked by hand.
ghost use Rattle.std.specs.Prelude.{◌<◌};

use net_view::{Gate, Slice, View, cone, one_pin_order, one_valuation, settled_in_settled_out};
use std::alloc::Global;
use std::test::Fail;

/// A net of ten nodes: 0 to 2 are the sources 2, 0 and 1.
struct Small;

impl View for Small {
    ghost use Rattle.std.specs.Prelude.{ℕ};
    ghost use Rattle.net_tests.specs.ConeNet.{small_gates};

    type Node = u32;

    type Src = u32;

    ghost gates = { λ _. small_gates };

    ghost source_count = { λ _. 3 };

    ghost node_number = { λ n. n };

    ghost source_number = { λ s. s };

    fn nodes(&self) -> u32 {
        10
    }

    fn node(&self, n: u32) -> Option<u32> {
        if n < 10 { Some(n) } else { None }
    }

    fn index(&self, n: u32) -> u32 {
        n
    }

    fn sources(&self) -> u32 {
        3
    }

    fn src_index(&self, s: u32) -> u32 {
        s
    }

    fn gate(&self, n: u32) -> Gate<u32, u32> {
        match n {
            0 => Gate::Source(2),
            1 => Gate::Source(0),
            2 => Gate::Source(1),
            3 => Gate::Not(0),
            4 => Gate::And(3, 1),
            5 => Gate::Const(true),
            6 => Gate::Or(4, 4),
            7 => Gate::Xor(6, 2),
            8 => Gate::Pick(2, 5, 3),
            _ => Gate::Lift(1, 3, false),
        }
    }
}

/// The whole's nodes and sources of a slice's, and its gates by number, as one text.
fn shown<'a, V: View<Node = u32, Src = u32>>(
    alloc: Global,
    slice: &Slice<'a, V>,
) -> Result<String, Fail> {
    let mut text = String::new(alloc);
    'nodes: for k in 0..slice.nodes() {
        let Some(n) = slice.node(k) else {
            unreachable!();
        };
        write!(text, "{} ", slice.whole_node(n))?;
        match slice.gate(n) {
            Gate::Const(bit) => write!(text, "is {bit}; ")?,
            Gate::Source(s) => write!(text, "is source {}; ", s.number())?,
            Gate::Not(a) => write!(text, "not {}; ", a.number())?,
            Gate::And(a, b) => write!(text, "and {} {}; ", a.number(), b.number())?,
            Gate::Or(a, b) => write!(text, "or {} {}; ", a.number(), b.number())?,
            Gate::Xor(a, b) => write!(text, "xor {} {}; ", a.number(), b.number())?,
            Gate::Pick(c, a, b) => write!(
                text,
                "pick {} {} {}; ",
                c.number(),
                a.number(),
                b.number()
            )?,
            Gate::Lift(c, a, r) => write!(text, "lift {} {} {r}; ", c.number(), a.number())?,
        }
    }
    Ok(text)
}

#[test]
fn a_cone_has_each_source_once_in_source_order(rt: HostRuntime) -> Result<(), Fail> {
    let rows: [(u32, &[u32]); 10] = [
        (0, &[2]),
        (1, &[0]),
        (2, &[1]),
        (3, &[2]),
        (4, &[0, 2]),
        (5, &[]),
        (6, &[0, 2]),
        (7, &[0, 1, 2]),
        (8, &[1, 2]),
        (9, &[0, 2]),
    ];
    'rows: for (n, sources) in rows {
        if n < 10 {
            let found = cone(rt.alloc(), &Small, n)?;
            assert_eq!(rt; found.as_slice(), sources, "node {n}");
        }
    }
    Ok(())
}

/// The whole's node of a node of a slice, by number; None past its last.
fn whole_of<'a, 'b>(slice: &Slice<'a, Slice<'b, Small>>, k: u32) -> Option<u32> {
    let Some(n) = slice.node(k) else {
        return None;
    };
    Some(slice.whole_node(n).number())
}

#[test]
fn a_slice_has_the_cones_alone_and_can_be_sliced(rt: HostRuntime) -> Result<(), Fail> {
    let slice = Slice::new(rt.alloc(), &Small, &[6])?;
    let text = shown(rt.alloc(), &slice)?;
    assert_eq!(rt;
        text.as_str(),
        "0 is source 1; 1 is source 0; 3 not 0; 4 and 2 1; 6 or 3 3; "
    );
    assert_eq!(rt; slice.sources(), 2);
    assert!(rt; slice.find_node(7).is_none(), "7 is in no cone of the root");
    let Some(inverter) = slice.find_node(3) else {
        assert!(rt; false, "3 is in the cone of 6");
        return Ok(());
    };
    assert_eq!(rt; inverter.number(), 2);
    let inner = Slice::new(rt.alloc(), &slice, &[inverter])?;
    assert_eq!(rt; inner.nodes(), 2);
    assert_eq!(rt; inner.sources(), 1);
    assert_eq!(rt; whole_of(&inner, 0), Some(0));
    assert_eq!(rt; whole_of(&inner, 1), Some(2));
    assert_eq!(rt; whole_of(&inner, 2), None);
    let both = Slice::new(rt.alloc(), &Small, &[9, 8])?;
    let text = shown(rt.alloc(), &both)?;
    assert_eq!(rt;
        text.as_str(),
        "0 is source 2; 1 is source 0; 2 is source 1; 3 not 0; 5 is true; 8 pick 2 4 3; 9 lift 1 3 false; "
    );
    Ok(())
}

#[test]
fn the_laws_compute_nothing() {
    one_valuation();
    settled_in_settled_out();
    one_pin_order();
}
