//! Each operation, and what it is worth.

use crate::reading::{are_worth, leaves, two};
use net_gates::{GateFault, GateList, Node};
use net_view::Gate;
use net_words::{
    Bitwise, add, all, any, bit, each, eq, inverted, lt, lt_signed, mul, mux, neg, parity, put,
    sar, select, shl, shr, sub,
};
use rdc_tern::Tern;
use std::alloc::Global;
use std::test::Fail;

const O: Tern = Tern::Zero;

const I: Tern = Tern::One;

const X: Tern = Tern::Unsettled;

/// The leaves a0, a1, b0 and b1: a is 1 and b is 3.
const ONE_THREE: [Tern; 4] = [I, O, I, I];

/// a is X in its low bit and 0 in the other, b is 1.
const MOVING_ONE: [Tern; 4] = [X, O, I, O];

/// a is 3 and b is 1.
const THREE_ONE: [Tern; 4] = [I, I, I, O];

/// a is 3, b is X in its low bit and 0 in the other.
const THREE_MOVING: [Tern; 4] = [I, I, X, O];

/// a is X in its low bit and 0 in the other, b is 2.
const MOVING_TWO: [Tern; 4] = [X, O, O, I];

/// `a + b` and `a - b`.
fn sums(alloc: Global) -> Result<(GateList, [Node; 4]), GateFault> {
    let (mut net, a, b) = leaves(alloc)?;
    let sum = two(add(alloc, &mut net, &a, &b)?);
    let difference = two(sub(alloc, &mut net, &a, &b)?);
    Ok((net, [sum[0], sum[1], difference[0], difference[1]]))
}

/// `-a` and `a * b`.
fn products(alloc: Global) -> Result<(GateList, [Node; 4]), GateFault> {
    let (mut net, a, b) = leaves(alloc)?;
    let negation = two(neg(alloc, &mut net, &a)?);
    let product = two(mul(alloc, &mut net, &a, &b)?);
    Ok((net, [negation[0], negation[1], product[0], product[1]]))
}

/// `a << b`, `a >> b` and `a >>> b`.
fn shifts(alloc: Global) -> Result<(GateList, [Node; 6]), GateFault> {
    let (mut net, a, b) = leaves(alloc)?;
    let left = two(shl(alloc, &mut net, &a, &b)?);
    let right = two(shr(alloc, &mut net, &a, &b)?);
    let signed = two(sar(alloc, &mut net, &a, &b)?);
    Ok((
        net,
        [left[0], left[1], right[0], right[1], signed[0], signed[1]],
    ))
}

/// `a == b`, and `a < b` without and with signs.
fn comparisons(alloc: Global) -> Result<(GateList, [Node; 3]), GateFault> {
    let (mut net, a, b) = leaves(alloc)?;
    let equal = eq(alloc, &mut net, &a, &b)?;
    let less = lt(&mut net, &a, &b)?;
    let signed = lt_signed(alloc, &mut net, &a, &b)?;
    Ok((net, [equal, less, signed]))
}

/// The OR, the AND and the XOR of the bits of a, and the OR of none.
fn reductions(alloc: Global) -> Result<(GateList, [Node; 4]), GateFault> {
    let (mut net, a, _) = leaves(alloc)?;
    let or = any(&mut net, &a)?;
    let and = all(&mut net, &a)?;
    let xor = parity(&mut net, &a)?;
    let no_or = any(&mut net, &[])?;
    Ok((net, [or, and, xor, no_or]))
}

/// `~a`, and `a0 ? a : b`.
fn words(alloc: Global) -> Result<(GateList, [Node; 4]), GateFault> {
    let (mut net, a, b) = leaves(alloc)?;
    let inverse = two(inverted(alloc, &mut net, &a)?);
    let chosen = two(select(alloc, &mut net, a[0], &a, &b)?);
    Ok((net, [inverse[0], inverse[1], chosen[0], chosen[1]]))
}

/// `a ~^ b`, `a0 & b0`, `~a0`, and `a0 ? a1 : b1`.
fn bits(alloc: Global) -> Result<(GateList, [Node; 5]), GateFault> {
    let (mut net, a, b) = leaves(alloc)?;
    let same = two(each(alloc, &mut net, Bitwise::Xnor, &a, &b)?);
    let both = bit(&mut net, Bitwise::And, a[0], b[0])?;
    let inverse = put(&mut net, Gate::Not(a[0]))?;
    let chosen = mux(&mut net, a[0], a[1], b[1])?;
    Ok((net, [same[0], same[1], both, inverse, chosen]))
}

#[test]
fn words_are_added_and_subtracted(rt: HostRuntime) -> Result<(), Fail> {
    let (net, nodes) = sums(rt.alloc())?;
    assert!(rt;
        are_worth(rt.alloc(), &net, &ONE_THREE, &nodes, &[O, O, O, I])?,
        "4 is 0, and -2 is 2"
    );
    assert!(rt; are_worth(rt.alloc(), &net, &MOVING_ONE, &nodes, &[X, X, X, X])?);
    Ok(())
}

#[test]
fn words_are_negated_and_multiplied(rt: HostRuntime) -> Result<(), Fail> {
    let (net, nodes) = products(rt.alloc())?;
    assert!(rt;
        are_worth(rt.alloc(), &net, &ONE_THREE, &nodes, &[I, I, I, I])?,
        "-1 is 3"
    );
    assert!(rt; are_worth(rt.alloc(), &net, &MOVING_ONE, &nodes, &[X, X, X, O])?);
    Ok(())
}

#[test]
fn words_are_shifted(rt: HostRuntime) -> Result<(), Fail> {
    let (net, nodes) = shifts(rt.alloc())?;
    assert!(rt; are_worth(rt.alloc(), &net, &THREE_ONE, &nodes, &[O, I, I, O, I, I])?);
    assert!(rt; are_worth(rt.alloc(), &net, &THREE_MOVING, &nodes, &[X, X, X, X, X, X])?);
    Ok(())
}

#[test]
fn words_are_compared(rt: HostRuntime) -> Result<(), Fail> {
    let (net, nodes) = comparisons(rt.alloc())?;
    assert!(rt;
        are_worth(rt.alloc(), &net, &ONE_THREE, &nodes, &[O, I, O])?,
        "1 is below 3, not below -1"
    );
    assert!(rt;
        are_worth(rt.alloc(), &net, &MOVING_TWO, &nodes, &[O, I, O])?,
        "the high bits decide"
    );
    Ok(())
}

#[test]
fn bits_of_a_word_are_joined(rt: HostRuntime) -> Result<(), Fail> {
    let (net, nodes) = reductions(rt.alloc())?;
    assert!(rt; are_worth(rt.alloc(), &net, &ONE_THREE, &nodes, &[I, O, I, O])?);
    assert!(rt; are_worth(rt.alloc(), &net, &MOVING_ONE, &nodes, &[X, O, X, O])?);
    Ok(())
}

#[test]
fn words_are_inverted_and_chosen(rt: HostRuntime) -> Result<(), Fail> {
    let (net, nodes) = words(rt.alloc())?;
    assert!(rt; are_worth(rt.alloc(), &net, &ONE_THREE, &nodes, &[O, I, I, O])?);
    assert!(rt; are_worth(rt.alloc(), &net, &MOVING_ONE, &nodes, &[X, I, X, O])?);
    Ok(())
}

#[test]
fn bits_are_joined(rt: HostRuntime) -> Result<(), Fail> {
    let (net, nodes) = bits(rt.alloc())?;
    assert!(rt; are_worth(rt.alloc(), &net, &ONE_THREE, &nodes, &[I, O, I, O, O])?);
    assert!(rt; are_worth(rt.alloc(), &net, &MOVING_TWO, &nodes, &[X, O, O, X, X])?);
    Ok(())
}
