//! All assignments of two nets of ten nodes: the models are exactly the states.
ghost use Rattle.std.specs.Prelude.{◌≡◌, ◌<◌, length, IsTrue};
ghost use Rattle.solve_tests.specs.SmallNet.{are_sources};

use crate::encoding::clauses_of;
use crate::small_net::SmallNet;
use net_view::{Gate, eval_into};
use rdc_tern::Tern;
use sat_chain::Clauses;
use std::process::Abort;
use std::test::Fail;

/// The assignment of a number: variable v has the bit v - 1.
fn bits_of(number: u32) -> [bool; 20] {
    let mut bits = [false; 20];
    let mut left = number;
    for bit in bits.iter_mut() {
        *bit = left % 2 == 1;
        left /= 2;
    }
    bits
}

fn is_true(bits: &[bool; 20], lit: &i32) -> bool {
    let variable = lit.unsigned_abs() as usize;
    variable > 0 && variable <= 20 && bits[variable - 1] == (*lit > 0)
}

fn some_is_true(bits: &[bool; 20], lits: &[i32]) -> bool {
    for lit in lits {
        if is_true(bits, lit) {
            return true;
        }
    }
    false
}

fn meets(bits: &[bool; 20], clauses: &Clauses) -> bool {
    for n in 0..clauses.len() {
        let Some(id) = clauses.try_id(n) else {
            return false;
        };
        if !some_is_true(bits, clauses.lits(id)) {
            return false;
        }
    }
    true
}

/// The value that two rails are those of.
fn value_of(one: bool, zero: bool) -> Option<Tern> {
    match (one, zero) {
        (true, false) => Some(Tern::One),
        (false, true) => Some(Tern::Zero),
        (true, true) => Some(Tern::Unsettled),
        (false, false) => None,
    }
}

/// The values of the nodes that an assignment has the rails of.
fn values_of(bits: &[bool; 20]) -> Option<[Tern; 10]> {
    let mut values = [Tern::Zero; 10];
    for k in 0..10 {
        let Some(value) = value_of(bits[2 * k], bits[2 * k + 1]) else {
            return None;
        };
        values[k] = value;
    }
    Some(values)
}

/// Whether an assignment is that of a state in which the first source is settled.
fn is_state(bits: &[bool; 20], net: &SmallNet<'_>) -> bool
    requires nodes { length net.now.gates.now ≡ 10 }
    requires sources { net.now.sources ≡ 3 }
{
    let Some(values) = values_of(bits) else {
        return false;
    };
    let mut found = [Tern::Zero; 10];
    let (sources, _) = values.split_at(3);
    eval_into(net, sources, &mut found);
    found == values && values[0] != Tern::Unsettled
}

/// How many models there are, each of them a state, and no other state.
fn models(rt: &impl Abort, clauses: &Clauses, net: &SmallNet<'_>) -> u32
    requires nodes { length net.now.gates.now ≡ 10 }
    requires sources { net.now.sources ≡ 3 }
{
    let mut count: u32 = 0;
    for number in 0..1_048_576 {
        let bits = bits_of(number);
        let is_model = meets(&bits, clauses);
        assert_eq!(rt; is_model, is_state(&bits, net));
        if is_model {
            count += 1;
        }
    }
    count
}

#[test]
fn the_models_of_each_kind_of_gate_are_its_states(rt: HostRuntime) -> Result<(), Fail> {
    let net = SmallNet {
        gates: &[
            Gate::Source(0),
            Gate::Source(1),
            Gate::Source(2),
            Gate::Not(0),
            Gate::And(3, 1),
            Gate::Or(4, 2),
            Gate::Xor(5, 0),
            Gate::Pick(2, 6, 4),
            Gate::Lift(1, 7, true),
            Gate::Const(false),
        ],
        sources: 3,
    };
    let clauses = clauses_of(rt.alloc(), &net, &[0])?;
    assert_eq!(rt; models(&rt, &clauses, &net), 18);
    Ok(())
}

#[test]
fn the_models_of_gates_over_one_node_are_its_states(rt: HostRuntime) -> Result<(), Fail> {
    let net = SmallNet {
        gates: &[
            Gate::Source(0),
            Gate::Source(1),
            Gate::Source(2),
            Gate::Const(true),
            Gate::Lift(0, 2, false),
            Gate::Pick(1, 4, 4),
            Gate::Xor(5, 5),
            Gate::And(6, 6),
            Gate::Lift(7, 7, true),
            Gate::Or(8, 1),
        ],
        sources: 3,
    };
    let clauses = clauses_of(rt.alloc(), &net, &[0])?;
    assert_eq!(rt; models(&rt, &clauses, &net), 18);
    Ok(())
}
