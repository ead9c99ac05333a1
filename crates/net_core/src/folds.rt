//! What stands for a gate: a node that is there, or a gate to add.
ghost use Rattle.std.specs.Prelude.{◌≡◌, ◌<◌, length, slice_get, Option};
ghost use Rattle.net_core.specs.Folds.{constant_of, constant_at, negated_of, not_made, not_at, and_made, or_made, xor_made, folded};
ghost use Rattle.net_core.specs.Net.{MayAdd};

use net_view::Gate;

/// What stands for a gate.
#[derive(Clone, Copy)]
pub enum Made {
    /// A node that is there.
    There(u32),
    /// A gate, to be added.
    New(Gate<u32, u32>),
}

/// The bit that a gate is, if it is a constant.
fn constant(gate: Gate<u32, u32>) -> Option<bool>
    ensures { result ≡ constant_of (Some gate) }
{
    match gate {
        Gate::Const(bit) => Some(bit),
        _ => None,
    }
}

/// The node whose negation a gate is, if it is one.
fn negated(gate: Gate<u32, u32>) -> Option<u32>
    ensures { result ≡ negated_of (Some gate) }
{
    match gate {
        Gate::Not(a) => Some(a),
        _ => None,
    }
}

/// The constant that a node is, if it is one.
fn constant_here(gates: &[Gate<u32, u32>], a: u32) -> Option<bool>
    requires { a < length gates.now }
    ensures { result ≡ constant_at gates.now a }
{
    constant(gates[a as usize])
}

/// What stands for the negation of a node of which this is known.
fn negation_of(constant: Option<bool>, negated: Option<u32>, a: u32) -> Made
    ensures { result ≡ not_made constant negated a }
{
    match constant {
        Some(bit) => Made::New(Gate::Const(!bit)),
        None => match negated {
            Some(b) => Made::There(b),
            None => Made::New(Gate::Not(a)),
        },
    }
}

/// What stands for the negation of a node.
fn negation(gates: &[Gate<u32, u32>], a: u32) -> Made
    requires { a < length gates.now }
    ensures { result ≡ not_at gates.now a }
{
    let gate = gates[a as usize];
    negation_of(constant(gate), negated(gate), a)
}

/// What stands for `a and b`, where these are the constants that they are.
fn conjunction(left: Option<bool>, right: Option<bool>, a: u32, b: u32) -> Made
    ensures { result ≡ and_made left right a b }
{
    match (left, right) {
        (Some(true), _) => Made::There(b),
        (Some(false), _) => Made::There(a),
        (None, Some(true)) => Made::There(a),
        (None, Some(false)) => Made::There(b),
        (None, None) => {
            if a == b {
                Made::There(a)
            } else {
                Made::New(Gate::And(a, b))
            }
        }
    }
}

/// What stands for `a or b`, where these are the constants that they are.
fn disjunction(left: Option<bool>, right: Option<bool>, a: u32, b: u32) -> Made
    ensures { result ≡ or_made left right a b }
{
    match (left, right) {
        (Some(true), _) => Made::There(a),
        (Some(false), _) => Made::There(b),
        (None, Some(true)) => Made::There(b),
        (None, Some(false)) => Made::There(a),
        (None, None) => {
            if a == b {
                Made::There(a)
            } else {
                Made::New(Gate::Or(a, b))
            }
        }
    }
}

/// What stands for `a xor b`.
fn difference(gates: &[Gate<u32, u32>], a: u32, b: u32) -> Made
    requires a_is_there { a < length gates.now }
    requires b_is_there { b < length gates.now }
    ensures { result ≡ xor_made (constant_at gates.now a) (constant_at gates.now b) (not_at gates.now a) (not_at gates.now b) a b }
{
    match (constant_here(gates, a), constant_here(gates, b)) {
        (Some(true), _) => negation(gates, b),
        (Some(false), _) => Made::There(b),
        (None, Some(true)) => negation(gates, a),
        (None, Some(false)) => Made::There(a),
        (None, None) => Made::New(Gate::Xor(a, b)),
    }
}

/// What stands for a gate in a net.
pub(crate) fn fold(gates: &[Gate<u32, u32>], gate: Gate<u32, u32>) -> Made
    requires { MayAdd (length gates.now) gate }
    ensures { result ≡ folded gates.now gate }
{
    match gate {
        Gate::Not(a) => negation(gates, a),
        Gate::And(a, b) => conjunction(constant_here(gates, a), constant_here(gates, b), a, b),
        Gate::Or(a, b) => disjunction(constant_here(gates, a), constant_here(gates, b), a, b),
        Gate::Xor(a, b) => difference(gates, a, b),
        other => Made::New(other),
    }
}
