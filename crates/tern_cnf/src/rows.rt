//! The clauses of a node, kind by kind.
ghost use Rattle.std.specs.Prelude.{◌≡◌, ◌+◌, ◌*◌, ◌<◌, ◌≤◌, ◌^◌, Bool, [], ◌∷◌, true, false, ⊤, OnOk};
ghost use Rattle.net_view.specs.View.{Reads};
ghost use Rattle.tern_cnf.specs.Rails.{one_rail, zero_rail, node_clauses};
ghost use Rattle.tern_cnf.specs.Grown.{with_clauses, IsNodeAbove};

use crate::fault::EncodeFault;
use crate::sums::{is_both, is_copy, is_difference, is_either, is_picked};
use crate::writer::{either_fails, either_holds, fails, holds};
use net_view::Gate;
use sat_chain::Clauses;

/// The variables of a node: that it may be 1, and that it may be 0.
#[derive(Clone, Copy)]
struct Rails {
    one: u32,
    zero: u32,
}

#[inline]
fn rails_at(node: u32) -> Rails
    requires { zero_rail node < 2 ^ 31 }
    ensures { result ≡ record { one = one_rail node; zero = zero_rail node } }
{
    Rails {
        one: 2 * node + 1,
        zero: 2 * node + 2,
    }
}

fn constant(out: &mut Clauses, y: u32, bit: bool) -> Result<(), EncodeFault>
    requires { IsNodeAbove y [] out.old.vars }
    ensures { OnOk result (out.new ≡ with_clauses out.old (node_clauses false y (Gate.Const bit))) }
{
    let y = rails_at(y);
    if bit {
        holds(out, y.one)?;
        fails(out, y.zero)
    } else {
        fails(out, y.one)?;
        holds(out, y.zero)
    }
}

fn source(out: &mut Clauses, y: u32, settled: bool) -> Result<(), EncodeFault>
    requires { IsNodeAbove y [] out.old.vars }
    ensures { OnOk result (out.new ≡ with_clauses out.old (node_clauses settled y (Gate.Source 0))) }
{
    let y = rails_at(y);
    either_holds(out, y.one, y.zero)?;
    if settled {
        return either_fails(out, y.one, y.zero);
    }
    Ok(())
}

fn inverter(out: &mut Clauses, y: u32, a: u32) -> Result<(), EncodeFault>
    requires { IsNodeAbove y (a ∷ []) out.old.vars }
    ensures { OnOk result (out.new ≡ with_clauses out.old (node_clauses false y (Gate.Not a))) }
{
    let (y, a) = (rails_at(y), rails_at(a));
    is_copy(out, y.one, a.zero)?;
    is_copy(out, y.zero, a.one)
}

fn conjunction(out: &mut Clauses, y: u32, a: u32, b: u32) -> Result<(), EncodeFault>
    requires { IsNodeAbove y (a ∷ b ∷ []) out.old.vars }
    ensures { OnOk result (out.new ≡ with_clauses out.old (node_clauses false y (Gate.And a b))) }
{
    let (y, a, b) = (rails_at(y), rails_at(a), rails_at(b));
    is_both(out, y.one, a.one, b.one)?;
    is_either(out, y.zero, a.zero, b.zero)
}

fn disjunction(out: &mut Clauses, y: u32, a: u32, b: u32) -> Result<(), EncodeFault>
    requires { IsNodeAbove y (a ∷ b ∷ []) out.old.vars }
    ensures { OnOk result (out.new ≡ with_clauses out.old (node_clauses false y (Gate.Or a b))) }
{
    let (y, a, b) = (rails_at(y), rails_at(a), rails_at(b));
    is_either(out, y.one, a.one, b.one)?;
    is_both(out, y.zero, a.zero, b.zero)
}

fn difference(out: &mut Clauses, y: u32, a: u32, b: u32) -> Result<(), EncodeFault>
    requires { IsNodeAbove y (a ∷ b ∷ []) out.old.vars }
    ensures { OnOk result (out.new ≡ with_clauses out.old (node_clauses false y (Gate.Xor a b))) }
{
    let (y, a, b) = (rails_at(y), rails_at(a), rails_at(b));
    is_difference(out, y.one, a.one, a.zero, b.one, b.zero)?;
    is_difference(out, y.zero, a.one, a.zero, b.zero, b.one)
}

fn selection(out: &mut Clauses, y: u32, pin: u32, a: u32, b: u32) -> Result<(), EncodeFault>
    requires { IsNodeAbove y (pin ∷ a ∷ b ∷ []) out.old.vars }
    ensures { OnOk result (out.new ≡ with_clauses out.old (node_clauses false y (Gate.Pick pin a b))) }
{
    let (y, pin, a, b) = (rails_at(y), rails_at(pin), rails_at(a), rails_at(b));
    is_picked(out, y.one, pin.one, a.one, pin.zero, b.one)?;
    is_picked(out, y.zero, pin.one, a.zero, pin.zero, b.zero)
}

fn lifted(out: &mut Clauses, y: u32, pin: u32, a: u32, reset: bool) -> Result<(), EncodeFault>
    requires { IsNodeAbove y (pin ∷ a ∷ []) out.old.vars }
    ensures { OnOk result (out.new ≡ with_clauses out.old (node_clauses false y (Gate.Lift pin a reset))) }
{
    let (y, pin, a) = (rails_at(y), rails_at(pin), rails_at(a));
    if reset {
        is_either(out, y.one, a.one, pin.one)?;
        is_copy(out, y.zero, a.zero)
    } else {
        is_copy(out, y.one, a.one)?;
        is_either(out, y.zero, a.zero, pin.one)
    }
}

/// The clauses of a node over lower ones. Where it is a source, it may be said to be settled.
pub fn add_node(
    out: &mut Clauses,
    settled: bool,
    y: u32,
    gate: Gate<u32, u32>,
) -> Result<(), EncodeFault>
    requires below { Reads (λ a. a < y) (λ s. ⊤) gate }
    requires room { IsNodeAbove y [] out.old.vars }
    ensures { OnOk result (out.new ≡ with_clauses out.old (node_clauses settled y gate)) }
{
    match gate {
        Gate::Const(bit) => constant(out, y, bit),
        Gate::Source(_) => source(out, y, settled),
        Gate::Not(a) => inverter(out, y, a),
        Gate::And(a, b) => conjunction(out, y, a, b),
        Gate::Or(a, b) => disjunction(out, y, a, b),
        Gate::Xor(a, b) => difference(out, y, a, b),
        Gate::Pick(pin, a, b) => selection(out, y, pin, a, b),
        Gate::Lift(pin, a, reset) => lifted(out, y, pin, a, reset),
    }
}
