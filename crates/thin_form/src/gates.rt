//! Terms as nodes.

ghost use Rattle.std.specs.Prelude.{◌≡◌, ℕ, ◌+◌, ◌<◌, ◌≤◌, ◌^◌, ◌++◌, ◌∷◌, [], map, reverse, length, Some, None, IsTrue, MatchOption, OnOk, IfOk, true, false};
ghost use Rattle.std.specs.List.{AllByRecursion, sum_by};
ghost use Rattle.std.specs.Result.{IsErrOf};
ghost use Rattle.thin_form.specs.Netlist.{IsGateBelow, formula_at, formulas};
ghost use Rattle.thin_form.specs.Walk.{IsIn, IsOrder, reads_of};
ghost use Rattle.thin_form.specs.Values.{after_term, value_of, IsWhole, wires_in, sources_in, formulas_at, IsGrown, IsReadable, IsMade, AreMade};

use crate::kind::Node;
use crate::term::Term;
use std::alloc::{AllocError, Global};
use thin_tree::FormFault;

/// Puts a gate at the end, and gives its number.
fn push(nodes: &mut Vec<Node>, gate: Node) -> Result<u32, AllocError>
    requires { length nodes.old.items < 2 ^ 32 }
    ensures nodes { OnOk result (nodes.new.items ≡ nodes.old.items ++ gate ∷ []) }
    ensures number { IfOk result (λ k. k ≡ length nodes.old.items) }
{
    let k = nodes.len() as u32;
    nodes.push(gate)?;
    Ok(k)
}

/// Takes the last two values off, the one before the last first.
fn pair(stack: &mut Vec<u32>) -> Option<(u32, u32)>
    ensures { MatchOption result (length stack.old.items < 2) (λ p. reverse stack.old.items ≡ p.1 ∷ (p.0 ∷ reverse stack.new.items)) }
{
    let b = stack.pop()?;
    let a = stack.pop()?;
    Some((a, b))
}

/// Puts the value of a term on the stack; false where a gate lacks a value.
fn apply(
    nodes: &mut Vec<Node>,
    stack: &mut Vec<u32>,
    term: Term,
    wires: &[u32],
) -> Result<bool, AllocError>
    requires few { length nodes.old.items < 2 ^ 32 }
    requires stack { AllByRecursion (λ k. k < length nodes.old.items) (reverse stack.old.items) }
    requires readable { IsReadable nodes.old.items wires.now (term ∷ []) }
    ensures grown { OnOk result (IsGrown nodes.old.items nodes.new.items) }
    ensures few { OnOk result (length nodes.new.items ≤ length nodes.old.items + 1) }
    ensures stack { IfOk result (λ whole. IsTrue whole → AllByRecursion (λ k. k < length nodes.new.items) (reverse stack.new.items)) }
    ensures value { IfOk result (λ whole. IsTrue whole → after_term (formulas_at nodes.old.items wires.now) term (formulas_at nodes.old.items (reverse stack.old.items)) ≡ Some (formulas_at nodes.new.items (reverse stack.new.items))) }
    ensures lacking { IfOk result (λ whole. whole ≡ false → after_term (formulas_at nodes.old.items wires.now) term (formulas_at nodes.old.items (reverse stack.old.items)) ≡ None) }
{
    match term {
        Term::Source(n) => {
            stack.push(n)?;
            Ok(true)
        }
        Term::Wire(w) => {
            stack.push(wires[w as usize])?;
            Ok(true)
        }
        Term::Not => {
            let Some(a) = stack.pop() else {
                return Ok(false);
            };
            let k = push(nodes, Node::Not(a))?;
            stack.push(k)?;
            Ok(true)
        }
        Term::And => {
            let Some((a, b)) = pair(stack) else {
                return Ok(false);
            };
            let k = push(nodes, Node::And(a, b))?;
            stack.push(k)?;
            Ok(true)
        }
        Term::Or => {
            let Some((a, b)) = pair(stack) else {
                return Ok(false);
            };
            let k = push(nodes, Node::Or(a, b))?;
            stack.push(k)?;
            Ok(true)
        }
    }
}

/// A node that computes what terms compute.
pub(crate) fn evaluate(
    alloc: Global,
    nodes: &mut Vec<Node>,
    terms: &[Term],
    wires: &[u32],
) -> Result<u32, FormFault>
    requires few { length nodes.old.items + length terms.now < 2 ^ 32 }
    requires readable { IsReadable nodes.old.items wires.now terms.now }
    ensures grown { OnOk result (IsGrown nodes.old.items nodes.new.items) }
    ensures few { OnOk result (length nodes.new.items ≤ length nodes.old.items + length terms.now) }
    ensures within { IfOk result (λ k. k < length nodes.new.items) }
    ensures value { IfOk result (λ k. value_of (formulas_at nodes.old.items wires.now) terms.now ≡ Some (formula_at (formulas nodes.new.items) k)) }
    ensures not_of_form { IsErrOf result FormFault.NotOfForm → value_of (formulas_at nodes.old.items wires.now) terms.now ≡ None }
{
    let mut stack = Vec::new(alloc);
    for term in terms {
        if !apply(nodes, &mut stack, *term, wires)? {
            return Err(FormFault::NotOfForm);
        }
    }
    match stack.pop() {
        Some(k) => Ok(k),
        None => Err(FormFault::NotOfForm),
    }
}
