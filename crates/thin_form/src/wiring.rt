//! The nodes of wires and of what registers take.

ghost use Rattle.std.specs.Prelude.{◌≡◌, ℕ, ◌+◌, ◌<◌, ◌≤◌, ◌^◌, [], map, length, slice_index, slice_index_or, OnOk, IfOk};
ghost use Rattle.std.specs.List.{AllByRecursion, sum_by};
ghost use Rattle.std.specs.Result.{IsErrOf};
ghost use Rattle.thin_form.specs.Netlist.{formula_at, formulas};
ghost use Rattle.thin_form.specs.Formula as formula;
ghost use Rattle.thin_form.specs.Walk.{IsIn, IsOrder};
ghost use Rattle.thin_form.specs.Values.{IsWhole, wires_in, sources_in, IsGrown, AreMade, ReadsSources, ReadsWires, rules_at};

use crate::gates::evaluate;
use crate::kind::Node;
use crate::term::Term;
use std::alloc::{AllocError, Global};
use thin_tree::FormFault;

/// The wires that each rule reads.
pub(crate) fn reads(alloc: Global, rules: &[Vec<Term>]) -> Result<Vec<Vec<u32>>, AllocError>
    ensures { IfOk result (λ v. map (λ r. r.items) v.items ≡ map wires_in (rules_at rules.now)) }
{
    let mut out = Vec::new(alloc);
    for rule in rules {
        out.push(wires_read(alloc, rule)?)?;
    }
    Ok(out)
}

/// The wires that terms read.
fn wires_read(alloc: Global, terms: &[Term]) -> Result<Vec<u32>, AllocError>
    ensures { IfOk result (λ v. v.items ≡ wires_in terms.now) }
{
    let mut out = Vec::new(alloc);
    for term in terms {
        match term {
            Term::Wire(w) => out.push(*w)?,
            Term::Source(_) => {}
            Term::Not => {}
            Term::And => {}
            Term::Or => {}
        }
    }
    Ok(out)
}

/// A node for each wire, made in this order.
pub(crate) fn wires(
    alloc: Global,
    nodes: &mut Vec<Node>,
    rules: &[Vec<Term>],
    order: &[u32],
) -> Result<Vec<u32>, FormFault>
    requires order { IsOrder (map wires_in (rules_at rules.now)) order.now }
    requires sources { AllByRecursion (ReadsSources nodes.old.items) (rules_at rules.now) }
    requires whole { AllByRecursion IsWhole (rules_at rules.now) }
    requires few { length nodes.old.items + sum_by (λ ts. length ts) (rules_at rules.now) < 2 ^ 32 }
    ensures grown { OnOk result (IsGrown nodes.old.items nodes.new.items) }
    ensures few { OnOk result (length nodes.new.items ≤ length nodes.old.items + sum_by (λ ts. length ts) (rules_at rules.now)) }
    ensures made { IfOk result (λ v. AreMade nodes.new.items v.items (rules_at rules.now) v.items) }
    ensures of_form { IsErrOf result FormFault.NotOfForm → ⊥ }
{
    let mut wires = vec![in alloc; 0u32; rules.len()]?;
    for w in order {
        let rule = &rules[*w as usize];
        match evaluate(alloc, nodes, rule, &wires) {
            Ok(k) => wires[*w as usize] = k,
            Err(fault) => return Err(fault),
        }
    }
    Ok(wires)
}

/// A node for each rule, where the wires have theirs.
pub(crate) fn values(
    alloc: Global,
    nodes: &mut Vec<Node>,
    rules: &[Vec<Term>],
    wires: &[u32],
) -> Result<Vec<u32>, FormFault>
    requires wires { AllByRecursion (λ k. k < length nodes.old.items) wires.now }
    requires reads { AllByRecursion (ReadsWires wires.now) (rules_at rules.now) }
    requires sources { AllByRecursion (ReadsSources nodes.old.items) (rules_at rules.now) }
    requires whole { AllByRecursion IsWhole (rules_at rules.now) }
    requires few { length nodes.old.items + sum_by (λ ts. length ts) (rules_at rules.now) < 2 ^ 32 }
    ensures grown { OnOk result (IsGrown nodes.old.items nodes.new.items) }
    ensures few { OnOk result (length nodes.new.items < 2 ^ 32) }
    ensures made { IfOk result (λ v. AreMade nodes.new.items wires.now (rules_at rules.now) v.items) }
    ensures of_form { IsErrOf result FormFault.NotOfForm → ⊥ }
{
    let mut out = Vec::new(alloc);
    for rule in rules {
        match evaluate(alloc, nodes, rule, wires) {
            Ok(k) => out.push(k)?,
            Err(fault) => return Err(fault),
        }
    }
    Ok(out)
}
