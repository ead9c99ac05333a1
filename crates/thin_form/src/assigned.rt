//! What a module assigns, in name order.

ghost use Rattle.std.specs.Prelude.{◌≡◌, ◌↔◌, map, IsTrue, IfOk};
ghost use Rattle.std.specs.List.Sorted.{IsPermutation, IsSortedByKey};
ghost use Rattle.std.specs.Ordering.{nat_cmp};
ghost use Rattle.std.specs.Cmp.Lexicographic.{slice_cmp};
ghost use Rattle.thin_tree.specs.Postfix.{expression_of};
ghost use Rattle.thin_tree.specs.Written.{an_assignment, a_process, texts};
ghost use Rattle.thin_form.specs.Rules.{targets, cleared};
ghost use Rattle.thin_form.specs.Order.{all_assigns, all_processes};

use std::alloc::{AllocError, Global};
use thin_tree::{Assign, Expression, Process};

/// An assignment where it stands in the tree.
#[derive(Clone, Copy)]
pub(crate) struct Assigned<'b, 'a> {
    pub(crate) of: &'b Assign<'a>,
}

/// A process where it stands in the tree.
#[derive(Clone, Copy)]
pub(crate) struct Clocked<'b, 'a> {
    pub(crate) of: &'b Process<'a>,
}

/// An expression where it stands in the tree.
#[derive(Clone, Copy)]
pub(crate) struct Expressed<'b, 'a> {
    pub(crate) of: &'b Expression<'a>,
}

/// The assignments, in their order.
fn listed_assigns<'b, 'a>(
    alloc: Global,
    given: &'b [Assign<'a>],
) -> Result<Vec<Assigned<'b, 'a>>, AllocError>
    ensures { IfOk result (λ v. all_assigns v.items ≡ map an_assignment given.now) }
{
    let mut out = Vec::new(alloc);
    for of in given {
        out.push(Assigned { of })?;
    }
    Ok(out)
}

/// The processes, in their order.
fn listed_processes<'b, 'a>(
    alloc: Global,
    given: &'b [Process<'a>],
) -> Result<Vec<Clocked<'b, 'a>>, AllocError>
    ensures { IfOk result (λ v. all_processes v.items ≡ map a_process given.now) }
{
    let mut out = Vec::new(alloc);
    for of in given {
        out.push(Clocked { of })?;
    }
    Ok(out)
}

/// The assignments, in the order of the names that they assign.
pub(crate) fn assigns<'b, 'a>(
    alloc: Global,
    given: &'b [Assign<'a>],
) -> Result<Vec<Assigned<'b, 'a>>, AllocError>
    ensures same { IfOk result (λ v. IsPermutation (map an_assignment given.now) (all_assigns v.items)) }
    ensures sorted { IfOk result (λ v. IsSortedByKey (λ a. a.of.now.target.now) (slice_cmp nat_cmp) v.items) }
{
    let mut out = listed_assigns(alloc, given)?;
    out.sort_by_key(|a| a.of.target)?;
    Ok(out)
}

/// The processes, in the order of the names that they assign.
pub(crate) fn processes<'b, 'a>(
    alloc: Global,
    given: &'b [Process<'a>],
) -> Result<Vec<Clocked<'b, 'a>>, AllocError>
    ensures same { IfOk result (λ v. IsPermutation (map a_process given.now) (all_processes v.items)) }
    ensures sorted { IfOk result (λ v. IsSortedByKey (λ p. p.of.now.cleared.now) (slice_cmp nat_cmp) v.items) }
{
    let mut out = listed_processes(alloc, given)?;
    out.sort_by_key(|p| p.of.cleared)?;
    Ok(out)
}

/// The names that assignments assign.
pub(crate) fn targets<'a>(
    alloc: Global,
    assigns: &[Assigned<'_, 'a>],
) -> Result<Vec<&'a [u8]>, AllocError>
    ensures { IfOk result (λ v. texts v.items ≡ targets (all_assigns assigns.now)) }
{
    let mut out = Vec::new(alloc);
    for a in assigns {
        out.push(a.of.target)?;
    }
    Ok(out)
}

/// The names that processes assign.
pub(crate) fn cleared<'a>(
    alloc: Global,
    processes: &[Clocked<'_, 'a>],
) -> Result<Vec<&'a [u8]>, AllocError>
    ensures { IfOk result (λ v. texts v.items ≡ cleared (all_processes processes.now)) }
{
    let mut out = Vec::new(alloc);
    for p in processes {
        out.push(p.of.cleared)?;
    }
    Ok(out)
}

/// What assignments assign.
pub(crate) fn values<'b, 'a>(
    alloc: Global,
    assigns: &[Assigned<'b, 'a>],
) -> Result<Vec<Expressed<'b, 'a>>, AllocError>
    ensures { IfOk result (λ v. map (λ e. expression_of e.of.now) v.items ≡ map (λ a. a.value) (all_assigns assigns.now)) }
{
    let mut out = Vec::new(alloc);
    for a in assigns {
        let of = &a.of.value;
        out.push(Expressed { of })?;
    }
    Ok(out)
}

/// What registers take.
pub(crate) fn taken<'b, 'a>(
    alloc: Global,
    processes: &[Clocked<'b, 'a>],
) -> Result<Vec<Expressed<'b, 'a>>, AllocError>
    ensures { IfOk result (λ v. map (λ e. expression_of e.of.now) v.items ≡ map (λ p. p.data) (all_processes processes.now)) }
{
    let mut out = Vec::new(alloc);
    for p in processes {
        let of = &p.of.data;
        out.push(Expressed { of })?;
    }
    Ok(out)
}

/// The two are the same names.
pub(crate) fn are_same(names: &[&[u8]], others: &[&[u8]]) -> bool
    ensures { IsTrue result ↔ (texts names.now ≡ texts others.now) }
{
    names == others
}
