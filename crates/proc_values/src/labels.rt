//! When labels match.
ghost use Rattle.std.specs.Prelude.{◌≡◌, false, map, get_or, IfOk};
ghost use Rattle.rdc_tern.specs.Words.{all_of};
ghost use Rattle.design_form.specs.Extents.{shape_of};
ghost use Rattle.design_sizes.specs.Sizes as sizes;
ghost use Rattle.proc_values.specs.Covers.{Covers, CoversAll};
ghost use Rattle.proc_values.specs.Marks.{same_bit};
ghost use Rattle.proc_values.specs.Labels.{any_hit, fitted, flags, free_in, free_of, joined_free, label_hit, repeated, same_at};

use crate::contexts::word_in;
use crate::indices::count;
use crate::targets::width_of;
use design_form::{Design, EvalFault, Extent};
use rdc_tern::Tern;
use std::alloc::Global;
use vlog_tree::{Expr, Matching};

/// The low bits of a number.
fn flags(alloc: Global, width: u32, number: u128) -> Result<Vec<bool>, EvalFault>
    ensures { IfOk result (λ free. free.items ≡ flags width number) }
{
    let mut free = Vec::new(alloc);
    let mut left = number;
    for place in 0..width {
        free.push(left % 2 == 1)?;
        left /= 2;
    }
    Ok(free)
}

/// As wide as so many positions.
#[tactic(auto, unfolding(crate::specs::Labels::fitted))]
fn fitted(free: Vec<bool>, width: usize) -> Result<Vec<bool>, EvalFault>
    ensures { IfOk result (λ f. f.items ≡ fitted width free.items) }
{
    let mut fitted = free;
    fitted.resize(width, false)?;
    Ok(fitted)
}

/// So many copies.
fn repeated(alloc: Global, count: usize, free: &[bool]) -> Result<Vec<bool>, EvalFault>
    ensures { IfOk result (λ f. f.items ≡ repeated count free.now) }
{
    let mut all = Vec::new(alloc);
    for done in 0..count {
        all.extend_from_slice(free)?;
    }
    Ok(all)
}

/// Which positions of a label have z digits.
///
/// # Errors
/// Want of memory.
#[cycle(masking)]
#[tactic(auto, using(crate::proofs::LabelForms::forms))]
pub(crate) fn free_of(alloc: Global, design: &Design, e: &Expr) -> Result<Vec<bool>, EvalFault>
    ensures { IfOk result (λ f. f.items ≡ free_of design.now e.now) }
{
    match e {
        Expr::Number(_, number) => {
            let number = number.get();
            flags(alloc, number.width, number.z)
        }
        Expr::Brackets(_, inner) => free_of(alloc, design, inner.get()),
        Expr::Concat(_, members) => joined_free(alloc, design, members.as_slice()),
        Expr::Repeat(_, n, members) => {
            let n = count(alloc, n.get())?;
            let free = joined_free(alloc, design, members.as_slice())?;
            repeated(alloc, n, free.as_slice())
        }
        Expr::Name(_, _)
        | Expr::Index(_, _, _)
        | Expr::Select(_, _, _, _, _)
        | Expr::Unary(_, _, _)
        | Expr::Binary(_, _, _, _)
        | Expr::Conditional(_, _, _, _) => Ok(Vec::new(alloc)),
    }
}

/// The same of members side by side.
#[cycle(masking)]
fn joined_free(alloc: Global, design: &Design, members: &[Expr]) -> Result<Vec<bool>, EvalFault>
    ensures { IfOk result (λ f. f.items ≡ joined_free design.now (map (λ e. (e, free_of design.now e)) members.now)) }
{
    let mut all = Vec::new(alloc);
    let mut left = members.len();
    while 0 < left {
        left -= 1;
        let mut part = match fitted_part(alloc, design, &members[left]) {
            Ok(part) => part,
            Err(fault) => return Err(fault),
        };
        match all.append(&mut part) {
            Ok(()) => {}
            Err(fault) => return Err(fault.into()),
        }
    }
    Ok(all)
}

/// A member, as wide as it is.
#[cycle(masking)]
fn fitted_part(alloc: Global, design: &Design, e: &Expr) -> Result<Vec<bool>, EvalFault>
    ensures { IfOk result (λ f. f.items ≡ fitted (sizes.shape_of design.now e.now).width (free_of design.now e.now)) }
{
    let width = width_of(alloc, design, e)?;
    let free = free_of(alloc, design, e)?;
    fitted(free, width)
}

/// Positions that don't count.
#[tactic(auto, unfolding(crate::specs::Labels::free_in))]
pub fn free_in(
    alloc: Global,
    design: &Design,
    how: Matching,
    e: &Expr,
) -> Result<Vec<bool>, EvalFault>
    ensures { IfOk result (λ f. f.items ≡ free_in design.now how e.now) }
{
    match how {
        Matching::Exact => Ok(Vec::new(alloc)),
        Matching::Wildcard => free_of(alloc, design, e),
    }
}

/// Whether two words are the same where positions count.
fn same(free: &[bool], x: &[Tern], y: &[Tern]) -> Tern
    ensures { result ≡ all_of (same_at free.now x.now y.now) }
{
    let mut hit = Tern::One;
    for i in 0..x.len().min(y.len()) {
        hit = hit.and(same_bit(free, i, x[i], y[i]));
    }
    hit
}

/// Whether two bits are the same, or don't count.
fn same_bit(free: &[bool], place: usize, a: Tern, b: Tern) -> Tern
    ensures { result ≡ same_bit (get_or free.now place false) a b }
{
    if place < free.len() && free[place] {
        Tern::One
    } else {
        a.xor(b).not()
    }
}

/// Whether a label matches the selector's word.
#[tactic(auto, unfolding(crate::specs::Labels::label_hit))]
fn label_hit(
    alloc: Global,
    design: &Design,
    now: &[Tern],
    how: Matching,
    context: Extent,
    selector: &[Tern],
    e: &Expr,
) -> Result<Tern, EvalFault>
    requires { Covers (shape_of context) (sizes.shape_of design.now e.now) }
    ensures { IfOk result (λ t. t ≡ label_hit design.now now.now how (shape_of context) selector.now e.now) }
{
    let free = free_in(alloc, design, how, e)?;
    let word = word_in(alloc, design, e, now, context)?;
    Ok(same(free.as_slice(), selector, word.as_slice()))
}

/// Whether one of some labels matches the selector's word.
pub(crate) fn any_hit(
    alloc: Global,
    design: &Design,
    now: &[Tern],
    how: Matching,
    context: Extent,
    selector: &[Tern],
    labels: &[Expr],
) -> Result<Tern, EvalFault>
    requires { CoversAll design.now (shape_of context) labels.now }
    ensures { IfOk result (λ t. t ≡ any_hit design.now now.now how (shape_of context) selector.now labels.now) }
{
    let mut hit = Tern::Zero;
    for i in 0..labels.len() {
        hit = hit.or(label_hit(alloc, design, now, how, context, selector, &labels[i])?);
    }
    Ok(hit)
}
