//! Bits by their names and indices.
ghost use Rattle.std.specs.Prelude.{◌≡◌, IfOk};
ghost use Rattle.std.specs.Option.{option_map};
ghost use Rattle.flop_shapes.specs.Tests.{at_index, bit_of, constant, event_bit, is_one_bit, is_scalar, same_bit, same_index, same_sign};
ghost use Rattle.design_form.specs.Numbers.{signal_of};
ghost use Rattle.flop_shapes.specs.Answers.{a_bit};

use crate::reference::Reference;
use design_form::Design;
use std::alloc::{AllocError, Global};
use vlog_const::{ConstFault, Env, Whole, value};
use vlog_tree::{Event, Expr};

/// The value of an index, where it is constant.
#[tactic(auto, unfolding(crate::specs::Tests::constant, crate::specs::Tests::number_if))]
fn constant(alloc: Global, e: &Expr) -> Result<Option<Whole>, AllocError>
    ensures { IfOk result (λ i. i ≡ constant e.now) }
{
    match value(alloc, e, &Env::new(alloc)) {
        Ok(value) => Ok(Some(Whole::of(value))),
        Err(ConstFault::Memory) => Err(AllocError),
        Err(_) => Ok(None),
    }
}

/// A name with an index, where that is constant.
#[tactic(auto, unfolding(crate::specs::Tests::at_index))]
pub(crate) fn at_index<'a>(
    alloc: Global,
    name: &'a [u8],
    index: &Expr,
) -> Result<Option<Reference<'a>>, AllocError>
    ensures { IfOk result (λ r. option_map a_bit r ≡ at_index name.now index.now) }
{
    match constant(alloc, index)? {
        Some(index) => Ok(Some(Reference {
            name,
            index: Some(index),
        })),
        None => Ok(None),
    }
}

/// The bit that an expression is.
#[cycle(bits)]
#[tactic(auto, using(crate::proofs::BitForms::forms))]
pub(crate) fn bit<'a>(alloc: Global, e: &'a Expr) -> Result<Option<Reference<'a>>, AllocError>
    ensures { IfOk result (λ r. option_map a_bit r ≡ bit_of e.now) }
{
    match e {
        Expr::Name(_, name) => Ok(Some(Reference {
            name: name.as_slice(),
            index: None,
        })),
        Expr::Index(_, name, index) => at_index(alloc, name.as_slice(), index.get()),
        Expr::Brackets(_, inner) => bit(alloc, inner.get()),
        Expr::Number(_, _) => Ok(None),
        Expr::Select(_, _, _, _, _) => Ok(None),
        Expr::Concat(_, _) => Ok(None),
        Expr::Repeat(_, _, _) => Ok(None),
        Expr::Unary(_, _, _) => Ok(None),
        Expr::Binary(_, _, _, _) => Ok(None),
        Expr::Conditional(_, _, _, _) => Ok(None),
    }
}

/// The bit of an event.
#[tactic(auto, unfolding(crate::specs::Tests::event_bit, crate::specs::Tests::named_at))]
pub(crate) fn event_bit(alloc: Global, event: &Event) -> Result<Option<Reference<'_>>, AllocError>
    ensures { IfOk result (λ r. option_map a_bit r ≡ event_bit event.now) }
{
    let name = event.name.name.as_slice();
    match &event.index {
        None => Ok(Some(Reference { name, index: None })),
        Some(index) => at_index(alloc, name, index.get()),
    }
}

/// Whether two truth values are equal.
pub(crate) fn same_sign(a: bool, b: bool) -> bool
    ensures { result ≡ same_sign a b }
{
    if a { b } else { !b }
}

#[tactic(auto, unfolding(crate::specs::Tests::same_index))]
fn same_index(a: Option<Whole>, b: Option<Whole>) -> bool
    ensures { result ≡ same_index a b }
{
    match (a, b) {
        (None, None) => true,
        (None, Some(_)) => false,
        (Some(_), None) => false,
        (Some(a), Some(b)) => same_sign(a.negative, b.negative) && a.magnitude == b.magnitude,
    }
}

/// Whether two bits have the same name and the same index, or none.
#[tactic(auto, unfolding(crate::specs::Tests::same_bit))]
pub(crate) fn same_bit(a: Reference<'_>, b: Reference<'_>) -> bool
    ensures { result ≡ same_bit (a_bit a.entry) (a_bit b.entry) }
{
    a.name == b.name && same_index(a.index, b.index)
}

#[tactic(auto, unfolding(crate::specs::Tests::is_scalar))]
fn is_scalar(design: &Design, name: &[u8]) -> bool
    ensures { result ≡ is_scalar (signal_of design.now.signals name.now) }
{
    match design.signal(name) {
        Some(signal) => signal.bounds().width() == 1,
        None => false,
    }
}

/// A bit of a signal, or a signal that is one bit.
#[tactic(auto, unfolding(crate::specs::Tests::is_one_bit, crate::specs::Tests::is_one_in))]
pub(crate) fn is_one_bit(design: &Design, bit: Reference<'_>) -> bool
    ensures { result ≡ is_one_bit design.now (a_bit bit.entry) }
{
    match bit.index {
        None => is_scalar(design, bit.name),
        Some(_) => true,
    }
}
