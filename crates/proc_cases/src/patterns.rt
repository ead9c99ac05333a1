//! Labels as what they match.
ghost use Rattle.std.specs.Prelude.{◌≡◌, ◌++◌, map, OnOk, IfOk};
ghost use Rattle.std.specs.List.{flat_map, list_any};
ghost use Rattle.proc_cases.specs.Full.{hits, is_constant, labels_of, mask_in, pattern, patterns};

use crate::masks::mask_of;
use sqlite_items::Boxed;
use std::alloc::{AllocError, Global};
use vlog_const::{ConstFault, Env, Shape, value_in};
use vlog_tree::{Arm, Expr, Matching, Stmt};

/// A constant label.
#[derive(Clone, Copy)]
pub(crate) struct Pattern {
    pub(crate) bits: u128,
    /// A 1 in each position that doesn't count.
    pub(crate) mask: u128,
}

/// The positions of a label that don't count.
#[tactic(auto, unfolding(crate::specs::Full::mask_in))]
fn mask_in(alloc: Global, how: Matching, e: &Expr) -> Result<u128, AllocError>
    ensures { IfOk result (λ m. m ≡ mask_in how e.now) }
{
    match how {
        Matching::Exact => Ok(0),
        Matching::Wildcard => mask_of(alloc, e),
    }
}

/// A label, where it is constant.
#[tactic(auto, unfolding(crate::specs::Full::pattern_if))]
fn pattern_of(
    alloc: Global,
    how: Matching,
    context: Shape,
    e: &Expr,
) -> Result<Option<Pattern>, AllocError>
    ensures { IfOk result (λ p. p ≡ pattern how context e.now) }
{
    match value_in(alloc, e, &Env::new(alloc), context) {
        Ok(value) => {
            let mask = mask_in(alloc, how, e)?;
            Ok(Some(Pattern {
                bits: value.bits,
                mask,
            }))
        }
        Err(ConstFault::Memory) => Err(AllocError),
        Err(_) => Ok(None),
    }
}

/// Labels, behind those that are there.
fn put_labels(
    alloc: Global,
    how: Matching,
    context: Shape,
    labels: &[Expr],
    out: &mut Vec<Option<Pattern>>,
) -> Result<(), AllocError>
    ensures { OnOk result (out.new.items ≡ out.old.items ++ map (pattern how context) labels.now) }
{
    for label in labels {
        out.push(pattern_of(alloc, how, context, label)?)?;
    }
    Ok(())
}

/// The labels of case items.
pub(crate) fn patterns(
    alloc: Global,
    how: Matching,
    context: Shape,
    arms: &[Arm<Boxed<Stmt>>],
) -> Result<Vec<Option<Pattern>>, AllocError>
    ensures { IfOk result (λ ps. ps.items ≡ patterns how context (labels_of arms.now)) }
{
    let mut out = Vec::new(alloc);
    for arm in arms {
        put_labels(alloc, how, context, arm.labels.as_slice(), &mut out)?;
    }
    Ok(out)
}

/// Whether a label is constant.
#[tactic(auto, unfolding(crate::specs::Full::is_constant))]
pub(crate) fn is_constant(pattern: &Option<Pattern>) -> bool
    ensures { result ≡ is_constant pattern.now }
{
    match pattern {
        None => false,
        Some(_) => true,
    }
}

/// Whether a label matches a number.
#[tactic(auto, unfolding(crate::specs::Full::hits))]
fn hits(number: u128, pattern: &Option<Pattern>) -> bool
    ensures { result ≡ hits number pattern.now }
{
    match pattern {
        None => false,
        Some(pattern) => number | pattern.mask == pattern.bits | pattern.mask,
    }
}

/// Whether one of some labels matches a number.
pub(crate) fn any_hits(number: u128, patterns: &[Option<Pattern>]) -> bool
    ensures { result ≡ list_any (hits number) patterns.now }
{
    for pattern in patterns {
        if hits(number, pattern) {
            return true;
        }
    }
    false
}
