//! What generate constructs choose.
ghost use Rattle.std.specs.Prelude.{◌≡◌, ◌==◌, length, map};
ghost use Rattle.std.specs.List.{list_any, position};
ghost use Rattle.elab_names.specs.Answers.{Answers, gathered, lifted};
ghost use Rattle.elab_names.specs.Meanings.{frames_of};
ghost use Rattle.vlog_const.specs.Constants.{value_in};
ghost use Rattle.vlog_const.specs.Names.{no_values};
ghost use Rattle.vlog_const.specs.Widths.{common};
ghost use Rattle.elab_choices.specs.Choices.{any_equal, chosen, equal, is_true, label, labels, picked, widest, widest_of};

use elab_names::{ElabFault, Scope, alone, constant, put_in};
use std::alloc::Global;
use vlog_const::{ConstFault, ConstValue, Env, Shape, value_in};
use vlog_tree::{Arm, Expr};

/// Whether a test is true.
///
/// # Errors
/// What `constant` answers.
#[tactic(auto, unfolding(crate::specs::Choices::is_true, elab_names::specs::Answers::and_then))]
pub fn is_true(alloc: Global, test: &Expr, scope: &Scope) -> Result<bool, ElabFault>
    ensures { Answers (λ b. b) result (is_true (frames_of scope.now) test.now) }
{
    let value = constant(alloc, test, scope)?;
    Ok(value.bits != 0)
}

/// A constant expression that is put in, and its shape.
#[derive(Drop)]
pub(crate) struct Label {
    pub(crate) expr: Expr,
    pub(crate) shape: Shape,
}

/// An expression that has to be constant.
#[tactic(auto, unfolding(crate::specs::Choices::label, elab_names::specs::Answers::and_then))]
fn labelled(alloc: Global, e: &Expr, scope: &Scope) -> Result<Label, ElabFault>
    ensures { Answers (λ l. l) result (label (frames_of scope.now) e.now) }
{
    let expr = put_in(alloc, e, scope)?;
    let value = alone(alloc, &expr)?;
    let shape = Shape {
        width: value.width,
        signed: value.signed,
    };
    Ok(Label { expr, shape })
}

/// The labels of an arm.
#[tactic(auto, using(elab_names::proofs::Lists::gathers))]
fn labels_of(alloc: Global, es: &[Expr], scope: &Scope) -> Result<Vec<Label>, ElabFault>
    ensures { Answers (λ ls. ls.items) result (gathered (map (label (frames_of scope.now)) es.now)) }
{
    let mut out = Vec::new(alloc);
    for e in es {
        match labelled(alloc, e, scope) {
            Ok(l) => match out.push(l) {
                Ok(()) => {}
                Err(_) => return Err(ElabFault::Memory),
            },
            Err(fault) => return Err(fault),
        }
    }
    Ok(out)
}

/// The labels of each arm.
#[tactic(auto, using(elab_names::proofs::Lists::gathers), unfolding(crate::specs::Choices::labels))]
fn labels<B>(alloc: Global, arms: &[Arm<B>], scope: &Scope) -> Result<Vec<Vec<Label>>, ElabFault>
    ensures { Answers (λ ls. map (λ l. l.items) ls.items) result (labels (frames_of scope.now) (map (λ a. a.labels) arms.now)) }
{
    let mut out = Vec::new(alloc);
    for arm in arms {
        match labels_of(alloc, arm.labels.as_slice(), scope) {
            Ok(ls) => match out.push(ls) {
                Ok(()) => {}
                Err(_) => return Err(ElabFault::Memory),
            },
            Err(fault) => return Err(fault),
        }
    }
    Ok(out)
}

/// The width and the sign of all together.
#[tactic(auto, unfolding(crate::specs::Choices::widest))]
fn widest(shape: Shape, labels: &[Label]) -> Shape
    ensures { result ≡ widest shape labels.now }
{
    let mut shape = shape;
    for label in labels {
        shape = common(shape, label.shape);
    }
    shape
}

/// The same of the labels of all arms.
#[tactic(auto, unfolding(crate::specs::Choices::widest_of))]
fn widest_of(shape: Shape, arms: &[Vec<Label>]) -> Shape
    ensures { result ≡ widest_of shape (map (λ l. l.items) arms.now) }
{
    let mut shape = shape;
    for labels in arms {
        shape = widest(shape, labels);
    }
    shape
}

/// The larger width; signed where both are.
fn common(a: Shape, b: Shape) -> Shape
    ensures { result ≡ common a b }
{
    Shape {
        width: a.width.max(b.width),
        signed: a.signed && b.signed,
    }
}

/// The value of an expression that is put in, in a context.
#[tactic(auto, unfolding(elab_names::specs::Answers::lifted, elab_names::specs::Answers::fault_of))]
fn valued(alloc: Global, e: &Expr, context: Shape) -> Result<ConstValue, ElabFault>
    ensures { Answers (λ v. v) result (lifted (value_in no_values context e.now)) }
{
    match value_in(alloc, e, &Env::new(alloc), context) {
        Ok(value) => Ok(value),
        Err(ConstFault::Memory) => Err(ElabFault::Memory),
        Err(fault) => Err(ElabFault::Const(fault)),
    }
}

/// Whether a label has a value, in the context of all.
#[tactic(auto, unfolding(crate::specs::Choices::equal, elab_names::specs::Answers::and_then))]
fn equal(alloc: Global, context: Shape, bits: u128, label: &Label) -> Result<bool, ElabFault>
    ensures { Answers (λ b. b) result (equal context bits label.now) }
{
    let value = valued(alloc, &label.expr, context)?;
    Ok(value.bits == bits)
}

/// Which labels of an arm have it.
#[tactic(auto, using(elab_names::proofs::Lists::gathers))]
fn equals(
    alloc: Global,
    context: Shape,
    bits: u128,
    labels: &[Label],
) -> Result<Vec<bool>, ElabFault>
    ensures { Answers (λ bs. bs.items) result (gathered (map (equal context bits) labels.now)) }
{
    let mut out = Vec::new(alloc);
    for label in labels {
        match equal(alloc, context, bits, label) {
            Ok(hit) => match out.push(hit) {
                Ok(()) => {}
                Err(_) => return Err(ElabFault::Memory),
            },
            Err(fault) => return Err(fault),
        }
    }
    Ok(out)
}

/// Whether one of them is so.
fn is_any(hits: &[bool]) -> bool
    ensures { result ≡ list_any (λ h. h) hits.now }
{
    hits.iter().any(|hit| *hit)
}

/// Whether an arm matches.
#[tactic(auto, unfolding(crate::specs::Choices::any_equal, elab_names::specs::Answers::and_then))]
fn any_equal(alloc: Global, context: Shape, bits: u128, labels: &[Label]) -> Result<bool, ElabFault>
    ensures { Answers (λ b. b) result (any_equal context bits labels.now) }
{
    let hits = equals(alloc, context, bits, labels)?;
    Ok(is_any(&hits))
}

/// Which arms match.
#[tactic(auto, using(elab_names::proofs::Lists::gathers))]
fn hits(
    alloc: Global,
    context: Shape,
    bits: u128,
    arms: &[Vec<Label>],
) -> Result<Vec<bool>, ElabFault>
    ensures { Answers (λ bs. bs.items) result (gathered (map (any_equal context bits) (map (λ l. l.items) arms.now))) }
{
    let mut out = Vec::new(alloc);
    for labels in arms {
        match any_equal(alloc, context, bits, labels) {
            Ok(hit) => match out.push(hit) {
                Ok(()) => {}
                Err(_) => return Err(ElabFault::Memory),
            },
            Err(fault) => return Err(fault),
        }
    }
    Ok(out)
}

/// The first of them that is so.
fn first(hits: &[bool]) -> Option<usize>
    ensures { result ≡ position (λ h. h) hits.now }
{
    hits.iter().position(|hit| *hit)
}

/// The first arm without labels.
fn unlabelled(arms: &[Vec<Label>]) -> Option<usize>
    ensures { result ≡ position (λ l. length l.items == 0) arms.now }
{
    arms.iter().position(|labels| labels.is_empty())
}

/// The first arm that matches, or else the one without labels.
#[tactic(auto, using(crate::proofs::Rows::position_row))]
fn picked(hits: &[bool], arms: &[Vec<Label>]) -> Option<usize>
    ensures { result ≡ picked hits.now (map (λ l. l.items) arms.now) }
{
    match first(hits) {
        Some(k) => Some(k),
        None => unlabelled(arms),
    }
}

/// The arm of a generate `case` that is chosen: the first with a label that is equal to the selector, all compared in the
/// width and by the sign of them together, or else the one without labels.
///
/// # Errors
/// What `put_in` answers of the selector and the labels, and `Const` where one has no value as a constant.
#[tactic(auto, unfolding(crate::specs::Choices::chosen, elab_names::specs::Answers::and_then))]
pub fn chosen<B>(
    alloc: Global,
    selector: &Expr,
    arms: &[Arm<B>],
    scope: &Scope,
) -> Result<Option<usize>, ElabFault>
    ensures { Answers (λ k. k) result (chosen (frames_of scope.now) selector.now (map (λ a. a.labels) arms.now)) }
{
    let selector = labelled(alloc, selector, scope)?;
    let arms = labels(alloc, arms, scope)?;
    let context = widest_of(selector.shape, &arms);
    let value = valued(alloc, &selector.expr, context)?;
    let hits = hits(alloc, context, value.bits, &arms)?;
    Ok(picked(&hits, &arms))
}
