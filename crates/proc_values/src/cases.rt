//! Tests of an `if`, and items of a `case`.
ghost use Rattle.std.specs.Prelude.{◌≡◌, length, IfOk};
ghost use Rattle.design_form.specs.Extents.{shape_of};
ghost use Rattle.design_form.specs.State.{seen_in};
ghost use Rattle.design_form.specs.Values.{word_in, word_of};
ghost use Rattle.design_sizes.specs.Sizes.{case_shape};
ghost use Rattle.proc_cases.specs.Full.{labels_of};
ghost use Rattle.rdc_tern.specs.Words.{any_of};
ghost use Rattle.std.specs.Prelude.{◌<◌, get_or};
ghost use Rattle.vlog_tree.specs.declared.stmt.Arm.{Arm};
ghost use Rattle.vlog_tree.specs.declared.stmt.Stmt.{Stmt};
ghost use Rattle.proc_values.specs.Covers.{CoversAll};
ghost use Rattle.proc_values.specs.Cases.{default_from, is_at, standing};

use crate::contexts::word_in;
use crate::sizes::case_size;
use design_form::{Design, EvalFault, Extent, eval};
use rdc_tern::{Tern, any};
use sqlite_items::Boxed;
use std::alloc::Global;
use vlog_tree::{Arm, Expr, Matching, Stmt};

/// Whether the test of an `if` holds.
pub(crate) fn test_of(
    alloc: Global,
    design: &Design,
    test: &Expr,
    now: &[Tern],
) -> Result<Tern, EvalFault>
    ensures { IfOk result (λ t. t ≡ any_of (word_of (seen_in design.now now.now) test.now)) }
{
    let word = eval(alloc, design, test, now)?;
    Ok(any(word.as_slice()))
}

/// What the labels of a `case` are compared with.
#[derive(Drop)]
pub(crate) struct Choice {
    pub(crate) how: Matching,
    /// The width and the sign in which they are compared.
    pub(crate) context: Extent,
    /// The selector.
    pub(crate) word: Vec<Tern>,
}

/// The number of the first item without labels.
fn default_of(arms: &[Arm<Boxed<Stmt>>]) -> Option<usize>
    ensures { result ≡ default_from 0 arms.now }
{
    for i in 0..arms.len() {
        if arms[i].labels.as_slice().is_empty() {
            return Some(i);
        }
    }
    None
}

/// The number of the item that stands for the default.
#[tactic(auto, unfolding(crate::specs::Cases::standing_or))]
pub fn standing(full: bool, arms: &[Arm<Boxed<Stmt>>]) -> Option<usize>
    ensures { result ≡ standing full arms.now }
{
    match default_of(arms) {
        Some(i) => Some(i),
        None => {
            if full {
                Some(arms.len().saturating_sub(1))
            } else {
                None
            }
        }
    }
}

/// Whether an item is the one that stands for the default.
#[tactic(auto, unfolding(crate::specs::Cases::is_at))]
pub fn is_at(at: Option<usize>, i: usize) -> bool
    ensures { result ≡ is_at at i }
{
    match at {
        None => false,
        Some(k) => k == i,
    }
}

/// Whether the test of an `if` holds.
pub(crate) fn tested(
    alloc: Global,
    design: &Design,
    test: &Expr,
    now: &[Tern],
) -> Result<Tern, EvalFault>
    ensures { IfOk result (λ t. t ≡ any_of (word_of (seen_in design.now now.now) test.now)) }
{
    let word = eval(alloc, design, test, now)?;
    Ok(any(word.as_slice()))
}

/// What the labels of a `case` are compared with.
pub(crate) fn choice_of(
    alloc: Global,
    design: &Design,
    how: Matching,
    selector: &Expr,
    arms: &[Arm<Boxed<Stmt>>],
    now: &[Tern],
) -> Result<Choice, EvalFault>
    ensures how { IfOk result (λ choice. choice.how ≡ how) }
    ensures shape { IfOk result (λ choice. shape_of choice.context ≡ case_shape design.now selector.now (labels_of arms.now)) }
    ensures covers { IfOk result (λ choice. CoversAll design.now (shape_of choice.context) (labels_of arms.now)) }
    ensures word { IfOk result (λ choice. choice.word.items ≡ word_in (seen_in design.now now.now) (shape_of choice.context) selector.now) }
{
    let context = case_size(alloc, design, selector, arms)?;
    let word = word_in(alloc, design, selector, now, context)?;
    Ok(Choice { how, context, word })
}

/// The labels of an item.
pub(crate) fn labels_at<'a>(
    design: &Design,
    context: Extent,
    arms: &'a [Arm<Boxed<Stmt>>],
    i: usize,
) -> &'a [Expr]
    requires inside { i < length arms.now }
    requires covers { CoversAll design.now (shape_of context) (labels_of arms.now) }
    ensures covers { CoversAll design.now (shape_of context) result.now }
    ensures labels { (arm : Arm Stmt) → arm ≡ get_or arms.now i arm → result.now ≡ arm.labels }
{
    arms[i].labels.as_slice()
}
