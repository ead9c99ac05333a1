//! Which `case` is full.
ghost use Rattle.std.specs.Prelude.{◌≡◌, ◌≤◌, IfOk};
ghost use Rattle.std.specs.List.{list_all};
ghost use Rattle.design_form.specs.Extents.{shape_of};
ghost use Rattle.proc_cases.specs.Full.{covers, full_at, is_constant, is_full, labels_of, selector_width};

use crate::patterns::{Pattern, any_hits, is_constant, patterns};
use crate::sizes::{case_size, size};
use crate::values::{takes_context, value_in_case};
use design_form::{Design, Extent};
use sqlite_items::Boxed;
use std::alloc::{AllocError, Global};
use vlog_const::Shape;
use vlog_tree::{Arm, Expr, Matching, Stmt};

/// Whether all labels are constant.
fn all_constant(patterns: &[Option<Pattern>]) -> bool
    ensures { result ≡ list_all is_constant patterns.now }
{
    for pattern in patterns {
        if !is_constant(pattern) {
            return false;
        }
    }
    true
}

/// Whether all labels are constant, and each number of so many bits matches one.
#[tactic(auto, unfolding(crate::specs::Full::covers, crate::specs::Full::each_below))]
fn covers(context: Shape, width: u32, patterns: &[Option<Pattern>]) -> bool
    requires width { width ≤ 12 }
    requires context { context.width ≤ 128 }
    ensures { result ≡ covers context width patterns.now }
{
    if !all_constant(patterns) {
        return false;
    }
    let mut left: u128 = 1 << width;
    'numbers: while 0 < left {
        left -= 1;
        if !any_hits(value_in_case(context, width, left), patterns) {
            return false;
        }
    }
    true
}

/// How many bits the values have that a selector may take.
fn selector_width(context: Extent, own: Extent, selector: &Expr) -> usize
    ensures { result ≡ selector_width (shape_of context) (shape_of own) selector.now }
{
    if takes_context(selector) {
        return context.width;
    }
    own.width
}

/// Whether a `case` whose labels are compared in a context is full.
#[tactic(auto, unfolding(crate::specs::Full::full_at))]
fn full_at(
    alloc: Global,
    how: Matching,
    context: Extent,
    width: usize,
    arms: &[Arm<Boxed<Stmt>>],
) -> Result<bool, AllocError>
    ensures { IfOk result (λ b. b ≡ full_at how (shape_of context) width (labels_of arms.now)) }
{
    if 12 < width || 128 < context.width {
        return Ok(false);
    }
    let context = Shape {
        width: context.width as u32,
        signed: context.signed,
    };
    let patterns = patterns(alloc, how, context, arms)?;
    Ok(covers(context, width as u32, &patterns))
}

/// Whether a `case` has no path past its items: each value that its selector may take matches a label, and all labels are
/// constant. A `default` is none of them.
///
/// # Errors
/// Want of memory.
#[tactic(auto, unfolding(crate::specs::Full::is_full))]
pub fn is_full(
    alloc: Global,
    design: &Design,
    how: Matching,
    selector: &Expr,
    arms: &[Arm<Boxed<Stmt>>],
) -> Result<bool, AllocError>
    ensures { IfOk result (λ b. b ≡ is_full design.now how selector.now (labels_of arms.now)) }
{
    let own = size(alloc, design, selector)?;
    let context = case_size(alloc, design, own, arms)?;
    let width = selector_width(context, own, selector);
    full_at(alloc, how, context, width, arms)
}
