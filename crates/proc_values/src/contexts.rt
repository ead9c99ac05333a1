//! Words of expressions in a context.
ghost use Rattle.std.specs.Prelude.{◌≡◌, false, IfOk};
ghost use Rattle.design_form.specs.Extents.{shape_of};
ghost use Rattle.design_form.specs.State.{seen_in};
ghost use Rattle.design_form.specs.Values.{word_in};
ghost use Rattle.design_sizes.specs.Sizes as sizes;
ghost use Rattle.proc_values.specs.Covers.{Covers, beside_nothing};

use design_form::{Design, EvalFault, Extent, eval_within, size_of};
use proc_loops::copied;
use rdc_outside::Place;
use rdc_tern::Tern;
use sqlite_items::Boxed;
use std::alloc::Global;
use vlog_tree::{Base, Binary, Expr, Number};

/// The OR of an expression with a 0 of no bits, which makes it unsigned.
fn beside_nothing(alloc: Global, e: &Expr) -> Result<Expr, EvalFault>
    ensures { IfOk result (λ both. both ≡ beside_nothing e.now) }
{
    let place = Place {
        file: 0,
        line: 0,
        col: 0,
    };
    let nothing = Number {
        sized: true,
        signed: false,
        base: Base::Decimal,
        width: 0,
        bits: 0,
        z: 0,
    };
    let left = Boxed::new(alloc, copied(alloc, e)?)?;
    let number = Boxed::new(alloc, nothing)?;
    let right = Boxed::new(alloc, Expr::Number(place, number))?;
    Ok(Expr::Binary(place, Binary::Or, left, right))
}

/// The word of an expression in an unsigned context: that of its OR with nothing.
fn unsigned_word(
    alloc: Global,
    design: &Design,
    e: &Expr,
    state: &[Tern],
    context: Extent,
) -> Result<Vec<Tern>, EvalFault>
    requires covers { Covers (shape_of context) (sizes.shape_of design.now e.now) }
    requires sign { context.signed ≡ false }
    ensures { IfOk result (λ w. w.items ≡ word_in (seen_in design.now state.now) (shape_of context) e.now) }
{
    let both = beside_nothing(alloc, e)?;
    eval_within(alloc, design, &both, state, context.width)
}

/// The word of an expression in a context.
pub(crate) fn word_in(
    alloc: Global,
    design: &Design,
    e: &Expr,
    state: &[Tern],
    context: Extent,
) -> Result<Vec<Tern>, EvalFault>
    requires covers { Covers (shape_of context) (sizes.shape_of design.now e.now) }
    ensures { IfOk result (λ w. w.items ≡ word_in (seen_in design.now state.now) (shape_of context) e.now) }
{
    let own = size_of(alloc, design, e)?;
    if own.signed == context.signed {
        return eval_within(alloc, design, e, state, context.width);
    }
    unsigned_word(alloc, design, e, state, context)
}
