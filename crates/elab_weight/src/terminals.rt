//! The parts of a gate's terminals.
ghost use Rattle.std.specs.Prelude.{◌≡◌, ◌++◌, OnOk};
ghost use Rattle.std.specs.List.{flat_map};
ghost use Rattle.design_sizes.specs.Lists.{all_sized};
ghost use Rattle.design_sizes.specs.Sizes.{sized_alone};
ghost use Rattle.elab_weight.specs.GateParts.{before_last, behind_one, sized_terminals};

use design_form::{Design, EvalFault};
use design_sizes::{Sizing, put_alone, put_target};
use std::alloc::Global;
use vlog_tree::{Expr, GateKind};

/// The parts of inputs.
fn put_inputs<'a>(
    alloc: Global,
    design: &Design,
    out: &mut Vec<Sizing<'a>>,
    es: &'a [Expr],
) -> Result<(), EvalFault>
    ensures { OnOk result (all_sized out.new.items ≡ all_sized out.old.items ++ flat_map (sized_alone design.now) es.now) }
{
    for e in es {
        put_alone(alloc, design, out, e)?;
    }
    Ok(())
}

/// Those of an output and inputs behind it.
#[tactic(auto, unfolding(crate::specs::GateParts::behind_one))]
fn put_behind_one<'a>(
    alloc: Global,
    design: &Design,
    out: &mut Vec<Sizing<'a>>,
    es: &'a [Expr],
) -> Result<(), EvalFault>
    ensures { OnOk result (all_sized out.new.items ≡ all_sized out.old.items ++ behind_one design.now es.now) }
{
    match es {
        [] => Ok(()),
        [output, inputs @ ..] => {
            put_target(alloc, design, out, output)?;
            put_inputs(alloc, design, out, inputs)
        }
    }
}

/// Those of outputs and an input behind them.
#[tactic(auto, unfolding(crate::specs::GateParts::before_last))]
fn put_before_last<'a>(
    alloc: Global,
    design: &Design,
    out: &mut Vec<Sizing<'a>>,
    es: &'a [Expr],
) -> Result<(), EvalFault>
    ensures { OnOk result (all_sized out.new.items ≡ all_sized out.old.items ++ before_last design.now es.now) }
{
    let mut rest = es;
    while let [first, others @ ..] = rest {
        if others.is_empty() {
            put_alone(alloc, design, out, first)?;
        } else {
            put_target(alloc, design, out, first)?;
        }
        rest = others;
    }
    Ok(())
}

/// The parts of a gate's terminals.
#[tactic(auto, unfolding(crate::specs::GateParts::sized_terminals))]
pub(crate) fn put_terminals<'a>(
    alloc: Global,
    design: &Design,
    out: &mut Vec<Sizing<'a>>,
    kind: GateKind,
    es: &'a [Expr],
) -> Result<(), EvalFault>
    ensures { OnOk result (all_sized out.new.items ≡ all_sized out.old.items ++ sized_terminals design.now kind es.now) }
{
    match kind {
        GateKind::Not | GateKind::Buf => put_before_last(alloc, design, out, es),
        _ => put_behind_one(alloc, design, out, es),
    }
}
