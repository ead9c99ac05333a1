//! What a process may assign, name by name.
ghost use Rattle.std.specs.Prelude.{◌≡◌};
ghost use Rattle.vlog_proc.specs.Faults.{Answers, all_checked};
ghost use Rattle.vlog_proc.specs.Uses.{named_targets};
ghost use Rattle.vlog_proc.specs.Assigns.{allowed, clocked, combinational, rule};

use crate::fault::ProcFault;
use crate::names::{is_named, is_register, is_variable, kind_of, wrong};
use design_form::Design;
use rdc_outside::{Place, Seq};
use std::alloc::Global;
use vlog_tree::{Assigns, Expr};

/// What the rule of a process goes by.
#[derive(Drop)]
pub(crate) struct Kind {
    /// Whether it waits for an edge.
    pub(crate) edged: bool,
    /// The variables of its loops.
    pub(crate) variables: Seq<Seq<u8>>,
}

/// Whether a process without edges may assign a name so.
#[tactic(auto, unfolding(crate::specs::Assigns::combinational))]
fn combinational(design: &Design, running: &[Seq<u8>], by: Assigns, name: &[u8]) -> bool
    ensures { result ≡ combinational design.now.signals running.now by name.now }
{
    match by {
        Assigns::Blocking => is_variable(kind_of(design, name)),
        Assigns::Nonblocking => false,
    }
}

/// Whether a process with edges may.
#[tactic(auto, unfolding(crate::specs::Assigns::clocked))]
fn clocked(
    design: &Design,
    variables: &[Seq<u8>],
    running: &[Seq<u8>],
    by: Assigns,
    name: &[u8],
) -> bool
    ensures { result ≡ clocked design.now.signals variables.now running.now by name.now }
{
    match by {
        Assigns::Blocking => is_named(variables, name) && !is_named(running, name),
        Assigns::Nonblocking => is_register(kind_of(design, name)),
    }
}

/// Whether a process may, inside loops over some variables.
#[tactic(auto, unfolding(crate::specs::Assigns::rule))]
fn may_assign(design: &Design, kind: &Kind, running: &[Seq<u8>], by: Assigns, name: &[u8]) -> bool
    ensures { result ≡ rule design.now.signals kind.now.edged kind.now.variables running.now by name.now }
{
    if kind.edged {
        return clocked(design, kind.variables.as_slice(), running, by, name);
    }
    combinational(design, running, by, name)
}

/// A name that may be assigned so.
#[tactic(auto, unfolding(crate::specs::Assigns::allowed))]
pub(crate) fn allowed(
    alloc: Global,
    design: &Design,
    kind: &Kind,
    running: &[Seq<u8>],
    by: Assigns,
    place: Place,
    name: &[u8],
) -> Result<(), ProcFault>
    ensures { Answers (λ u. u) result (allowed (rule design.now.signals kind.now.edged kind.now.variables) running.now by place name.now) }
{
    if may_assign(design, kind, running, by, name) {
        return Ok(());
    }
    Err(wrong(alloc, name, place))
}

/// All names of a target may be assigned so.
#[cycle(naming)]
#[tactic(auto, using(crate::proofs::NamedForms::forms))]
pub(crate) fn target_allowed(
    alloc: Global,
    design: &Design,
    kind: &Kind,
    running: &[Seq<u8>],
    by: Assigns,
    e: &Expr,
) -> Result<(), ProcFault>
    ensures { Answers (λ u. u) result (named_targets (allowed (rule design.now.signals kind.now.edged kind.now.variables) running.now by) e.now) }
{
    match e {
        Expr::Name(place, name) => {
            allowed(alloc, design, kind, running, by, *place, name.as_slice())
        }
        Expr::Index(place, name, _) => {
            allowed(alloc, design, kind, running, by, *place, name.as_slice())
        }
        Expr::Select(_, place, name, _, _) => {
            allowed(alloc, design, kind, running, by, *place, name.as_slice())
        }
        Expr::Concat(_, members) => {
            targets_allowed(alloc, design, kind, running, by, members.as_slice())
        }
        Expr::Number(_, _)
        | Expr::Brackets(_, _)
        | Expr::Repeat(_, _, _)
        | Expr::Unary(_, _, _)
        | Expr::Binary(_, _, _, _)
        | Expr::Conditional(_, _, _, _) => Ok(()),
    }
}

/// The same of some targets.
#[cycle(naming)]
fn targets_allowed(
    alloc: Global,
    design: &Design,
    kind: &Kind,
    running: &[Seq<u8>],
    by: Assigns,
    es: &[Expr],
) -> Result<(), ProcFault>
    ensures { Answers (λ u. u) result (all_checked (named_targets (allowed (rule design.now.signals kind.now.edged kind.now.variables) running.now by)) es.now) }
{
    for e in es {
        match target_allowed(alloc, design, kind, running, by, e) {
            Ok(()) => {}
            Err(fault) => return Err(fault),
        }
    }
    Ok(())
}
