//! What a process may assign, and how.
ghost use Rattle.std.specs.Prelude.{◌≡◌, ◌∷◌, [], ◌++◌, IfOk};
ghost use Rattle.elab_bits.specs.Processes.{has_edges};
ghost use Rattle.vlog_proc.specs.Faults.{Answers, all_checked};
ghost use Rattle.vlog_proc.specs.Assigns.{header_right, loop_variables, rights, rights_checked, rule, side_right};

use crate::events::has_edges;
use crate::fault::ProcFault;
use crate::targets::{Kind, allowed, target_allowed};
use crate::variables::{put_name, put_variables};
use design_form::{Design, Process};
use rdc_outside::Seq;
use sqlite_items::Boxed;
use std::alloc::{AllocError, Global};
use vlog_tree::{Arm, Assigns, Loop, Stmt};

/// A loop's header assigns its variable, and what it steps.
#[tactic(auto, unfolding(crate::specs::Faults::and_then))]
fn header_right(alloc: Global, design: &Design, kind: &Kind, header: &Loop) -> Result<(), ProcFault>
    ensures { Answers (λ u. u) result (header_right (rule design.now.signals kind.now.edged kind.now.variables) header.now) }
{
    let (variable, stepped) = (&header.variable, &header.stepped);
    let by = Assigns::Blocking;
    allowed(
        alloc,
        design,
        kind,
        &[],
        by,
        variable.place,
        variable.name.as_slice(),
    )?;
    allowed(
        alloc,
        design,
        kind,
        &[],
        by,
        stepped.place,
        stepped.name.as_slice(),
    )
}

/// Names, and one more behind them.
fn with_name(alloc: Global, names: &[Seq<u8>], name: &[u8]) -> Result<Vec<Seq<u8>>, AllocError>
    ensures { IfOk result (λ all. all.items ≡ names.now ++ name.now ∷ []) }
{
    let mut all = Vec::new(alloc);
    for one in names {
        put_name(alloc, one.as_slice(), &mut all)?;
    }
    put_name(alloc, name, &mut all)?;
    Ok(all)
}

/// A statement assigns what it may, inside loops over some variables.
#[cycle(judging)]
#[tactic(auto, using(crate::proofs::RightForms::forms), unfolding(crate::specs::Faults::and_then))]
fn rights(
    alloc: Global,
    design: &Design,
    kind: &Kind,
    running: &[Seq<u8>],
    s: &Stmt,
) -> Result<(), ProcFault>
    ensures { Answers (λ u. u) result (rights (rule design.now.signals kind.now.edged kind.now.variables) s.now running.now) }
{
    match s {
        Stmt::Empty(_) => Ok(()),
        Stmt::Block(_, _, inner) => all_rights(alloc, design, kind, running, inner.as_slice()),
        Stmt::Assign(_, target, by, _) => {
            target_allowed(alloc, design, kind, running, *by, target)
        }
        Stmt::If(_, _, first, other) => {
            rights(alloc, design, kind, running, first.get())?;
            side_right(alloc, design, kind, running, other)
        }
        Stmt::Case(_, _, _, arms) => item_rights(alloc, design, kind, running, arms.as_slice()),
        Stmt::For(_, header, body) => {
            header_right(alloc, design, kind, header)?;
            let inside = with_name(alloc, running, header.variable.name.as_slice())?;
            rights(alloc, design, kind, &inside, body.get())
        }
    }
}

/// The same of an else side.
#[cycle(judging)]
#[tactic(auto, unfolding(crate::specs::Assigns::side_right))]
fn side_right(
    alloc: Global,
    design: &Design,
    kind: &Kind,
    running: &[Seq<u8>],
    other: &Option<Boxed<Stmt>>,
) -> Result<(), ProcFault>
    ensures { Answers (λ u. u) result (side_right (rights (rule design.now.signals kind.now.edged kind.now.variables)) other.now running.now) }
{
    match other {
        None => Ok(()),
        Some(other) => rights(alloc, design, kind, running, other.get()),
    }
}

/// The same of some statements.
#[cycle(judging)]
fn all_rights(
    alloc: Global,
    design: &Design,
    kind: &Kind,
    running: &[Seq<u8>],
    ss: &[Stmt],
) -> Result<(), ProcFault>
    ensures { Answers (λ u. u) result (all_checked (λ s. rights (rule design.now.signals kind.now.edged kind.now.variables) s running.now) ss.now) }
{
    for s in ss {
        match rights(alloc, design, kind, running, s) {
            Ok(()) => {}
            Err(fault) => return Err(fault),
        }
    }
    Ok(())
}

/// The same of case items.
#[cycle(judging)]
fn item_rights(
    alloc: Global,
    design: &Design,
    kind: &Kind,
    running: &[Seq<u8>],
    arms: &[Arm<Boxed<Stmt>>],
) -> Result<(), ProcFault>
    ensures { Answers (λ u. u) result (all_checked (λ arm. rights (rule design.now.signals kind.now.edged kind.now.variables) arm.body running.now) arms.now) }
{
    for arm in arms {
        match rights(alloc, design, kind, running, arm.body.get()) {
            Ok(()) => {}
            Err(fault) => return Err(fault),
        }
    }
    Ok(())
}

/// What the rule of a process goes by.
fn kind_of(alloc: Global, process: &Process) -> Result<Kind, AllocError>
    ensures edged { IfOk result (λ kind. kind.edged ≡ has_edges process.now.control) }
    ensures variables { IfOk result (λ kind. kind.variables ≡ loop_variables process.now.body) }
{
    let mut variables = Vec::new(alloc);
    put_variables(alloc, &process.body, &mut variables)?;
    Ok(Kind {
        edged: has_edges(&process.control),
        variables: Seq::from_vec(variables),
    })
}

/// A process assigns what it may.
#[tactic(auto, unfolding(crate::specs::Assigns::rights_checked))]
pub(crate) fn rights_checked(
    alloc: Global,
    design: &Design,
    process: &Process,
) -> Result<(), ProcFault>
    ensures { Answers (λ u. u) result (rights_checked design.now process.now) }
{
    let kind = kind_of(alloc, process)?;
    rights(alloc, design, &kind, &[], &process.body)
}
