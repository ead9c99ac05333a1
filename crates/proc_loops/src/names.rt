//! Names in expressions, and what a statement assigns.
ghost use Rattle.std.specs.Prelude.{◌≡◌, map};
ghost use Rattle.std.specs.List.{list_any};
ghost use Rattle.proc_loops.specs.Names.{assigns, sooner, first_among, first_name, is_changed, is_target};

use rdc_outside::Place;
use sqlite_items::Boxed;
use vlog_tree::{Arm, Expr, Loop, Stmt};

/// Whether an assignment to `e` is one to the name.
#[cycle(targets)]
#[tactic(auto, unfolding(crate::specs::Names::is_target, crate::specs::Names::target_by_parts))]
fn is_target(e: &Expr, name: &[u8]) -> bool
    ensures { result ≡ is_target name.now e.now }
{
    match e {
        Expr::Name(_, other) | Expr::Index(_, other, _) | Expr::Select(_, _, other, _, _) => {
            name == other.as_slice()
        }
        Expr::Concat(_, members) => is_target_of_any(members.as_slice(), name),
        _ => false,
    }
}

/// Whether a target among these is of the name.
#[cycle(targets)]
fn is_target_of_any(es: &[Expr], name: &[u8]) -> bool
    ensures { result ≡ list_any (λ b. b) (map (is_target name.now) es.now) }
{
    for e in es {
        if is_target(e, name) {
            return true;
        }
    }
    false
}

/// Whether a statement assigns the name, as a target or in the header of a loop.
#[cycle(assigning)]
#[tactic(auto, unfolding(crate::specs::Names::assigns, crate::specs::Names::assigns_by_parts))]
pub fn assigns(s: &Stmt, name: &[u8]) -> bool
    ensures { result ≡ assigns name.now s.now }
{
    match s {
        Stmt::Empty(_) => false,
        Stmt::Block(_, _, ss) => any_assigns(ss.as_slice(), name),
        Stmt::Assign(_, target, _, _) => is_target(target, name),
        Stmt::If(_, _, first, None) => assigns(first.get(), name),
        Stmt::If(_, _, first, Some(other)) => {
            assigns(first.get(), name) || assigns(other.get(), name)
        }
        Stmt::Case(_, _, _, arms) => any_arm_assigns(arms.as_slice(), name),
        Stmt::For(_, header, body) => is_changed(header, name) || assigns(body.get(), name),
    }
}

/// Whether a loop's header assigns the name.
fn is_changed(header: &Loop, name: &[u8]) -> bool
    ensures { result ≡ is_changed name.now header.now }
{
    name == header.variable.name.as_slice() || name == header.stepped.name.as_slice()
}

/// Whether a statement among these assigns the name.
#[cycle(assigning)]
fn any_assigns(ss: &[Stmt], name: &[u8]) -> bool
    ensures { result ≡ list_any (λ b. b) (map (assigns name.now) ss.now) }
{
    for s in ss {
        if assigns(s, name) {
            return true;
        }
    }
    false
}

/// Whether a case item among these assigns the name.
#[cycle(assigning)]
fn any_arm_assigns(arms: &[Arm<Boxed<Stmt>>], name: &[u8]) -> bool
    ensures { result ≡ list_any (λ a. assigns name.now a.body) arms.now }
{
    for arm in arms {
        if assigns(arm.body.get(), name) {
            return true;
        }
    }
    false
}

/// The first place of two.
pub fn sooner(one: Option<Place>, other: Option<Place>) -> Option<Place>
    ensures { result ≡ sooner one other }
{
    match one {
        Some(place) => Some(place),
        None => other,
    }
}
