//! Expressions by number.

ghost use Rattle.std.specs.Prelude.{◌≡◌, ◌++◌, map, Some, None, IfOk, OnOk};
ghost use Rattle.std.specs.Option.{option_map};
ghost use Rattle.std.specs.Result.{IsErrOf};
ghost use Rattle.thin_tree.specs.Postfix.{step_of, postfix, expression_of};
ghost use Rattle.thin_form.specs.Numbers.{AreLists, terms_at, terms_of, rules_of};
ghost use Rattle.thin_form.specs.Listed.{lists};

use crate::assigned::Expressed;
use crate::names::{Names, find};
use crate::term::Term;
use std::alloc::Global;
use thin_tree::{Expression, FormFault, Step};

/// Puts what a step is at the end.
fn push(names: &Names, step: &Step, out: &mut Vec<Term>) -> Result<(), FormFault>
    requires { AreLists (lists names.now) }
    ensures terms { OnOk result (option_map (λ ts. out.old.items ++ ts) (terms_at (lists names.now) (step_of step.now)) ≡ Some out.new.items) }
    ensures not_of_form { IsErrOf result FormFault.NotOfForm → terms_at (lists names.now) (step_of step.now) ≡ None }
{
    match step {
        Step::Name(name) => match find(names, name) {
            Some(term) => out.push(term)?,
            None => return Err(FormFault::NotOfForm),
        },
        Step::Brackets => {}
        Step::Not => out.push(Term::Not)?,
        Step::And => out.push(Term::And)?,
        Step::Or => out.push(Term::Or)?,
    }
    Ok(())
}

/// What an expression is.
fn terms(alloc: Global, names: &Names, read: &Expression) -> Result<Vec<Term>, FormFault>
    requires { AreLists (lists names.now) }
    ensures terms { IfOk result (λ v. terms_of (lists names.now) (postfix (expression_of read.now)) ≡ Some v.items) }
    ensures not_of_form { IsErrOf result FormFault.NotOfForm → terms_of (lists names.now) (postfix (expression_of read.now)) ≡ None }
{
    let steps = read.steps();
    let mut out = Vec::new(alloc);
    for step in steps {
        match push(names, step, &mut out) {
            Ok(()) => {}
            Err(fault) => return Err(fault),
        }
    }
    Ok(out)
}

/// What several expressions are.
pub(crate) fn rules(
    alloc: Global,
    names: &Names,
    read: &[Expressed],
) -> Result<Vec<Vec<Term>>, FormFault>
    requires { AreLists (lists names.now) }
    ensures rules { IfOk result (λ v. rules_of (lists names.now) (map (λ e. expression_of e.of.now) read.now) ≡ Some (map (λ r. r.items) v.items)) }
    ensures not_of_form { IsErrOf result FormFault.NotOfForm → rules_of (lists names.now) (map (λ e. expression_of e.of.now) read.now) ≡ None }
{
    let mut out = Vec::new(alloc);
    for e in read {
        match terms(alloc, names, e.of) {
            Ok(rule) => out.push(rule)?,
            Err(fault) => return Err(fault),
        }
    }
    Ok(out)
}
