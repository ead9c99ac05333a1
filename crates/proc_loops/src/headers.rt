//! Headers of loops that are not constant.
ghost use Rattle.std.specs.Prelude.{◌≡◌, map, IfOk};
ghost use Rattle.vlog_const.specs.Names.{values_of};
ghost use Rattle.proc_loops.specs.Names.{first_among, sooner};
ghost use Rattle.proc_loops.specs.Headers.{integer, unknown, unknown_header, unknown_in_loop};

use crate::firsts::first_name;
use crate::names::sooner;
use crate::scope::Scope;
use rdc_outside::Place;
use sqlite_items::Boxed;
use std::alloc::{AllocError, Global};
use vlog_const::ConstValue;
use vlog_tree::{Arm, Loop, Stmt};

/// The variable of a loop: the lowest 32 bits, with a sign.
pub fn integer(bits: u128) -> ConstValue
    ensures { result ≡ integer bits }
{
    ConstValue {
        bits: bits % (1 << 32),
        width: 32,
        signed: true,
    }
}

/// The first name in the loop's own header that has no value.
fn unknown_header(header: &Loop, outside: &Scope, inside: &Scope) -> Option<Place>
    ensures { result ≡ unknown_header (values_of outside.now.env) (values_of inside.now.env) header.now }
{
    let start = first_name(header.start.get(), outside, false);
    let test = first_name(header.test.get(), inside, false);
    let step = first_name(header.step.get(), inside, false);
    sooner(start, sooner(test, step))
}

/// The first name in a header that has no value there.
#[cycle(headers)]
#[tactic(auto, using(crate::proofs::HeaderForms::forms))]
pub fn unknown(alloc: Global, s: &Stmt, scope: &Scope) -> Result<Option<Place>, AllocError>
    ensures { IfOk result (λ p. p ≡ unknown s.now (values_of scope.now.env)) }
{
    match s {
        Stmt::Empty(_) | Stmt::Assign(..) => Ok(None),
        Stmt::Block(_, _, ss) => unknown_among(alloc, ss.as_slice(), scope),
        Stmt::If(_, _, first, other) => {
            let first = unknown(alloc, first.get(), scope)?;
            match other {
                None => Ok(first),
                Some(other) => Ok(sooner(first, unknown(alloc, other.get(), scope)?)),
            }
        }
        Stmt::Case(_, _, _, arms) => unknown_in_arms(alloc, arms.as_slice(), scope),
        Stmt::For(_, header, body) => unknown_in_loop(alloc, body.get(), header, scope),
    }
}

/// The first one of a loop.
#[cycle(headers)]
fn unknown_in_loop(
    alloc: Global,
    body: &Stmt,
    header: &Loop,
    scope: &Scope,
) -> Result<Option<Place>, AllocError>
    ensures { IfOk result (λ p. p ≡ unknown_in_loop header.now body.now (values_of scope.now.env)) }
{
    let inside = scope.running(alloc, header, body, integer(0))?;
    let own = unknown_header(header, scope, &inside);
    let rest = unknown(alloc, body, &inside)?;
    Ok(sooner(own, rest))
}

/// The first one of some statements.
#[cycle(headers)]
#[tactic(auto, unfolding(crate::specs::Names::first_among))]
fn unknown_among(alloc: Global, ss: &[Stmt], scope: &Scope) -> Result<Option<Place>, AllocError>
    ensures { IfOk result (λ p. p ≡ first_among (map (λ s. unknown s (values_of scope.now.env)) ss.now)) }
{
    for s in ss {
        match unknown(alloc, s, scope) {
            Ok(None) => {}
            Ok(Some(place)) => return Ok(Some(place)),
            Err(fault) => return Err(fault),
        }
    }
    Ok(None)
}

/// The first one of some case items.
#[cycle(headers)]
#[tactic(auto, unfolding(crate::specs::Names::first_among))]
fn unknown_in_arms(
    alloc: Global,
    arms: &[Arm<Boxed<Stmt>>],
    scope: &Scope,
) -> Result<Option<Place>, AllocError>
    ensures { IfOk result (λ p. p ≡ first_among (map (λ a. unknown a.body (values_of scope.now.env)) arms.now)) }
{
    for arm in arms {
        match unknown(alloc, arm.body.get(), scope) {
            Ok(None) => {}
            Ok(Some(place)) => return Ok(Some(place)),
            Err(fault) => return Err(fault),
        }
    }
    Ok(None)
}
