//! Expressions of a body, with the running variables written as numbers.
ghost use Rattle.std.specs.Prelude.{◌≡◌, []};
ghost use Rattle.vlog_const.specs.Names.{values_of};
ghost use Rattle.proc_loops.specs.Faults.{Answers};
ghost use Rattle.proc_loops.specs.Unrolled.{all_put_in, put_in};

use crate::fault::LoopFault;
use crate::firsts::first_name;
use crate::scope::Scope;
use crate::writing::written;
use sqlite_items::Items;
use std::alloc::Global;
use vlog_tree::Expr;

/// An expression in which no running variable is left.
#[tactic(auto, unfolding(crate::specs::Unrolled::put_in, crate::specs::Unrolled::built))]
pub fn put_in(alloc: Global, e: &Expr, scope: &Scope) -> Result<Expr, LoopFault>
    ensures { Answers result (put_in (values_of scope.now.env) e.now) }
{
    let e = written(alloc, e, &scope.env)?;
    match first_name(&e, scope, true) {
        Some(place) => Err(LoopFault::NotBuilt(place)),
        None => Ok(e),
    }
}

/// Each of some.
#[tactic(auto, unfolding(crate::specs::Unrolled::all_put_in, crate::specs::Faults::and_then))]
pub fn all_put_in(alloc: Global, es: &[Expr], scope: &Scope) -> Result<Items<Expr>, LoopFault>
    ensures { Answers result (all_put_in (values_of scope.now.env) [] es.now) }
{
    let mut done = Items::new(alloc);
    for e in es {
        let e = match put_in(alloc, e, scope) {
            Ok(e) => e,
            Err(fault) => return Err(fault),
        };
        match done.push(e) {
            Ok(()) => {}
            Err(_) => return Err(LoopFault::Memory),
        }
    }
    Ok(done)
}
