//! The values of a loop's header.
ghost use Rattle.std.specs.Prelude.{◌≡◌, ◌≤◌, ◌+◌, IfOk};
ghost use Rattle.vlog_const.specs.Names.{values_of};
ghost use Rattle.vlog_const.specs.Constants.{value_of, value_within};
ghost use Rattle.proc_loops.specs.Faults.{Answers, constant};
ghost use Rattle.proc_loops.specs.Headers.{integer, running};
ghost use Rattle.proc_loops.specs.Turns.{header_width, stepped, width_if};

use crate::fault::LoopFault;
use crate::headers::integer;
use crate::scope::Scope;
use std::alloc::{AllocError, Global};
use vlog_const::{ConstFault, ConstValue, value, value_within};
use vlog_tree::{Expr, Loop, Stmt};

/// What a test gives.
#[tactic(auto, unfolding(crate::specs::Faults::constant))]
pub fn tested(alloc: Global, e: &Expr, scope: &Scope) -> Result<ConstValue, LoopFault>
    ensures value { Answers result (constant (value_of (values_of scope.now.env) e.now)) }
    ensures bound { IfOk result (λ v. v.width ≤ 128) }
{
    match value(alloc, e, &scope.env) {
        Ok(v) => Ok(v),
        Err(ConstFault::Memory) => Err(LoopFault::Memory),
        Err(fault) => Err(LoopFault::Const(fault)),
    }
}

/// What a start or a step gives.
#[tactic(auto, unfolding(crate::specs::Faults::constant))]
pub fn given(alloc: Global, e: &Expr, scope: &Scope) -> Result<ConstValue, LoopFault>
    ensures value { Answers result (constant (value_within (values_of scope.now.env) 32 e.now)) }
    ensures bound { IfOk result (λ v. v.width ≤ 128) }
{
    match value_within(alloc, e, &scope.env, 32) {
        Ok(v) => Ok(v),
        Err(ConstFault::Memory) => Err(LoopFault::Memory),
        Err(fault) => Err(LoopFault::Const(fault)),
    }
}

/// How wide a test is.
fn test_width(alloc: Global, e: &Expr, scope: &Scope) -> Result<u64, AllocError>
    ensures value { IfOk result (λ w. w ≡ width_if (value_of (values_of scope.now.env) e.now)) }
    ensures bound { IfOk result (λ w. w ≤ 128) }
{
    match value(alloc, e, &scope.env) {
        Ok(v) => Ok(u64::from(v.width)),
        Err(ConstFault::Memory) => Err(AllocError),
        Err(_) => Ok(0),
    }
}

/// How wide a step is.
fn step_width(alloc: Global, e: &Expr, scope: &Scope) -> Result<u64, AllocError>
    ensures value { IfOk result (λ w. w ≡ width_if (value_within (values_of scope.now.env) 32 e.now)) }
    ensures bound { IfOk result (λ w. w ≤ 128) }
{
    match value_within(alloc, e, &scope.env, 32) {
        Ok(v) => Ok(u64::from(v.width)),
        Err(ConstFault::Memory) => Err(AllocError),
        Err(_) => Ok(0),
    }
}

/// The widths of a header.
fn header_width(
    alloc: Global,
    start: ConstValue,
    header: &Loop,
    inside: &Scope,
) -> Result<u64, AllocError>
    requires { start.width ≤ 128 }
    ensures { IfOk result (λ w. w ≡ header_width (values_of inside.now.env) start header.now) }
{
    let test = test_width(alloc, header.test.get(), inside)?;
    let step = step_width(alloc, header.step.get(), inside)?;
    Ok(u64::from(start.width) + (test + step))
}

/// The variable after a step.
pub fn stepped(header: &Loop, v: ConstValue, given: ConstValue) -> ConstValue
    ensures { result ≡ stepped header.now v given }
{
    if header.variable.name.as_slice() == header.stepped.name.as_slice() {
        return integer(given.bits);
    }
    v
}

/// The widths of a header, as its loop begins.
pub fn first_width(
    alloc: Global,
    body: &Stmt,
    header: &Loop,
    scope: &Scope,
    start: ConstValue,
) -> Result<u64, AllocError>
    requires { start.width ≤ 128 }
    ensures { IfOk result (λ w. w ≡ header_width (running (values_of scope.now.env) header.now body.now (integer start.bits)) start header.now) }
{
    let inside = scope.running(alloc, header, body, integer(start.bits))?;
    header_width(alloc, start, header, &inside)
}
