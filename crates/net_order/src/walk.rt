//! The walk from the roots of bits, fan-ins first.

ghost use Rattle.std.specs.Prelude.{◌≡◌, ℕ, ◌<◌, [], ◌∷◌, ◌++◌, length, map, reverse, set, replicate, All, Contains, OnOk, IfOk, IfErr};
ghost use Rattle.net_order.specs.declared.step.Step.TheVariants.{Visit, Leave};
ghost use Rattle.net_order.specs.declared.step.Mark.TheVariants.{New, Open, Done};
ghost use Rattle.net_order.specs.Order.{reads, fan_ins, roots_in, AreInside, IsInOrder};
ghost use Rattle.net_order.specs.Order as orders;
ghost use Rattle.net_order.specs.Loops.{HasNoLoop, IsWhyNot};

use crate::fault::OrderFault;
use crate::loops::loop_at;
use crate::step::{Mark, Step};
use net_gates::GateList;
use net_view::Gate;
use std::alloc::{AllocError, Global};

/// How far a walk is.
#[derive(Drop)]
struct Walk {
    marks: Vec<Mark>,
    /// What is still to do, the next step last.
    steps: Vec<Step>,
    /// The gates that are left, in order.
    done: Vec<u32>,
}

/// A step to the root of a bit, if it has one.
fn put_root(steps: &mut Vec<Step>, root: Option<u32>) -> Result<(), AllocError>
    ensures { OnOk result (steps.new.items ≡ steps.old.items ++ reverse (map Visit (orders.root_in root))) }
{
    if let Some(k) = root {
        steps.push(Step::Visit(k))?;
    }
    Ok(())
}

/// Steps to two gates, the left one next.
fn put_two(steps: &mut Vec<Step>, left: u32, right: u32) -> Result<(), AllocError>
    ensures { OnOk result (steps.new.items ≡ steps.old.items ++ Visit right ∷ Visit left ∷ []) }
{
    steps.push(Step::Visit(right))?;
    steps.push(Step::Visit(left))?;
    Ok(())
}

/// Steps to what a gate reads, the leftmost next.
fn put_fan_ins(
    steps: &mut Vec<Step>,
    gate: Gate<u32, u32>,
    roots: &[Option<u32>],
) -> Result<(), AllocError>
    ensures { OnOk result (steps.new.items ≡ steps.old.items ++ reverse (map Visit (fan_ins roots.now gate))) }
{
    match gate {
        Gate::Const(_) => Ok(()),
        Gate::Source(b) => match roots.get(b as usize) {
            Some(root) => put_root(steps, *root),
            None => Ok(()),
        },
        Gate::Not(a) => Ok(steps.push(Step::Visit(a))?),
        Gate::And(a, b) => put_two(steps, a, b),
        Gate::Or(a, b) => put_two(steps, a, b),
        Gate::Xor(a, b) => put_two(steps, a, b),
        Gate::Pick(c, a, b) => {
            put_two(steps, a, b)?;
            Ok(steps.push(Step::Visit(c))?)
        }
        Gate::Lift(c, a, _) => put_two(steps, c, a),
    }
}

/// Steps to the roots, the first one next.
fn put_roots(alloc: Global, roots: &[Option<u32>]) -> Result<Vec<Step>, AllocError>
    ensures { IfOk result (λ steps. reverse steps.items ≡ map Visit (roots_in roots.now)) }
{
    let mut steps = Vec::new(alloc);
    let mut left = roots.len();
    'roots: while left > 0 {
        left -= 1;
        put_root(&mut steps, roots[left])?;
    }
    Ok(steps)
}

impl Walk {
    /// The begin: steps to the roots.
    fn new(alloc: Global, count: usize, roots: &[Option<u32>]) -> Result<Walk, AllocError>
        ensures marks { IfOk result (λ walk. walk.marks.items ≡ replicate count New) }
        ensures steps { IfOk result (λ walk. reverse walk.steps.items ≡ map Visit (roots_in roots.now)) }
        ensures done { IfOk result (λ walk. walk.done.items ≡ []) }
    {
        Ok(Walk {
            marks: vec![in alloc; Mark::New; count]?,
            steps: put_roots(alloc, roots)?,
            done: Vec::new(alloc),
        })
    }

    /// A gate is entered: what it reads comes next, then it is left.
    fn enter(
        &mut self,
        gates: &[Gate<u32, u32>],
        roots: &[Option<u32>],
        k: u32,
    ) -> Result<(), AllocError>
        requires marked { k < length self.old.marks.items }
        requires inside { k < length gates.now }
        ensures marks { OnOk result (self.new.marks.items ≡ set self.old.marks.items k Open) }
        ensures steps { OnOk result (reverse self.new.steps.items ≡ map Visit (reads gates.now roots.now k) ++ (Leave k ∷ reverse self.old.steps.items)) }
        ensures done { OnOk result (self.new.done.items ≡ self.old.done.items) }
    {
        let gate = gates[k as usize];
        self.marks[k as usize] = Mark::Open;
        self.steps.push(Step::Leave(k))?;
        put_fan_ins(&mut self.steps, gate, roots)?;
        Ok(())
    }

    /// A gate is left: it stands behind all that it reads.
    fn leave(&mut self, k: u32) -> Result<(), AllocError>
        requires marked { k < length self.old.marks.items }
        ensures marks { OnOk result (self.new.marks.items ≡ set self.old.marks.items k Done) }
        ensures steps { OnOk result (self.new.steps.items ≡ self.old.steps.items) }
        ensures done { OnOk result (self.new.done.items ≡ self.old.done.items ++ k ∷ []) }
    {
        self.marks[k as usize] = Mark::Done;
        self.done.push(k)?;
        Ok(())
    }
}

/// The gates that the roots need, fan-ins first, left before right, each once; or a loop among them.
///
/// It looks at each root once, and enters each gate at most once.
pub fn order(alloc: Global, gates: &GateList, roots: &[Option<u32>]) -> Result<Vec<u32>, OrderFault>
    requires { AreInside (length gates.now) roots.now }
    ensures order { IfOk result (λ order. order.items ≡ orders.order gates.now roots.now) }
    ensures inside { IfOk result (λ order. All (λ k. k < length gates.now) order.items) }
    ensures ready { IfOk result (λ order. IsInOrder (reads gates.now roots.now) [] order.items) }
    ensures roots { IfOk result (λ order. (k : ℕ) → Contains (roots_in roots.now) k → Contains order.items k) }
    ensures free { IfOk result (λ _. HasNoLoop gates.now roots.now) }
    ensures fault { IfErr result (IsWhyNot gates.now roots.now) }
{
    let gates = gates.gates();
    let mut walk = Walk::new(alloc, gates.len(), roots)?;
    'steps: while let Some(step) = walk.steps.pop() {
        match step {
            Step::Leave(k) => walk.leave(k)?,
            Step::Visit(k) => match walk.marks[k as usize] {
                Mark::Done => {}
                Mark::New => walk.enter(gates, roots, k)?,
                Mark::Open => {
                    let found = loop_at(alloc, walk.steps, k)?;
                    return Err(OrderFault::Loop(found));
                }
            },
        }
    }
    Ok(walk.done)
}
