//! The bits that a statement may assign.
ghost use Rattle.std.specs.Prelude.{◌≡◌, [], IfOk, OnOk};
ghost use Rattle.std.specs.List.{flat_map};
ghost use Rattle.std.specs.Option.{option_map, unwrap_or};
ghost use Rattle.elab_weight.specs.Kept.{row_seen};
ghost use Rattle.elab_weight.specs.TargetBits.{all_of, assigned, assigned_bits, index_bits, once, row, select_bits, target_bits};

use crate::numbers::number;
use crate::reaches::{reach, reach_of_one, reached};
use design_form::{Bounds, Design, EvalFault};
use design_sizes::has_name;
use sqlite_items::Boxed;
use std::alloc::Global;
use std::collections::BTreeSet;
use vlog_tree::{Arm, Expr, Part, Stmt};

/// Numbers, each of them once.
#[tactic(auto, unfolding(crate::specs::TargetBits::once))]
fn put(bits: &mut BTreeSet<u32>, numbers: &[u32]) -> Result<(), EvalFault>
    ensures { OnOk result (bits.new.keys ≡ once bits.old.keys numbers.now) }
{
    for number in numbers {
        bits.insert(*number)?;
    }
    Ok(())
}

/// A signal's range, and the numbers of its bits, least significant first.
#[derive(Clone, Copy)]
struct Seen<'a> {
    bounds: Bounds,
    numbers: &'a [u32],
}

/// What a name stands for.
fn named<'a>(design: &'a Design, name: &[u8]) -> Option<Seen<'a>>
    ensures { option_map row_seen result ≡ row design.now name.now }
{
    match (design.signal(name), design.bits_of(name)) {
        (Some(signal), Some(numbers)) => Some(Seen {
            bounds: signal.bounds(),
            numbers,
        }),
        _ => None,
    }
}

/// All bits of a signal.
#[tactic(auto, unfolding(crate::specs::TargetBits::all_of, crate::specs::TargetBits::once))]
fn put_all(design: &Design, name: &[u8], bits: &mut BTreeSet<u32>) -> Result<(), EvalFault>
    ensures { OnOk result (bits.new.keys ≡ once bits.old.keys (all_of (row design.now name.now))) }
{
    match named(design, name) {
        Some(signal) => put(bits, signal.numbers),
        None => Ok(()),
    }
}

/// `name[index]`
#[tactic(auto, unfolding(crate::specs::TargetBits::index_bits, crate::specs::TargetBits::one_of, crate::specs::TargetBits::once))]
fn put_index(
    alloc: Global,
    design: &Design,
    name: &[u8],
    index: &Expr,
    bits: &mut BTreeSet<u32>,
) -> Result<(), EvalFault>
    ensures { OnOk result (bits.new.keys ≡ once bits.old.keys (index_bits design.now name.now index.now)) }
{
    if has_name(index) {
        return put_all(design, name, bits);
    }
    match named(design, name) {
        Some(signal) => {
            let covered = reach_of_one(number(alloc, index)?);
            put(bits, reached(signal.bounds, covered, signal.numbers))
        }
        None => Ok(()),
    }
}

/// `name[first : second]` and its like.
#[tactic(auto, unfolding(crate::specs::TargetBits::select_bits, crate::specs::TargetBits::part_of, crate::specs::TargetBits::once))]
fn put_select(
    alloc: Global,
    design: &Design,
    part: Part,
    name: &[u8],
    first: &Expr,
    second: &Expr,
    bits: &mut BTreeSet<u32>,
) -> Result<(), EvalFault>
    ensures { OnOk result (bits.new.keys ≡ once bits.old.keys (select_bits design.now part name.now first.now second.now)) }
{
    if has_name(first) {
        return put_all(design, name, bits);
    }
    match named(design, name) {
        Some(signal) => {
            let first = number(alloc, first)?;
            let second = number(alloc, second)?;
            let covered = reach(part, signal.bounds, first, second);
            put(bits, reached(signal.bounds, covered, signal.numbers))
        }
        None => Ok(()),
    }
}

/// The bits of a target.
#[cycle(targets)]
#[tactic(auto, using(crate::proofs::TargetForms::forms, crate::proofs::OnceLemmas::puts))]
fn put_target(
    alloc: Global,
    design: &Design,
    e: &Expr,
    bits: &mut BTreeSet<u32>,
) -> Result<(), EvalFault>
    ensures { OnOk result (bits.new.keys ≡ once bits.old.keys (target_bits design.now e.now)) }
{
    match e {
        Expr::Name(_, name) => put_all(design, name.as_slice(), bits),
        Expr::Index(_, name, index) => {
            put_index(alloc, design, name.as_slice(), index.get(), bits)
        }
        Expr::Select(part, _, name, first, second) => {
            let (first, second) = (first.get(), second.get());
            put_select(alloc, design, *part, name.as_slice(), first, second, bits)
        }
        Expr::Concat(_, members) => put_targets(alloc, design, members.as_slice(), bits),
        Expr::Number(_, _)
        | Expr::Brackets(_, _)
        | Expr::Repeat(_, _, _)
        | Expr::Unary(_, _, _)
        | Expr::Binary(_, _, _, _)
        | Expr::Conditional(_, _, _, _) => Ok(()),
    }
}

/// The bits of some targets.
#[cycle(targets)]
fn put_targets(
    alloc: Global,
    design: &Design,
    es: &[Expr],
    bits: &mut BTreeSet<u32>,
) -> Result<(), EvalFault>
    ensures { OnOk result (bits.new.keys ≡ once bits.old.keys (flat_map (target_bits design.now) es.now)) }
{
    for e in es {
        match put_target(alloc, design, e, bits) {
            Ok(()) => {}
            Err(fault) => return Err(fault),
        }
    }
    Ok(())
}

/// The bits that a statement may assign.
#[cycle(assigned)]
#[tactic(auto, using(crate::proofs::AssignedForms::forms, crate::proofs::OnceLemmas::puts))]
fn put_assigned(
    alloc: Global,
    design: &Design,
    s: &Stmt,
    bits: &mut BTreeSet<u32>,
) -> Result<(), EvalFault>
    ensures { OnOk result (bits.new.keys ≡ once bits.old.keys (assigned_bits design.now s.now)) }
{
    match s {
        Stmt::Empty(_) => Ok(()),
        Stmt::Block(_, _, ss) => put_each(alloc, design, ss.as_slice(), bits),
        Stmt::Assign(_, target, _, _) => put_target(alloc, design, target, bits),
        Stmt::If(_, _, first, other) => {
            match put_assigned(alloc, design, first.get(), bits) {
                Ok(()) => {}
                Err(fault) => return Err(fault),
            }
            put_other(alloc, design, other, bits)
        }
        Stmt::Case(_, _, _, arms) => put_arms(alloc, design, arms.as_slice(), bits),
        Stmt::For(_, _, body) => put_assigned(alloc, design, body.get(), bits),
    }
}

/// The bits that an else side may assign.
#[cycle(assigned)]
#[tactic(auto, unfolding(crate::specs::TargetBits::once))]
fn put_other(
    alloc: Global,
    design: &Design,
    other: &Option<Boxed<Stmt>>,
    bits: &mut BTreeSet<u32>,
) -> Result<(), EvalFault>
    ensures { OnOk result (bits.new.keys ≡ once bits.old.keys (unwrap_or (option_map (assigned_bits design.now) other.now) [])) }
{
    match other {
        Some(other) => put_assigned(alloc, design, other.get(), bits),
        None => Ok(()),
    }
}

/// The bits that statements may assign.
#[cycle(assigned)]
fn put_each(
    alloc: Global,
    design: &Design,
    ss: &[Stmt],
    bits: &mut BTreeSet<u32>,
) -> Result<(), EvalFault>
    ensures { OnOk result (bits.new.keys ≡ once bits.old.keys (flat_map (assigned_bits design.now) ss.now)) }
{
    for s in ss {
        match put_assigned(alloc, design, s, bits) {
            Ok(()) => {}
            Err(fault) => return Err(fault),
        }
    }
    Ok(())
}

/// The bits that case items may assign.
#[cycle(assigned)]
fn put_arms(
    alloc: Global,
    design: &Design,
    arms: &[Arm<Boxed<Stmt>>],
    bits: &mut BTreeSet<u32>,
) -> Result<(), EvalFault>
    ensures { OnOk result (bits.new.keys ≡ once bits.old.keys (flat_map (λ a. assigned_bits design.now a.body) arms.now)) }
{
    for arm in arms {
        match put_assigned(alloc, design, arm.body.get(), bits) {
            Ok(()) => {}
            Err(fault) => return Err(fault),
        }
    }
    Ok(())
}

/// How many bits a statement may assign.
pub(crate) fn assigned(alloc: Global, design: &Design, s: &Stmt) -> Result<u64, EvalFault>
    ensures { IfOk result (λ n. n ≡ assigned design.now s.now) }
{
    let mut bits = BTreeSet::new(alloc);
    put_assigned(alloc, design, s, &mut bits)?;
    Ok(bits.len() as u64)
}
