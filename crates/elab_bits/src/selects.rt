//! Which bits names and selects stand for.
ghost use Rattle.std.specs.Prelude.{◌≡◌, IfOk};
ghost use Rattle.elab_bits.specs.Selects.{all_bits, behind, between, bit_at, constant, ends, first_of, indexed, part_at, range_of, selected, starts, stretch};

use design_form::{Bounds, Design};
use std::alloc::{AllocError, Global};
use vlog_const::{ConstFault, Env, Whole, value};
use vlog_tree::{Expr, Part};

/// All bits of a signal, least significant first.
#[tactic(auto, unfolding(crate::specs::Selects::all_bits, crate::specs::Selects::listed))]
pub(crate) fn all_bits<'a>(design: &'a Design, name: &[u8]) -> &'a [u32]
    ensures { result.now ≡ all_bits design.now.signals name.now }
{
    match design.bits_of(name) {
        Some(bits) => bits,
        None => &[],
    }
}

/// The range of a signal.
#[tactic(auto, unfolding(crate::specs::Selects::range_of, crate::specs::Selects::ranged))]
fn range_of(design: &Design, name: &[u8]) -> Bounds
    ensures { result ≡ range_of design.now.signals name.now }
{
    match design.signal(name) {
        Some(signal) => signal.bounds(),
        None => Bounds { msb: 0, lsb: 0 },
    }
}

/// An index as a number, where it is constant.
#[tactic(auto, unfolding(crate::specs::Selects::constant, crate::specs::Selects::number_if))]
fn constant(alloc: Global, e: &Expr) -> Result<Option<Whole>, AllocError>
    ensures { IfOk result (λ i. i ≡ constant e.now) }
{
    match value(alloc, e, &Env::new(alloc)) {
        Ok(value) => Ok(Some(Whole::of(value))),
        Err(ConstFault::Memory) => Err(AllocError),
        Err(_) => Ok(None),
    }
}

/// The first index from one up.
#[tactic(auto, unfolding(crate::specs::Selects::first_of))]
fn first_of(index: Whole) -> u128
    ensures { result ≡ first_of index }
{
    if index.negative { 0 } else { index.magnitude }
}

/// The index behind so many.
#[tactic(auto, unfolding(crate::specs::Selects::behind))]
fn behind(index: Whole, count: u128) -> u128
    ensures { result ≡ behind index count }
{
    if index.negative {
        count.saturating_sub(index.magnitude)
    } else {
        index.magnitude.saturating_add(count)
    }
}

/// The first index of a select.
#[tactic(auto, unfolding(crate::specs::Selects::starts))]
fn starts(part: Part, range: Bounds, first: Whole, second: Whole) -> u128
    ensures { result ≡ starts part range first second }
{
    match part {
        Part::Fixed => {
            if range.is_down() {
                first_of(second)
            } else {
                first_of(first)
            }
        }
        Part::Up => first_of(first),
        Part::Down => behind(first, 1).saturating_sub(second.count()),
    }
}

/// The index behind its last one.
#[tactic(auto, unfolding(crate::specs::Selects::ends))]
fn ends(part: Part, range: Bounds, first: Whole, second: Whole) -> u128
    ensures { result ≡ ends part range first second }
{
    match part {
        Part::Fixed => {
            if range.is_down() {
                behind(first, 1)
            } else {
                behind(second, 1)
            }
        }
        Part::Up => behind(first, second.count()),
        Part::Down => behind(first, 1),
    }
}

/// The bits from one place up to that before another.
#[tactic(auto, unfolding(crate::specs::Selects::stretch))]
fn stretch(bits: &[u32], from: u128, to: u128) -> &[u32]
    ensures { result.now ≡ stretch bits.now from to }
{
    let len = bits.len() as u128;
    if len <= from || to <= from {
        return &[];
    }
    let (_, rest) = bits.split_at(from as usize);
    if len <= to {
        return rest;
    }
    let (inside, _) = rest.split_at((to - from) as usize);
    inside
}

/// The bits with the indices from one up to that before another.
#[tactic(auto, unfolding(crate::specs::Selects::between))]
fn between(range: Bounds, bits: &[u32], first: u128, end: u128) -> &[u32]
    ensures { result.now ≡ between range bits.now first end }
{
    let lsb = range.lsb as u128;
    if range.is_down() {
        stretch(bits, first.saturating_sub(lsb), end.saturating_sub(lsb))
    } else {
        let top = lsb + 1;
        stretch(bits, top.saturating_sub(end), top.saturating_sub(first))
    }
}

/// The bit at an index, if that is constant.
#[tactic(auto, unfolding(crate::specs::Selects::bit_at))]
fn bit_at(range: Bounds, bits: &[u32], index: Option<Whole>) -> &[u32]
    ensures { result.now ≡ bit_at range bits.now index }
{
    match index {
        None => bits,
        Some(index) => between(range, bits, first_of(index), behind(index, 1)),
    }
}

/// The bits of `name[at]`.
///
/// # Errors
/// Want of memory.
#[tactic(auto, unfolding(crate::specs::Selects::indexed))]
pub(crate) fn indexed<'a>(
    alloc: Global,
    design: &'a Design,
    name: &[u8],
    at: &Expr,
) -> Result<&'a [u32], AllocError>
    ensures { IfOk result (λ ns. ns.now ≡ indexed design.now.signals name.now at.now) }
{
    let at = constant(alloc, at)?;
    Ok(bit_at(range_of(design, name), all_bits(design, name), at))
}

/// The bits of a select, if it is constant.
#[tactic(auto, unfolding(crate::specs::Selects::part_at))]
fn part_at(
    part: Part,
    range: Bounds,
    bits: &[u32],
    first: Option<Whole>,
    second: Option<Whole>,
) -> &[u32]
    ensures { result.now ≡ part_at part range bits.now first second }
{
    match (first, second) {
        (Some(first), Some(second)) => {
            let start = starts(part, range, first, second);
            let end = ends(part, range, first, second);
            between(range, bits, start, end)
        }
        (Some(_), None) => bits,
        (None, _) => bits,
    }
}

/// The bits of `name[first : second]`, with `+:` or `-:` in the place of `:`.
///
/// # Errors
/// Want of memory.
#[tactic(auto, unfolding(crate::specs::Selects::selected))]
pub(crate) fn selected<'a>(
    alloc: Global,
    design: &'a Design,
    part: Part,
    name: &[u8],
    first: &Expr,
    second: &Expr,
) -> Result<&'a [u32], AllocError>
    ensures { IfOk result (λ ns. ns.now ≡ selected design.now.signals part name.now first.now second.now) }
{
    let first = constant(alloc, first)?;
    let second = constant(alloc, second)?;
    let bits = all_bits(design, name);
    Ok(part_at(part, range_of(design, name), bits, first, second))
}
