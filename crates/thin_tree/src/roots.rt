//! Copies, and the names that they lead to.

ghost use Rattle.std.specs.Prelude.{◌≡◌, ◌++◌, map, IfOk, OnOk};
ghost use Rattle.std.specs.Option.{option_map};
ghost use Rattle.thin_tree.specs.Copies.{copied, copy_in, copies, targets, sources, at_place, walk, most_steps};
ghost use Rattle.design_form.specs.Numbers.{index_of};
ghost use Rattle.thin_tree.specs.Places.{places_at};
ghost use Rattle.thin_tree.specs.Written.{texts, all_copies};

use crate::expressions::name;
use crate::places::Places;
use design_form::Driver;
use std::alloc::{AllocError, Global};
use vlog_tree::Expr;

/// How often the steps are doubled: 2^20 steps are more than a design has drivers.
const DOUBLINGS: u32 = 20;

/// A driver whose value is a plain name: what the target is, the source is.
#[derive(Clone, Copy)]
pub(crate) struct Link<'a> {
    pub(crate) target: &'a [u8],
    pub(crate) source: &'a [u8],
}

/// A name, in brackets or not.
#[tactic(auto, unfolding(crate::specs::Copies::copied, crate::specs::Copies::copied_by_parts))]
fn copied(e: &Expr) -> Option<&[u8]>
    ensures { option_map (λ n. n.now) result ≡ copied e.now }
{
    match e {
        Expr::Name(_, name) => Some(name.as_slice()),
        Expr::Brackets(_, inner) => copied(inner.get()),
        _ => None,
    }
}

/// Puts a driver that is a copy at the end.
#[tactic(auto, unfolding(crate::specs::Copies::copy_in, crate::specs::Copies::copy_if, crate::specs::Copies::copy_to))]
fn push_copy<'a>(links: &mut Vec<Link<'a>>, driver: &'a Driver) -> Result<(), AllocError>
    ensures { OnOk result (all_copies links.new.items ≡ all_copies links.old.items ++ copy_in driver.now) }
{
    let Some(target) = name(&driver.target) else {
        return Ok(());
    };
    let Some(source) = copied(&driver.value) else {
        return Ok(());
    };
    links.push(Link { target, source })?;
    Ok(())
}

/// The copies among drivers.
#[tactic(auto, unfolding(crate::specs::Copies::copies))]
pub(crate) fn links<'a>(alloc: Global, drivers: &'a [Driver]) -> Result<Vec<Link<'a>>, AllocError>
    ensures { IfOk result (λ v. all_copies v.items ≡ copies drivers.now) }
{
    let mut links = Vec::new(alloc);
    for driver in drivers {
        push_copy(&mut links, driver)?;
    }
    Ok(links)
}

/// What is copied to.
pub(crate) fn targets<'a>(alloc: Global, links: &[Link<'a>]) -> Result<Vec<&'a [u8]>, AllocError>
    ensures { IfOk result (λ v. texts v.items ≡ targets (all_copies links.now)) }
{
    let mut names = Vec::new(alloc);
    for link in links {
        names.push(link.target)?;
    }
    Ok(names)
}

/// What is copied.
fn sources<'a>(alloc: Global, links: &[Link<'a>]) -> Result<Vec<&'a [u8]>, AllocError>
    ensures { IfOk result (λ v. texts v.items ≡ sources (all_copies links.now)) }
{
    let mut names = Vec::new(alloc);
    for link in links {
        names.push(link.source)?;
    }
    Ok(names)
}

/// The end where the name stands, or else the name itself.
#[tactic(auto, unfolding(crate::specs::Copies::at_place))]
pub(crate) fn led<'a>(places: &Places, ends: &[&'a [u8]], name: &'a [u8]) -> &'a [u8]
    ensures { result.now ≡ at_place (texts ends.now) name.now (places_at places.now name.now) }
{
    match places.get(name) {
        None => name,
        Some(place) => match ends.get(place) {
            None => name,
            Some(end) => *end,
        },
    }
}

/// Where each of some names is led.
fn all_led<'a>(
    alloc: Global,
    places: &Places,
    ends: &[&'a [u8]],
    names: &[&'a [u8]],
) -> Result<Vec<&'a [u8]>, AllocError>
    ensures { IfOk result (λ v. texts v.items ≡ map (λ e. at_place (texts ends.now) e (places_at places.now e)) (texts names.now)) }
{
    let mut further = Vec::new(alloc);
    for name in names {
        further.push(led(places, ends, *name))?;
    }
    Ok(further)
}

/// Where all copies lead to from each target. Each round doubles the steps.
pub(crate) fn ends<'a>(
    alloc: Global,
    places: &Places,
    links: &[Link<'a>],
) -> Result<Vec<&'a [u8]>, AllocError>
    requires { places_at places.now ≡ index_of (targets (all_copies links.now)) }
    ensures { IfOk result (λ v. texts v.items ≡ map (walk (all_copies links.now) most_steps) (targets (all_copies links.now))) }
{
    let targets = targets(alloc, links)?;
    let sources = sources(alloc, links)?;
    let mut ends = all_led(alloc, places, &sources, &targets)?;
    for round in 0..DOUBLINGS {
        let _round = round;
        ends = all_led(alloc, places, &ends, &ends)?;
    }
    Ok(ends)
}
