//! Elaboration.
ghost use Rattle.std.specs.Prelude.{◌≡◌};
ghost use Rattle.elab_names.specs.Answers.{Answers};
ghost use Rattle.elab_items.specs.Tables.{lib_of};
ghost use Rattle.elab_tree.specs.Tables.{state_of};
ghost use Rattle.std.specs.Prelude.{List};
ghost use Rattle.design_form.specs.declared.parts.TopPort.{TopPort};
ghost use Rattle.elab_scopes.specs.declared.placed.Placed.{Placed};
ghost use Rattle.vlog_elab.specs.Orders.{IsInOrder};
ghost use Rattle.vlog_elab.specs.Flat.{Elaborates, checked, finished, laid, numbered};

use crate::once::once;
use crate::ordering::{differ, in_order};
use crate::parts::{laid, places_of};
use crate::tally::tallied;
use design_form::{Design, DesignFault, Parts, TopPort};
use elab_binds::{BoxPorts, Library};
use elab_bits::judge;
use elab_names::ElabFault;
use elab_scopes::Placed;
use elab_sound::sound;
use elab_tree::{Growth, Top, grown_from, top_of, top_ports};
use rdc_outside::Place;
use std::alloc::Global;
use std::mem;
use vlog_tree::Module;

/// Whether a design is sound.
#[tactic(auto, unfolding(crate::specs::Flat::checked, elab_names::specs::Answers::and_then))]
fn checked(alloc: Global, design: &Design, places: &[Place], size: u32) -> Result<(), ElabFault>
    ensures { Answers (λ u. u) result (checked design.now places.now size) }
{
    once(alloc, design, places)?;
    sound(alloc, design)?;
    let tally = tallied(alloc, design, size)?;
    judge(alloc, design, &tally.drives, &tally.reads)
}

/// A design of these parts, whose bits can be numbered.
#[tactic(auto, unfolding(crate::specs::Flat::numbered))]
fn numbered(alloc: Global, place: Place, parts: Parts) -> Result<Design, ElabFault>
    ensures { Answers (λ d. d) result (numbered place parts) }
{
    if !parts.is_countable() {
        return Err(ElabFault::Heavy(place));
    }
    match Design::new(alloc, parts) {
        Ok(design) => Ok(design),
        Err(DesignFault::Memory) => Err(ElabFault::Memory),
    }
}

/// The signals of a design in name order; none is left where they stood.
fn ordered(alloc: Global, g: &mut Growth) -> Vec<Placed>
    ensures order { IsInOrder (state_of g.old).plan.draft.drawn.signals result.items }
    ensures rest { (ps : List Placed) (ports : List TopPort) → laid ps ports (state_of g.new).plan ≡ laid ps ports (state_of g.old).plan }
    ensures size { g.new.size ≡ g.old.size }
{
    let signals = mem::replace(&mut g.plan.draft.drawing.signals, Vec::new(alloc));
    in_order(signals)
}

/// A design, once it is sound.
#[tactic(auto, unfolding(crate::specs::Flat::finished, elab_names::specs::Answers::and_then))]
fn finished(
    alloc: Global,
    place: Place,
    signals: Vec<Placed>,
    ports: Vec<TopPort>,
    g: Growth,
) -> Result<Design, ElabFault>
    ensures { Answers (λ d. d) result (finished place signals.items ports.items (state_of g)) }
{
    differ(alloc, &signals)?;
    let places = places_of(alloc, &signals)?;
    let size = g.size;
    let parts = laid(alloc, signals, ports, g.plan)?;
    let design = numbered(alloc, place, parts)?;
    checked(alloc, &design, &places, size)?;
    Ok(design)
}

/// The flat design below the module of a name.
fn elaborated(alloc: Global, library: &Library<'_>, name: &[u8]) -> Result<Design, ElabFault>
    ensures { Elaborates (lib_of library.now) name.now result }
{
    let top = match top_of(alloc, library, name) {
        Ok(top) => top,
        Err(fault) => return Err(fault),
    };
    let ports = match top_ports(alloc, top.body) {
        Ok(ports) => ports,
        Err(fault) => return Err(fault),
    };
    let mut g = match grown_from(alloc, library, &top) {
        Ok(g) => g,
        Err(fault) => return Err(fault),
    };
    let signals = ordered(alloc, &mut g);
    finished(alloc, top.body.name.place, signals, ports, g)
}

/// The flat design below the module `top`, where `boxes` are known by their ports alone.
///
/// Its names are hierarchical, a number stands in the place of each constant, and each bit that is read has one driver.
///
/// # Errors
/// Of the first part that has one, in this order: `NoModule` and `TwoModules` of the top; what its own declarations and those of
/// the instances below it say (`top_ports`, `grown_from`); `TwiceDeclared` of a name or a bit that two signals have;
/// what `sound` says of its expressions; `Heavy` at the driver, gate or process with which the weight reaches 1,048,576, and of a
/// process the fault of its loops; and `TwiceDriven` or `Undriven` of a bit.
pub fn elaborate(
    alloc: Global,
    modules: &[Module],
    top: &str,
    boxes: &[BoxPorts],
) -> Result<Design, ElabFault>
    ensures { Elaborates (record { modules = modules.now; boxes = boxes.now }) top.now result }
{
    let library = Library::new(alloc, modules, boxes)?;
    elaborated(alloc, &library, top.as_bytes())
}
