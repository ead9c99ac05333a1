//! The top of a design.
ghost use Rattle.std.specs.Prelude.{◌≡◌, ◌⊎◌, None, map, IfOk};
ghost use Rattle.elab_names.specs.Answers.{Answers};
ghost use Rattle.elab_names.specs.declared.fault.ElabFault.TheVariants.{Memory, NoModule, TwoModules};
ghost use Rattle.elab_items.specs.Tables.{lib_of};
ghost use Rattle.elab_tree.specs.Tables.{lent, state_of};
ghost use Rattle.elab_tree.specs.Tops.{grown_from, nothing, port_of, second_place, side_of, position_in, top_of, top_ports, twice_at};

use crate::growth::Growth;
use crate::hierarchy::instance;
use design_form::{Side, TopPort};
use elab_binds::{Found, Library, Pin, pins_of_module};
use elab_drivers::Draft;
use elab_items::{Pending, Plan};
use elab_names::{ElabFault, Scope};
use elab_scopes::{Drawing, Given, taken};
use rdc_outside::{Place, Seq};
use sqlite_items::at;
use std::alloc::{AllocError, Global};
use vlog_tree::Module;

/// How many levels there may be, the top among them.
const MOST_LEVELS: u32 = 256;

/// No module has the name of the top.
fn no_top(alloc: Global, name: &[u8]) -> ElabFault
    ensures { (result ≡ Memory) ⊎ (result ≡ NoModule name.now None) }
{
    match name.to_vec(alloc) {
        Ok(name) => ElabFault::NoModule(Seq::from_vec(name), None),
        Err(_) => ElabFault::Memory,
    }
}

/// Two have it.
fn two_tops(alloc: Global, name: &[u8], place: Place) -> ElabFault
    ensures { (result ≡ Memory) ⊎ (result ≡ TwoModules name.now place) }
{
    match name.to_vec(alloc) {
        Ok(name) => ElabFault::TwoModules(Seq::from_vec(name), place),
        Err(_) => ElabFault::Memory,
    }
}

/// The place of the second module of that name, or else of the only one.
#[tactic(auto, unfolding(crate::specs::Tops::second_place))]
fn second_place(modules: &[Module], name: &[u8]) -> Option<Place>
    ensures { result ≡ second_place modules.now name.now None }
{
    let mut first = None;
    for module in modules {
        if module.name.name.as_slice() == name {
            if first.is_some() {
                return Some(module.name.place);
            }
            first = Some(module.name.place);
        }
    }
    first
}

/// A fault of a top whose name two have.
#[tactic(auto, unfolding(crate::specs::Tops::twice_at))]
fn twice(alloc: Global, modules: &[Module], name: &[u8]) -> Result<usize, ElabFault>
    ensures { Answers (λ k. k) result (twice_at name.now (second_place modules.now name.now None)) }
{
    match second_place(modules, name) {
        Some(place) => Err(two_tops(alloc, name, place)),
        None => Err(no_top(alloc, name)),
    }
}

/// The top of a design.
#[derive(Clone, Copy)]
pub struct Top<'a> {
    /// Its place in the list of modules.
    pub position: usize,
    pub body: &'a Module,
}

/// Where the top stands in the list of modules.
#[tactic(auto, unfolding(crate::specs::Tops::top_as, elab_binds::specs::Books::found_as))]
fn position_of(alloc: Global, library: &Library<'_>, name: &[u8]) -> Result<usize, ElabFault>
    ensures { Answers (λ k. k) result (position_in (lib_of library.now) name.now) }
{
    let nowhere = Place {
        file: 0,
        line: 0,
        col: 0,
    };
    match library.find(alloc, name, nowhere) {
        Ok(Found::Module(k)) => Ok(k),
        Ok(Found::Box(_)) => Err(no_top(alloc, name)),
        Err(ElabFault::TwoModules(_, _)) => twice(alloc, library.modules, name),
        Err(ElabFault::NoModule(_, _)) => Err(no_top(alloc, name)),
        Err(_) => Err(ElabFault::Memory),
    }
}

/// The top of a design, which is looked up among the modules alone.
///
/// # Errors
/// `NoModule` without a place where no module has the name, and `TwoModules` at the second that has it.
#[tactic(auto, unfolding(crate::specs::Tops::top_of, crate::specs::Tops::top_at, elab_names::specs::Answers::and_then))]
pub fn top_of<'a>(alloc: Global, library: &Library<'a>, name: &[u8]) -> Result<Top<'a>, ElabFault>
    ensures { Answers lent result (top_of (lib_of library.now) name.now) }
{
    let position = position_of(alloc, library, name)?;
    match at(library.modules, position) {
        Some(body) => Ok(Top { position, body }),
        None => Err(no_top(alloc, name)),
    }
}

/// Nothing is elaborated.
fn nothing(alloc: Global) -> Growth
    ensures { state_of result ≡ nothing }
{
    Growth {
        plan: Plan {
            draft: Draft {
                drawing: Drawing {
                    scope: Scope::new(alloc),
                    signals: Vec::new(alloc),
                },
                drivers: Vec::new(alloc),
                processes: Vec::new(alloc),
                gates: Vec::new(alloc),
            },
            boxes: Vec::new(alloc),
            pending: Vec::new(alloc),
            around: Vec::new(alloc),
            turns: 0,
        },
        size: 0,
    }
}

/// The flat design below a top, and its size.
///
/// # Errors
/// Of the first instance that has one what `open_scope` and `items` answer of its module, `Recursion` at an instance within an
/// instance of its own module, `HierLimit` at one that stands 256 deep, and `Heavy` at the one with whose own part the instances
/// and the declared bits reach 1,048,576.
#[tactic(auto, unfolding(crate::specs::Tops::most_levels))]
pub fn grown_from(alloc: Global, library: &Library<'_>, top: &Top<'_>) -> Result<Growth, ElabFault>
    ensures { Answers state_of result (grown_from (lib_of library.now) (lent top.now)) }
{
    let mut g = nothing(alloc);
    let topmost = Pending {
        position: top.position,
        prefix: Seq::new(alloc),
        given: Given::none(alloc),
        place: top.body.name.place,
    };
    instance(alloc, &mut g, library, &[], &topmost, MOST_LEVELS)?;
    Ok(g)
}

/// The side of a port.
#[tactic(auto, unfolding(crate::specs::Tops::side_of))]
fn side_of(input: bool) -> Side
    ensures { result ≡ side_of input }
{
    if input { Side::Input } else { Side::Output }
}

/// A port of the top.
fn port_of(alloc: Global, pin: &Pin) -> Result<TopPort, AllocError>
    ensures { IfOk result (λ p. p ≡ port_of pin.now) }
{
    Ok(TopPort {
        name: Seq::from_vec(pin.name.as_slice().to_vec(alloc)?),
        side: side_of(pin.input),
    })
}

/// Ports of the top, of the pins that an instance would see.
fn ports_of(alloc: Global, pins: &[Pin]) -> Result<Vec<TopPort>, AllocError>
    ensures { IfOk result (λ ports. ports.items ≡ map port_of pins.now) }
{
    let mut ports = Vec::with_capacity(alloc, pins.len())?;
    for pin in pins {
        ports.push(port_of(alloc, pin)?)?;
    }
    Ok(ports)
}

/// The ports of the top, in the order of their list.
///
/// # Errors
/// What `taken` answers of its body.
#[tactic(auto, unfolding(crate::specs::Tops::top_ports, elab_names::specs::Answers::and_then))]
pub fn top_ports(alloc: Global, body: &Module) -> Result<Vec<TopPort>, ElabFault>
    ensures { Answers (λ ports. ports.items) result (top_ports body.now) }
{
    let entries = taken(
        alloc,
        body.parameters.as_slice(),
        body.ports.as_slice(),
        body.items.as_slice(),
    )?;
    let pins = pins_of_module(alloc, body.ports.as_slice(), &entries)?;
    Ok(ports_of(alloc, &pins)?)
}
