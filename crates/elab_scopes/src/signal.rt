//! The signals of a scope.
ghost use Rattle.std.specs.Prelude.{◌≡◌, true, [], ◌∷◌, ◌++◌, IfOk, OnOk, None, Some};
ghost use Rattle.std.specs.Option.{option_copied};
ghost use Rattle.vlog_tree.specs.declared.port.Port.TheVariants as port;
ghost use Rattle.elab_decls.specs.Mentions.{port_as, spread};
ghost use Rattle.elab_decls.specs.Tables.{table_of};
ghost use Rattle.elab_scopes.specs.Signals.{drawn, integer, is_input, kind_in, known, placed, shaped, signals, signals_of_item, signals_of_port, with_signal};
ghost use Rattle.elab_scopes.specs.Tables.{Changes, drawn_of};
ghost use Rattle.elab_scopes.specs.Threads.{threaded};

use crate::drawing::Drawing;
use crate::placed::Placed;
use crate::ranges::vector;
use design_form::{Bounds, Signal, SignalKind};
use elab_decls::{Entries, Entry, Form, Naming, last_after};
use elab_names::{ElabFault, Known, Meaning};
use rdc_outside::Seq;
use std::alloc::{AllocError, Global};
use vlog_tree::{Direction, Ident, Item, Port, Shape};

/// What a signal is; a port that is no register is a wire.
#[tactic(auto, unfolding(crate::specs::Signals::kind_in))]
fn kind_in(form: Option<Form>) -> SignalKind
    ensures { result ≡ kind_in form }
{
    match form {
        Some(Form::Register) => SignalKind::Register,
        Some(Form::Integer) => SignalKind::Integer,
        Some(Form::Wire | Form::Genvar | Form::Thing) | None => SignalKind::Wire,
    }
}

/// Whether a direction is that of an input.
#[tactic(auto, unfolding(crate::specs::Signals::is_input))]
fn is_input(direction: Option<Direction>) -> bool
    ensures { result ≡ is_input direction }
{
    matches!(direction, Some(Direction::Input))
}

/// A signal's printed name.
fn printed(alloc: Global, prefix: &[u8], name: &[u8]) -> Result<Seq<u8>, AllocError>
    ensures { IfOk result (λ printed. printed ≡ prefix.now ++ name.now) }
{
    let mut printed = Vec::with_capacity(alloc, prefix.len())?;
    printed.extend_from_slice(prefix)?;
    printed.extend_from_slice(name)?;
    Ok(Seq::from_vec(printed))
}

/// A signal under its printed name.
fn known(
    alloc: Global,
    prefix: &[u8],
    entry: &Entry,
    signed: bool,
    range: Option<Bounds>,
    name: &[u8],
) -> Result<Known, AllocError>
    ensures { IfOk result (λ k. k ≡ known prefix.now entry.now signed range name.now) }
{
    Ok(Known {
        printed: printed(alloc, prefix, name)?,
        kind: kind_in(entry.form),
        signed,
        range,
        input: is_input(entry.direction),
    })
}

/// The signal of the flat design.
fn placed(alloc: Global, known: &Known, name: &Ident) -> Result<Placed, AllocError>
    ensures { IfOk result (λ p. p ≡ placed known.now name.now.place) }
{
    let printed = Seq::from_vec(known.printed.as_slice().to_vec(alloc)?);
    Ok(Placed {
        signal: Signal {
            name: printed,
            kind: known.kind,
            signed: known.signed,
            range: known.range,
        },
        place: name.place,
    })
}

/// How names are declared.
#[derive(Clone, Copy)]
struct Manner<'a> {
    prefix: &'a [u8],
    entries: &'a Entries,
    /// Whether the declaration gives a port its direction.
    gives: bool,
}

impl<'a> Manner<'a> {
    fn new(prefix: &'a [u8], entries: &'a Entries, gives: bool) -> Manner<'a>
        ensures prefix { result.prefix.now ≡ prefix.now }
        ensures entries { result.entries.now ≡ entries.now }
        ensures gives { result.gives ≡ gives }
    {
        Manner {
            prefix,
            entries,
            gives,
        }
    }
}

impl Drawing {
    /// One more signal.
    fn add(&mut self, alloc: Global, known: Known, name: &Ident) -> Result<(), AllocError>
        ensures { OnOk result (drawn_of self.new ≡ with_signal (drawn_of self.old) known name.now) }
    {
        self.signals.push(placed(alloc, &known, name)?)?;
        self.scope.set(name.name.as_slice(), Meaning::Signal(known))
    }
}

/// One more declaration: of a port the one that gives its direction tells its range, and any other name has one alone.
#[tactic(auto, unfolding(crate::specs::Signals::drawn, crate::specs::Signals::drawn_as))]
fn draw(
    alloc: Global,
    d: &mut Drawing,
    manner: &Manner<'_>,
    range: Option<Bounds>,
    name: &Ident,
) -> Result<(), ElabFault>
    ensures { Changes result (drawn_of d.new) (drawn manner.now.prefix.now (table_of manner.now.entries.now).at manner.now.gives range (drawn_of d.old) (Some name.now)) }
{
    let Some(entry) = manner.entries.get(name.name.as_slice()) else {
        return Ok(());
    };
    if !manner.gives && entry.direction.is_some() {
        return Ok(());
    }
    let known = known(
        alloc,
        manner.prefix,
        entry,
        entry.signed,
        range,
        name.name.as_slice(),
    )?;
    d.add(alloc, known, name)?;
    Ok(())
}

/// The same of what may have a name.
#[tactic(auto, unfolding(crate::specs::Signals::drawn))]
fn draw_one<N: Naming>(
    alloc: Global,
    d: &mut Drawing,
    manner: &Manner<'_>,
    range: Option<Bounds>,
    one: &N,
) -> Result<(), ElabFault>
    ensures { Changes result (drawn_of d.new) (drawn manner.now.prefix.now (table_of manner.now.entries.now).at manner.now.gives range (drawn_of d.old) (N.ident one.now)) }
{
    match one.ident() {
        Some(name) => draw(alloc, d, manner, range, name),
        None => Ok(()),
    }
}

/// Names of one range.
fn draw_all<N: Naming>(
    alloc: Global,
    d: &mut Drawing,
    manner: &Manner<'_>,
    range: Option<Bounds>,
    all: &[N],
) -> Result<(), ElabFault>
    ensures { Changes result (drawn_of d.new) (threaded (λ e x. drawn manner.now.prefix.now (table_of manner.now.entries.now).at manner.now.gives range e (N.ident x)) (drawn_of d.old) all.now) }
{
    for one in all {
        match draw_one(alloc, d, manner, range, one) {
            Ok(()) => {}
            Err(fault) => return Err(fault),
        }
    }
    Ok(())
}

/// Names of one shape.
#[tactic(auto, unfolding(crate::specs::Signals::shaped, elab_names::specs::Answers::and_then))]
fn draw_shaped<N: Naming>(
    alloc: Global,
    d: &mut Drawing,
    manner: &Manner<'_>,
    shape: &Shape,
    all: &[N],
) -> Result<(), ElabFault>
    ensures { Changes result (drawn_of d.new) (shaped N.ident manner.now.prefix.now (table_of manner.now.entries.now).at manner.now.gives shape.now all.now (drawn_of d.old)) }
{
    let range = vector(alloc, &shape.range, &d.scope)?;
    draw_all(alloc, d, manner, range, all)
}

/// An integer, which is signed and has the range `[31:0]`.
#[tactic(auto, unfolding(crate::specs::Signals::integer, crate::specs::Signals::integer_as))]
fn draw_integer(
    alloc: Global,
    d: &mut Drawing,
    prefix: &[u8],
    entries: &Entries,
    name: &Ident,
) -> Result<(), ElabFault>
    ensures { Changes result (drawn_of d.new) (integer prefix.now (table_of entries.now).at (drawn_of d.old) name.now) }
{
    let Some(entry) = entries.get(name.name.as_slice()) else {
        return Ok(());
    };
    let range = Some(Bounds { msb: 31, lsb: 0 });
    let known = known(alloc, prefix, entry, true, range, name.name.as_slice())?;
    d.add(alloc, known, name)?;
    Ok(())
}

/// Integers.
fn draw_integers(
    alloc: Global,
    d: &mut Drawing,
    prefix: &[u8],
    entries: &Entries,
    names: &[Ident],
) -> Result<(), ElabFault>
    ensures { Changes result (drawn_of d.new) (threaded (integer prefix.now (table_of entries.now).at) (drawn_of d.old) names.now) }
{
    for name in names {
        match draw_integer(alloc, d, prefix, entries, name) {
            Ok(()) => {}
            Err(fault) => return Err(fault),
        }
    }
    Ok(())
}

/// Those of items.
#[cycle(items)]
fn draw_items(
    alloc: Global,
    d: &mut Drawing,
    prefix: &[u8],
    entries: &Entries,
    items: &[Item],
) -> Result<(), ElabFault>
    ensures { Changes result (drawn_of d.new) (threaded (signals_of_item prefix.now (table_of entries.now).at) (drawn_of d.old) items.now) }
{
    for item in items {
        match draw_item(alloc, d, prefix, entries, item) {
            Ok(()) => {}
            Err(fault) => return Err(fault),
        }
    }
    Ok(())
}

/// Those of an item.
#[cycle(items)]
#[tactic(auto, using(crate::proofs::SignalForms::forms))]
fn draw_item(
    alloc: Global,
    d: &mut Drawing,
    prefix: &[u8],
    entries: &Entries,
    item: &Item,
) -> Result<(), ElabFault>
    ensures { Changes result (drawn_of d.new) (signals_of_item prefix.now (table_of entries.now).at (drawn_of d.old) item.now) }
{
    match item {
        Item::Ports(_, _, shape, names) => {
            let manner = Manner::new(prefix, entries, true);
            draw_shaped(alloc, d, &manner, shape, names.as_slice())
        }
        Item::Wires(_, shape, nets) => {
            let manner = Manner::new(prefix, entries, false);
            draw_shaped(alloc, d, &manner, shape, nets.as_slice())
        }
        Item::Registers(_, shape, names) => {
            let manner = Manner::new(prefix, entries, false);
            draw_shaped(alloc, d, &manner, shape, names.as_slice())
        }
        Item::Integers(_, names) => draw_integers(alloc, d, prefix, entries, names.as_slice()),
        Item::Generate(_, items) => draw_items(alloc, d, prefix, entries, items.as_slice()),
        Item::Genvars(_, _)
        | Item::Parameters(_, _, _)
        | Item::Constants(_, _, _)
        | Item::Assign(_, _)
        | Item::Always(_, _, _)
        | Item::Gates(_, _, _)
        | Item::Instances(_, _, _, _)
        | Item::For(_, _, _, _)
        | Item::If(_, _, _, _)
        | Item::Case(_, _, _) => Ok(()),
    }
}

/// That of a port that is declared in the list.
#[tactic(auto, unfolding(crate::specs::Signals::shaped, crate::specs::Threads::threaded, elab_names::specs::Answers::and_then))]
fn draw_headed(
    alloc: Global,
    d: &mut Drawing,
    manner: &Manner<'_>,
    shape: &Shape,
    name: &Ident,
) -> Result<(), ElabFault>
    ensures { Changes result (drawn_of d.new) (shaped Some manner.now.prefix.now (table_of manner.now.entries.now).at manner.now.gives shape.now (name.now ∷ []) (drawn_of d.old)) }
{
    let range = vector(alloc, &shape.range, &d.scope)?;
    draw(alloc, d, manner, range, name)
}

/// That of a name alone in the list, behind the last declared port.
#[tactic(auto, unfolding(crate::specs::Signals::signals_of_port, elab_decls::specs::Mentions::port_as))]
fn draw_listed(
    alloc: Global,
    d: &mut Drawing,
    manner: &Manner<'_>,
    last: Option<&Port>,
    name: &Ident,
) -> Result<(), ElabFault>
    requires { manner.now.gives ≡ true }
    ensures { Changes result (drawn_of d.new) (signals_of_port manner.now.prefix.now (table_of manner.now.entries.now).at (drawn_of d.old) (port_as (option_copied last.entry) (port.Named name.now))) }
{
    match last {
        Some(Port::Declared(_, shape, _)) => draw_headed(alloc, d, manner, shape, name),
        Some(Port::Named(_)) => Ok(()),
        None => Ok(()),
    }
}

/// That of a port in the list, behind the last declared one.
#[tactic(auto, unfolding(crate::specs::Signals::signals_of_port, elab_decls::specs::Mentions::port_as))]
fn draw_port(
    alloc: Global,
    d: &mut Drawing,
    manner: &Manner<'_>,
    last: Option<&Port>,
    port: &Port,
) -> Result<(), ElabFault>
    requires { manner.now.gives ≡ true }
    ensures { Changes result (drawn_of d.new) (signals_of_port manner.now.prefix.now (table_of manner.now.entries.now).at (drawn_of d.old) (port_as (option_copied last.entry) port.now)) }
{
    match port {
        Port::Declared(_, shape, name) => draw_headed(alloc, d, manner, shape, name),
        Port::Named(name) => draw_listed(alloc, d, manner, last, name),
    }
}

/// Those of a list of ports.
fn draw_ports(
    alloc: Global,
    d: &mut Drawing,
    manner: &Manner<'_>,
    ports: &[Port],
) -> Result<(), ElabFault>
    requires { manner.now.gives ≡ true }
    ensures { Changes result (drawn_of d.new) (threaded (signals_of_port manner.now.prefix.now (table_of manner.now.entries.now).at) (drawn_of d.old) (spread None ports.now)) }
{
    let mut last = None;
    for port in ports {
        match draw_port(alloc, d, manner, last, port) {
            Ok(()) => {}
            Err(fault) => return Err(fault),
        }
        last = last_after(last, port);
    }
    Ok(())
}

/// The signals of a scope, in the order of the text: those of a module's list of ports, which a generate block hasn't, and
/// those of its items. `entries` is what the scope declares; each signal gets its name behind `prefix`, and the scope knows
/// it by its own.
///
/// # Errors
/// What `vector` answers of the first range that has none.
#[tactic(auto, unfolding(crate::specs::Signals::signals, elab_names::specs::Answers::and_then))]
pub fn signals(
    alloc: Global,
    d: &mut Drawing,
    prefix: &[u8],
    entries: &Entries,
    ports: &[Port],
    items: &[Item],
) -> Result<(), ElabFault>
    ensures { Changes result (drawn_of d.new) (signals prefix.now (table_of entries.now).at (drawn_of d.old) ports.now items.now) }
{
    draw_ports(alloc, d, &Manner::new(prefix, entries, true), ports)?;
    draw_items(alloc, d, prefix, entries, items)
}
