//! Instances.
ghost use Rattle.std.specs.Prelude.{◌≡◌, IfOk, OnOk, map};
ghost use Rattle.elab_items.specs.Instances.{black_box, box_port, inner, instance_of, instanced, of_box, of_module, passes, side_of, with_box, with_pending};
ghost use Rattle.elab_items.specs.Tables.{lib_of, pending_of, plan_of};
ghost use Rattle.elab_scopes.specs.Tables.{Changes};
ghost use Rattle.elab_scopes.specs.Threads.{threaded};

use crate::plan::{Pending, Plan};
use design_form::{BlackBox, Bounds, BoxPort, Side};
use elab_binds::{
    BoxPorts, Found, Library, PortShape, bind, box_signals, given, parameter_names, pins_of_box,
    pins_of_module,
};
use elab_names::ElabFault;
use elab_scopes::taken;
use rdc_outside::Seq;
use sqlite_items::at;
use std::alloc::{AllocError, Global};
use vlog_tree::{Connections, Ident, Instance, Module};

/// What goes before the names in an instance.
fn inner(alloc: Global, prefix: &[u8], name: &Ident) -> Result<Vec<u8>, AllocError>
    ensures { IfOk result (λ p. p.items ≡ inner prefix.now name.now) }
{
    let mut inner = prefix.to_vec(alloc)?;
    inner.extend_from_slice(name.name.as_slice())?;
    inner.push(b'.')?;
    Ok(inner)
}

impl Plan {
    /// One more instance to be elaborated.
    fn wait(&mut self, pending: Pending) -> Result<(), AllocError>
        ensures { OnOk result (plan_of self.new ≡ with_pending (plan_of self.old) (pending_of pending)) }
    {
        self.pending.push(pending)?;
        Ok(())
    }

    /// One more box.
    fn keep(&mut self, black_box: BlackBox) -> Result<(), AllocError>
        ensures { OnOk result (plan_of self.new ≡ with_box (plan_of self.old) black_box) }
    {
        self.boxes.push(black_box)?;
        Ok(())
    }
}

/// What an instance says.
#[derive(Clone, Copy)]
pub(crate) struct Said<'a> {
    /// What goes before the names of the scope.
    pub(crate) prefix: &'a [u8],
    /// The name of the module.
    pub(crate) called: &'a Ident,
    /// What is passed to its parameters.
    pub(crate) passed: &'a Connections,
}

/// An instance of a module, which stands at `place` in the list of modules.
#[tactic(auto, unfolding(crate::specs::Instances::of_module, elab_names::specs::Answers::and_then))]
fn of_module(
    alloc: Global,
    p: &mut Plan,
    said: Said<'_>,
    i: &Instance,
    k: usize,
    held: &Module,
) -> Result<(), ElabFault>
    ensures { Changes result (plan_of p.new) (of_module said.entry.prefix.now said.entry.called.now said.entry.passed.now (plan_of p.old) i.now k held.now) }
{
    let names = parameter_names(alloc, held.parameters.as_slice(), held.items.as_slice())?;
    let scope = &p.draft.drawing.scope;
    let given = given(
        alloc,
        said.passed,
        names.as_slice(),
        scope,
        said.called.place,
    )?;
    let entries = taken(
        alloc,
        held.parameters.as_slice(),
        held.ports.as_slice(),
        held.items.as_slice(),
    )?;
    let pins = pins_of_module(alloc, held.ports.as_slice(), &entries)?;
    let prefix = inner(alloc, said.prefix, &i.name)?;
    bind(
        alloc,
        &mut p.draft,
        &prefix,
        &pins,
        &i.connections,
        i.name.place,
    )?;
    p.wait(Pending {
        position: k,
        prefix: Seq::from_vec(prefix),
        given,
        place: i.name.place,
    })?;
    Ok(())
}

/// Whether parameters are passed.
#[tactic(auto, unfolding(crate::specs::Instances::passes))]
fn passes(passed: &Connections) -> bool
    ensures { result ≡ passes passed.now }
{
    match passed {
        Connections::Ordered(values) => !values.is_empty(),
        Connections::Named(named) => !named.is_empty(),
    }
}

/// The side of a port.
#[tactic(auto, unfolding(crate::specs::Instances::side_of))]
fn side_of(input: bool) -> Side
    ensures { result ≡ side_of input }
{
    if input { Side::Input } else { Side::Output }
}

/// A port of a box in the flat design.
fn box_port(alloc: Global, shape: &PortShape) -> Result<BoxPort, AllocError>
    ensures { IfOk result (λ p. p ≡ box_port shape.now) }
{
    Ok(BoxPort {
        name: Seq::from_vec(shape.name.as_slice().to_vec(alloc)?),
        side: side_of(shape.input),
        range: Some(Bounds {
            msb: shape.msb,
            lsb: shape.lsb,
        }),
    })
}

/// The ports of a box in the flat design.
fn box_ports(alloc: Global, shapes: &[PortShape]) -> Result<Vec<BoxPort>, AllocError>
    ensures { IfOk result (λ ps. ps.items ≡ map box_port shapes.now) }
{
    let mut ports = Vec::with_capacity(alloc, shapes.len())?;
    for shape in shapes {
        ports.push(box_port(alloc, shape)?)?;
    }
    Ok(ports)
}

/// A box in the flat design.
fn black_box(
    alloc: Global,
    said: Said<'_>,
    name: &Ident,
    shape: &BoxPorts,
) -> Result<BlackBox, AllocError>
    ensures { IfOk result (λ b. b ≡ black_box said.entry.prefix.now said.entry.called.now said.entry.passed.now name.now shape.now) }
{
    let mut printed = said.prefix.to_vec(alloc)?;
    printed.extend_from_slice(name.name.as_slice())?;
    Ok(BlackBox {
        place: name.place,
        name: Seq::from_vec(printed),
        module: Seq::from_vec(said.called.name.as_slice().to_vec(alloc)?),
        has_parameters: passes(said.passed),
        ports: Seq::from_vec(box_ports(alloc, shape.ports.as_slice())?),
    })
}

/// An instance of a box.
#[tactic(auto, unfolding(crate::specs::Instances::of_box, elab_names::specs::Answers::and_then))]
fn of_box(
    alloc: Global,
    p: &mut Plan,
    said: Said<'_>,
    i: &Instance,
    shape: &BoxPorts,
) -> Result<(), ElabFault>
    ensures { Changes result (plan_of p.new) (of_box said.entry.prefix.now said.entry.called.now said.entry.passed.now (plan_of p.old) i.now shape.now) }
{
    let prefix = inner(alloc, said.prefix, &i.name)?;
    let pins = pins_of_box(alloc, shape.ports.as_slice())?;
    let d = &mut p.draft;
    box_signals(
        alloc,
        &mut d.drawing,
        &prefix,
        shape.ports.as_slice(),
        i.name.place,
    )?;
    bind(alloc, d, &prefix, &pins, &i.connections, i.name.place)?;
    p.keep(black_box(alloc, said, &i.name, shape)?)?;
    Ok(())
}

/// An instance of what its module's name was found to mean.
#[tactic(auto, unfolding(crate::specs::Instances::instance_of, crate::specs::Instances::module_at, crate::specs::Instances::box_at))]
fn instance_of(
    alloc: Global,
    p: &mut Plan,
    library: &Library<'_>,
    said: Said<'_>,
    i: &Instance,
    found: Found,
) -> Result<(), ElabFault>
    ensures { Changes result (plan_of p.new) (instance_of (lib_of library.now) said.entry.prefix.now said.entry.called.now said.entry.passed.now (plan_of p.old) i.now found) }
{
    match found {
        Found::Module(k) => match at(library.modules, k) {
            Some(module) => of_module(alloc, p, said, i, k, module),
            None => Ok(()),
        },
        Found::Box(k) => match at(library.boxes, k) {
            Some(shape) => of_box(alloc, p, said, i, shape),
            None => Ok(()),
        },
    }
}

/// One instance.
#[tactic(auto, unfolding(crate::specs::Instances::instanced, elab_names::specs::Answers::and_then))]
fn instance(
    alloc: Global,
    p: &mut Plan,
    library: &Library<'_>,
    said: Said<'_>,
    i: &Instance,
) -> Result<(), ElabFault>
    ensures { Changes result (plan_of p.new) (instanced (lib_of library.now) said.entry.prefix.now said.entry.called.now said.entry.passed.now (plan_of p.old) i.now) }
{
    let found = library.find(alloc, said.called.name.as_slice(), said.called.place)?;
    instance_of(alloc, p, library, said, i, found)
}

/// Instances of one module or box.
pub(crate) fn instances(
    alloc: Global,
    p: &mut Plan,
    library: &Library<'_>,
    said: Said<'_>,
    all: &[Instance],
) -> Result<(), ElabFault>
    ensures { Changes result (plan_of p.new) (threaded (instanced (lib_of library.now) said.entry.prefix.now said.entry.called.now said.entry.passed.now) (plan_of p.old) all.now) }
{
    for one in all {
        match instance(alloc, p, library, said, one) {
            Ok(()) => {}
            Err(fault) => return Err(fault),
        }
    }
    Ok(())
}
