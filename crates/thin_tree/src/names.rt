//! What the names of a design are, and what they lead to.

ghost use Rattle.std.specs.Prelude.{◌≡◌, ℕ, List, map, filter, IfOk};
ghost use Rattle.std.specs.List.{list_all};
ghost use Rattle.std.specs.Option.{option_map};
ghost use Rattle.design_form.specs.Numbers.{index_of};
ghost use Rattle.thin_tree.specs.Copies.{copies, root, at_place};
ghost use Rattle.thin_tree.specs.Form.{is_among, is_input, input_names, class_in, class_of, signal_in, class_at, root_in};
ghost use Rattle.thin_tree.specs.Grammar.{is_ascii};
ghost use Rattle.thin_tree.specs.Places.{places_at};
ghost use Rattle.thin_tree.specs.Written.{texts, a_declared};

use crate::places::Places;
use crate::roots::{ends, led, links, targets};
use crate::tree::{Class, Declared};
use design_form::{Design, Side, Signal, SignalKind, TopPort};
use std::alloc::{AllocError, Global};

/// A design with tables of its input ports and copies.
#[derive(Drop)]
pub(crate) struct Names<'a> {
    pub(crate) design: &'a Design,
    inputs: Places,
    copied: Places,
    ends: Vec<&'a [u8]>,
    ghost inputs_are: { places_at inputs ≡ index_of (input_names design.now.ports) },
    ghost ends_are: { (name : List ℕ) → at_place (texts ends.items) name (places_at copied name) ≡ root_in design.now name },
}

#[tactic(auto, unfolding(crate::specs::Form::is_input))]
fn is_input(side: Side) -> bool
    ensures { result ≡ is_input side }
{
    match side {
        Side::Input => true,
        Side::Output => false,
    }
}

/// The names of the input ports.
fn input_names<'a>(alloc: Global, ports: &'a [TopPort]) -> Result<Vec<&'a [u8]>, AllocError>
    ensures { IfOk result (λ v. texts v.items ≡ input_names ports.now) }
{
    let mut names = Vec::new(alloc);
    for port in ports {
        if is_input(port.side) {
            names.push(port.name.as_slice())?;
        }
    }
    Ok(names)
}

#[tactic(auto, unfolding(crate::specs::Form::class_in))]
fn class_in(kind: SignalKind) -> Class
    ensures { result ≡ class_in kind }
{
    match kind {
        SignalKind::Register => Class::Register,
        _ => Class::Net,
    }
}

/// Each byte is ASCII.
#[tactic(auto, unfolding(crate::specs::Grammar::is_ascii))]
fn is_ascii(name: &[u8]) -> bool
    ensures { result ≡ is_ascii name.now }
{
    name.iter().all(|b| *b < 128)
}

impl<'a> Names<'a> {
    pub(crate) fn new(alloc: Global, design: &'a Design) -> Result<Names<'a>, AllocError>
        ensures { IfOk result (λ n. n.design.now ≡ design.now) }
    {
        let parts = design.parts();
        let inputs = Places::new(alloc, &input_names(alloc, parts.ports.as_slice())?)?;
        let links = links(alloc, parts.drivers.as_slice())?;
        let copied = Places::new(alloc, &targets(alloc, &links)?)?;
        let ends = ends(alloc, &copied, &links)?;
        Ok(Names {
            design,
            inputs,
            copied,
            ends,
        })
    }

    /// Whether an input port of the top has the name.
    fn is_input(&self, name: &[u8]) -> bool
        ensures { result ≡ is_among (input_names self.now.design.now.ports) name.now }
    {
        self.inputs.has(name)
    }

    /// An input port, a register, or a wire.
    #[tactic(auto, unfolding(crate::specs::Form::class_of))]
    fn class_of(&self, signal: &Signal) -> Class
        ensures { result ≡ class_of (input_names self.now.design.now.ports) signal.now }
    {
        if self.is_input(signal.name.as_slice()) {
            Class::Input
        } else {
            class_in(signal.kind)
        }
    }

    /// A signal of one bit.
    #[tactic(auto, unfolding(crate::specs::Form::signal_in, crate::specs::Form::where_so))]
    pub(crate) fn signal<'b>(&self, signal: &'b Signal) -> Option<Declared<'b>>
        ensures { option_map a_declared result ≡ signal_in (input_names self.now.design.now.ports) signal.now }
    {
        let name = signal.name.as_slice();
        let class = self.class_of(signal);
        if signal.is_single() && is_ascii(name) {
            Some(Declared { name, class })
        } else {
            None
        }
    }

    /// What the signal of that name is.
    pub(crate) fn class_at(&self, name: &[u8]) -> Option<Class>
        ensures { result ≡ class_at self.now.design.now name.now }
    {
        match self.design.signal(name) {
            None => None,
            Some(signal) => Some(self.class_of(signal)),
        }
    }

    /// The name that all copies lead to.
    pub(crate) fn root(&self, name: &'a [u8]) -> &'a [u8]
        ensures { result.now ≡ root_in self.now.design.now name.now }
    {
        led(&self.copied, &self.ends, name)
    }
}
