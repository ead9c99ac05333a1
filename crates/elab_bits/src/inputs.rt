//! The input ports of the top.
ghost use Rattle.std.specs.Prelude.{◌≡◌, ◌++◌, IfOk, OnOk};
ghost use Rattle.elab_bits.specs.Touches.{once};
ghost use Rattle.elab_bits.specs.Parts.{input_bits, port_bits};

use crate::selects::all_bits;
use crate::sets::set_of;
use crate::targets::put_bits;
use design_form::{Design, Side, TopPort};
use std::alloc::{AllocError, Global};
use std::collections::BTreeSet;
use std::marker::Model;

/// The bits of the top's input ports, which no process drives. Clauses see them as their numbers in ascending order.
#[derive(Drop)]
pub struct Inputs {
    bits: BTreeSet<u32>,
}

impl Model for Inputs {
    ghost use Rattle.std.specs.Prelude.{List, ℕ};

    ghost Value = { List ℕ };

    ghost view = { λ inputs. inputs.bits.keys };
}

impl Inputs {
    /// Those of a design.
    ///
    /// # Errors
    /// Want of memory.
    pub fn new(alloc: Global, design: &Design) -> Result<Inputs, AllocError>
        ensures { IfOk result (λ inputs. inputs ≡ once (input_bits design.now.signals design.now.ports)) }
    {
        let mut bits = Vec::new(alloc);
        put_inputs(design, design.parts().ports.as_slice(), &mut bits)?;
        let bits = set_of(alloc, &bits)?;
        Ok(Inputs { bits })
    }

    /// The set of them.
    pub(crate) fn set(&self) -> &BTreeSet<u32>
        ensures { result.now.keys ≡ self.now }
    {
        &self.bits
    }
}

/// The bits of a port, if it is an input.
#[tactic(auto, unfolding(crate::specs::Parts::port_bits, crate::specs::Parts::is_side))]
fn put_port(design: &Design, port: &TopPort, bits: &mut Vec<u32>) -> Result<(), AllocError>
    ensures { OnOk result (bits.new.items ≡ bits.old.items ++ port_bits design.now.signals port.now) }
{
    match port.side {
        Side::Input => put_bits(bits, all_bits(design, port.name.as_slice())),
        Side::Output => Ok(()),
    }
}

/// The bits of the input ports, behind what is there.
#[tactic(auto, unfolding(crate::specs::Parts::input_bits))]
pub(crate) fn put_inputs(
    design: &Design,
    ports: &[TopPort],
    bits: &mut Vec<u32>,
) -> Result<(), AllocError>
    ensures { OnOk result (bits.new.items ≡ bits.old.items ++ input_bits design.now.signals ports.now) }
{
    for port in ports {
        put_port(design, port, bits)?;
    }
    Ok(())
}
