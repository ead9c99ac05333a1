//! Reads a flat design of the form.

ghost use Rattle.std.specs.Prelude.{IfOk};
ghost use Rattle.std.specs.Result.{IsErrOf};
ghost use Rattle.thin_form.specs.Netlist.{design_of};
ghost use Rattle.thin_form.specs.Design as designs;
ghost use Rattle.thin_form.specs.Source.{Says, IsSmall, IsOneDesign};

use crate::builder::build;
use crate::netlist::Netlist;
use design_form::Design;
use std::alloc::Global;
use thin_tree::FormFault;

/// The design that a flat design says, its names lent by it.
pub fn read<'a>(alloc: Global, flat: &'a Design) -> Result<Netlist<'a>, FormFault>
    requires { IsSmall flat.now }
    ensures design { IfOk result (λ d. Says flat.now (design_of d)) }
    ensures not_of_form { IsErrOf result FormFault.NotOfForm → (d : designs.Design) → Says flat.now d → ⊥ }
{
    let found = match thin_tree::read(alloc, flat) {
        Ok(found) => found,
        Err(fault) => return Err(fault),
    };
    build(alloc, &found)
}

/// A flat design says at most one design.
pub fn one_design()
    ensures { IsOneDesign }
{}
