//! Sources and named bits of a netlist.

ghost use Rattle.std.specs.Prelude.{◌≡◌, ℕ, ◌<◌, ◌^◌, length, count_by, filter, not, IfOk};
ghost use Rattle.thin_tree.specs.Written.{all_declared};
ghost use Rattle.thin_form.specs.Rules.{class_eq};
ghost use Rattle.thin_form.specs.Kept.{entries, all_bits};
ghost use Rattle.thin_form.specs.Assembled.{bits_of, entries_of, wires_of, registers_of};

use crate::entry::Entry;
use crate::kind::{Bit, Flop, Kind};
use std::alloc::{AllocError, Global};
use thin_tree::{Class, Declared};

/// The named bits of declarations: sources are numbered, and wires have their nodes, each in the order that stands.
pub(crate) fn bits<'a>(
    alloc: Global,
    declared: &[Declared<'a>],
    wires: &[u32],
) -> Result<Vec<Bit<'a>>, AllocError>
    requires few { length declared.now < 2 ^ 32 }
    requires wires { wires_of (all_declared declared.now) ≡ length wires.now }
    ensures { IfOk result (λ v. all_bits v.items ≡ bits_of wires.now (all_declared declared.now)) }
{
    let mut out = Vec::new(alloc);
    let mut source = 0u32;
    let mut w = 0usize;
    for d in declared {
        let name = d.name;
        match d.class {
            Class::Net => {
                let node = wires[w];
                let wire = true;
                out.push(Bit { name, node, wire })?;
                w += 1;
            }
            Class::Input | Class::Register => {
                let node = source;
                let wire = false;
                out.push(Bit { name, node, wire })?;
                source += 1;
            }
        }
    }
    Ok(out)
}

/// The sources of declarations: inputs, and registers with their flops, in the order that stands.
pub(crate) fn sources<'a>(
    alloc: Global,
    declared: &[Declared<'a>],
    flops: &[Flop],
    values: &[u32],
) -> Result<Vec<Entry<'a>>, AllocError>
    requires few { length declared.now < 2 ^ 32 }
    requires registers { registers_of (all_declared declared.now) ≡ length flops.now }
    requires values { length values.now ≡ length flops.now }
    ensures { IfOk result (λ v. entries v.items ≡ entries_of flops.now values.now (all_declared declared.now)) }
{
    let mut out = Vec::new(alloc);
    let mut r = 0usize;
    for (i, d) in declared.iter().enumerate() {
        let name = d.name;
        let bit = i as u32;
        match d.class {
            Class::Net => {}
            Class::Input => {
                let kind = Kind::Input;
                out.push(Entry { name, kind, bit })?;
            }
            Class::Register => {
                let mut flop = flops[r];
                flop.data = values[r];
                let kind = Kind::Register(flop);
                out.push(Entry { name, kind, bit })?;
                r += 1;
            }
        }
    }
    Ok(out)
}
