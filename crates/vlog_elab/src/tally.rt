//! The weight of a design, and the touches of its bits.
ghost use Rattle.std.specs.Prelude.{Ok};
ghost use Rattle.elab_names.specs.Answers.{Answers};
ghost use Rattle.elab_scopes.specs.Tables.{Changes};
ghost use Rattle.elab_scopes.specs.Threads.{threaded};
ghost use Rattle.vlog_elab.specs.Tables.{tally_of};
ghost use Rattle.vlog_elab.specs.Tallies.{body_tallied, driver_tallied, gate_tallied, lifted, outside, process_tallied, tallied};
ghost use Rattle.proc_loops.specs.Unrolled as loops;

use design_form::{Design, Driver, GateUse, Process};
use elab_bits::{
    Inputs, Touch, drives_of_boxes, drives_of_driver, drives_of_gate, drives_of_ports,
    drives_of_process, reads_of_boxes, reads_of_driver, reads_of_gate, reads_of_process,
};
use elab_names::ElabFault;
use elab_weight::{weigh_driver, weigh_gate, weigh_process};
use proc_loops::{LoopFault, Unrolled, unrolled};
use std::alloc::Global;
use vlog_tree::Stmt;

/// The weight and the touches so far.
#[derive(Drop)]
pub(crate) struct Tally {
    pub(crate) weight: u32,
    pub(crate) drives: Vec<Touch>,
    pub(crate) reads: Vec<Touch>,
}

/// The body of a process without its loops.
#[tactic(auto, unfolding(crate::specs::Tallies::lifted, crate::specs::Tallies::loop_fault))]
fn without_loops(alloc: Global, body: &Stmt) -> Result<Unrolled, ElabFault>
    ensures { Answers (λ u. u) result (lifted (loops.unrolled body.now)) }
{
    match unrolled(alloc, body) {
        Ok(unrolled) => Ok(unrolled),
        Err(LoopFault::Memory) => Err(ElabFault::Memory),
        Err(LoopFault::Const(fault)) => Err(ElabFault::Const(fault)),
        Err(LoopFault::NotBuilt(place)) => Err(ElabFault::NotBuilt(place)),
    }
}

impl Tally {
    /// One more driver.
    #[tactic(auto, unfolding(crate::specs::Tallies::driver_tallied, elab_names::specs::Answers::and_then))]
    fn driver(&mut self, alloc: Global, design: &Design, driver: &Driver) -> Result<(), ElabFault>
        ensures { Changes result (tally_of self.new) (driver_tallied design.now (tally_of self.old) driver.now) }
    {
        self.weight = weigh_driver(alloc, design, driver, self.weight)?;
        drives_of_driver(alloc, design, driver, &mut self.drives)?;
        reads_of_driver(alloc, design, driver, &mut self.reads)?;
        Ok(())
    }

    /// One more gate.
    #[tactic(auto, unfolding(crate::specs::Tallies::gate_tallied, elab_names::specs::Answers::and_then))]
    fn gate(&mut self, alloc: Global, design: &Design, gate: &GateUse) -> Result<(), ElabFault>
        ensures { Changes result (tally_of self.new) (gate_tallied design.now (tally_of self.old) gate.now) }
    {
        self.weight = weigh_gate(alloc, design, gate, self.weight)?;
        drives_of_gate(alloc, design, gate, &mut self.drives)?;
        reads_of_gate(alloc, design, gate, &mut self.reads)?;
        Ok(())
    }

    /// One more body of a process.
    #[tactic(auto, unfolding(crate::specs::Tallies::body_tallied, elab_names::specs::Answers::and_then))]
    fn body(
        &mut self,
        alloc: Global,
        design: &Design,
        inputs: &Inputs,
        process: &Process,
        body: &Unrolled,
    ) -> Result<(), ElabFault>
        ensures { Changes result (tally_of self.new) (body_tallied design.now inputs.now (tally_of self.old) process.now body.now) }
    {
        self.weight = weigh_process(alloc, design, process, body, self.weight)?;
        drives_of_process(alloc, design, inputs, process, body, &mut self.drives)?;
        reads_of_process(alloc, design, process, body, &mut self.reads)?;
        Ok(())
    }

    /// One more process, whose body without loops is dropped at once.
    #[tactic(auto, unfolding(crate::specs::Tallies::process_tallied, elab_names::specs::Answers::and_then))]
    fn process(
        &mut self,
        alloc: Global,
        design: &Design,
        inputs: &Inputs,
        process: &Process,
    ) -> Result<(), ElabFault>
        ensures { Changes result (tally_of self.new) (process_tallied design.now inputs.now (tally_of self.old) process.now) }
    {
        let body = without_loops(alloc, &process.body)?;
        self.body(alloc, design, inputs, process, &body)
    }

    /// All drivers.
    fn drivers(
        &mut self,
        alloc: Global,
        design: &Design,
        drivers: &[Driver],
    ) -> Result<(), ElabFault>
        ensures { Changes result (tally_of self.new) (threaded (driver_tallied design.now) (tally_of self.old) drivers.now) }
    {
        for driver in drivers {
            match self.driver(alloc, design, driver) {
                Ok(()) => {}
                Err(fault) => return Err(fault),
            }
        }
        Ok(())
    }

    /// All gates.
    fn gates(&mut self, alloc: Global, design: &Design, gates: &[GateUse]) -> Result<(), ElabFault>
        ensures { Changes result (tally_of self.new) (threaded (gate_tallied design.now) (tally_of self.old) gates.now) }
    {
        for gate in gates {
            match self.gate(alloc, design, gate) {
                Ok(()) => {}
                Err(fault) => return Err(fault),
            }
        }
        Ok(())
    }

    /// All processes.
    fn processes(
        &mut self,
        alloc: Global,
        design: &Design,
        inputs: &Inputs,
        processes: &[Process],
    ) -> Result<(), ElabFault>
        ensures { Changes result (tally_of self.new) (threaded (process_tallied design.now inputs.now) (tally_of self.old) processes.now) }
    {
        for process in processes {
            match self.process(alloc, design, inputs, process) {
                Ok(()) => {}
                Err(fault) => return Err(fault),
            }
        }
        Ok(())
    }
}

/// What is driven and read from outside.
fn outside(alloc: Global, design: &Design, size: u32) -> Result<Tally, ElabFault>
    ensures { Answers tally_of result (Ok (outside design.now size)) }
{
    let mut drives = Vec::new(alloc);
    drives_of_ports(alloc, design, &mut drives)?;
    drives_of_boxes(alloc, design, &mut drives)?;
    let mut reads = Vec::new(alloc);
    reads_of_boxes(alloc, design, &mut reads)?;
    Ok(Tally {
        weight: size,
        drives,
        reads,
    })
}

/// The weight and the touches of a design whose instances and bits are `size`.
#[tactic(auto, unfolding(crate::specs::Tallies::tallied, elab_names::specs::Answers::and_then))]
pub(crate) fn tallied(alloc: Global, design: &Design, size: u32) -> Result<Tally, ElabFault>
    ensures { Answers tally_of result (tallied design.now size) }
{
    let parts = design.parts();
    let inputs = Inputs::new(alloc, design)?;
    let mut tally = outside(alloc, design, size)?;
    tally.drivers(alloc, design, parts.drivers.as_slice())?;
    tally.gates(alloc, design, parts.gates.as_slice())?;
    tally.processes(alloc, design, &inputs, parts.processes.as_slice())?;
    Ok(tally)
}
