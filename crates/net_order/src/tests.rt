//! Two drawings of two wires each, worked by hand.
ghost use Rattle.std.specs.Prelude.{◌≡◌, length, IfOk};

use crate::fault::OrderFault;
use crate::walk::order;
use net_gates::{GateFault, GateList};
use net_view::Gate;
use std::alloc::{AllocError, Global};
use std::test::Fail;

// Numbers, each behind a blank.
fn listed(alloc: Global, numbers: &[u32]) -> Result<String, AllocError> {
    let mut text = String::new(alloc);
    for number in numbers {
        write!(text, " {number}")?;
    }
    Ok(text)
}

// The wires are bits 0 and 1, port d is bit 2: gate 1 is `~bit 1`, and gate 3 is `d & d`.
fn two_wires(alloc: Global) -> Result<GateList, GateFault>
    ensures { IfOk result (λ gates. length gates ≡ 4) }
{
    let mut gates = GateList::new(alloc);
    let other = gates.add(Gate::Source(1))?;
    let _negation = gates.add(Gate::Not(other))?;
    let port = gates.add(Gate::Source(2))?;
    let _both = gates.add(Gate::And(port, port))?;
    Ok(gates)
}

// Port d is bit 0, the wires are bits 1 and 2: gate 2 is `bit 2 & d`, and gate 3 is bit 1.
fn two_in_a_loop(alloc: Global) -> Result<GateList, GateFault>
    ensures { IfOk result (λ gates. length gates ≡ 4) }
{
    let mut gates = GateList::new(alloc);
    let other = gates.add(Gate::Source(2))?;
    let port = gates.add(Gate::Source(0))?;
    let _both = gates.add(Gate::And(other, port))?;
    let _copy = gates.add(Gate::Source(1))?;
    Ok(gates)
}

#[test]
fn what_a_wire_reads_comes_before_it(rt: HostRuntime) -> Result<(), Fail> {
    let Ok(gates) = two_wires(rt.alloc()) else {
        assert!(rt; false, "they are drawn");
        return Ok(());
    };
    let Ok(found) = order(rt.alloc(), &gates, &[Some(1), Some(3), None]) else {
        assert!(rt; false, "there is no loop");
        return Ok(());
    };
    let text = listed(rt.alloc(), found.as_slice())?;
    assert_eq!(rt; text.as_str(), " 2 3 0 1");
    Ok(())
}

#[test]
fn wires_that_read_one_another_have_no_order(rt: HostRuntime) -> Result<(), Fail> {
    let Ok(gates) = two_in_a_loop(rt.alloc()) else {
        assert!(rt; false, "they are drawn");
        return Ok(());
    };
    let Err(OrderFault::Loop(found)) = order(rt.alloc(), &gates, &[None, Some(2), Some(3)]) else {
        assert!(rt; false, "they go in a loop");
        return Ok(());
    };
    let text = listed(rt.alloc(), found.as_slice())?;
    assert_eq!(rt; text.as_str(), " 2 0 3");
    Ok(())
}
