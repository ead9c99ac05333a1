//! The trees of two small nets, and the first by name of some sources, worked by hand.

use crate::small_net::Small;
use crate::tangled_net::Tangled;
use crate::tracing::first_fault;
use crate::{TreeFault, Trees, trace};
use rdc_outside::Seq;
use std::alloc::{AllocError, Global};
use std::test::Fail;

// Each number with a blank behind it.
fn listed(alloc: Global, numbers: &[u32]) -> Result<String, AllocError> {
    let mut all = String::new(alloc);
    for n in numbers {
        write!(all, "{n} ")?;
    }
    Ok(all)
}

// The order, and each pin with what it reads.
fn shown(alloc: Global, trees: &Trees) -> Result<String, AllocError> {
    let mut all = listed(alloc, trees.order.as_slice())?;
    for pin in trees.pins.as_slice() {
        let flop = pin.flop;
        write!(all, "{flop}: ")?;
        let sources = listed(alloc, pin.sources.as_slice())?;
        all.push_str(sources.as_str())?;
    }
    Ok(all)
}

#[test]
fn a_register_under_a_reset_has_two_pins(rt: HostRuntime) -> Result<(), Fail> {
    let Ok(trees) = trace(rt.alloc(), &Small) else {
        assert!(rt; false, "it has no cycle");
        return Ok(());
    };
    let text = shown(rt.alloc(), &trees)?;
    assert_eq!(rt; text.as_str(), "3 4 6 3: 5 4: 5 ");
    Ok(())
}

#[test]
fn a_flop_stands_behind_those_that_its_pin_reads(rt: HostRuntime) -> Result<(), Fail> {
    let Ok(trees) = trace(rt.alloc(), &Tangled { looped: false }) else {
        assert!(rt; false, "it has no cycle");
        return Ok(());
    };
    let text = shown(rt.alloc(), &trees)?;
    assert_eq!(rt; text.as_str(), "3 1 2 1: 4 2: 1 3: 4 ");
    Ok(())
}

#[test]
fn a_cycle_is_named_from_its_least_name_on(rt: HostRuntime) -> Result<(), Fail> {
    let Err(TreeFault::ResetLoop(names)) = trace(rt.alloc(), &Tangled { looped: true }) else {
        assert!(rt; false, "it has a cycle");
        return Ok(());
    };
    let mut text = String::new(rt.alloc());
    for name in names.as_slice() {
        let one = name_shown(rt.alloc(), "flop", name)?;
        write!(text, "{one} ")?;
    }
    assert_eq!(rt; text.as_str(), "flop 97 flop 122 flop 109 ");
    Ok(())
}

// A word, and the bytes of a name.
fn name_shown(alloc: Global, word: &str, name: &Seq<u8>) -> Result<String, AllocError> {
    let mut all = String::from_str(alloc, word)?;
    for byte in name.as_slice() {
        write!(all, " {byte}")?;
    }
    Ok(all)
}

// What is answered of three sources named b, a, c, by their marks.
fn fault_shown(alloc: Global, flops: &[bool; 3], clocks: &[bool; 3]) -> Result<String, AllocError> {
    match first_fault(alloc, &["b", "a", "c"], flops, clocks) {
        Ok(()) => String::from_str(alloc, "none"),
        Err(TreeFault::Memory) => String::from_str(alloc, "memory"),
        Err(TreeFault::ResetLoop(_)) => String::from_str(alloc, "a loop"),
        Err(TreeFault::ClockNotPort(name)) => name_shown(alloc, "flop", &name),
        Err(TreeFault::ClockAsData(name)) => name_shown(alloc, "clock", &name),
    }
}

#[test]
fn the_first_by_name_is_answered(rt: HostRuntime) -> Result<(), Fail> {
    let none = [false, false, false];
    let outer = [true, false, true];
    let text = fault_shown(rt.alloc(), &none, &none)?;
    assert_eq!(rt; text.as_str(), "none");
    let text = fault_shown(rt.alloc(), &[true, true, true], &none)?;
    assert_eq!(rt; text.as_str(), "flop 97");
    let text = fault_shown(rt.alloc(), &outer, &[true, true, true])?;
    assert_eq!(rt; text.as_str(), "flop 98");
    let text = fault_shown(rt.alloc(), &none, &outer)?;
    assert_eq!(rt; text.as_str(), "clock 98");
    Ok(())
}
