//! The small design step by step, against states worked by hand.
ghost use Rattle.std.specs.Prelude.{◌≡◌};
ghost use Rattle.run_model.specs.ExampleNet.{example_flop};
ghost use Rattle.run_model.specs.Step.{IsWithin};

use net_view::{FlopNet, FlopOf, Gate, SrcKind, View};
use rdc_tern::Tern;
use run_model::{
    Event, Levels, Stepped, agreeing_is_safe, clean_is_safe, example_runs, net_is_machine,
    powers_up, progress_begins, rules_hold, step_into, up_is_one,
};
use std::test::Fail;

const O: Tern = Tern::Zero;

const I: Tern = Tern::One;

const X: Tern = Tern::Unsettled;

/// Flop a takes d at ca and is reset by ra, flop q takes a at cb and is reset by rb; both resets are active low.
struct Example;

impl View for Example {
    ghost use Rattle.std.specs.Prelude.{ℕ};
    ghost use Rattle.run_model.specs.ExampleNet.{example_gates};

    type Node = u32;

    type Src = u32;

    ghost gates = { λ _. example_gates };

    ghost source_count = { λ _. 7 };

    ghost node_number = { λ n. n };

    ghost source_number = { λ s. s };

    fn nodes(&self) -> u32 {
        7
    }

    fn node(&self, n: u32) -> Option<u32> {
        if n < 7 { Some(n) } else { None }
    }

    fn index(&self, n: u32) -> u32 {
        n
    }

    fn sources(&self) -> u32 {
        7
    }

    fn src_index(&self, s: u32) -> u32 {
        s
    }

    fn gate(&self, n: u32) -> Gate<u32, u32> {
        Gate::Source(n)
    }
}

/// A flop of a rising clock with an active low reset and reset value 0.
fn flop(clock: u32, next: u32, pin: u32, root: u32) -> FlopOf<u32>
    ensures { result ≡ example_flop clock next pin root }
{
    FlopOf {
        clock: Some(clock),
        rising: true,
        next: Some(next),
        calms: true,
        pin: Some(pin),
        high: false,
        reset: false,
        root,
    }
}

impl FlopNet for Example {
    ghost use Rattle.run_model.specs.ExampleNet.{example_names, example_kinds, example_bits};

    ghost names = { λ _. example_names };

    ghost kinds = { λ _. example_kinds };

    ghost named_bits = { λ _. example_bits };

    fn name(&self, s: u32) -> &str {
        match s {
            0 => "a",
            1 => "ca",
            2 => "cb",
            3 => "d",
            4 => "q",
            5 => "ra",
            _ => "rb",
        }
    }

    fn kind(&self, s: u32) -> SrcKind<u32> {
        match s {
            0 => SrcKind::Flop(flop(1, 3, 5, 0)),
            4 => SrcKind::Flop(flop(2, 0, 6, 1)),
            _ => SrcKind::Port,
        }
    }

    fn bits(&self) -> u32 {
        2
    }

    fn bit_name(&self, b: u32) -> &str {
        if b == 0 { "ra" } else { "rb" }
    }

    fn bit_node(&self, b: u32) -> u32 {
        b + 5
    }

    fn bit_root(&self, b: u32) -> u32 {
        b
    }

    fn find(&self, name: &str) -> Option<u32> {
        if name == "ra" {
            Some(0)
        } else if name == "rb" {
            Some(1)
        } else {
            None
        }
    }
}

/// The answer to an event, and the values of a, ca, cb, d, q, ra and rb after it.
fn step(e: &Event, old: &[Tern; 7]) -> (Stepped, [Tern; 7])
    requires { IsWithin 7 e.now }
{
    let mut new = [O; 7];
    let mut buf = [O; 7];
    let answer = step_into(
        &Example,
        &[0, 4],
        &[(5, false), (6, false)],
        e,
        old,
        &mut new,
        &mut buf,
    );
    (answer, new)
}

#[test]
fn a_strike_while_data_crosses_is_a_disturbance(rt: HostRuntime) {
    let (done, released) = step(&Event::Release(5), &[O, O, O, I, O, O, O]);
    assert_eq!(rt; done, Stepped::Done);
    assert_eq!(rt; released, [O, O, O, I, O, I, O]);
    let (done, free) = step(&Event::Release(6), &released);
    assert_eq!(rt; done, Stepped::Done);
    assert_eq!(rt; free, [O, O, O, I, O, I, I]);
    let (done, loaded) = step(&Event::Rise(1), &free);
    assert_eq!(rt; done, Stepped::Done);
    assert_eq!(rt; loaded, [I, O, O, I, O, I, I]);
    let (done, fallen) = step(&Event::Fall(1), &loaded);
    assert_eq!(rt; done, Stepped::Done);
    assert_eq!(rt; fallen, [I, O, O, I, O, I, I]);
    let (done, struck) = step(&Event::Strike(5), &fallen);
    assert_eq!(rt; done, Stepped::Done);
    assert_eq!(rt; struck, [X, O, O, I, O, X, I]);
    let (disturbed, crossed) = step(&Event::Rise(2), &struck);
    assert_eq!(rt; disturbed, Stepped::Disturbed(4));
    assert_eq!(rt; crossed, [X, O, O, I, X, X, I]);
}

#[test]
fn what_has_not_settled_can_not_be_struck_or_calmed_out_of_turn(rt: HostRuntime) {
    let struck = [X, O, O, I, O, X, I];
    let (twice, _) = step(&Event::Strike(5), &struck);
    assert_eq!(rt; twice, Stepped::NotPossible);
    let (early, _) = step(&Event::Calm(0), &struck);
    assert_eq!(rt; early, Stepped::NotPossible, "its pin is X");
    let (done, asserted) = step(&Event::Calm(5), &struck);
    assert_eq!(rt; done, Stepped::Done);
    assert_eq!(rt; asserted, [X, O, O, I, O, O, I]);
    let (done, calm) = step(&Event::Calm(0), &asserted);
    assert_eq!(rt; done, Stepped::Done);
    assert_eq!(rt; calm, [O, O, O, I, O, O, I]);
    let (again, _) = step(&Event::Calm(0), &calm);
    assert_eq!(rt; again, Stepped::NotPossible);
    let (asserted_already, _) = step(&Event::Strike(5), &calm);
    assert_eq!(rt; asserted_already, Stepped::NotPossible);
}

#[test]
fn an_edge_while_a_pin_is_unsettled_joins(rt: HostRuntime) -> Result<(), Fail> {
    let (done, struck) = step(&Event::Strike(5), &[O, O, O, I, O, I, I]);
    assert_eq!(rt; done, Stepped::Done);
    assert_eq!(rt;
        struck,
        [O, O, O, I, O, X, I],
        "0 joined with the reset value 0"
    );
    let (done, joined) = step(&Event::Rise(1), &struck);
    assert_eq!(rt; done, Stepped::Done);
    assert_eq!(rt; joined, [X, O, O, I, O, X, I]);
    let levels = Levels::new([(3, false)].to_vec(rt.alloc())?);
    let (done, driven) = step(&Event::Drive(levels), &struck);
    assert_eq!(rt; done, Stepped::Done);
    assert_eq!(rt; driven, [O, O, O, O, O, X, I]);
    let (done, kept) = step(&Event::Rise(1), &driven);
    assert_eq!(rt; done, Stepped::Done);
    assert_eq!(rt; kept, [O, O, O, O, O, X, I]);
    Ok(())
}

#[test]
fn the_theorems_compute_nothing() {
    rules_hold();
    clean_is_safe();
    powers_up();
    up_is_one();
    progress_begins();
    agreeing_is_safe();
    example_runs();
    net_is_machine(&Example);
}
