//! A small net with a reset tree step by step, against states worked by hand.
ghost use Rattle.std.specs.Prelude.{◌≡◌};
ghost use Rattle.net_tests.specs.TreeNet.{tree_flop};
ghost use Rattle.run_model.specs.Step.{IsWithin};

use net_view::{FlopNet, FlopOf, Gate, SrcKind, View};
use rdc_tern::Tern;
use run_model::{Event, Levels, Stepped, step_into};
use std::test::Fail;

const O: Tern = Tern::Zero;

const I: Tern = Tern::One;

const X: Tern = Tern::Unsettled;

/// The net of `specs/TreeNet.antt`.
struct Tree;

impl View for Tree {
    ghost use Rattle.std.specs.Prelude.{ℕ};
    ghost use Rattle.net_tests.specs.TreeNet.{tree_gates};

    type Node = u32;

    type Src = u32;

    ghost gates = { λ _. tree_gates };

    ghost source_count = { λ _. 9 };

    ghost node_number = { λ n. n };

    ghost source_number = { λ s. s };

    fn nodes(&self) -> u32 {
        11
    }

    fn node(&self, n: u32) -> Option<u32> {
        if n < 11 { Some(n) } else { None }
    }

    fn index(&self, n: u32) -> u32 {
        n
    }

    fn sources(&self) -> u32 {
        9
    }

    fn src_index(&self, s: u32) -> u32 {
        s
    }

    fn gate(&self, n: u32) -> Gate<u32, u32> {
        match n {
            0 => Gate::Source(0),
            1 => Gate::Source(1),
            2 => Gate::Source(2),
            3 => Gate::Source(3),
            4 => Gate::Source(4),
            5 => Gate::Source(5),
            6 => Gate::Source(6),
            7 => Gate::Source(7),
            8 => Gate::Source(8),
            9 => Gate::Not(6),
            _ => Gate::And(5, 9),
        }
    }
}

/// A flop of clock c.
fn flop(
    rising: bool,
    next: u32,
    pin: Option<u32>,
    high: bool,
    reset: bool,
    root: u32,
) -> FlopOf<u32>
    ensures { result ≡ tree_flop rising next pin high reset root }
{
    FlopOf {
        clock: Some(0),
        rising,
        next: Some(next),
        calms: true,
        pin,
        high,
        reset,
        root,
    }
}

impl FlopNet for Tree {
    ghost use Rattle.net_tests.specs.TreeNet.{tree_names, tree_kinds, tree_bits};

    ghost names = { λ _. tree_names };

    ghost kinds = { λ _. tree_kinds };

    ghost named_bits = { λ _. tree_bits };

    fn name(&self, s: u32) -> &str {
        match s {
            0 => "c",
            1 => "d",
            2 => "f",
            3 => "h",
            4 => "n",
            5 => "p",
            6 => "s",
            7 => "t",
            _ => "u",
        }
    }

    fn kind(&self, s: u32) -> SrcKind<u32> {
        match s {
            2 => SrcKind::Flop(flop(true, 1, None, false, false, 0)),
            4 => SrcKind::Flop(flop(false, 7, Some(3), true, true, 0)),
            6 => SrcKind::Flop(flop(true, 1, Some(5), false, false, 1)),
            7 => SrcKind::Flop(flop(true, 2, Some(10), false, false, 2)),
            8 => SrcKind::Flop(flop(true, 1, Some(6), false, false, 3)),
            _ => SrcKind::Port,
        }
    }

    fn bits(&self) -> u32 {
        4
    }

    fn bit_name(&self, b: u32) -> &str {
        match b {
            0 => "h",
            1 => "p",
            2 => "r",
            _ => "s",
        }
    }

    fn bit_node(&self, b: u32) -> u32 {
        match b {
            0 => 3,
            1 => 5,
            2 => 10,
            _ => 6,
        }
    }

    fn bit_root(&self, b: u32) -> u32 {
        b
    }

    fn find(&self, name: &str) -> Option<u32> {
        if name == "h" {
            Some(0)
        } else if name == "p" {
            Some(1)
        } else if name == "r" {
            Some(2)
        } else if name == "s" {
            Some(3)
        } else {
            None
        }
    }
}

/// The answer to an event under declared resets, and the values of c, d, f, h, n, p, s, t and u after it.
fn step_under(resets: &[(u32, bool)], e: &Event, old: &[Tern; 9]) -> (Stepped, [Tern; 9])
    requires { IsWithin 9 e.now }
{
    let mut new = [O; 9];
    let mut buf = [O; 11];
    let answer = step_into(&Tree, &[2, 4, 6, 7, 8], resets, e, old, &mut new, &mut buf);
    (answer, new)
}

/// The same with h declared active high and p active low.
fn step(e: &Event, old: &[Tern; 9]) -> (Stepped, [Tern; 9])
    requires { IsWithin 9 e.now }
{
    step_under(&[(3, true), (5, false)], e, old)
}

#[test]
fn a_pin_behind_a_flop_lets_go_when_that_flop_does(rt: HostRuntime) {
    let (done, released) = step(&Event::Release(5), &[O, I, O, I, I, O, O, O, O]);
    assert_eq!(rt; done, Stepped::Done);
    assert_eq!(rt; released, [O, I, O, I, I, I, O, O, O]);
    let (done, soft) = step(&Event::Rise(0), &released);
    assert_eq!(rt; done, Stepped::Done);
    assert_eq!(rt;
        soft,
        [O, I, I, I, I, I, I, O, O],
        "u held by s, which was 0"
    );
    let (done, held) = step(&Event::Fall(0), &soft);
    assert_eq!(rt; done, Stepped::Done);
    assert_eq!(rt; held, [O, I, I, I, I, I, I, O, O], "n held by h");
    let (done, free) = step(&Event::Release(3), &held);
    assert_eq!(rt; done, Stepped::Done);
    assert_eq!(rt; free, [O, I, I, O, I, I, I, O, O]);
    let (done, fallen) = step(&Event::Fall(0), &free);
    assert_eq!(rt; done, Stepped::Done);
    assert_eq!(rt; fallen, [O, I, I, O, O, I, I, O, O], "n took t");
    let (done, risen) = step(&Event::Rise(0), &fallen);
    assert_eq!(rt; done, Stepped::Done);
    assert_eq!(rt; risen, [O, I, I, O, O, I, I, O, I], "t held by s, u took d");
}

#[test]
fn a_strike_goes_down_the_reset_tree(rt: HostRuntime) {
    let (done, struck) = step(&Event::Strike(5), &[O, I, I, O, O, I, I, O, I]);
    assert_eq!(rt; done, Stepped::Done);
    assert_eq!(rt; struck, [O, I, I, O, O, X, X, O, X], "s by p, u by s");
    let (early, _) = step(&Event::Calm(6), &struck);
    assert_eq!(rt; early, Stepped::NotPossible);
    let (done, asserted) = step(&Event::Calm(5), &struck);
    assert_eq!(rt; done, Stepped::Done);
    assert_eq!(rt; asserted, [O, I, I, O, O, O, X, O, X]);
    let (early, _) = step(&Event::Calm(8), &asserted);
    assert_eq!(rt; early, Stepped::NotPossible, "s is X");
    let (done, soft) = step(&Event::Calm(6), &asserted);
    assert_eq!(rt; done, Stepped::Done);
    assert_eq!(rt; soft, [O, I, I, O, O, O, O, O, X]);
    let (done, calm) = step(&Event::Calm(8), &soft);
    assert_eq!(rt; done, Stepped::Done);
    assert_eq!(rt; calm, [O, I, I, O, O, O, O, O, O]);
}

#[test]
fn a_flop_of_another_reset_that_is_clocked_after_a_strike_is_disturbed(rt: HostRuntime) {
    let (done, struck) = step(&Event::Strike(5), &[O, O, I, O, O, I, O, I, O]);
    assert_eq!(rt; done, Stepped::Done);
    assert_eq!(rt; struck, [O, O, I, O, O, X, O, X, O]);
    let (disturbed, crossed) = step(&Event::Fall(0), &struck);
    assert_eq!(rt; disturbed, Stepped::Disturbed(4));
    assert_eq!(rt; crossed, [O, O, I, O, X, X, O, X, O]);
    let (done, joined) = step(&Event::Rise(0), &struck);
    assert_eq!(rt; done, Stepped::Done);
    assert_eq!(rt; joined, [O, O, O, O, O, X, O, X, O]);
    let (twice, _) = step(&Event::Strike(5), &struck);
    assert_eq!(rt; twice, Stepped::NotPossible);
}

#[test]
fn a_flop_that_is_struck_twice_is_not_left_unsettled_by_its_own_reset(rt: HostRuntime) {
    let (done, struck) = step(&Event::Strike(3), &[O, I, I, O, O, I, I, O, O]);
    assert_eq!(rt; done, Stepped::Done);
    assert_eq!(rt;
        struck,
        [O, I, I, X, X, I, I, O, O],
        "0 joined with the reset value 1"
    );
    let (done, asserted) = step(&Event::Calm(3), &struck);
    assert_eq!(rt; done, Stepped::Done);
    assert_eq!(rt; asserted, [O, I, I, I, X, I, I, O, O]);
    let (done, calm) = step(&Event::Calm(4), &asserted);
    assert_eq!(rt; done, Stepped::Done);
    assert_eq!(rt; calm, [O, I, I, I, I, I, I, O, O]);
    let (done, free) = step(&Event::Release(3), &calm);
    assert_eq!(rt; done, Stepped::Done);
    assert_eq!(rt; free, [O, I, I, O, I, I, I, O, O]);
    let (again, _) = step(&Event::Release(3), &free);
    assert_eq!(rt; again, Stepped::NotPossible);
    let (done, twice) = step(&Event::Strike(3), &free);
    assert_eq!(rt; done, Stepped::Done);
    assert_eq!(rt; twice, [O, I, I, X, I, I, I, O, O]);
}

#[test]
fn what_no_reset_holds_is_disturbed_by_x(rt: HostRuntime) -> Result<(), Fail> {
    let (disturbed, taken) = step(&Event::Rise(0), &[O, X, O, O, O, I, I, O, O]);
    assert_eq!(rt; disturbed, Stepped::Disturbed(2), "f has no pin");
    assert_eq!(rt; taken, [O, X, X, O, O, I, X, O, X]);
    let (input, _) = step(&Event::Calm(1), &taken);
    assert_eq!(rt; input, Stepped::NotPossible);
    let (no_pin, _) = step(&Event::Calm(2), &taken);
    assert_eq!(rt; no_pin, Stepped::NotPossible);
    let levels = Levels::new([(1, false)].to_vec(rt.alloc())?);
    let (done, driven) = step(&Event::Drive(levels), &taken);
    assert_eq!(rt; done, Stepped::Done);
    assert_eq!(rt; driven, [O, O, X, O, O, I, X, O, X]);
    Ok(())
}

#[test]
fn a_reset_that_is_declared_at_the_wrong_level_leaves_its_flop_unsettled(rt: HostRuntime) {
    let (left, calm) = step_under(&[(3, false)], &Event::Calm(3), &[O, I, I, X, X, I, I, O, O]);
    assert_eq!(rt; left, Stepped::Disturbed(4));
    assert_eq!(rt; calm, [O, I, I, O, X, I, I, O, O]);
}
