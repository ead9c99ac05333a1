//! Small nets and their clauses, worked by hand. Node k has the variables 2k+1 and 2k+2.
ghost use Rattle.std.specs.Prelude.{IsTrue};
ghost use Rattle.solve_tests.specs.SmallNet.{are_sources};

use crate::small_net::SmallNet;
use net_view::Gate;
use sat_chain::Clauses;
use std::alloc::Global;
use std::process::Abort;
use std::test::Fail;
use tern_cnf::{ClauseList, NodeList, Question, clauses_are_equations, encode, models_are_states};

/// The clauses of a net some of whose sources are never X.
pub fn clauses_of(alloc: Global, net: &SmallNet<'_>, fixed: &[u32]) -> Result<Clauses, Fail>
    requires { IsTrue (are_sources net.now.sources fixed.now) }
{
    let question = Question {
        fixed: NodeList::new(fixed.to_vec(alloc)?),
        extra: 0,
        side: ClauseList::new(Vec::new(alloc)),
    };
    match encode(alloc, net, &question) {
        Ok(clauses) => Ok(clauses),
        Err(_) => Err(Fail::from("memory")),
    }
}

/// The clauses are these, in this order.
fn expect(rt: &impl Abort, clauses: &Clauses, expected: &[&[i32]]) -> Result<(), Fail> {
    assert_eq!(rt; clauses.len(), expected.len() as u64);
    for (n, lits) in expected.iter().enumerate() {
        let id = clauses.try_id(n as u64).ok_or("a clause less")?;
        assert_eq!(rt; clauses.lits(id), *lits);
    }
    Ok(())
}

#[test]
fn a_conjunction_has_its_clauses_in_their_order(rt: HostRuntime) -> Result<(), Fail> {
    let alloc = rt.alloc();
    let net = SmallNet {
        gates: &[Gate::Source(0), Gate::Source(1), Gate::And(0, 1)],
        sources: 2,
    };
    let question = Question {
        fixed: NodeList::new(vec![in alloc; 0, 1]?),
        extra: 0,
        side: ClauseList::new(vec![in alloc; vec![in alloc; 5]?, vec![in alloc; 6]?]?),
    };
    let clauses = encode(alloc, &net, &question)?;
    assert_eq!(rt; clauses.vars(), 6);
    let expected: [&[i32]; 12] = [
        &[1, 2],
        &[-1, -2],
        &[3, 4],
        &[-3, -4],
        &[-1, -3, 5],
        &[1, -5],
        &[3, -5],
        &[-2, 6],
        &[-4, 6],
        &[2, 4, -6],
        &[5],
        &[6],
    ];
    expect(&rt, &clauses, &expected)
}

#[test]
fn a_settled_source_has_one_clause_more(rt: HostRuntime) -> Result<(), Fail> {
    let net = SmallNet {
        gates: &[
            Gate::Source(0),
            Gate::Source(1),
            Gate::Const(true),
            Gate::Const(false),
        ],
        sources: 2,
    };
    let free: [&[i32]; 6] = [&[1, 2], &[3, 4], &[5], &[-6], &[-7], &[8]];
    expect(&rt, &clauses_of(rt.alloc(), &net, &[])?, &free)?;
    let settled: [&[i32]; 7] = [&[1, 2], &[3, 4], &[-3, -4], &[5], &[-6], &[-7], &[8]];
    expect(&rt, &clauses_of(rt.alloc(), &net, &[1, 1])?, &settled)
}

#[test]
fn each_gate_of_one_or_two_has_its_clauses(rt: HostRuntime) -> Result<(), Fail> {
    let net = SmallNet {
        gates: &[
            Gate::Source(0),
            Gate::Source(1),
            Gate::Not(0),
            Gate::And(1, 0),
            Gate::Or(0, 1),
            Gate::Xor(0, 1),
        ],
        sources: 2,
    };
    let expected: [&[i32]; 26] = [
        &[1, 2],
        &[3, 4],
        // Not(0)
        &[-2, 5],
        &[2, -5],
        &[-1, 6],
        &[1, -6],
        // And(1, 0)
        &[-1, -3, 7],
        &[3, -7],
        &[1, -7],
        &[-4, 8],
        &[-2, 8],
        &[2, 4, -8],
        // Or(0, 1)
        &[-1, 9],
        &[-3, 9],
        &[1, 3, -9],
        &[-2, -4, 10],
        &[2, -10],
        &[4, -10],
        // Xor(0, 1)
        &[-1, -4, 11],
        &[-2, -3, 11],
        &[1, 3, -11],
        &[2, 4, -11],
        &[-1, -3, 12],
        &[-2, -4, 12],
        &[1, 4, -12],
        &[2, 3, -12],
    ];
    expect(&rt, &clauses_of(rt.alloc(), &net, &[])?, &expected)
}

#[test]
fn a_literal_is_written_once(rt: HostRuntime) -> Result<(), Fail> {
    let net = SmallNet {
        gates: &[
            Gate::Source(0),
            Gate::And(0, 0),
            Gate::Or(0, 0),
            Gate::Xor(0, 0),
        ],
        sources: 1,
    };
    let expected: [&[i32]; 21] = [
        &[1, 2],
        // And(0, 0)
        &[-1, 3],
        &[1, -3],
        &[1, -3],
        &[-2, 4],
        &[-2, 4],
        &[2, -4],
        // Or(0, 0)
        &[-1, 5],
        &[-1, 5],
        &[1, -5],
        &[-2, 6],
        &[2, -6],
        &[2, -6],
        // Xor(0, 0)
        &[-1, -2, 7],
        &[-1, -2, 7],
        &[1, -7],
        &[2, -7],
        &[-1, 8],
        &[-2, 8],
        &[1, 2, -8],
        &[1, 2, -8],
    ];
    expect(&rt, &clauses_of(rt.alloc(), &net, &[])?, &expected)
}

#[test]
fn a_selection_has_its_twelve_clauses(rt: HostRuntime) -> Result<(), Fail> {
    let net = SmallNet {
        gates: &[
            Gate::Source(0),
            Gate::Source(1),
            Gate::Source(2),
            Gate::Pick(2, 0, 1),
            Gate::Pick(1, 0, 0),
            Gate::Pick(0, 0, 0),
        ],
        sources: 3,
    };
    let expected: [&[i32]; 39] = [
        &[1, 2],
        &[3, 4],
        &[5, 6],
        // Pick(2, 0, 1)
        &[-1, -5, 7],
        &[-3, -6, 7],
        &[5, 6, -7],
        &[3, 5, -7],
        &[1, 6, -7],
        &[1, 3, -7],
        &[-2, -5, 8],
        &[-4, -6, 8],
        &[5, 6, -8],
        &[4, 5, -8],
        &[2, 6, -8],
        &[2, 4, -8],
        // Pick(1, 0, 0)
        &[-1, -3, 9],
        &[-1, -4, 9],
        &[3, 4, -9],
        &[1, 3, -9],
        &[1, 4, -9],
        &[1, -9],
        &[-2, -3, 10],
        &[-2, -4, 10],
        &[3, 4, -10],
        &[2, 3, -10],
        &[2, 4, -10],
        &[2, -10],
        // Pick(0, 0, 0)
        &[-1, 11],
        &[-1, -2, 11],
        &[1, 2, -11],
        &[1, -11],
        &[1, 2, -11],
        &[1, -11],
        &[-1, -2, 12],
        &[-2, 12],
        &[1, 2, -12],
        &[1, 2, -12],
        &[2, -12],
        &[2, -12],
    ];
    expect(&rt, &clauses_of(rt.alloc(), &net, &[])?, &expected)
}

#[test]
fn a_lift_has_its_reset_value(rt: HostRuntime) -> Result<(), Fail> {
    let net = SmallNet {
        gates: &[
            Gate::Source(0),
            Gate::Source(1),
            Gate::Lift(1, 0, true),
            Gate::Lift(1, 0, false),
            Gate::Lift(0, 0, true),
            Gate::Lift(0, 0, false),
        ],
        sources: 2,
    };
    let expected: [&[i32]; 22] = [
        &[1, 2],
        &[3, 4],
        // Lift(1, 0, true)
        &[-1, 5],
        &[-3, 5],
        &[1, 3, -5],
        &[-2, 6],
        &[2, -6],
        // Lift(1, 0, false)
        &[-1, 7],
        &[1, -7],
        &[-2, 8],
        &[-3, 8],
        &[2, 3, -8],
        // Lift(0, 0, true)
        &[-1, 9],
        &[-1, 9],
        &[1, -9],
        &[-2, 10],
        &[2, -10],
        // Lift(0, 0, false)
        &[-1, 11],
        &[1, -11],
        &[-2, 12],
        &[-1, 12],
        &[1, 2, -12],
    ];
    expect(&rt, &clauses_of(rt.alloc(), &net, &[])?, &expected)
}

#[test]
fn further_variables_stand_behind_the_rails(rt: HostRuntime) -> Result<(), Fail> {
    let alloc = rt.alloc();
    let net = SmallNet {
        gates: &[Gate::Source(0), Gate::Not(0)],
        sources: 1,
    };
    let question = Question {
        fixed: NodeList::new(Vec::new(alloc)),
        extra: 2,
        side: ClauseList::new(vec![in alloc; vec![in alloc; -3, 5]?, vec![in alloc; -5, -6]?]?),
    };
    let clauses = encode(alloc, &net, &question)?;
    assert_eq!(rt; clauses.vars(), 6);
    let expected: [&[i32]; 7] = [
        &[1, 2],
        &[-2, 3],
        &[2, -3],
        &[-1, 4],
        &[1, -4],
        &[-3, 5],
        &[-5, -6],
    ];
    expect(&rt, &clauses, &expected)
}

#[test]
fn the_laws_compute_nothing() {
    models_are_states();
    clauses_are_equations();
}
