//! Small problems, decided by hand, and each chain read by the checker line by line.
ghost use Rattle.std.specs.Prelude.{◌≡◌, ◌≤◌, ◌^◌, ◌<◌, IsTrue};
ghost use Rattle.std.specs.List.{AllByRecursion};
ghost use Rattle.sat_chain.specs.Clause.{variable, ascends_above};

use sat_chain::{Chain, Checker, Clauses, Seen};
use sat_core::{Answer, solve};
use std::alloc::{AllocError, Global};
use std::process::Abort;
use std::test::Fail;

fn ascends(lits: &[i32]) -> bool
    ensures { result ≡ ascends_above 0 lits.now }
{
    let mut last = 0;
    for lit in lits {
        let variable = lit.unsigned_abs();
        if variable <= last {
            return false;
        }
        last = variable;
    }
    true
}

fn is_within(vars: u32, lits: &[i32]) -> bool
    ensures { IsTrue result → AllByRecursion (λ l. variable l ≤ vars) lits.now }
{
    for lit in lits {
        if lit.unsigned_abs() > vars {
            return false;
        }
    }
    true
}

fn put(clauses: &mut Clauses, lits: &[i32]) -> Result<(), Fail> {
    let vars = clauses.vars();
    if lits.is_empty() || !ascends(lits) || !is_within(vars, lits) {
        return Err("no clause")?;
    }
    clauses.add(lits)?;
    Ok(())
}

fn push_literals(alloc: Global, text: &mut String, lits: &[i32]) -> Result<(), AllocError> {
    for lit in lits {
        text.push_str(format!(in alloc; " {lit}")?.as_str())?;
    }
    text.push_str(" 0")
}

fn read(checker: &mut Checker, text: &str) -> Result<Seen, Fail> {
    if text.len() > checker.room() {
        return Err("no room")?;
    }
    Ok(checker.line(text.as_bytes())?)
}

/// The checker's answer to the last line of a chain, after the clauses and the other lines.
fn last_seen(alloc: Global, clauses: &Clauses, chain: &Chain) -> Result<Seen, Fail> {
    let count = clauses.len();
    let mut checker = Checker::new(alloc, clauses.vars(), 100000)?;
    let mut seen = Seen::Added;
    for n in 0..count {
        let id = clauses.try_id(n).ok_or("id")?;
        let mut text = String::new(alloc);
        text.push_str("c")?;
        push_literals(alloc, &mut text, clauses.lits(id))?;
        seen = read(&mut checker, text.as_str())?;
    }
    for line in chain.lines.iter() {
        if seen == Seen::Empty {
            return Err("a line after the empty one")?;
        }
        let mut text = String::new(alloc);
        text.push_str("r")?;
        for id in line.from.iter() {
            let number = id.number().saturating_add(1);
            text.push_str(format!(in alloc; " {number}")?.as_str())?;
        }
        text.push_str(" 0")?;
        push_literals(alloc, &mut text, line.lits.as_slice())?;
        seen = read(&mut checker, text.as_str())?;
    }
    Ok(seen)
}

/// Whether the answer is a refutation that the checker passes.
fn is_refuted(alloc: Global, clauses: &Clauses, budget: Option<u64>) -> Result<bool, Fail> {
    match solve(alloc, clauses, budget)? {
        Answer::Refuted(chain) => Ok(last_seen(alloc, clauses, &chain)? == Seen::Empty),
        Answer::Model(_) => Ok(false),
        Answer::Spent(_) => Ok(false),
    }
}

/// How many lines the chain of a spent budget has, if the checker passes them.
fn spent(alloc: Global, clauses: &Clauses, budget: u64) -> Result<Option<usize>, Fail> {
    match solve(alloc, clauses, Some(budget))? {
        Answer::Spent(chain) => {
            let seen = last_seen(alloc, clauses, &chain)?;
            if seen == Seen::Empty {
                return Err("an empty line")?;
            }
            Ok(Some(chain.lines.len()))
        }
        Answer::Model(_) => Ok(None),
        Answer::Refuted(_) => Ok(None),
    }
}

fn is_met(values: &[bool], lits: &[i32]) -> bool {
    for lit in lits {
        let variable = lit.unsigned_abs() as usize;
        if variable == 0 || variable > values.len() {
            return false;
        }
        if values[variable - 1] == (*lit > 0) {
            return true;
        }
    }
    false
}

/// Whether the answer is a model, which each clause is tried on.
fn has_model(alloc: Global, clauses: &Clauses) -> Result<bool, Fail> {
    let Answer::Model(values) = solve(alloc, clauses, None)? else {
        return Ok(false);
    };
    for n in 0..clauses.len() {
        let id = clauses.try_id(n).ok_or("id")?;
        if !is_met(values.as_slice(), clauses.lits(id)) {
            return Ok(false);
        }
    }
    Ok(values.len() == clauses.vars() as usize)
}

/// Nodes a, b and y = a AND b that are never X, each with the rails 2k+1 and 2k+2, and y both 1 and 0.
const CONTRADICTION: [&[i32]; 12] = [
    &[1, 2],
    &[-1, -2],
    &[3, 4],
    &[-3, -4],
    &[-1, -3, 5],
    &[1, -5],
    &[3, -5],
    &[-2, 6],
    &[-4, 6],
    &[2, 4, -6],
    &[5],
    &[6],
];

fn made(alloc: Global, vars: u32, table: &[&[i32]]) -> Result<Clauses, Fail>
    requires { vars < 2 ^ 31 }
{
    let mut clauses = Clauses::new(alloc, vars);
    for lits in table {
        put(&mut clauses, *lits)?;
    }
    Ok(clauses)
}

#[test]
fn an_and_that_is_1_and_0_is_refuted(rt: HostRuntime) -> Result<(), Fail> {
    let clauses = made(rt.alloc(), 6, &CONTRADICTION)?;
    assert!(rt; is_refuted(rt.alloc(), &clauses, None)?);
    Ok(())
}

#[test]
fn a_budget_of_0_is_spent_before_anything_is_asked(rt: HostRuntime) -> Result<(), Fail> {
    let clauses = made(rt.alloc(), 6, &CONTRADICTION)?;
    assert_eq!(rt; spent(rt.alloc(), &clauses, 0)?, Some(0));
    let none = Clauses::new(rt.alloc(), 3);
    assert_eq!(rt; spent(rt.alloc(), &none, 0)?, Some(0));
    Ok(())
}

#[test]
fn a_budget_of_all_assignments_is_never_spent(rt: HostRuntime) -> Result<(), Fail> {
    let clauses = made(rt.alloc(), 6, &CONTRADICTION)?;
    assert!(rt; is_refuted(rt.alloc(), &clauses, Some(64))?);
    assert!(rt; is_refuted(rt.alloc(), &clauses, Some(u64::MAX))?);
    Ok(())
}

fn yes(variable: u16) -> i32 {
    i32::from(variable)
}

fn no(variable: u16) -> i32 {
    -i32::from(variable)
}

/// Pigeon p of 4 in hole h of 3 is variable 3p + h.
fn pigeons(alloc: Global) -> Result<Clauses, Fail> {
    let mut clauses = Clauses::new(alloc, 12);
    for p in 0..4 {
        put(
            &mut clauses,
            &[yes(3 * p + 1), yes(3 * p + 2), yes(3 * p + 3)],
        )?;
    }
    for h in 1..4 {
        for p in 0..4 {
            for q in p + 1..4 {
                put(&mut clauses, &[no(3 * p + h), no(3 * q + h)])?;
            }
        }
    }
    Ok(clauses)
}

#[test]
fn four_pigeons_have_no_place_in_three_holes(rt: HostRuntime) -> Result<(), Fail> {
    let clauses = pigeons(rt.alloc())?;
    assert_eq!(rt; clauses.len(), 22);
    assert!(rt; is_refuted(rt.alloc(), &clauses, None)?);
    assert_eq!(rt; spent(rt.alloc(), &clauses, 2)?, Some(2));
    assert!(rt; is_refuted(rt.alloc(), &clauses, Some(4096))?);
    Ok(())
}

/// Variables 1 to 12, each the other value than the one before it, the first of them 1 and the last as told.
fn alternation(alloc: Global, last: i32) -> Result<Clauses, Fail> {
    let mut clauses = Clauses::new(alloc, 12);
    put(&mut clauses, &[1])?;
    for x in 1..12 {
        put(&mut clauses, &[yes(x), yes(x + 1)])?;
        put(&mut clauses, &[no(x), no(x + 1)])?;
    }
    put(&mut clauses, &[last])?;
    Ok(clauses)
}

#[test]
fn the_last_of_twelve_that_alternate_is_0(rt: HostRuntime) -> Result<(), Fail> {
    let clauses = alternation(rt.alloc(), 12)?;
    assert!(rt; is_refuted(rt.alloc(), &clauses, None)?);
    let clauses = alternation(rt.alloc(), -12)?;
    assert!(rt; has_model(rt.alloc(), &clauses)?);
    Ok(())
}

/// Node n has colour k of 3 where variable 3n + k is true; the ends of an edge differ.
fn coloured(alloc: Global, nodes: u8, edges: &[(u8, u8)]) -> Result<Clauses, Fail> {
    let mut clauses = Clauses::new(alloc, 15);
    for n in 0..u16::from(nodes) {
        put(
            &mut clauses,
            &[yes(3 * n + 1), yes(3 * n + 2), yes(3 * n + 3)],
        )?;
    }
    for (a, b) in edges {
        let (a, b) = (u16::from(*a), u16::from(*b));
        for k in 1..4 {
            put(&mut clauses, &[no(3 * a + k), no(3 * b + k)])?;
        }
    }
    Ok(clauses)
}

#[test]
fn a_cycle_of_five_has_three_colours_and_four_neighbours_have_not(
    rt: HostRuntime,
) -> Result<(), Fail> {
    let cycle = [(0, 1), (1, 2), (2, 3), (3, 4), (0, 4)];
    let clauses = coloured(rt.alloc(), 5, &cycle)?;
    assert!(rt; has_model(rt.alloc(), &clauses)?);
    let all = [(0, 1), (0, 2), (0, 3), (1, 2), (1, 3), (2, 3)];
    let clauses = coloured(rt.alloc(), 4, &all)?;
    assert!(rt; is_refuted(rt.alloc(), &clauses, None)?);
    Ok(())
}

#[test]
fn no_clause_has_every_model(rt: HostRuntime) -> Result<(), Fail> {
    assert!(rt; has_model(rt.alloc(), &Clauses::new(rt.alloc(), 0))?);
    assert!(rt; has_model(rt.alloc(), &Clauses::new(rt.alloc(), 3))?);
    Ok(())
}
