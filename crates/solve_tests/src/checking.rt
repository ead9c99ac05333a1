//! Lines and their answers, worked by hand.
use sat_chain::{ChainFault, Checker, Clauses, NewFault, Seen};
use std::alloc::Global;
use std::process::Abort;
use std::test::Fail;

/// Clauses 1 to 12: nodes a, b and y = a AND b that are never X, each with the rails 2k+1 and 2k+2, and y both 1 and 0.
const GIVEN: [&[u8]; 12] = [
    b"c 1 2 0",
    b"c -1 -2 0",
    b"c 3 4 0",
    b"c -3 -4 0",
    b"c -1 -3 5 0",
    b"c 1 -5 0",
    b"c 3 -5 0",
    b"c -2 6 0",
    b"c -4 6 0",
    b"c 2 4 -6 0",
    b"c 5 0",
    b"c 6 0",
];

fn answer(checker: &mut Checker, text: &[u8]) -> Option<Result<Seen, ChainFault>> {
    if text.len() <= checker.room() {
        Some(checker.line(text))
    } else {
        None
    }
}

fn start(rt: &impl Abort, alloc: Global) -> Result<Checker, NewFault> {
    let mut checker = Checker::new(alloc, 6, 1000)?;
    for text in GIVEN {
        assert_eq!(rt; answer(&mut checker, text), Some(Ok(Seen::Added)));
    }
    Ok(checker)
}

#[test]
fn a_contradiction_is_derived_in_three_lines(rt: HostRuntime) -> Result<(), Fail> {
    let mut checker = start(&rt, rt.alloc())?;
    assert_eq!(rt;
        answer(&mut checker, b"r 11 6 3 0 1 0"),
        Some(Err(ChainFault::NoPivot))
    );
    assert_eq!(rt;
        answer(&mut checker, b"r 11 99 0 1 0"),
        Some(Err(ChainFault::NoClause))
    );
    assert_eq!(rt;
        answer(&mut checker, b"r 11 6 2 0 -2 6 0"),
        Some(Err(ChainFault::NotResolvent))
    );
    assert_eq!(rt;
        answer(&mut checker, b"r 11 6"),
        Some(Err(ChainFault::BadLine))
    );
    assert_eq!(rt;
        answer(&mut checker, b"r 11 6 2 0 -2 0"),
        Some(Ok(Seen::Added))
    );
    assert_eq!(rt;
        answer(&mut checker, b"r 11 7 4 0 -4 0"),
        Some(Ok(Seen::Added))
    );
    assert_eq!(rt;
        answer(&mut checker, b"r 12 10 13 14 0 0"),
        Some(Ok(Seen::Empty))
    );
    Ok(())
}

const ADDED: [&[u8]; 8] = [
    b"c 1 0",
    b"c -6 0",
    b"c 1 -2 3 -4 5 -6 0",
    b"r 11 0 5 0",
    b"r 1 0 1 2 0",
    b"r 11 6 0 1 0",
    b"r 13 2 0 -2 0",
    b"r 10 12 0 2 4 0",
];

const BAD: [&[u8]; 33] = [
    b"",
    b"c",
    b"r",
    b"c ",
    b"c 0",
    b"r 0 0",
    b"r 0",
    b"c 1",
    b"c 1 0 ",
    b" c 1 0",
    b"c  1 0",
    b"c 1  0",
    b"c 01 0",
    b"c 1 00",
    b"c -0 0",
    b"c - 0",
    b"c --1 0",
    b"c +1 0",
    b"c 7 0",
    b"c -7 0",
    b"c 2 1 0",
    b"c 1 1 0",
    b"c 1 -1 0",
    b"c 1 0 2 0",
    b"c 1 0\r",
    b"c 1\t0",
    b"d 1 0",
    b"cc 1 0",
    b"c 18446744073709551617 0",
    b"r 11 6 0 1",
    b"r 011 0 5 0",
    b"r -11 0 5 0",
    b"r 11 0 7 0",
];

const NO_CLAUSE: [&[u8]; 6] = [
    b"r 13 0 5 0",
    b"r 18446744073709551627 0 5 0",
    b"r 11 99999999999999999999999 0 0",
    b"r 11 11 13 0 5 0",
    b"r 11 6 14 0 0",
    b"r 99 11 0 0",
];

const NO_PIVOT: [&[u8]; 6] = [
    b"r 11 11 0 5 0",
    b"r 1 2 0 0",
    b"r 11 12 0 5 6 0",
    b"r 11 1 0 5 0",
    b"r 3 10 0 2 3 4 -6 0",
    b"r 5 11 0 -1 -3 5 0",
];

const NOT_RESOLVENT: [&[u8]; 8] = [
    b"r 11 0 -5 0",
    b"r 11 0 0",
    b"r 1 0 2 1 0",
    b"r 11 6 0 1 5 0",
    b"r 11 6 0 -1 0",
    b"r 1 0 1 1 2 0",
    b"r 10 12 0 4 0",
    b"r 11 7 0 3 5 0",
];

#[test]
fn a_line_that_passes_is_added(rt: HostRuntime) -> Result<(), Fail> {
    let mut checker = start(&rt, rt.alloc())?;
    for text in ADDED {
        assert_eq!(rt; answer(&mut checker, text), Some(Ok(Seen::Added)));
    }
    Ok(())
}

fn all_answer(
    rt: &impl Abort,
    alloc: Global,
    texts: &[&[u8]],
    fault: ChainFault,
) -> Result<(), NewFault> {
    let mut checker = start(rt, alloc)?;
    for text in texts {
        assert_eq!(rt; answer(&mut checker, *text), Some(Err(fault)));
    }
    assert_eq!(rt;
        answer(&mut checker, b"r 11 6 0 1 0"),
        Some(Ok(Seen::Added))
    );
    Ok(())
}

#[test]
fn a_text_that_is_no_line_is_bad(rt: HostRuntime) -> Result<(), Fail> {
    all_answer(&rt, rt.alloc(), &BAD, ChainFault::BadLine)?;
    Ok(())
}

#[test]
fn a_number_of_no_clause_is_told(rt: HostRuntime) -> Result<(), Fail> {
    all_answer(&rt, rt.alloc(), &NO_CLAUSE, ChainFault::NoClause)?;
    Ok(())
}

#[test]
fn a_step_without_exactly_one_pivot_is_told(rt: HostRuntime) -> Result<(), Fail> {
    all_answer(&rt, rt.alloc(), &NO_PIVOT, ChainFault::NoPivot)?;
    Ok(())
}

#[test]
fn another_result_is_told(rt: HostRuntime) -> Result<(), Fail> {
    all_answer(&rt, rt.alloc(), &NOT_RESOLVENT, ChainFault::NotResolvent)?;
    Ok(())
}

#[test]
fn a_clause_is_found_by_its_id(rt: HostRuntime) -> Result<(), Fail> {
    let mut clauses = Clauses::new(rt.alloc(), 3);
    let first = clauses.add(&[1, -2])?;
    let second = clauses.add(&[3])?;
    assert_eq!(rt; first.number(), 0);
    assert_eq!(rt; second.number(), 1);
    assert_eq!(rt; clauses.vars(), 3);
    assert_eq!(rt; clauses.len(), 2);
    assert!(rt; clauses.try_id(2).is_none());
    let id = clauses.try_id(1).ok_or("1")?;
    assert_eq!(rt; clauses.lits(id), [3].as_slice());
    let id = clauses.try_id(0).ok_or("0")?;
    assert_eq!(rt; clauses.lits(id), [1, -2].as_slice());
    Ok(())
}
