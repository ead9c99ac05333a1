//! The tables by hand: rows and columns in the order 0, 1, X.
use super::*;
use Tern::{One, Unsettled, Zero};

const VALUES: [Tern; 3] = [Zero, One, Unsettled];

const X: Tern = Unsettled;

const AND: [[Tern; 3]; 3] = [[Zero, Zero, Zero], [Zero, One, X], [Zero, X, X]];

const OR: [[Tern; 3]; 3] = [[Zero, One, X], [One, One, One], [X, One, X]];

const XOR: [[Tern; 3]; 3] = [[Zero, One, X], [One, Zero, X], [X, X, X]];

const JOIN: [[Tern; 3]; 3] = [[Zero, X, X], [X, One, X], [X, X, X]];

#[test]
fn the_tables_are_those_of_the_book(rt: HostRuntime) {
    for i in 0..3 {
        for j in 0..3 {
            let (a, b) = (VALUES[i], VALUES[j]);
            assert_eq!(rt; a.and(b), AND[i][j], "{a:?} and {b:?}");
            assert_eq!(rt; a.or(b), OR[i][j], "{a:?} or {b:?}");
            assert_eq!(rt; a.xor(b), XOR[i][j], "{a:?} xor {b:?}");
            assert_eq!(rt; a.join(b), JOIN[i][j], "{a:?} join {b:?}");
        }
    }
}

#[test]
fn an_unsettled_selection_between_ones_is_unsettled(rt: HostRuntime) {
    assert_eq!(rt; Tern::mux(One, Zero, One), Zero);
    assert_eq!(rt; Tern::mux(Zero, Zero, One), One);
    assert_eq!(rt; Tern::mux(X, One, One), X);
    assert_eq!(rt; Tern::mux(X, Zero, Zero), Zero);
    assert_eq!(rt; X.not(), X);
    assert_eq!(rt; One.not(), Zero);
}

#[test]
fn only_an_unsettled_value_tells_less(rt: HostRuntime) {
    assert!(rt; Tern::below(Zero, X));
    assert!(rt; Tern::below(One, One));
    assert!(rt; !Tern::below(X, One));
    assert!(rt; !Tern::below(Zero, One));
}
