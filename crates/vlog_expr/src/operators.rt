//! Operators by their bytes, and how tightly they bind (IEEE 1364-2005, 5.1).

ghost use Rattle.std.specs.Prelude.{◌≡◌, ◌≤◌};
ghost use Rattle.vlog_tree.specs.Operators as spec;

use vlog_tree::{Binary, Part, Unary};

/// + - ! ~ & | ^
#[tactic(auto, unfolding(vlog_tree::specs::Operators::unary_of_one))]
fn unary_of_one(a: u8) -> Option<Unary>
    ensures { result ≡ spec.unary_of_one a }
{
    match a {
        b'+' => Some(Unary::Plus),
        b'-' => Some(Unary::Minus),
        b'!' => Some(Unary::Not),
        b'~' => Some(Unary::Invert),
        b'&' => Some(Unary::ReduceAnd),
        b'|' => Some(Unary::ReduceOr),
        b'^' => Some(Unary::ReduceXor),
        _ => None,
    }
}

/// ~& ~| ~^ ^~
#[tactic(auto, unfolding(vlog_tree::specs::Operators::unary_of_two))]
fn unary_of_two(a: u8, b: u8) -> Option<Unary>
    ensures { result ≡ spec.unary_of_two a b }
{
    match (a, b) {
        (b'~', b'&') => Some(Unary::ReduceNand),
        (b'~', b'|') => Some(Unary::ReduceNor),
        (b'~', b'^') | (b'^', b'~') => Some(Unary::ReduceXnor),
        _ => None,
    }
}

/// The operator before an operand.
#[tactic(auto, unfolding(vlog_tree::specs::Operators::unary_of))]
pub(crate) fn unary_of(mark: &[u8]) -> Option<Unary>
    ensures { result ≡ spec.unary_of mark.now }
{
    match mark {
        [] => None,
        [a] => unary_of_one(*a),
        [a, b] => unary_of_two(*a, *b),
        [_, _, _, ..] => None,
    }
}

/// * / % + - < > & ^ |
#[tactic(auto, unfolding(vlog_tree::specs::Operators::binary_of_one))]
fn binary_of_one(a: u8) -> Option<Binary>
    ensures { result ≡ spec.binary_of_one a }
{
    match a {
        b'*' => Some(Binary::Multiply),
        b'/' => Some(Binary::Divide),
        b'%' => Some(Binary::Remainder),
        b'+' => Some(Binary::Add),
        b'-' => Some(Binary::Subtract),
        b'<' => Some(Binary::Less),
        b'>' => Some(Binary::Greater),
        b'&' => Some(Binary::And),
        b'^' => Some(Binary::Xor),
        b'|' => Some(Binary::Or),
        _ => None,
    }
}

/// ** << >> <= >= == != ~^ ^~ && ||
#[tactic(auto, unfolding(vlog_tree::specs::Operators::binary_of_two))]
fn binary_of_two(a: u8, b: u8) -> Option<Binary>
    ensures { result ≡ spec.binary_of_two a b }
{
    match (a, b) {
        (b'*', b'*') => Some(Binary::Power),
        (b'<', b'<') => Some(Binary::ShiftLeft),
        (b'>', b'>') => Some(Binary::ShiftRight),
        (b'<', b'=') => Some(Binary::AtMost),
        (b'>', b'=') => Some(Binary::AtLeast),
        (b'=', b'=') => Some(Binary::Equal),
        (b'!', b'=') => Some(Binary::NotEqual),
        (b'~', b'^') | (b'^', b'~') => Some(Binary::Xnor),
        (b'&', b'&') => Some(Binary::LogicalAnd),
        (b'|', b'|') => Some(Binary::LogicalOr),
        _ => None,
    }
}

/// <<< >>> === !==
#[tactic(auto, unfolding(vlog_tree::specs::Operators::binary_of_three))]
fn binary_of_three(a: u8, b: u8, c: u8) -> Option<Binary>
    ensures { result ≡ spec.binary_of_three a b c }
{
    match (a, b, c) {
        (b'<', b'<', b'<') => Some(Binary::ArithmeticShiftLeft),
        (b'>', b'>', b'>') => Some(Binary::ArithmeticShiftRight),
        (b'=', b'=', b'=') => Some(Binary::CaseEqual),
        (b'!', b'=', b'=') => Some(Binary::CaseNotEqual),
        _ => None,
    }
}

/// The operator between two operands.
#[tactic(auto, unfolding(vlog_tree::specs::Operators::binary_of))]
pub(crate) fn binary_of(mark: &[u8]) -> Option<Binary>
    ensures { result ≡ spec.binary_of mark.now }
{
    match mark {
        [] => None,
        [a] => binary_of_one(*a),
        [a, b] => binary_of_two(*a, *b),
        [a, b, c] => binary_of_three(*a, *b, *c),
        [_, _, _, _, ..] => None,
    }
}

/// : +: -:
#[tactic(auto, unfolding(vlog_tree::specs::Operators::part_of))]
pub(crate) fn part_of(mark: &[u8]) -> Option<Part>
    ensures { result ≡ spec.part_of mark.now }
{
    match mark {
        [] => None,
        [a] => { if *a == b':' { Some(Part::Fixed) } else { None } }
        [a, b] => {
            if *b != b':' {
                None
            } else if *a == b'+' {
                Some(Part::Up)
            } else if *a == b'-' {
                Some(Part::Down)
            } else {
                None
            }
        }
        [_, _, _, ..] => None,
    }
}

/// How tightly an operator binds.
#[tactic(auto, unfolding(vlog_tree::specs::Operators::level_of))]
pub(crate) fn level_of(op: Binary) -> u8
    ensures value { result ≡ spec.level_of op }
    ensures small { result ≤ 11 }
{
    match op {
        Binary::LogicalOr => 1,
        Binary::LogicalAnd => 2,
        Binary::Or => 3,
        Binary::Xor | Binary::Xnor => 4,
        Binary::And => 5,
        Binary::Equal | Binary::NotEqual | Binary::CaseEqual | Binary::CaseNotEqual => 6,
        Binary::Less | Binary::AtMost | Binary::Greater | Binary::AtLeast => 7,
        Binary::ShiftLeft
        | Binary::ShiftRight
        | Binary::ArithmeticShiftLeft
        | Binary::ArithmeticShiftRight => 8,
        Binary::Add | Binary::Subtract => 9,
        Binary::Multiply | Binary::Divide | Binary::Remainder => 10,
        Binary::Power => 11,
    }
}
