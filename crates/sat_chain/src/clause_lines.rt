//! The two kinds of lines, behind their first word.
ghost use Rattle.std.specs.Prelude.{◌≡◌, ◌+◌, ◌*◌, ◌^◌, ◌<◌, ◌≤◌, vec_len, vec_capacity, IsTrue};
ghost use Rattle.std.specs.Option.{option_copied};
ghost use Rattle.sat_chain.specs.Text.{literals_of, chain_of, given_line, derived_line};
ghost use Rattle.sat_chain.specs.Scan.{words_after, left_of, GivenRead, DerivedRead};

use crate::lists::{append_literals, read_chain};
use crate::marks::ascends;

/// Appends the literals of a given clause, or nothing.
pub fn read_given(text: Option<&[u8]>, vars: u32, lits: &mut Vec<i32>) -> bool
    requires vars { vars < 2 ^ 31 }
    requires room { left_of (option_copied text) + 2 * vec_len lits.old ≤ 2 * vec_capacity lits.old }
    ensures value { GivenRead lits.old.items lits.new.items (given_line (literals_of vars (words_after (option_copied text.entry)))) result }
    ensures bytes { IsTrue result → 2 * vec_len lits.new + 2 ≤ left_of (option_copied text.entry) + 2 * vec_len lits.old }
    ensures more { IsTrue result → vec_len lits.old < vec_len lits.new }
    ensures capacity { vec_capacity lits.new ≡ vec_capacity lits.old }
{
    let start = lits.len();
    if !append_literals(text, vars, lits) {
        lits.truncate(start);
        return false;
    }
    let (_, more) = lits.as_slice().split_at(start);
    if more.is_empty() || !ascends(more) {
        lits.truncate(start);
        return false;
    }
    true
}

/// Reads the clause numbers of a derived clause, and appends its literals, or nothing.
pub fn read_derived(
    text: Option<&[u8]>,
    vars: u32,
    chain: &mut Vec<u64>,
    lits: &mut Vec<i32>,
) -> bool
    requires vars { vars < 2 ^ 31 }
    requires room { left_of (option_copied text) + 2 * vec_len lits.old ≤ 2 * vec_capacity lits.old }
    requires numbers { left_of (option_copied text) ≤ 2 * vec_capacity chain.old }
    ensures value { DerivedRead lits.old.items lits.new.items chain.new.items (derived_line vars (chain_of (words_after (option_copied text.entry)))) result }
    ensures bytes { IsTrue result → 2 * vec_len lits.new + 6 ≤ left_of (option_copied text.entry) + 2 * vec_len lits.old }
    ensures longer { vec_len lits.old ≤ vec_len lits.new }
    ensures some { IsTrue result → 0 < vec_len chain.new }
    ensures capacity { vec_capacity lits.new ≡ vec_capacity lits.old }
    ensures numbers { vec_capacity chain.new ≡ vec_capacity chain.old }
{
    let start = lits.len();
    let Some(rest) = read_chain(text, chain) else {
        return false;
    };
    if chain.is_empty() {
        return false;
    }
    if !append_literals(rest, vars, lits) {
        lits.truncate(start);
        return false;
    }
    true
}
