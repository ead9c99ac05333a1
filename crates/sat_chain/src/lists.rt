//! The lists of numbers of a line, each ended by the word 0.
ghost use Rattle.std.specs.Prelude.{◌≡◌, ◌+◌, ◌*◌, ◌^◌, ◌<◌, ◌≤◌, ◌++◌, [], Some, None, if◌then◌else◌, vec_len, vec_capacity, take, OnSome, IfSome, IsTrue};
ghost use Rattle.std.specs.Option.{option_copied, option_map};
ghost use Rattle.sat_chain.specs.Text.{chain_of, literals_of};
ghost use Rattle.sat_chain.specs.Scan.{words_after, left_of, prefixed, numbers_behind, chain_read};

use crate::words::{first_word, is_one, literal, number};

/// Appends literals up to the word 0, which ends the line. Where it answers false, some may have been appended.
pub fn append_literals(text: Option<&[u8]>, vars: u32, lits: &mut Vec<i32>) -> bool
    requires vars { vars < 2 ^ 31 }
    requires room { left_of (option_copied text) + 2 * vec_len lits.old ≤ 2 * vec_capacity lits.old }
    ensures value { prefixed lits.old.items (literals_of vars (words_after (option_copied text.entry))) ≡ (if result then Some lits.new.items else None) }
    ensures bytes { IsTrue result → 2 * vec_len lits.new + 2 ≤ left_of (option_copied text.entry) + 2 * vec_len lits.old }
    ensures longer { vec_len lits.old ≤ vec_len lits.new }
    ensures front { take (vec_len lits.old) lits.new.items ≡ lits.old.items }
    ensures capacity { vec_capacity lits.new ≡ vec_capacity lits.old }
{
    let mut left = text;
    while let Some(text) = left {
        let (word, after) = first_word(text);
        if is_one(word, b'0') {
            return after.is_none();
        }
        let Some(lit) = literal(word, vars) else {
            return false;
        };
        lits.push_reserved(lit);
        left = after;
    }
    false
}

/// Reads clause numbers up to the word 0, and answers the text after it.
pub fn read_chain<'a>(text: Option<&'a [u8]>, chain: &mut Vec<u64>) -> Option<Option<&'a [u8]>>
    requires { left_of (option_copied text) ≤ 2 * vec_capacity chain.old }
    ensures value { numbers_behind [] (chain_of (words_after (option_copied text.entry))) ≡ chain_read chain.new.items (option_map option_copied result) }
    ensures bytes { IfSome result (λ rest. 2 * vec_len chain.new + 2 + left_of (option_copied rest) ≤ left_of (option_copied text.entry)) }
    ensures capacity { vec_capacity chain.new ≡ vec_capacity chain.old }
{
    chain.clear();
    let mut left = text;
    while let Some(text) = left {
        let (word, after) = first_word(text);
        if is_one(word, b'0') {
            return Some(after);
        }
        let Some(n) = number(word) else {
            return None;
        };
        chain.push_reserved(n);
        left = after;
    }
    None
}
