//! Names as numbers.

ghost use Rattle.std.specs.Prelude.{◌≡◌, ◌<◌, ◌^◌, length, false, IsTrue, MatchOption};
ghost use Rattle.thin_tree.specs.Written.{texts};
ghost use Rattle.thin_form.specs.Design.{IsAscending};
ghost use Rattle.thin_form.specs.Meaning.{place};
ghost use Rattle.thin_form.specs.Rules.{is_among};
ghost use Rattle.thin_form.specs.Numbers.{AreLists, term_of};
ghost use Rattle.thin_form.specs.Listed.{lists};

use crate::term::Term;

/// The names of inputs, sources and wires, each in order, and for each source whether it is a clock.
#[derive(Clone, Copy)]
pub(crate) struct Names<'b, 'a> {
    pub(crate) inputs: &'b [&'a [u8]],
    pub(crate) sources: &'b [&'a [u8]],
    pub(crate) wires: &'b [&'a [u8]],
    pub(crate) clocks: &'b [bool],
}

/// The place of a name among names that ascend.
pub(crate) fn place_in(names: &[&[u8]], name: &[u8]) -> Option<u32>
    requires few { length names.now < 2 ^ 32 }
    requires ascending { IsAscending (texts names.now) }
    ensures { MatchOption result (is_among name.now (texts names.now) ≡ false) (λ n. IsTrue (is_among name.now (texts names.now)) × (n ≡ place (texts names.now) name.now)) }
{
    match names.binary_search_by_key(&name, |n| *n) {
        Ok(n) => Some(n as u32),
        Err(_) => None,
    }
}

/// The number of an input.
pub(crate) fn input(names: &Names, name: &[u8]) -> Option<u32>
    requires { AreLists (lists names.now) }
    ensures { MatchOption result (is_among name.now (lists names.now).inputs ≡ false) (λ n. IsTrue (is_among name.now (lists names.now).inputs) × (n ≡ place (lists names.now).sources name.now)) }
{
    match place_in(names.inputs, name) {
        Some(_) => place_in(names.sources, name),
        None => None,
    }
}

/// The source or the wire of a name, where it has one that is no clock.
pub(crate) fn find(names: &Names, name: &[u8]) -> Option<Term>
    requires { AreLists (lists names.now) }
    ensures { result ≡ term_of (lists names.now) name.now }
{
    match place_in(names.sources, name) {
        Some(n) if names.clocks[n as usize] => None,
        Some(n) => Some(Term::Source(n)),
        None => match place_in(names.wires, name) {
            Some(w) => Some(Term::Wire(w)),
            None => None,
        },
    }
}
