//! Values of bits, read and changed in place.
ghost use Rattle.std.specs.Prelude.{◌≡◌, false, true, get_or, slice_set, length, IfOk};
ghost use Rattle.rdc_tern.specs.Kleene.{mux_of};
ghost use Rattle.rdc_tern.specs.Shifts.{select_of};
ghost use Rattle.design_form.specs.State.{value_at};
ghost use Rattle.proc_values.specs.Runs.{is_among, put, struck, values_of};
ghost use Rattle.proc_values.specs.Marks.{AreMarks, Moves, scattered};

use crate::stroke::Stroke;
use design_form::EvalFault;
use rdc_tern::Tern;
use std::alloc::Global;

/// The value of a bit, X where the state doesn't reach it.
fn value(state: &[Tern], bit: u32) -> Tern
    ensures { result ≡ value_at state.now bit }
{
    let n = bit as usize;
    if n < state.len() {
        state[n]
    } else {
        Tern::Unsettled
    }
}

/// Which bits are among these, one flag a bit.
pub(crate) fn marked(alloc: Global, bits: &[u32], count: usize) -> Result<Vec<bool>, EvalFault>
    ensures long { IfOk result (λ marks. length marks.items ≡ count) }
    ensures marks { IfOk result (λ marks. AreMarks bits.now marks.items) }
{
    let mut marks = vec![in alloc; false; count]?;
    for i in 0..bits.len() {
        mark(&mut marks, bits[i]);
    }
    Ok(marks)
}

/// Marks a bit, if it is there.
#[tactic(auto, using(std::proofs::lemmas::List::set_past))]
fn mark(marks: &mut Vec<bool>, bit: u32)
    ensures { marks.new.items ≡ slice_set marks.old.items bit true }
{
    let n = bit as usize;
    if n < marks.len() {
        marks[n] = true;
    }
}

/// Whether a bit is marked.
fn is_marked(marks: &[bool], bit: u32) -> bool
    ensures { result ≡ get_or marks.now bit false }
{
    let n = bit as usize;
    n < marks.len() && marks[n]
}

/// Gives a bit a value, if it is there.
#[tactic(auto, using(std::proofs::lemmas::List::set_past))]
fn set_value(state: &mut [Tern], bit: u32, value: Tern)
    ensures { state.new ≡ slice_set state.old bit value }
{
    let n = bit as usize;
    if n < state.len() {
        state[n] = value;
    }
}

/// A bit of these gets another value.
fn strike(bits: &[u32], marks: &[bool], stroke: Stroke, state: &mut [Tern])
    requires marks { AreMarks bits.now marks.now }
    requires long { length state.old ≡ length marks.now }
    ensures value { state.new ≡ put bits.now state.old stroke.bit (mux_of stroke.hit stroke.value (value_at state.old stroke.bit)) }
    ensures moves { Moves bits.now state.old state.new }
{
    if is_marked(marks, stroke.bit) {
        let so_far = value(state, stroke.bit);
        set_value(
            state,
            stroke.bit,
            Tern::mux(stroke.hit, stroke.value, so_far),
        );
    }
}

/// Strokes, one after the other.
pub(crate) fn strike_all(bits: &[u32], marks: &[bool], strokes: &[Stroke], state: &mut [Tern])
    requires marks { AreMarks bits.now marks.now }
    requires long { length state.old ≡ length marks.now }
    ensures value { state.new ≡ struck bits.now strokes.now state.old }
    ensures moves { Moves bits.now state.old state.new }
{
    for i in 0..strokes.len() {
        strike(bits, marks, strokes[i], state);
    }
}

/// The values of bits.
pub(crate) fn gathered(alloc: Global, bits: &[u32], state: &[Tern]) -> Result<Vec<Tern>, EvalFault>
    ensures { IfOk result (λ w. w.items ≡ values_of state.now bits.now) }
{
    let mut values = Vec::new(alloc);
    for i in 0..bits.len() {
        values.push(value(state, bits[i]))?;
    }
    Ok(values)
}

/// Values put back at bits.
pub(crate) fn put_back(bits: &[u32], values: &[Tern], state: &mut [Tern])
    requires { length values.now ≡ length bits.now }
    ensures { state.new ≡ scattered bits.now values.now state.old }
{
    for i in 0..bits.len() {
        set_value(state, bits[i], values[i]);
    }
}

/// Bit by bit the first word where the selection is 1, the second where it is 0.
pub(crate) fn mixed(
    alloc: Global,
    select: Tern,
    a: &[Tern],
    b: &[Tern],
) -> Result<Vec<Tern>, EvalFault>
    requires { length a.now ≡ length b.now }
    ensures { IfOk result (λ w. w.items ≡ select_of select a.now b.now) }
{
    let mut word = Vec::new(alloc);
    for i in 0..a.len() {
        word.push(Tern::mux(select, a[i], b[i]))?;
    }
    Ok(word)
}
