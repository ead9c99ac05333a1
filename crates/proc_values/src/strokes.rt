//! Words written onto bits, as strokes.
ghost use Rattle.std.specs.Prelude.{◌≡◌, ◌+◌, ◌<◌, ◌≤◌, ◌^◌, ◌++◌, length, take, drop, IfSome, OnOk};
ghost use Rattle.rdc_tern.specs.declared.value.Tern.TheVariants.{One};
ghost use Rattle.proc_values.specs.Targets.{at_start, fixed_start, from_start, from_starts, less, onto, onto_all, place_less, reached};

use crate::hits::Select;
use crate::stroke::Stroke;
use design_form::EvalFault;
use rdc_tern::Tern;
use vlog_const::Whole;
use vlog_tree::Part;

/// The bit that stands `a - b` places up, where there is one.
#[tactic(auto, unfolding(crate::specs::Targets::place_less))]
fn place_less(bits: &[u32], a: u128, b: u128) -> Option<u32>
    ensures { result ≡ place_less bits.now a b }
{
    if b <= a && a - b < bits.len() as u128 {
        Some(bits[(a - b) as usize])
    } else {
        None
    }
}

/// A bit of the select from a start.
#[tactic(auto, unfolding(crate::specs::Targets::reached))]
pub fn reached(select: Select, bits: &[u32], start: u128, place: usize) -> Option<u32>
    requires start { start < 2 ^ 101 }
    ensures { result ≡ reached select.range bits.now select.width start place }
{
    let place = place as u128;
    if select.range.is_down() {
        let back = select.width.saturating_sub(1) as u128;
        place_less(bits, start + place, back)
    } else {
        place_less(bits, select.range.width() as u128 + place, start + 1)
    }
}

/// One bit of a word, where it has a place.
#[tactic(auto, unfolding(crate::specs::Targets::onto))]
fn put_onto(
    hit: Tern,
    place: Option<u32>,
    value: Tern,
    strokes: &mut Vec<Stroke>,
) -> Result<(), EvalFault>
    ensures { OnOk result (strokes.new.items ≡ strokes.old.items ++ onto hit place value) }
{
    match place {
        None => Ok(()),
        Some(bit) => {
            strokes.push(Stroke { hit, bit, value })?;
            Ok(())
        }
    }
}

/// A word onto the select from one start.
fn put_from(
    hit: Tern,
    select: Select,
    bits: &[u32],
    start: u128,
    word: &[Tern],
    strokes: &mut Vec<Stroke>,
) -> Result<(), EvalFault>
    requires start { start < 2 ^ 101 }
    ensures { OnOk result (strokes.new.items ≡ strokes.old.items ++ from_start hit select.range bits.now select.width start 0 word.now) }
{
    for j in 0..word.len() {
        put_onto(hit, reached(select, bits, start, j), word[j], strokes)?;
    }
    Ok(())
}

/// A word onto each start that is hit.
pub(crate) fn put_starts(
    hits: &[Tern],
    select: Select,
    bits: &[u32],
    word: &[Tern],
    strokes: &mut Vec<Stroke>,
) -> Result<(), EvalFault>
    ensures { OnOk result (strokes.new.items ≡ strokes.old.items ++ from_starts hits.now select.range bits.now select.width 0 word.now) }
{
    for i in 0..hits.len() {
        put_from(hits[i], select, bits, i as u128, word, strokes)?;
    }
    Ok(())
}

/// A word onto all bits of a name.
pub(crate) fn put_all(
    bits: &[u32],
    word: &[Tern],
    strokes: &mut Vec<Stroke>,
) -> Result<(), EvalFault>
    ensures { OnOk result (strokes.new.items ≡ strokes.old.items ++ onto_all bits.now word.now) }
{
    for i in 0..bits.len().min(word.len()) {
        strokes.push(Stroke {
            hit: Tern::One,
            bit: bits[i],
            value: word[i],
        })?;
    }
    Ok(())
}

/// A number less another one.
#[tactic(auto, unfolding(crate::specs::Targets::less))]
fn less(a: u128, b: u128) -> Option<u128>
    ensures value { result ≡ less a b }
    ensures small { IfSome result (λ n. n ≤ a) }
{
    if b <= a { Some(a - b) } else { None }
}

/// The start number of a constant index.
#[tactic(auto, unfolding(crate::specs::Targets::fixed_start))]
pub fn fixed_start(select: Select, index: Whole) -> Option<u128>
    requires { index.magnitude < 2 ^ 100 }
    ensures start { result ≡ fixed_start select.part select.range select.width index }
    ensures small { IfSome result (λ i. i < 2 ^ 101) }
{
    let lowest = select.range.lowest() as u128;
    let back = select.width.saturating_sub(1) as u128;
    match (select.part, index.negative) {
        (Part::Up, true) => less(back, lowest + index.magnitude),
        (Part::Up, false) => less(index.magnitude + back, lowest),
        (Part::Fixed, true) | (Part::Down, true) => None,
        (Part::Fixed, false) | (Part::Down, false) => less(index.magnitude, lowest),
    }
}

/// The lowest bits of a word, as many as there are of so many.
pub(crate) fn first(word: &[Tern], count: usize) -> &[Tern]
    ensures { result.now ≡ take count word.now }
{
    if word.len() <= count {
        return word;
    }
    let (low, _) = word.split_at(count);
    low
}

/// The bits of a word behind so many.
pub(crate) fn behind(word: &[Tern], count: u128) -> &[Tern]
    ensures { result.now ≡ drop count word.now }
{
    if word.len() as u128 <= count {
        return &[];
    }
    let (_, high) = word.split_at(count as usize);
    high
}

/// A word onto the select at a constant index.
#[tactic(auto, unfolding(crate::specs::Targets::at_start))]
pub(crate) fn put_fixed(
    select: Select,
    index: Whole,
    bits: &[u32],
    word: &[Tern],
    strokes: &mut Vec<Stroke>,
) -> Result<(), EvalFault>
    requires { select.width < 2 ^ 63 }
    ensures { OnOk result (strokes.new.items ≡ strokes.old.items ++ at_start (fixed_start select.part select.range select.width index) select.range bits.now select.width word.now) }
{
    let (_lowest, _width, _len) = (select.range.lowest(), select.range.width(), bits.len());
    if 1 << 100 <= index.magnitude {
        return Ok(());
    }
    match fixed_start(select, index) {
        None => Ok(()),
        Some(start) => put_from(
            Tern::One,
            select,
            bits,
            start,
            first(word, select.width),
            strokes,
        ),
    }
}
