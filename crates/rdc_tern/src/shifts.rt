//! Shifts of words, least significant bit first, by amounts that may be X.
ghost use Rattle.std.specs.Prelude.{◌≡◌, ◌<◌, ◌+◌, ◌++◌, length, min, replicate, slice_index_or, IfOk};
ghost use Rattle.rdc_tern.specs.Shifts.{raised, lowered, select_of, shift_of, shl_of, shr_of, sar_of};

use crate::sums::WordFault;
use crate::value::Tern;
use std::alloc::Global;

/// `word << amount`, filled with 0.
pub fn shl(alloc: Global, word: &[Tern], amount: &[Tern]) -> Result<Vec<Tern>, WordFault>
    ensures { IfOk result (λ w. w.items ≡ shl_of word.now amount.now) }
{
    let mut shifted = Vec::from_slice(alloc, word)?;
    raise_by(&mut shifted, amount);
    Ok(shifted)
}

/// `word >> amount`, filled with 0.
pub fn shr(alloc: Global, word: &[Tern], amount: &[Tern]) -> Result<Vec<Tern>, WordFault>
    ensures { IfOk result (λ w. w.items ≡ shr_of word.now amount.now) }
{
    let mut shifted = Vec::from_slice(alloc, word)?;
    lower_by(&mut shifted, amount, Tern::Zero);
    Ok(shifted)
}

/// `word >>> amount` of a signed word, filled with its top bit.
pub fn sar(alloc: Global, word: &[Tern], amount: &[Tern]) -> Result<Vec<Tern>, WordFault>
    requires { 0 < length word.now }
    ensures { IfOk result (λ w. w.items ≡ sar_of word.now amount.now) }
{
    let mut shifted = Vec::from_slice(alloc, word)?;
    lower_by(&mut shifted, amount, word[word.len() - 1]);
    Ok(shifted)
}

/// Moves a word up by an amount.
fn raise_by(word: &mut [Tern], amount: &[Tern])
    ensures { word.new ≡ shl_of word.old amount.now }
{
    let mut distance = 1;
    for bit in amount {
        raise(word, distance, *bit);
        distance = doubled(distance, word.len());
    }
}

/// Moves a word down by an amount.
fn lower_by(word: &mut [Tern], amount: &[Tern], fill: Tern)
    ensures { word.new ≡ shift_of (lowered fill) 0 word.old amount.now }
{
    let mut distance = 1;
    for bit in amount {
        lower(word, distance, fill, *bit);
        distance = doubled(distance, word.len());
    }
}

/// Moves a word up where `bit` is 1. From the top down, so that no place is read behind its write.
fn raise(word: &mut [Tern], distance: usize, bit: Tern)
    ensures { word.new ≡ select_of bit (raised Tern.Zero distance word.old) word.old }
{
    let width = word.len();
    for i in 0..width {
        let place = width - 1 - i;
        word[place] = Tern::mux(bit, below(word, place, distance), word[place]);
    }
}

/// Moves a word down where `bit` is 1.
fn lower(word: &mut [Tern], distance: usize, fill: Tern, bit: Tern)
    ensures { word.new ≡ select_of bit (lowered fill distance word.old) word.old }
{
    for place in 0..word.len() {
        word[place] = Tern::mux(bit, above(word, place, distance, fill), word[place]);
    }
}

/// The bit so many places below, or 0.
#[inline]
fn below(word: &[Tern], place: usize, distance: usize) -> Tern
    requires { place < length word.now }
    ensures { result ≡ slice_index_or (replicate distance Tern.Zero ++ word.now) place Tern.Zero }
{
    if distance <= place {
        word[place - distance]
    } else {
        Tern::Zero
    }
}

/// The bit so many places above, or the fill.
#[inline]
fn above(word: &[Tern], place: usize, distance: usize, fill: Tern) -> Tern
    requires { place < length word.now }
    ensures { result ≡ slice_index_or word.now (place + distance) fill }
{
    if distance < word.len() - place {
        word[place + distance]
    } else {
        fill
    }
}

/// Twice a distance, or the width where that is past it.
fn doubled(distance: usize, width: usize) -> usize
    ensures { min result width ≡ min (distance + distance) width }
{
    if distance <= width / 2 {
        distance + distance
    } else {
        width
    }
}
