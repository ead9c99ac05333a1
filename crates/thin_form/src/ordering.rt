//! The order in which wires can be computed.

ghost use Rattle.std.specs.Prelude.{◌≡◌, ◌≢◌, ℕ, ◌+◌, ◌<◌, ◌≤◌, ◌^◌, map, length, slice_index, IfOk};
ghost use Rattle.std.specs.Option.{option_map};
ghost use Rattle.thin_form.specs.Walk.{reads_of, steps_at, ReadWithin, IsOrderOrCircle, IsNext, next_of};

use std::alloc::{AllocError, Global};

/// What comes next at a wire on the way.
enum Move {
    /// Every wire that it reads is left.
    Done,
    /// The next wire that it reads is left.
    Known,
    /// The next wire that it reads is new.
    New(u32),
    /// The next wire that it reads is on the way to it.
    OnTheWay,
}

/// What comes next at a wire that was entered.
fn next(reads: &[Vec<u32>], marks: &[usize], u: u32) -> Move
    requires wire { u < length reads.now }
    requires entered { 0 < slice_index marks.now u }
    requires not_left { slice_index marks.now u < steps_at (map (λ r. r.items) reads.now) u }
    requires len { length marks.now ≡ length reads.now }
    requires within { ReadWithin (map (λ r. r.items) reads.now) }
    ensures room { slice_index marks.now u + 1 < 2 ^ 64 }
    ensures next { IsNext (map (λ r. r.items) reads.now) marks.now u result }
{
    let read = &reads[u as usize];
    let at = marks[u as usize] - 1;
    if at >= read.len() {
        return Move::Done;
    }
    let v = read[at];
    let mark = marks[v as usize];
    if mark == 0 {
        return Move::New(v);
    }
    if mark == reads[v as usize].len() + 2 {
        return Move::Known;
    }
    Move::OnTheWay
}

/// An order of all wires in which each stands after those that it reads. There is none where some wires go in a
/// circle. Each wire has a mark, how many steps were made there: it is entered, its reads are followed, it is left.
pub(crate) fn order(alloc: Global, reads: &[Vec<u32>]) -> Result<Option<Vec<u32>>, AllocError>
    requires few { length reads.now < 2 ^ 32 }
    requires within { ReadWithin (map (λ r. r.items) reads.now) }
    ensures { IfOk result (λ o. IsOrderOrCircle (map (λ r. r.items) reads.now) (option_map (λ v. v.items) o)) }
{
    let mut marks = vec![in alloc; 0usize; reads.len()]?;
    let mut way = Vec::new(alloc);
    let mut order = Vec::new(alloc);
    for start in 0..reads.len() {
        if marks[start] == 0 {
            marks[start] = 1;
            way.push(start as u32)?;
        }
        while let Some(u) = way.pop() {
            match next(reads, &marks, u) {
                Move::Done => {
                    marks[u as usize] += 1;
                    order.push(u)?;
                }
                Move::Known => {
                    marks[u as usize] += 1;
                    way.push(u)?;
                }
                Move::New(v) => {
                    way.push(u)?;
                    marks[v as usize] = 1;
                    way.push(v)?;
                }
                Move::OnTheWay => return Ok(None),
            }
        }
    }
    Ok(Some(order))
}
