//! The clocks of flops.

ghost use Rattle.std.specs.Prelude.{◌≡◌, ◌<◌, length, map, Some, All, IfSome, IfOk};
ghost use Rattle.cons_bind.specs.Marks.{Marks};
ghost use Rattle.cons_bind.specs.Reading.{Adds, AreUnmarked};
ghost use Rattle.reset_trees.specs.Tables.{IsMarked, IsClockIn, clock_in, has_no_clock};

use net_view::SrcKind;
use std::alloc::{AllocError, Global};

/// Whether a source is a flop whose clock is no input port.
fn is_clockless(kind: &SrcKind<u32>) -> bool
    ensures { result ≡ has_no_clock kind.now }
{
    match kind {
        SrcKind::Port | SrcKind::BoxOut => false,
        SrcKind::Flop(flop) => flop.clock.is_none(),
    }
}

/// A mark for each flop whose clock is no input port.
pub(crate) fn clockless(alloc: Global, kinds: &[SrcKind<u32>]) -> Result<Vec<bool>, AllocError>
    ensures { IfOk result (λ marks. marks.items ≡ map has_no_clock kinds.now) }
{
    kinds.iter().map(|kind| is_clockless(kind)).collect(alloc)
}

/// The port that clocks a source.
pub(crate) fn clock_of(kind: &SrcKind<u32>) -> Option<u32>
    ensures { result ≡ clock_in kind.now }
{
    match kind {
        SrcKind::Port | SrcKind::BoxOut => None,
        SrcKind::Flop(flop) => flop.clock,
    }
}

/// Marks the port that clocks a source, if it is marked as read.
fn mark_clock(kind: &SrcKind<u32>, read: &[bool], marks: &mut [bool])
    requires sized { length marks.old ≡ length read.now }
    requires inside { IfSome (clock_in kind.now) (λ c. c < length read.now) }
    ensures { Adds (λ c. (clock_in kind.now ≡ Some c) × IsMarked read.now c) marks.old marks.new }
{
    if let Some(clock) = clock_of(kind) {
        if read[clock as usize] {
            marks[clock as usize] = true;
        }
    }
}

/// Marks each port that clocks a flop and is marked as read, where none is marked yet.
fn mark_clocks(kinds: &[SrcKind<u32>], read: &[bool], marks: &mut [bool])
    requires sized { length marks.old ≡ length read.now }
    requires inside { All (λ kind. IfSome (clock_in kind) (λ c. c < length read.now)) kinds.now }
    ensures marks { AreUnmarked marks.old → Marks (λ c. IsClockIn kinds.now c × IsMarked read.now c) marks.new }
    ensures len { length marks.new ≡ length marks.old }
{
    'kinds: for kind in kinds {
        mark_clock(kind, read, marks);
    }
}

/// A mark for each port that clocks a flop and is marked as read.
pub(crate) fn read_clocks(
    alloc: Global,
    kinds: &[SrcKind<u32>],
    read: &[bool],
) -> Result<Vec<bool>, AllocError>
    requires { All (λ kind. IfSome (clock_in kind) (λ c. c < length read.now)) kinds.now }
    ensures marks { IfOk result (λ marks. Marks (λ c. IsClockIn kinds.now c × IsMarked read.now c) marks.items) }
    ensures len { IfOk result (λ marks. length marks.items ≡ length read.now) }
{
    let mut marks = vec![in alloc; false; read.len()]?;
    mark_clocks(kinds, read, &mut marks);
    Ok(marks)
}
