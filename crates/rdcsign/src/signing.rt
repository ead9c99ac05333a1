//! The one public call.

ghost use Rattle.std.specs.Prelude.{◌≡◌, IfSome};
ghost use Rattle.rdc_outside.specs.Counts.{Rose};
ghost use Rattle.rdcsign.specs.Request.{texts};
ghost use Rattle.rdcsign.specs.Signoff.{SignsOff, IsCause};
ghost use Rattle.rdcsign.specs.Headline.{CleanIsSafe};

use crate::checking::answer;
use crate::conclusion::{conclude, refuse};
use rdc_outside::{Shelf, Sink, Status};
use std::alloc::Global;

/// Signs off what the words ask for: loads the constraints, then the sources with what they include, judges the design
/// that they spell, and writes the report, or writes one line that says why there is none.
pub fn signoff<S: Shelf, K: Sink>(
    alloc: Global,
    words: &[String],
    shelf: &mut S,
    out: &mut K,
) -> Status
    // How the call ends, what it writes, and the loads that it makes.
    ensures ends { SignsOff (S.files shelf.old) (texts words.now) (S.calls shelf.old) (S.calls shelf.new)
        result (K.written out.old) (K.written out.new) (K.faults out.old) (K.faults out.new) }

    // Over told files each status comes exactly where its condition stands: no two of them stand at once,
    // but for want of memory and faults of the outside, which no file tells.
    ensures cause { IfSome (S.files shelf.old) (λ files. IsCause files (texts words.now) result) }

    // The headline: the design that told files spell is safe where the answer is clean.
    ensures safe { IfSome (S.files shelf.old) (λ files. CleanIsSafe files (texts words.now) result) }

    // What no file tells is counted.
    ensures only_absent { result ≡ Status.Absent → Rose (S.absences shelf.old) (S.absences shelf.new) }
    ensures only_read { result ≡ Status.Read → Rose (S.faults shelf.old) (S.faults shelf.new) }
    ensures only_write { result ≡ Status.Write → Rose (K.faults out.old) (K.faults out.new) }

    // No file is changed.
    ensures same { S.files shelf.new ≡ S.files shelf.old }
{
    match answer(alloc, words, shelf) {
        Ok(judgement) => conclude(out, &judgement),
        Err(refusal) => refuse(out, refusal),
    }
}
