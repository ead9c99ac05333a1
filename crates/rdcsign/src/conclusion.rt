//! What a call says, and the status with which it ends.

ghost use Rattle.std.specs.Prelude.{◌≡◌, ◌≤◌, ◌++◌};
ghost use Rattle.rdcsign.specs.Report.{line};
ghost use Rattle.rdcsign.specs.Outcome.{Puts, Says, name_of, refused, Judged};

use crate::refusal::{Name, Refusal};
use crate::report::Judgement;
use rdc_outside::{Sink, Status, write_all_of};

/// Writes the bytes, and answers whether all of them were taken.
fn put<K: Sink>(out: &mut K, bytes: &[u8]) -> bool
    ensures puts { Puts bytes.now result (K.written out.old) (K.written out.new) (K.faults out.old) (K.faults out.new) }
    ensures faults { K.faults out.old ≤ K.faults out.new }
{
    write_all_of(out, bytes).is_ok()
}

/// Writes a line of two parts, and answers whether all of it was taken. It takes no memory.
fn put_line<K: Sink>(out: &mut K, kind: &[u8], name: &[u8]) -> bool
    ensures { Puts (line (kind.now ++ name.now)) result (K.written out.old) (K.written out.new) (K.faults out.old) (K.faults out.new) }
{
    if !put(out, kind) {
        return false;
    }
    if !put(out, name) {
        return false;
    }
    put(out, b"\n")
}

/// The same, where the second part is a word of the command line.
fn put_word<K: Sink>(out: &mut K, kind: &[u8], word: &str) -> bool
    ensures { Puts (line (kind.now ++ word.now)) result (K.written out.old) (K.written out.new) (K.faults out.old) (K.faults out.new) }
{
    put_line(out, kind, word.as_bytes())
}

/// The same, where the second part is the name of a file.
fn put_name<K: Sink>(out: &mut K, kind: &[u8], name: &Name) -> bool
    ensures { Puts (line (kind.now ++ name_of name.now)) result (K.written out.old) (K.written out.new) (K.faults out.old) (K.faults out.new) }
{
    put_line(out, kind, name.bytes())
}

/// Writes the line of a refusal. A sink that fails leaves the status as it is.
pub fn refuse<K: Sink>(out: &mut K, refusal: Refusal) -> Status
    ensures { Says (refused refusal.entry) result (K.written out.old) (K.written out.new) (K.faults out.old) (K.faults out.new) }
{
    match refusal {
        Refusal::Usage => {
            let _ = put_line(out, b"refused usage", b"");
            Status::Usage
        }
        Refusal::Absent(name) => {
            let _ = put_name(out, b"refused absent ", &name);
            Status::Absent
        }
        Refusal::Read(name) => {
            let _ = put_name(out, b"refused read ", &name);
            Status::Read
        }
        Refusal::Source(details) => {
            let _ = put_line(out, b"refused source ", &details);
            Status::Source
        }
        Refusal::NotYet(name) => {
            let _ = put_word(out, b"refused notyet ", name);
            Status::NotYet
        }
        Refusal::Memory => {
            let _ = put_line(out, b"refused memory", b"");
            Status::Memory
        }
    }
}

/// Writes the report on a design that was judged.
pub fn conclude<K: Sink>(out: &mut K, judgement: &Judgement) -> Status
    ensures { Says (Judged judgement.now.report.items judgement.now.crossing) result (K.written out.old) (K.written out.new) (K.faults out.old) (K.faults out.new) }
{
    if !put(out, &judgement.report) {
        return Status::Write;
    }
    if judgement.crossing {
        Status::Hazard
    } else {
        Status::Clean
    }
}
