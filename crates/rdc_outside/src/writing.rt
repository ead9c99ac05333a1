//! Writing a whole text to a sink that may take it in parts.
ghost use Rattle.std.specs.Prelude.{◌≡◌, ◌<◌, ◌≤◌, length, IfErr, OnErr};
ghost use Rattle.rdc_outside.specs.Counts.{Rose};
ghost use Rattle.rdc_outside.specs.Sink.{written_with, part_written};

use crate::Sink;

/// The sink failed after it had taken the first `count` bytes.
#[derive(Clone, Copy, Debug, PartialEq, Eq)]
pub struct WroteUpTo {
    pub count: usize,
}

/// Writes all the bytes, in as many writes as the sink needs. It takes no memory.
pub fn write_all_of<K: Sink>(sink: &mut K, bytes: &[u8]) -> Result<(), WroteUpTo>
    ensures value { K.written sink.new ≡ written_with (K.written sink.old) (part_written result bytes.now) }
    ensures err { IfErr result (λ up_to. up_to.count < length bytes.now) }
    ensures only_err { OnErr result (Rose (K.faults sink.old) (K.faults sink.new)) }
    ensures faults { K.faults sink.old ≤ K.faults sink.new }
{
    let mut count = 0;
    while count < bytes.len() {
        let (_, rest) = bytes.split_at(count);
        match sink.write(rest) {
            Ok(taken) => count += taken,
            Err(_) => return Err(WroteUpTo { count }),
        }
    }
    Ok(())
}
