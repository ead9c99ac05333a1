//! The one design that expressions are valued in, and its states.

use design_form::{Bounds, Design, Parts, Signal, SignalKind};
use rdc_outside::Seq;
use rdc_tern::Tern;
use std::alloc::{AllocError, Global};

/// A signal: its name, whether it is signed, and its range.
type Declared = (&'static [u8], bool, Option<Bounds>);

/// Unsigned, signed, counting up, without an index, and not from 0.
const SIGNALS: [Declared; 6] = [
    (b"a", false, Some(Bounds { msb: 7, lsb: 0 })),
    (b"b", true, Some(Bounds { msb: 7, lsb: 0 })),
    (b"c", false, Some(Bounds { msb: 0, lsb: 5 })),
    (b"d", false, None),
    (b"e", true, Some(Bounds { msb: 11, lsb: 4 })),
    (b"s", true, Some(Bounds { msb: 3, lsb: 0 })),
];

/// The signals by themselves.
fn parts(alloc: Global) -> Result<Parts, AllocError> {
    let mut signals = Seq::new(alloc);
    for (name, signed, range) in &SIGNALS {
        signals.push(Signal {
            name: Seq::from_vec(Vec::from_slice(alloc, *name)?),
            kind: SignalKind::Wire,
            signed: *signed,
            range: *range,
        })?;
    }
    Ok(Parts {
        signals,
        drivers: Seq::new(alloc),
        processes: Seq::new(alloc),
        gates: Seq::new(alloc),
        boxes: Seq::new(alloc),
        ports: Seq::new(alloc),
    })
}

/// The design of those signals.
pub(crate) fn design(alloc: Global) -> Result<Design, AllocError> {
    let parts = parts(alloc)?;
    if !parts.is_countable() {
        return Err(AllocError);
    }
    match Design::new(alloc, parts) {
        Ok(design) => Ok(design),
        Err(_) => Err(AllocError),
    }
}

/// A state in which bit k has the value of bit k of a number.
pub(crate) fn state(alloc: Global, design: &Design, number: u64) -> Result<Vec<Tern>, AllocError> {
    let mut state = Vec::new(alloc);
    let mut left = number;
    for _ in 0..design.bits() {
        let bit = if left % 2 == 1 { Tern::One } else { Tern::Zero };
        state.push(bit)?;
        left /= 2;
    }
    Ok(state)
}
