//! A signal with its place.

use design_form::Signal;
use rdc_outside::Place;

/// A signal of the flat design, and where its name is declared.
#[derive(Drop)]
pub struct Placed {
    pub signal: Signal,
    pub place: Place,
}
