//! Names.

use crate::name::Name;
use rdc_outside::Place;

/// A name where it stands. An escaped name is kept without its backslash, so `\a ` and `a` are one name.
#[derive(Debug, Drop)]
pub struct Ident {
    pub place: Place,
    pub name: Name,
}
