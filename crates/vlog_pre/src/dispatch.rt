//! What stands behind a backtick.
ghost use Rattle.std.specs.Prelude.{◌≡◌, ◌<◌, ◌+◌, OnOk};
ghost use Rattle.vlog_items.specs.declared.classes.Class.TheVariants.{InLine};
ghost use Rattle.vlog_pre.specs.Kinds.{kind_of};
ghost use Rattle.vlog_pre.specs.Readings.{word_of, after_word};
ghost use Rattle.vlog_pre.specs.Known.{state_of, IsStep, Proceeds};
ghost use Rattle.vlog_pre.specs.Directives.{directed, passed_by};

use crate::conditionals::conditional;
use crate::defining::{define, undefine};
use crate::fault::PreFault;
use crate::including::include;
use crate::kinds::{Kind, wanted_by};
use crate::known::Known;
use crate::outcome::Outcome;
use crate::using::use_macro;
use rdc_outside::Place;
use std::alloc::Global;
use vlog_items::{Class, Mode, Reader};

// What a name asks for is done.
fn direct_by(
    alloc: Global,
    kind: Kind,
    known: &mut Known,
    place: Place,
    name: Vec<u8>,
    reader: &mut Reader,
) -> Result<Outcome, PreFault>
    requires { known.old.count < 1048576 }
    ensures step { IsStep result (state_of known.new) reader.new (directed kind (state_of known.old) place reader.old.names name.items reader.old.items) }
    ensures nearer { Proceeds result (state_of known.old) reader.old.items (state_of known.new) reader.new.items }
{
    match kind {
        Kind::Define => define(alloc, known, place, reader),
        Kind::Undef => undefine(known, place, reader),
        Kind::Include => include(alloc, known, place, reader),
        Kind::Condition(branch) => conditional(branch, known, place, reader),
        Kind::WithLine => {
            reader.skip(Class::InLine)?;
            Ok(Outcome::GoesOn)
        }
        Kind::Alone => Ok(Outcome::GoesOn),
        Kind::Other => use_macro(alloc, known, place, name, reader),
    }
}

/// What stands behind a backtick of a part that is taken.
pub(crate) fn direct(
    alloc: Global,
    known: &mut Known,
    place: Place,
    reader: &mut Reader,
) -> Result<Outcome, PreFault>
    requires { known.old.count < 1048576 }
    ensures step { IsStep result (state_of known.new) reader.new (directed (kind_of (word_of reader.old.items)) (state_of known.old) place reader.old.names (word_of reader.old.items) (after_word reader.old.items)) }
    ensures nearer { Proceeds result (state_of known.old) reader.old.items (state_of known.new) reader.new.items }
{
    let name = reader.run(Class::NameByte)?;
    direct_by(alloc, wanted_by(&name), known, place, name, reader)
}

/// What stands behind a backtick of a part that is not taken.
pub(crate) fn pass_by(
    known: &mut Known,
    place: Place,
    reader: &mut Reader,
) -> Result<Outcome, PreFault>
    ensures step { IsStep result (state_of known.new) reader.new (passed_by (kind_of (word_of reader.old.items)) (state_of known.old) place (after_word reader.old.items)) }
    ensures nearer { Proceeds result (state_of known.old) reader.old.items (state_of known.new) reader.new.items }
{
    let name = reader.run(Class::NameByte)?;
    match wanted_by(&name) {
        Kind::Condition(branch) => conditional(branch, known, place, reader),
        Kind::Define | Kind::Undef | Kind::Include | Kind::WithLine | Kind::Alone | Kind::Other => {
            known.skipped = Mode::Plain;
            Ok(Outcome::GoesOn)
        }
    }
}
