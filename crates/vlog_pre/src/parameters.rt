//! The list of a macro's parameters.
ghost use Rattle.std.specs.Prelude.{◌≡◌, ◌≤◌, [], length, IfOk, OnOk};
ghost use Rattle.vlog_pre.specs.declared.parameters.Reached.TheVariants.{BeforeName};
ghost use Rattle.vlog_pre.specs.Readings.{IsRead};
ghost use Rattle.vlog_pre.specs.Macros.{turn_after_name, list_turn_of, reached_after_blank, parameters_from};

use rdc_outside::Seq;
use std::alloc::{AllocError, Global};
use vlog_items::{Ahead, Class, Reader, letter};

/// Where in a list of parameters one is.
#[derive(Clone, Copy, Debug, PartialEq, Eq)]
pub(crate) enum Reached {
    BeforeName,
    InName,
    AfterName,
}

/// What a byte does in a list of parameters.
#[derive(Clone, Copy, Debug, PartialEq, Eq)]
pub(crate) enum ListTurn {
    /// It is one byte more of a name.
    Adds,
    /// It is a blank.
    Waits,
    Separates,
    Closes,
    Breaks,
}

#[tactic(auto, unfolding(crate::specs::Macros::turn_after_name))]
fn after_name(b: u8) -> ListTurn
    ensures { result ≡ turn_after_name b }
{
    if b == b',' {
        ListTurn::Separates
    } else if b == b')' {
        ListTurn::Closes
    } else if Class::LineBlank.has(b) {
        ListTurn::Waits
    } else {
        ListTurn::Breaks
    }
}

#[tactic(auto, unfolding(crate::specs::Macros::list_turn_of))]
fn turn(reached: Reached, b: u8) -> ListTurn
    ensures { result ≡ list_turn_of reached b }
{
    match reached {
        Reached::BeforeName if letter(b) => ListTurn::Adds,
        Reached::BeforeName if Class::LineBlank.has(b) => ListTurn::Waits,
        Reached::BeforeName => ListTurn::Breaks,
        Reached::InName if Class::NameByte.has(b) => ListTurn::Adds,
        Reached::InName => after_name(b),
        Reached::AfterName => after_name(b),
    }
}

#[tactic(auto, unfolding(crate::specs::Macros::reached_after_blank))]
fn after_blank(reached: Reached) -> Reached
    ensures { result ≡ reached_after_blank reached }
{
    match reached {
        Reached::BeforeName => Reached::BeforeName,
        Reached::InName => Reached::AfterName,
        Reached::AfterName => Reached::AfterName,
    }
}

/// Reads the parameters behind a `(`. None where the list isn't of its form.
pub(crate) fn parameters(
    alloc: Global,
    reader: &mut Reader,
) -> Result<Option<Seq<Seq<u8>>>, AllocError>
    ensures read { IfOk result (λ found. IsRead found reader.new.items (parameters_from BeforeName [] [] reader.old.items)) }
    ensures names { OnOk result (reader.new.names ≡ reader.old.names) }
    ensures shorter { OnOk result (length reader.new.items ≤ length reader.old.items) }
{
    let mut reached = Reached::BeforeName;
    let mut names = Seq::new(alloc);
    let mut name = Seq::new(alloc);
    'bytes: while let Ahead::Read(b, _) = reader.ahead() {
        reader.advance()?;
        match turn(reached, b) {
            ListTurn::Adds => {
                name.push(b)?;
                reached = Reached::InName;
            }
            ListTurn::Waits => reached = after_blank(reached),
            ListTurn::Separates => {
                names.push(name)?;
                name = Seq::new(alloc);
                reached = Reached::BeforeName;
            }
            ListTurn::Closes => {
                names.push(name)?;
                return Ok(Some(names));
            }
            ListTurn::Breaks => return Ok(None),
        }
    }
    Ok(None)
}
