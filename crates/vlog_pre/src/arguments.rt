//! The arguments of a use.
ghost use Rattle.std.specs.Prelude.{◌≡◌, ◌≤◌, ◌<◌, ◌+◌, ◌^◌, [], length, IfOk, OnOk};
ghost use Rattle.vlog_items.specs.declared.modes.Mode.TheVariants.{Plain};
ghost use Rattle.vlog_pre.specs.Readings.{IsRead};
ghost use Rattle.vlog_pre.specs.Uses.{argument_turn_of, is_opening, is_closing, depth_after, arguments_from, arguments_of};

use crate::words::begins;
use rdc_outside::Seq;
use std::alloc::{AllocError, Global};
use vlog_items::{Ahead, Class, Mode, Reader};

/// What a byte does in a list of arguments.
#[derive(Clone, Copy, Debug, PartialEq, Eq)]
pub(crate) enum ArgumentTurn {
    /// It ends an argument, and a further one follows.
    Splits,
    /// It ends the last one.
    Finishes,
    Goes,
}

#[tactic(auto, unfolding(crate::specs::Uses::argument_turn_of))]
fn turn(mode: Mode, depth: usize, b: u8) -> ArgumentTurn
    ensures { result ≡ argument_turn_of mode depth b }
{
    if mode.is_plain() && depth == 0 && b == b',' {
        ArgumentTurn::Splits
    } else if mode.is_plain() && depth == 0 && b == b')' {
        ArgumentTurn::Finishes
    } else {
        ArgumentTurn::Goes
    }
}

#[tactic(auto, unfolding(crate::specs::Uses::is_opening))]
fn opening(b: u8) -> bool
    ensures { result ≡ is_opening b }
{
    b == b'(' || b == b'[' || b == b'{'
}

#[tactic(auto, unfolding(crate::specs::Uses::is_closing))]
fn closing(b: u8) -> bool
    ensures { result ≡ is_closing b }
{
    b == b')' || b == b']' || b == b'}'
}

#[tactic(auto, unfolding(crate::specs::Uses::depth_after))]
fn after(mode: Mode, depth: usize, b: u8) -> usize
    requires { depth + 1 < 2 ^ 64 }
    ensures value { result ≡ depth_after mode depth b }
    ensures bound { result ≤ depth + 1 }
{
    if mode.is_plain() && opening(b) {
        depth + 1
    } else if mode.is_plain() && closing(b) {
        depth.saturating_sub(1)
    } else {
        depth
    }
}

/// Reads the arguments behind a `(`. None where the list has no end.
fn arguments_behind(alloc: Global, reader: &mut Reader) -> Result<Option<Seq<Seq<u8>>>, AllocError>
    ensures read { IfOk result (λ found. IsRead found reader.new.items (arguments_from Plain 0 [] [] reader.old.items)) }
    ensures names { OnOk result (reader.new.names ≡ reader.old.names) }
    ensures shorter { OnOk result (length reader.new.items ≤ length reader.old.items) }
{
    let mut mode = Mode::Plain;
    let mut depth = 0;
    let mut arguments = Seq::new(alloc);
    let mut argument = Seq::new(alloc);
    'bytes: while let Ahead::Read(b, _) = reader.ahead() {
        let _bound = argument.len();
        reader.advance()?;
        match turn(mode, depth, b) {
            ArgumentTurn::Splits => {
                arguments.push(argument)?;
                argument = Seq::new(alloc);
                mode = Mode::Plain;
                depth = 0;
            }
            ArgumentTurn::Finishes => {
                arguments.push(argument)?;
                return Ok(Some(arguments));
            }
            ArgumentTurn::Goes => {
                argument.push(b)?;
                depth = after(mode, depth, b);
                mode = mode.after(b);
            }
        }
    }
    Ok(None)
}

/// Reads the arguments of a use. None where there is no list, or it has no end.
pub(crate) fn arguments(
    alloc: Global,
    reader: &mut Reader,
) -> Result<Option<Seq<Seq<u8>>>, AllocError>
    ensures read { IfOk result (λ found. IsRead found reader.new.items (arguments_of reader.old.items)) }
    ensures names { OnOk result (reader.new.names ≡ reader.old.names) }
    ensures shorter { OnOk result (length reader.new.items ≤ length reader.old.items) }
{
    reader.skip(Class::Blank)?;
    if !begins(reader, b'(') {
        return Ok(None);
    }
    reader.advance()?;
    arguments_behind(alloc, reader)
}
