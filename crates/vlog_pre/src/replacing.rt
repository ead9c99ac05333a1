//! The replacement of a use: the macro's text with the arguments put in.
ghost use Rattle.std.specs.Prelude.{◌≡◌, ◌≤◌, ◌<◌, ◌++◌, [], length, false, IfOk, OnOk, MatchOption};
ghost use Rattle.std.specs.Option.{option_copied};
ghost use Rattle.vlog_items.specs.declared.modes.Mode.TheVariants.{Plain};
ghost use Rattle.vlog_pre.specs.Uses.{argument_of, put_for, replaced_from};

use rdc_outside::Seq;
use std::alloc::{AllocError, Global};
use vlog_items::{Class, Mode};

/// The argument of the first parameter that is such a word.
fn argument<'a>(
    parameters: &[Seq<u8>],
    arguments: &'a [Seq<u8>],
    word: &[u8],
) -> Option<&'a Seq<u8>>
    ensures { option_copied result ≡ argument_of parameters.now arguments.now word.now }
{
    let mut later = parameters;
    let mut values = arguments;
    'parameters: while let [parameter, others @ ..] = later {
        let [value, rest @ ..] = values else {
            return None;
        };
        if word == parameter.as_slice() {
            return Some(value);
        }
        later = others;
        values = rest;
    }
    None
}

/// Puts out what stands for a word.
fn put(
    out: &mut Vec<u8>,
    parameters: &[Seq<u8>],
    arguments: &[Seq<u8>],
    ticked: bool,
    word: &[u8],
) -> Result<(), AllocError>
    ensures { OnOk result (out.new.items ≡ out.old.items ++ put_for parameters.now arguments.now ticked word.now) }
{
    if ticked {
        return out.extend_from_slice(word);
    }
    match argument(parameters, arguments, word) {
        None => out.extend_from_slice(word),
        Some(value) => out.extend_from_slice(value.as_slice()),
    }
}

/// The text with the arguments put in. None where it has 16,777,216 bytes or more.
pub(crate) fn replacement(
    alloc: Global,
    parameters: &[Seq<u8>],
    arguments: &[Seq<u8>],
    text: &[u8],
) -> Result<Option<Vec<u8>>, AllocError>
    ensures { IfOk result (λ found. MatchOption found (16777216 ≤ length (replaced_from parameters.now arguments.now Plain false [] text.now))
        (λ bytes. (bytes.items ≡ replaced_from parameters.now arguments.now Plain false [] text.now) × (length bytes.items < 16777216))) }
{
    let mut mode = Mode::Plain;
    let mut ticked = false;
    let mut word = Vec::new(alloc);
    let mut out = Vec::new(alloc);
    let mut rest = text;
    'bytes: while let [b, others @ ..] = rest {
        if mode.is_plain() && Class::NameByte.has(*b) {
            word.push(*b)?;
        } else {
            put(&mut out, parameters, arguments, ticked, &word)?;
            out.push(*b)?;
            if out.len() >= 16_777_216 {
                return Ok(None);
            }
            word.clear();
            ticked = *b == b'`';
        }
        mode = mode.after(*b);
        rest = others;
    }
    put(&mut out, parameters, arguments, ticked, &word)?;
    if out.len() >= 16_777_216 {
        return Ok(None);
    }
    Ok(Some(out))
}
