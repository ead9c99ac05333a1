//! The form of a line. Each function reads what stands behind the first word.

ghost use Rattle.std.specs.Prelude.{◌≡◌};
ghost use Rattle.std.specs.Option.{option_map};
ghost use Rattle.std.specs.Str.{IsAscii};
ghost use Rattle.cons_file.specs.Lines.{words_in};
ghost use Rattle.cons_file.specs.Forms.{Clock, Steady, Track, skip_blanks, cut_blanks, after_word, reason_in};
ghost use Rattle.cons_file.specs.File.{form_said};
ghost use Rattle.cons_file.specs.Reading.{and_then, last_in, reset_in, tie_in, order_in, isolate_in, quiet_in, waive_in, named_in, behind, form_in};

use crate::line::LineForm;
use crate::words::{choice, given, last, trimmed, word};

/// N low, or N high
#[tactic(auto, unfolding(crate::specs::Reading::reset_in, crate::specs::Reading::and_then))]
fn reset(line: &[u8]) -> Option<LineForm<'_>>
    requires { IsAscii line.now }
    ensures { option_map form_said result ≡ reset_in (words_in line.now) }
{
    let (name, rest) = word(line)?;
    let high = choice("low", "high", rest)?;
    Some(LineForm::Reset(name, high))
}

/// P 0, or P 1
#[tactic(auto, unfolding(crate::specs::Reading::tie_in, crate::specs::Reading::and_then))]
fn tie(line: &[u8]) -> Option<LineForm<'_>>
    requires { IsAscii line.now }
    ensures { option_map form_said result ≡ tie_in (words_in line.now) }
{
    let (port, rest) = word(line)?;
    let one = choice("0", "1", rest)?;
    Some(LineForm::Tie(port, one))
}

/// A before B
#[tactic(auto, unfolding(crate::specs::Reading::order_in, crate::specs::Reading::and_then))]
fn order(line: &[u8]) -> Option<LineForm<'_>>
    requires { IsAscii line.now }
    ensures { option_map form_said result ≡ order_in (words_in line.now) }
{
    let (first, rest) = word(line)?;
    let rest = given("before", rest)?;
    let second = last(rest)?;
    Some(LineForm::Order(first, second))
}

/// R when S is 0, or R when S is 1
#[tactic(auto, unfolding(crate::specs::Reading::isolate_in, crate::specs::Reading::and_then))]
fn isolate(line: &[u8]) -> Option<LineForm<'_>>
    requires { IsAscii line.now }
    ensures { option_map form_said result ≡ isolate_in (words_in line.now) }
{
    let (reset, rest) = word(line)?;
    let rest = given("when", rest)?;
    let (bit, rest) = word(rest)?;
    let rest = given("is", rest)?;
    let one = choice("0", "1", rest)?;
    Some(LineForm::Isolate(reset, bit, one))
}

/// R C
#[tactic(auto, unfolding(crate::specs::Reading::quiet_in, crate::specs::Reading::and_then))]
fn quiet(line: &[u8]) -> Option<LineForm<'_>>
    requires { IsAscii line.now }
    ensures { option_map form_said result ≡ quiet_in (words_in line.now) }
{
    let (reset, rest) = word(line)?;
    let clock = last(rest)?;
    Some(LineForm::Quiet(reset, clock))
}

/// F, and the rest of the line
#[tactic(auto, unfolding(crate::specs::Reading::waive_in, crate::specs::Reading::and_then))]
fn waive(line: &[u8]) -> Option<LineForm<'_>>
    requires { IsAscii line.now }
    ensures { option_map form_said result ≡ waive_in (words_in line.now) (cut_blanks (skip_blanks (after_word line.now))) }
{
    let (flop, rest) = word(line)?;
    let reason = trimmed(rest);
    if reason.is_empty() {
        return None;
    }
    Some(LineForm::Waive(flop, reason))
}

/// The form of a line without its comment.
#[tactic(auto, unfolding(crate::specs::Reading::form_in, crate::specs::Reading::behind, crate::specs::Reading::named_in, crate::specs::Reading::and_then))]
pub(crate) fn form(line: &[u8]) -> Option<LineForm<'_>>
    requires { IsAscii line.now }
    ensures { option_map form_said result ≡ form_in (words_in line.now) (reason_in line.now) }
{
    let (verb, rest) = word(line)?;
    match verb {
        "clock" => {
            let port = last(rest)?;
            Some(LineForm::Clock(port))
        }
        "reset" => reset(rest),
        "tie" => tie(rest),
        "steady" => {
            let port = last(rest)?;
            Some(LineForm::Steady(port))
        }
        "track" => {
            let name = last(rest)?;
            Some(LineForm::Track(name))
        }
        "order" => order(rest),
        "isolate" => isolate(rest),
        "quiet" => quiet(rest),
        "waive" => waive(rest),
        _ => None,
    }
}
