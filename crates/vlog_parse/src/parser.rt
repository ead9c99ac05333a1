//! The list of modules that some tokens spell.

ghost use Rattle.std.specs.Prelude.{◌≡◌, ◌+◌, ◌≤◌, List, [], IfOk, IfErr, MatchResult, length};
ghost use Rattle.vlog_lex.specs.Tokens.{AreWithin};
ghost use Rattle.vlog_tree.specs.declared.module.Module.{Module};
ghost use Rattle.vlog_tree.specs.Lexemes.{lexemes, place_at};
ghost use Rattle.vlog_parse.specs.declared.fault.ParseFault.TheVariants.{Memory};
ghost use Rattle.vlog_parse.specs.Begins.{IsAnswer, IsFault, IsFront, IsBehind, IsStop, same_fault, stop_of};

use crate::cuts::left_from_module;
use crate::fault::ParseFault;
use crate::modules::module_of;
use crate::stop::Stop;
use rdc_outside::{Place, Text};
use sqlite_items::Items;
use std::alloc::Global;
use vlog_expr::{Cursor, ExprFault, Stuck, place_of, wrong_at};
use vlog_lex::Token;
use vlog_tree::Module;

/// How deep a module may be.
const DEPTH: usize = 255;

/// Why tokens are no modules, where a reader stops with so many left.
#[tactic(auto, unfolding(crate::specs::Begins::stop_of))]
fn stop_at(why: Stuck, left: usize) -> Stop
    ensures { result ≡ stop_of why left }
{
    match why {
        Stuck::Memory => Stop::Memory,
        Stuck::Wrong => Stop::Wrong(left),
        Stuck::Deep => Stop::Deep(left),
    }
}

/// The module that tokens begin with, and how many it takes. It is looked for up to the next word `module` alone.
fn front(
    alloc: Global,
    bytes: &[u8],
    places: &[Place],
    ahead: &[Token],
) -> Result<(Module, usize), Stop>
    requires places { length places.now ≡ length bytes.now + 1 }
    requires within { AreWithin (length bytes.now) ahead.now }
    requires some { 1 ≤ length ahead.now }
    ensures value { IfOk result (λ r. IsFront (lexemes bytes.now places.now ahead.now) r.0 r.1) }
    ensures cause { IfErr result (IsStop (lexemes bytes.now places.now ahead.now)) }
{
    let behind = left_from_module(bytes, places, ahead);
    let count = ahead.len() - behind;
    let (chunk, _) = ahead.split_at(count);
    let mut cursor = Cursor::new(bytes, places, chunk);
    let read = module_of(alloc, &mut cursor, DEPTH);
    let left = ahead.len() - count.saturating_sub(cursor.left());
    match read {
        Ok(found) => {
            if left > behind {
                return Err(Stop::Wrong(left));
            }
            Ok((found, count))
        }
        Err(why) => Err(stop_at(why, left)),
    }
}

/// The modules that tokens are, one behind the other.
fn all(
    alloc: Global,
    bytes: &[u8],
    places: &[Place],
    tokens: &[Token],
) -> Result<Items<Module>, Stop>
    requires places { length places.now ≡ length bytes.now + 1 }
    requires within { AreWithin (length bytes.now) tokens.now }
    ensures value { IfOk result (IsAnswer (lexemes bytes.now places.now tokens.now)) }
    ensures cause { IfErr result (IsStop (lexemes bytes.now places.now tokens.now)) }
{
    let mut found = Items::new(alloc);
    let mut ahead = tokens;
    'modules: while !ahead.is_empty() {
        let (next, count) = front(alloc, bytes, places, ahead)?;
        found.push(next)?;
        let (_, behind) = ahead.split_at(count);
        ahead = behind;
    }
    Ok(found)
}

/// The fault that names the same token.
#[tactic(auto, unfolding(crate::specs::Begins::same_fault))]
fn same_fault(fault: ExprFault) -> ParseFault
    ensures { result ≡ same_fault fault }
{
    match fault {
        ExprFault::Memory => ParseFault::Memory,
        ExprFault::Unsupported(word, place) => ParseFault::Unsupported(word, place),
        ExprFault::Syntax(place) => ParseFault::Syntax(place),
        ExprFault::TooDeep(place) => ParseFault::TooDeep(place),
    }
}

/// The fault that names the token at which the reading stops.
fn fault_at(
    alloc: Global,
    bytes: &[u8],
    places: &[Place],
    tokens: &[Token],
    stop: Stop,
) -> ParseFault
    requires places { length places.now ≡ length bytes.now + 1 }
    requires within { AreWithin (length bytes.now) tokens.now }
    requires stops { IsStop (lexemes bytes.now places.now tokens.now) stop }
    ensures { IsFault (place_at places.now (length bytes.now)) (lexemes bytes.now places.now tokens.now) result }
{
    match stop {
        Stop::Memory => ParseFault::Memory,
        Stop::Wrong(left) => {
            let (pre, rest) = tokens.split_at(tokens.len() - left);
            same_fault(wrong_at(alloc, bytes, places, pre, rest))
        }
        Stop::Deep(left) => {
            let (_, rest) = tokens.split_at(tokens.len() - left);
            ParseFault::TooDeep(place_of(bytes, places, rest))
        }
    }
}

/// The one list of modules that the tokens spell. Costs one pass, memory for the tree, and a stack as deep as the tree.
pub fn parse(alloc: Global, text: &Text, tokens: &[Token]) -> Result<Items<Module>, ParseFault>
    requires places { length text.now.places ≡ length text.now.bytes + 1 }
    requires within { AreWithin (length text.now.bytes) tokens.now }

    // The tokens spell the modules, which are less than 256 deep.
    ensures value { IfOk result (IsAnswer (lexemes text.now.bytes text.now.places tokens.now)) }

    // Tokens that spell such modules are refused for want of memory alone, and others for the fault's cause.
    ensures complete { (ms : List Module) → IsAnswer (lexemes text.now.bytes text.now.places tokens.now) ms → MatchResult result (λ found. found ≡ ms) (λ fault. fault ≡ Memory) }
    ensures cause { IfErr result (IsFault (place_at text.now.places (length text.now.bytes)) (lexemes text.now.bytes text.now.places tokens.now)) }
{
    let bytes = text.bytes.as_slice();
    let places = text.places.as_slice();
    match all(alloc, bytes, places, tokens) {
        Ok(found) => Ok(found),
        Err(stop) => Err(fault_at(alloc, bytes, places, tokens, stop)),
    }
}
