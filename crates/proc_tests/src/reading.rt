//! Texts and their modules, for the tests.
ghost use Rattle.std.specs.Prelude.{◌≡◌, ◌+◌, length, IfOk};
ghost use Rattle.vlog_lex.specs.Tokens.{AreWithin};

use rdc_outside::{Place, Seq, Text};
use sqlite_items::Items;
use std::alloc::{AllocError, Global};
use std::test::Fail;
use vlog_lex::{LexFault, Token, lex};
use vlog_parse::{ParseFault, parse};
use vlog_tree::Module;

/// Why a test ends where an allocation fails.
pub(crate) const WANT: &str = "want of memory";

// A text whose lines and columns are counted from 1.
fn text_of(alloc: Global, bytes: &[u8]) -> Result<Text, AllocError>
    ensures { IfOk result (λ t. length t.places ≡ length t.bytes + 1) }
{
    let mut places = Vec::new(alloc);
    let mut line: u32 = 1;
    let mut col: u32 = 1;
    for i in 0..bytes.len() {
        places.push(Place { file: 0, line, col })?;
        if bytes[i] == b'\n' {
            line = line.saturating_add(1);
            col = 1;
        } else {
            col = col.saturating_add(1);
        }
    }
    places.push(Place { file: 0, line, col })?;
    Ok(Text {
        bytes: Seq::from_vec(Vec::from_slice(alloc, bytes)?),
        places: Seq::from_vec(places),
        files: Seq::new(alloc),
    })
}

fn tokens_of(alloc: Global, text: &Text) -> Result<Vec<Token>, Fail>
    requires { length text.now.places ≡ length text.now.bytes + 1 }
    ensures { IfOk result (λ tokens. AreWithin (length text.now.bytes) tokens.items) }
{
    match lex(alloc, text) {
        Ok(tokens) => Ok(tokens),
        Err(LexFault::Memory) => Err(Fail::new(WANT)),
        Err(_) => Err(Fail::new("no tokens")),
    }
}

// The modules of a text that is one.
pub(crate) fn modules(alloc: Global, text: &str) -> Result<Items<Module>, Fail> {
    let text = text_of(alloc, text.as_bytes())?;
    let tokens = tokens_of(alloc, &text)?;
    match parse(alloc, &text, tokens.as_slice()) {
        Ok(found) => Ok(found),
        Err(ParseFault::Memory) => Err(Fail::new(WANT)),
        Err(_) => Err(Fail::new("no modules")),
    }
}

// Whether an answer is the wanted one. Want of memory ends a test.
pub(crate) fn is_wanted(got: &str, want: &str) -> Result<bool, Fail> {
    if got.starts_with("Memory") || got.ends_with("Memory") {
        return Err(Fail::new(WANT));
    }
    Ok(got == want)
}
