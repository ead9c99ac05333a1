//! Lines of standard input.
ghost use Rattle.std.specs.Prelude.{◌≡◌, ◌+◌, length, IfOk, IfSome};
ghost use Rattle.vlog_lex.specs.Tokens.{AreWithin};

use rdc_outside::{Place, Seq, Text};
use std::alloc::{AllocError, Global};
use vlog_expr::{ExprFault, parse_expr};
use vlog_lex::{LexFault, Token, lex};
use vlog_tree::Expr;

/// A width, a state and an expression.
#[derive(Drop)]
pub(crate) struct Line {
    pub(crate) width: u32,
    pub(crate) state: u64,
    pub(crate) e: Expr,
}

/// A line as a text, whose places are its columns.
fn text_of(alloc: Global, line: &[u8]) -> Result<Text, AllocError>
    ensures { IfOk result (λ t. length t.places ≡ length t.bytes + 1) }
{
    let mut places = Vec::new(alloc);
    let mut col = 1u32;
    for i in 0..line.len() {
        places.push(Place {
            file: 0,
            line: 1,
            col,
        })?;
        col = col.saturating_add(1);
    }
    places.push(Place {
        file: 0,
        line: 1,
        col,
    })?;
    Ok(Text {
        bytes: Seq::from_vec(Vec::from_slice(alloc, line)?),
        places: Seq::from_vec(places),
        files: Seq::new(alloc),
    })
}

/// The tokens of a text, if it has any list of them.
fn tokens_of(alloc: Global, text: &Text) -> Result<Option<Vec<Token>>, AllocError>
    requires { length text.now.places ≡ length text.now.bytes + 1 }
    ensures { IfOk result (λ o. IfSome o (λ v. AreWithin (length text.now.bytes) v.items)) }
{
    match lex(alloc, text) {
        Ok(tokens) => Ok(Some(tokens)),
        Err(LexFault::Memory) => Err(AllocError),
        Err(_) => Ok(None),
    }
}

/// The one expression that a text is, if it is one.
fn expression(alloc: Global, line: &str) -> Result<Option<Expr>, AllocError> {
    let text = text_of(alloc, line.as_bytes())?;
    let Some(tokens) = tokens_of(alloc, &text)? else {
        return Ok(None);
    };
    match parse_expr(alloc, &text, &tokens, 0) {
        Ok((e, count)) if count == tokens.len() => Ok(Some(e)),
        Err(ExprFault::Memory) => Err(AllocError),
        _ => Ok(None),
    }
}

/// What a line asks for, if it is of the form.
pub(crate) fn line_of(alloc: Global, line: &str) -> Result<Option<Line>, AllocError> {
    let Some((width, rest)) = line.split_once(' ') else {
        return Ok(None);
    };
    let Some((state, text)) = rest.split_once(' ') else {
        return Ok(None);
    };
    let (Ok(width), Ok(state)) = (width.parse(), state.parse()) else {
        return Ok(None);
    };
    match expression(alloc, text)? {
        Some(e) => Ok(Some(Line { width, state, e })),
        None => Ok(None),
    }
}
