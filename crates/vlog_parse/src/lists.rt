//! Lists of pieces: two loops for all of them. Pieces are names, expressions, and what other files read.

ghost use Rattle.std.specs.Prelude.{◌≡◌, ◌≤◌, length};
ghost use Rattle.vlog_expr.specs.Reading.{Reads, Adds, Reader};
ghost use Rattle.vlog_parse.specs.Lists as spec;
ghost use Rattle.vlog_parse.specs.Lists.{Keeps, Eats};

use sqlite_items::Items;
use std::alloc::Global;
use vlog_expr::{Cursor, Stuck, plain_expr};
use vlog_stmt::ident;
use vlog_tree::{Expr, Ident, fitted, sole};

/// What a list repeats.
pub(crate) trait Piece {
    type Out: Drop;

    /// What the reader stands on.
    ghost ready: { Self → Type 0 };

    /// One piece, as it is read.
    ghost reader: { Self → Reader Self.Out };

    /// One piece.
    fn read(&self, cursor: &mut Cursor<'_>) -> Result<Self::Out, Stuck>
        requires { ready self.now }
        ensures { Reads (reader self.now cursor.old) result cursor.new };
}

/// { "," piece }, behind what was found
#[tactic(auto, unfolding(crate::specs::Lists::others, crate::specs::Lists::others_from))]
pub(crate) fn others<P: Piece>(
    piece: &P,
    cursor: &mut Cursor<'_>,
    found: &mut Items<P::Out>,
) -> Result<(), Stuck>
    requires ready { P.ready piece.now }
    requires keeps { Keeps (P.reader piece.now) }
    ensures { Adds (spec.others (P.reader piece.now) cursor.old) found.old result found.new cursor.new }
{
    'pieces: while cursor.sees(b",") {
        cursor.advance();
        let next = piece.read(cursor)?;
        found.push(next)?;
    }
    Ok(())
}

/// piece { "," piece }
#[tactic(auto, unfolding(crate::specs::Lists::commas))]
pub(crate) fn commas<P: Piece>(
    alloc: Global,
    piece: &P,
    cursor: &mut Cursor<'_>,
) -> Result<Items<P::Out>, Stuck>
    requires ready { P.ready piece.now }
    requires keeps { Keeps (P.reader piece.now) }
    ensures { Reads (spec.commas (P.reader piece.now) cursor.old) result cursor.new }
{
    let first = piece.read(cursor)?;
    let mut found = sole(alloc, first)?;
    others(piece, cursor, &mut found)?;
    Ok(fitted(alloc, found)?)
}

/// { piece } and the word
#[tactic(auto, unfolding(crate::specs::Lists::until, crate::specs::Lists::until_from))]
pub(crate) fn until<P: Piece>(
    alloc: Global,
    piece: &P,
    cursor: &mut Cursor<'_>,
    word: &[u8],
) -> Result<Items<P::Out>, Stuck>
    requires ready { P.ready piece.now }
    requires eats { Eats (P.reader piece.now) }
    requires word { 1 ≤ length word.now }
    ensures { Reads (spec.until word.now (P.reader piece.now) cursor.old) result cursor.new }
{
    let mut found = Items::new(alloc);
    'pieces: while !cursor.sees_word(word) {
        let next = piece.read(cursor)?;
        found.push(next)?;
    }
    cursor.advance();
    Ok(fitted(alloc, found)?)
}

/// Names.
#[derive(Clone, Copy)]
pub(crate) struct Names {
    pub(crate) alloc: Global,
}

impl Piece for Names {
    type Out = Ident;

    ghost ready = { λ s. Unit {0} };

    ghost reader = { λ s. spec.ident };

    fn read(&self, cursor: &mut Cursor<'_>) -> Result<Ident, Stuck> {
        ident(self.alloc, cursor)
    }
}

/// Expressions without z digits, no deeper than `room`.
#[derive(Clone, Copy)]
pub(crate) struct Values {
    pub(crate) alloc: Global,
    pub(crate) room: usize,
}

impl Piece for Values {
    type Out = Expr;

    ghost ready = { λ s. Unit {0} };

    ghost reader = { λ s. spec.plain_expr s.room };

    #[tactic(auto, unfolding(crate::specs::Lists::plain_expr))]
    fn read(&self, cursor: &mut Cursor<'_>) -> Result<Expr, Stuck> {
        plain_expr(self.alloc, cursor, self.room)
    }
}
