//! Lists of pieces: one loop for all of them.

ghost use Rattle.std.specs.Prelude.{◌≡◌, Bool};
ghost use Rattle.vlog_tree.specs.Lexemes.{Lexeme};
ghost use Rattle.vlog_expr.specs.Reading.{Reads, Adds, Reader, first, sees};
ghost use Rattle.vlog_stmt.specs.Lists as spec;
ghost use Rattle.vlog_stmt.specs.Lists.{Keeps, Eats};
ghost use Rattle.std.specs.Prelude.{Option, codes};

use sqlite_items::Items;
use std::alloc::Global;
use vlog_expr::{Cursor, Stuck};
use vlog_tree::{fitted, sole};

/// What a list repeats.
pub trait Piece {
    type Out: Drop;

    /// What the reader stands on.
    ghost ready: { Self → Type 0 };

    /// One more piece stands behind the next lexeme's front.
    ghost goes_on: { Self → Option Lexeme → Bool };

    /// One piece, as it is read.
    ghost reader: { Self → Reader Self.Out };

    /// One more piece begins with the next token.
    fn goes_on(&self, cursor: &Cursor<'_>) -> bool
        ensures { result ≡ goes_on self.now (first cursor.now) };

    /// One piece.
    fn read(&self, cursor: &mut Cursor<'_>) -> Result<Self::Out, Stuck>
        requires { ready self.now }
        ensures { Reads (reader self.now cursor.old) result cursor.new };
}

/// { piece }, while the next token goes on, behind what was found.
#[tactic(auto, unfolding(crate::specs::Lists::many, crate::specs::Lists::many_from))]
pub fn many<P: Piece>(
    piece: &P,
    cursor: &mut Cursor<'_>,
    found: &mut Items<P::Out>,
) -> Result<(), Stuck>
    requires ready { P.ready piece.now }
    requires eats { Eats (P.reader piece.now) }
    ensures { Adds (spec.many (P.goes_on piece.now) (P.reader piece.now) cursor.old) found.old result found.new cursor.new }
{
    'pieces: while piece.goes_on(cursor) {
        let next = piece.read(cursor)?;
        found.push(next)?;
    }
    Ok(())
}

/// A piece behind a comma.
#[derive(Clone, Copy)]
struct Further<'p, P> {
    piece: &'p P,
}

impl<'p, P: Piece> Piece for Further<'p, P> {
    type Out = P::Out;

    ghost ready = { λ s. P.ready s.piece.now };

    ghost goes_on = { λ s. sees (codes ",") };

    ghost reader = { λ s. spec.further (P.reader s.piece.now) };

    fn goes_on(&self, cursor: &Cursor<'_>) -> bool {
        cursor.sees(b",")
    }

    #[tactic(auto, unfolding(crate::specs::Lists::further))]
    fn read(&self, cursor: &mut Cursor<'_>) -> Result<P::Out, Stuck> {
        cursor.expect(b",")?;
        self.piece.read(cursor)
    }
}

/// piece { "," piece }
#[tactic(auto, unfolding(crate::specs::Lists::commas), using(crate::proofs::ManyLemmas::further_eats))]
pub fn commas<P: Piece>(
    alloc: Global,
    piece: &P,
    cursor: &mut Cursor<'_>,
) -> Result<Items<P::Out>, Stuck>
    requires ready { P.ready piece.now }
    requires keeps { Keeps (P.reader piece.now) }
    ensures { Reads (spec.commas (P.reader piece.now) cursor.old) result cursor.new }
{
    let first = piece.read(cursor)?;
    let mut found = sole(alloc, first)?;
    many(&Further { piece }, cursor, &mut found)?;
    Ok(fitted(alloc, found)?)
}
