//! Case statements (IEEE 1364-2005, A.6.7).

ghost use Rattle.std.specs.Prelude.{◌≡◌, ◌≤◌, ◌++◌, length, codes, MatchResult};
ghost use Rattle.vlog_expr.specs.Reading.{Reads, Adds};
ghost use Rattle.vlog_stmt.specs.Statements as spec;
ghost use Rattle.vlog_stmt.specs.Lists.{commas, many};
ghost use Rattle.vlog_stmt.specs.Nests.{Nests};

use crate::lists::{Piece, commas, many};
use crate::pieces::{Values, Wilds};
use crate::stmts::Stmts;
use crate::words::took;
use rdc_outside::Place;
use sqlite_items::{Boxed, Items};
use std::alloc::Global;
use vlog_expr::{Cursor, Stuck, plain_expr};
use vlog_tree::{Arm, Expr, Matching, Stmt, fitted};

/// Case items with labels, up to `endcase`, and in front of the default up to `default`.
#[derive(Clone, Copy)]
struct Arms<'g, F> {
    stmts: &'g Stmts<F>,
    matching: Matching,
    in_front: bool,
}

impl<'g, F: Fn(Global, &mut Cursor<'_>, usize) -> Result<Stmt, Stuck>> Piece for Arms<'g, F> {
    type Out = Arm<Boxed<Stmt>>;

    ghost ready = { λ s. Nests s.stmts.now.room (spec.stmt s.stmts.now.room) (F.pre s.stmts.now.stmt) (F.post s.stmts.now.stmt) };

    ghost goes_on = { λ s. spec.before_arm s.in_front };

    ghost reader = { λ s. spec.labelled s.stmts.now.room (spec.stmt s.stmts.now.room) s.matching };

    #[tactic(auto, unfolding(crate::specs::Statements::before_arm, crate::specs::Statements::before))]
    fn goes_on(&self, cursor: &Cursor<'_>) -> bool {
        !cursor.sees_word(b"endcase") && !(self.in_front && cursor.sees_word(b"default"))
    }

    fn read(&self, cursor: &mut Cursor<'_>) -> Result<Arm<Boxed<Stmt>>, Stuck> {
        self.stmts.labelled(cursor, self.matching)
    }
}

/// The labels of a case item: z digits stand in those of `casez` alone.
#[tactic(auto, unfolding(crate::specs::Statements::choice), using(crate::proofs::StmtsSteady::value_keeps, crate::proofs::StmtsSteady::wild_keeps))]
fn labels(
    alloc: Global,
    cursor: &mut Cursor<'_>,
    room: usize,
    matching: Matching,
) -> Result<Items<Expr>, Stuck>
    ensures { Reads (commas (spec.choice room matching) cursor.old) result cursor.new }
{
    match matching {
        Matching::Exact => commas(alloc, &Values { alloc, room }, cursor),
        Matching::Wildcard => commas(alloc, &Wilds { alloc, room }, cursor),
    }
}

impl<F: Fn(Global, &mut Cursor<'_>, usize) -> Result<Stmt, Stuck>> Stmts<F> {
    /// L(expr) ":" stmt
    #[tactic(auto, unfolding(crate::specs::Statements::labelled))]
    fn labelled(
        &self,
        cursor: &mut Cursor<'_>,
        matching: Matching,
    ) -> Result<Arm<Boxed<Stmt>>, Stuck>
        requires { Nests self.now.room (spec.stmt self.now.room) (F.pre self.now.stmt) (F.post self.now.stmt) }
        ensures { Reads (spec.labelled self.now.room (spec.stmt self.now.room) matching cursor.old) result cursor.new }
    {
        let place = cursor.place();
        let labels = labels(self.alloc, cursor, self.room, matching)?;
        cursor.expect(b":")?;
        let body = self.inner(cursor)?;
        let body = Boxed::new(self.alloc, body)?;
        Ok(Arm {
            place,
            labels,
            body,
        })
    }

    /// "default" [ ":" ] stmt
    #[tactic(auto, unfolding(crate::specs::Statements::default))]
    fn default(&self, cursor: &mut Cursor<'_>) -> Result<Arm<Boxed<Stmt>>, Stuck>
        requires { Nests self.now.room (spec.stmt self.now.room) (F.pre self.now.stmt) (F.post self.now.stmt) }
        ensures { Reads (spec.default self.now.room (spec.stmt self.now.room) cursor.old) result cursor.new }
    {
        let place = cursor.place();
        cursor.expect_word(b"default")?;
        let _colon = took(cursor, b":");
        let body = self.inner(cursor)?;
        let body = Boxed::new(self.alloc, body)?;
        Ok(Arm {
            place,
            labels: Items::new(self.alloc),
            body,
        })
    }

    /// Case items with labels, behind what was found.
    #[tactic(auto, using(crate::proofs::StmtsSteady::labelled_eats))]
    fn labelled_arms(
        &self,
        cursor: &mut Cursor<'_>,
        matching: Matching,
        in_front: bool,
        found: &mut Items<Arm<Boxed<Stmt>>>,
    ) -> Result<(), Stuck>
        requires { Nests self.now.room (spec.stmt self.now.room) (F.pre self.now.stmt) (F.post self.now.stmt) }
        ensures { Adds (many (spec.before_arm in_front) (spec.labelled self.now.room (spec.stmt self.now.room) matching) cursor.old) found.old result found.new cursor.new }
    {
        let arms = Arms {
            stmts: self,
            matching,
            in_front,
        };
        many(&arms, cursor, found)
    }

    /// [ default { L(expr) ":" stmt } ] behind case items with labels
    #[tactic(auto, unfolding(crate::specs::Statements::arms_behind))]
    fn arms_behind(
        &self,
        cursor: &mut Cursor<'_>,
        matching: Matching,
        mut found: Items<Arm<Boxed<Stmt>>>,
    ) -> Result<Items<Arm<Boxed<Stmt>>>, Stuck>
        requires { Nests self.now.room (spec.stmt self.now.room) (F.pre self.now.stmt) (F.post self.now.stmt) }
        ensures { Reads (spec.arms_behind self.now.room (spec.stmt self.now.room) matching found cursor.old) result cursor.new }
    {
        if !cursor.sees_word(b"default") {
            return Ok(found);
        }
        let default = self.default(cursor)?;
        found.push(default)?;
        self.labelled_arms(cursor, matching, false, &mut found)?;
        Ok(found)
    }

    /// { case item }
    #[tactic(auto, unfolding(crate::specs::Statements::arms))]
    fn arms(
        &self,
        cursor: &mut Cursor<'_>,
        matching: Matching,
    ) -> Result<Items<Arm<Boxed<Stmt>>>, Stuck>
        requires { Nests self.now.room (spec.stmt self.now.room) (F.pre self.now.stmt) (F.post self.now.stmt) }
        ensures { Reads (spec.arms self.now.room (spec.stmt self.now.room) matching cursor.old) result cursor.new }
    {
        let mut found = Items::new(self.alloc);
        self.labelled_arms(cursor, matching, true, &mut found)?;
        let arms = self.arms_behind(cursor, matching, found)?;
        Ok(fitted(self.alloc, arms)?)
    }

    /// ( "case" | "casez" ) "(" expr ")" { case item } "endcase"
    #[tactic(auto, unfolding(crate::specs::Statements::cases))]
    pub(crate) fn cases(
        &self,
        cursor: &mut Cursor<'_>,
        place: Place,
        word: &[u8],
        matching: Matching,
    ) -> Result<Stmt, Stuck>
        requires nests { Nests self.now.room (spec.stmt self.now.room) (F.pre self.now.stmt) (F.post self.now.stmt) }
        requires word { 1 ≤ length word.now }
        ensures { Reads (spec.cases self.now.room (spec.stmt self.now.room) place word.now matching cursor.old) result cursor.new }
    {
        cursor.expect_word(word)?;
        cursor.expect(b"(")?;
        let selector = plain_expr(self.alloc, cursor, self.room)?;
        cursor.expect(b")")?;
        let arms = self.arms(cursor, matching)?;
        cursor.expect_word(b"endcase")?;
        Ok(Stmt::Case(place, matching, selector, arms))
    }
}
