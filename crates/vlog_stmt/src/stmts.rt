//! Statements (IEEE 1364-2005, A.6), production by production. The reader of inner statements is a parameter.

ghost use Rattle.std.specs.Prelude.{◌≡◌, ◌≤◌, codes};
ghost use Rattle.vlog_expr.specs.Reading.{Reads};
ghost use Rattle.vlog_stmt.specs.Statements as spec;
ghost use Rattle.vlog_stmt.specs.Nests.{Nests};
ghost use Rattle.vlog_stmt.specs.declared.form.Form.TheVariants as forms;

use crate::form::{Form, assigns, form_of};
use crate::header::loop_header;
use crate::lists::{Piece, many};
use crate::targets::target;
use crate::words::{label, took_word};
use rdc_outside::Place;
use sqlite_items::{Boxed, Items};
use std::alloc::Global;
use vlog_expr::{Cursor, Stuck, plain_expr};
use vlog_tree::{Assigns, Expr, Matching, Stmt, fitted};

/// Statements whose parts are no deeper than `room`.
#[derive(Clone, Copy)]
pub(crate) struct Stmts<F> {
    pub(crate) alloc: Global,
    pub(crate) room: usize,
    /// Reads a statement no deeper than a number.
    pub(crate) stmt: F,
}

/// One more statement of a block.
impl<F: Fn(Global, &mut Cursor<'_>, usize) -> Result<Stmt, Stuck>> Piece for Stmts<F> {
    type Out = Stmt;

    ghost ready = { λ s. Nests s.room (spec.stmt s.room) (F.pre s.stmt) (F.post s.stmt) };

    ghost goes_on = { λ s. spec.before (codes "end") };

    ghost reader = { λ s. spec.stmt s.room };

    #[tactic(auto, unfolding(crate::specs::Statements::before))]
    fn goes_on(&self, cursor: &Cursor<'_>) -> bool {
        !cursor.sees_word(b"end")
    }

    fn read(&self, cursor: &mut Cursor<'_>) -> Result<Stmt, Stuck> {
        (self.stmt)(self.alloc, cursor, self.room)
    }
}

impl<F: Fn(Global, &mut Cursor<'_>, usize) -> Result<Stmt, Stuck>> Stmts<F> {
    /// A statement in the statement.
    pub(crate) fn inner(&self, cursor: &mut Cursor<'_>) -> Result<Stmt, Stuck>
        requires { Nests self.now.room (spec.stmt self.now.room) (F.pre self.now.stmt) (F.post self.now.stmt) }
        ensures { Reads (spec.stmt self.now.room cursor.old) result cursor.new }
    {
        (self.stmt)(self.alloc, cursor, self.room)
    }

    /// expr ";" behind a target and its mark
    #[tactic(auto, unfolding(crate::specs::Statements::assigned))]
    fn assigned(
        &self,
        cursor: &mut Cursor<'_>,
        place: Place,
        target: Expr,
        by: Assigns,
    ) -> Result<Stmt, Stuck>
        ensures { Reads (spec.assigned self.now.room (spec.stmt self.now.room) place target by cursor.old) result cursor.new }
    {
        let value = plain_expr(self.alloc, cursor, self.room)?;
        cursor.expect(b";")?;
        Ok(Stmt::Assign(place, target, by, value))
    }

    /// lval ( "=" | "<=" ) expr ";"
    #[tactic(auto, unfolding(crate::specs::Statements::assign, crate::specs::Lists::known, crate::specs::Lists::known_by))]
    fn assign(&self, cursor: &mut Cursor<'_>, place: Place) -> Result<Stmt, Stuck>
        ensures { Reads (spec.assign self.now.room (spec.stmt self.now.room) place cursor.old) result cursor.new }
    {
        let left = target(self.alloc, cursor, self.room)?;
        let Some(by) = assigns(cursor) else {
            return Err(Stuck::Wrong);
        };
        cursor.advance();
        self.assigned(cursor, place, left, by)
    }

    /// "begin" [ ":" id ] { stmt } "end"
    #[tactic(auto, unfolding(crate::specs::Statements::block), using(crate::proofs::StmtsSteady::stmt_eats))]
    fn block(&self, cursor: &mut Cursor<'_>, place: Place) -> Result<Stmt, Stuck>
        requires { Nests self.now.room (spec.stmt self.now.room) (F.pre self.now.stmt) (F.post self.now.stmt) }
        ensures { Reads (spec.block self.now.room (spec.stmt self.now.room) place cursor.old) result cursor.new }
    {
        cursor.expect_word(b"begin")?;
        let name = label(self.alloc, cursor, self.room)?;
        let mut stmts = Items::new(self.alloc);
        many(self, cursor, &mut stmts)?;
        cursor.expect_word(b"end")?;
        Ok(Stmt::Block(place, name, fitted(self.alloc, stmts)?))
    }

    /// [ "else" stmt ], which belongs to the nearest `if`
    #[tactic(auto, unfolding(crate::specs::Statements::otherwise))]
    fn otherwise(
        &self,
        cursor: &mut Cursor<'_>,
        place: Place,
        test: Expr,
        yes: Stmt,
    ) -> Result<Stmt, Stuck>
        requires { Nests self.now.room (spec.stmt self.now.room) (F.pre self.now.stmt) (F.post self.now.stmt) }
        ensures { Reads (spec.otherwise self.now.room (spec.stmt self.now.room) place test yes cursor.old) result cursor.new }
    {
        let yes = Boxed::new(self.alloc, yes)?;
        if !took_word(cursor, b"else") {
            return Ok(Stmt::If(place, test, yes, None));
        }
        let no = self.inner(cursor)?;
        let no = Boxed::new(self.alloc, no)?;
        Ok(Stmt::If(place, test, yes, Some(no)))
    }

    /// "if" "(" expr ")" stmt [ "else" stmt ]
    #[tactic(auto, unfolding(crate::specs::Statements::branch))]
    fn branch(&self, cursor: &mut Cursor<'_>, place: Place) -> Result<Stmt, Stuck>
        requires { Nests self.now.room (spec.stmt self.now.room) (F.pre self.now.stmt) (F.post self.now.stmt) }
        ensures { Reads (spec.branch self.now.room (spec.stmt self.now.room) place cursor.old) result cursor.new }
    {
        cursor.expect_word(b"if")?;
        cursor.expect(b"(")?;
        let test = plain_expr(self.alloc, cursor, self.room)?;
        cursor.expect(b")")?;
        let yes = self.inner(cursor)?;
        self.otherwise(cursor, place, test, yes)
    }

    /// "for" header stmt
    #[tactic(auto, unfolding(crate::specs::Statements::repeated))]
    fn repeated(&self, cursor: &mut Cursor<'_>, place: Place) -> Result<Stmt, Stuck>
        requires { Nests self.now.room (spec.stmt self.now.room) (F.pre self.now.stmt) (F.post self.now.stmt) }
        ensures { Reads (spec.repeated self.now.room (spec.stmt self.now.room) place cursor.old) result cursor.new }
    {
        cursor.expect_word(b"for")?;
        let head = loop_header(self.alloc, cursor, self.room)?;
        let body = self.inner(cursor)?;
        Ok(Stmt::For(place, head, Boxed::new(self.alloc, body)?))
    }

    /// ";"
    #[tactic(auto, unfolding(crate::specs::Statements::by_form))]
    fn empty(&self, cursor: &mut Cursor<'_>, place: Place) -> Result<Stmt, Stuck>
        ensures { Reads (spec.by_form self.now.room (spec.stmt self.now.room) place forms.Empty cursor.old) result cursor.new }
    {
        cursor.expect(b";")?;
        Ok(Stmt::Empty(place))
    }

    /// A statement with parts, where there is room for one.
    #[tactic(auto, unfolding(crate::specs::Statements::by_form))]
    fn with_parts(&self, cursor: &mut Cursor<'_>, place: Place, form: Form) -> Result<Stmt, Stuck>
        requires nests { Nests self.now.room (spec.stmt self.now.room) (F.pre self.now.stmt) (F.post self.now.stmt) }
        requires room { 1 ≤ self.now.room }
        ensures { Reads (spec.by_form self.now.room (spec.stmt self.now.room) place form cursor.old) result cursor.new }
    {
        match form {
            Form::Empty => self.empty(cursor, place),
            Form::Block => self.block(cursor, place),
            Form::If => self.branch(cursor, place),
            Form::Case => self.cases(cursor, place, b"case", Matching::Exact),
            Form::Casez => self.cases(cursor, place, b"casez", Matching::Wildcard),
            Form::For => self.repeated(cursor, place),
            Form::Target => self.assign(cursor, place),
            Form::Other => Err(Stuck::Wrong),
        }
    }

    /// A statement with no room for parts.
    #[tactic(auto, unfolding(crate::specs::Statements::by_form))]
    fn without_parts(
        &self,
        cursor: &mut Cursor<'_>,
        place: Place,
        form: Form,
    ) -> Result<Stmt, Stuck>
        requires nests { Nests self.now.room (spec.stmt self.now.room) (F.pre self.now.stmt) (F.post self.now.stmt) }
        requires room { self.now.room ≡ 0 }
        ensures { Reads (spec.by_form self.now.room (spec.stmt self.now.room) place form cursor.old) result cursor.new }
    {
        match form {
            Form::Empty => self.empty(cursor, place),
            Form::Block => self.block(cursor, place),
            Form::If => Err(Stuck::Deep),
            Form::Case => Err(Stuck::Deep),
            Form::Casez => Err(Stuck::Deep),
            Form::For => Err(Stuck::Deep),
            Form::Target => Err(Stuck::Deep),
            Form::Other => Err(Stuck::Wrong),
        }
    }

    #[tactic(auto, unfolding(crate::specs::Statements::whole_stmt))]
    fn whole(&self, cursor: &mut Cursor<'_>) -> Result<Stmt, Stuck>
        requires { Nests self.now.room (spec.stmt self.now.room) (F.pre self.now.stmt) (F.post self.now.stmt) }
        ensures { Reads (spec.whole_stmt self.now.room (spec.stmt self.now.room) cursor.old) result cursor.new }
    {
        let place = cursor.place();
        let form = form_of(cursor);
        if self.room == 0 {
            self.without_parts(cursor, place, form)
        } else {
            self.with_parts(cursor, place, form)
        }
    }
}

/// Why a statement stops where no depth is left.
#[tactic(auto, unfolding(crate::specs::Statements::deep_by))]
fn no_depth(cursor: &mut Cursor<'_>, form: Form) -> Result<Stmt, Stuck>
    ensures { Reads (spec.deep_by form cursor.old) result cursor.new }
{
    match form {
        Form::Empty => Err(Stuck::Deep),
        Form::Block => Err(Stuck::Deep),
        Form::If => Err(Stuck::Deep),
        Form::Case => Err(Stuck::Deep),
        Form::Casez => Err(Stuck::Deep),
        Form::For => Err(Stuck::Deep),
        Form::Target => Err(Stuck::Deep),
        Form::Other => Err(Stuck::Wrong),
    }
}

/// A statement no deeper than `room`, in front of a cursor.
#[tactic(auto, unfolding(crate::specs::Statements::stmt))]
pub fn stmt(alloc: Global, cursor: &mut Cursor<'_>, room: usize) -> Result<Stmt, Stuck>
    ensures value { Reads (spec.stmt room cursor.old) result cursor.new }
{
    if room == 0 {
        let form = form_of(cursor);
        return no_depth(cursor, form);
    }
    Stmts {
        alloc,
        room: room - 1,
        stmt,
    }
    .whole(cursor)
}
