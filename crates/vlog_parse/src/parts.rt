//! Parts of declarations, production by production (IEEE 1364-2005, A.2).

ghost use Rattle.std.specs.Prelude.{codes};
ghost use Rattle.vlog_expr.specs.Reading.{Reads, sees};
ghost use Rattle.vlog_parse.specs.Lists.{optional};
ghost use Rattle.vlog_parse.specs.Parts as spec;

use crate::lists::Piece;
use sqlite_items::Boxed;
use std::alloc::Global;
use vlog_expr::{Cursor, Stuck, plain_expr};
use vlog_stmt::{ident, target, took_word};
use vlog_tree::{Assignment, Binding, Direction, Expr, Net, Range, Shape};

/// "[" expr ":" expr "]"
#[tactic(auto, unfolding(crate::specs::Parts::range, crate::specs::Lists::plain_expr))]
fn range(alloc: Global, cursor: &mut Cursor<'_>, room: usize) -> Result<Range, Stuck>
    ensures { Reads (spec.range room cursor.old) result cursor.new }
{
    cursor.expect(b"[")?;
    let msb = plain_expr(alloc, cursor, room)?;
    cursor.expect(b":")?;
    let lsb = plain_expr(alloc, cursor, room)?;
    cursor.expect(b"]")?;
    Ok(Range { msb, lsb })
}

/// [ range ]
#[tactic(auto, unfolding(crate::specs::Lists::optional))]
fn across(
    alloc: Global,
    cursor: &mut Cursor<'_>,
    room: usize,
) -> Result<Option<Boxed<Range>>, Stuck>
    ensures { Reads (optional (sees (codes "[")) (spec.range room) cursor.old) result cursor.new }
{
    if !cursor.sees(b"[") {
        return Ok(None);
    }
    let found = range(alloc, cursor, room)?;
    Ok(Some(Boxed::new(alloc, found)?))
}

/// [ "signed" ] [ range ]
#[tactic(auto, unfolding(crate::specs::Parts::shape))]
pub(crate) fn shape(alloc: Global, cursor: &mut Cursor<'_>, room: usize) -> Result<Shape, Stuck>
    ensures { Reads (spec.shape room cursor.old) result cursor.new }
{
    let signed = took_word(cursor, b"signed");
    let range = across(alloc, cursor, room)?;
    Ok(Shape { signed, range })
}

/// "input" [ "wire" ]
#[tactic(auto, unfolding(crate::specs::Parts::input))]
fn input(cursor: &mut Cursor<'_>) -> Result<Direction, Stuck>
    ensures { Reads (spec.input cursor.old) result cursor.new }
{
    cursor.expect_word(b"input")?;
    let _wired = took_word(cursor, b"wire");
    Ok(Direction::Input)
}

/// "output" [ "wire" | "reg" ]
#[tactic(auto, unfolding(crate::specs::Parts::output, crate::specs::Parts::driven))]
fn output(cursor: &mut Cursor<'_>) -> Result<Direction, Stuck>
    ensures { Reads (spec.output cursor.old) result cursor.new }
{
    cursor.expect_word(b"output")?;
    if took_word(cursor, b"reg") {
        return Ok(Direction::Register);
    }
    let _wired = took_word(cursor, b"wire");
    Ok(Direction::Output)
}

/// "input" [ "wire" ] | "output" [ "wire" | "reg" ]
#[tactic(auto, unfolding(crate::specs::Parts::direction))]
pub(crate) fn direction(cursor: &mut Cursor<'_>) -> Result<Direction, Stuck>
    ensures { Reads (spec.direction cursor.old) result cursor.new }
{
    if cursor.sees_word(b"input") {
        input(cursor)
    } else {
        output(cursor)
    }
}

/// "=" expr
#[tactic(auto, unfolding(crate::specs::Parts::value, crate::specs::Lists::plain_expr))]
fn value(alloc: Global, cursor: &mut Cursor<'_>, room: usize) -> Result<Expr, Stuck>
    ensures { Reads (spec.value room cursor.old) result cursor.new }
{
    cursor.expect(b"=")?;
    plain_expr(alloc, cursor, room)
}

/// [ "=" expr ]
#[tactic(auto, unfolding(crate::specs::Lists::optional))]
fn driver(alloc: Global, cursor: &mut Cursor<'_>, room: usize) -> Result<Option<Expr>, Stuck>
    ensures { Reads (optional (sees (codes "=")) (spec.value room) cursor.old) result cursor.new }
{
    if !cursor.sees(b"=") {
        return Ok(None);
    }
    let found = value(alloc, cursor, room)?;
    Ok(Some(found))
}

/// Wires.
#[derive(Clone, Copy)]
pub(crate) struct Nets {
    pub(crate) alloc: Global,
    pub(crate) room: usize,
}

impl Piece for Nets {
    type Out = Net;

    ghost ready = { λ s. Unit {0} };

    ghost reader = { λ s. spec.net s.room };

    /// id [ "=" expr ]
    #[tactic(auto, unfolding(crate::specs::Parts::net))]
    fn read(&self, cursor: &mut Cursor<'_>) -> Result<Net, Stuck> {
        let name = ident(self.alloc, cursor)?;
        let driver = driver(self.alloc, cursor, self.room)?;
        Ok(Net { name, driver })
    }
}

/// Parameters and constants.
#[derive(Clone, Copy)]
pub(crate) struct Bindings {
    pub(crate) alloc: Global,
    pub(crate) room: usize,
}

impl Piece for Bindings {
    type Out = Binding;

    ghost ready = { λ s. Unit {0} };

    ghost reader = { λ s. spec.binding s.room };

    /// id "=" expr
    #[tactic(auto, unfolding(crate::specs::Parts::binding))]
    fn read(&self, cursor: &mut Cursor<'_>) -> Result<Binding, Stuck> {
        let name = ident(self.alloc, cursor)?;
        let value = value(self.alloc, cursor, self.room)?;
        Ok(Binding { name, value })
    }
}

/// Assignments.
#[derive(Clone, Copy)]
pub(crate) struct Assignments {
    pub(crate) alloc: Global,
    pub(crate) room: usize,
}

impl Piece for Assignments {
    type Out = Assignment;

    ghost ready = { λ s. Unit {0} };

    ghost reader = { λ s. spec.assignment s.room };

    /// lval "=" expr
    #[tactic(auto, unfolding(crate::specs::Parts::assignment))]
    fn read(&self, cursor: &mut Cursor<'_>) -> Result<Assignment, Stuck> {
        let target = target(self.alloc, cursor, self.room)?;
        let value = value(self.alloc, cursor, self.room)?;
        Ok(Assignment { target, value })
    }
}
