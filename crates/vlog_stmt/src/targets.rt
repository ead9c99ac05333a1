//! What may be assigned (IEEE 1364-2005, A.8.5), production by production. The reader of inner targets is a parameter.

ghost use Rattle.std.specs.Prelude.{◌≡◌};
ghost use Rattle.vlog_expr.specs.Reading.{Reads};
ghost use Rattle.vlog_stmt.specs.Targets as spec;
ghost use Rattle.vlog_stmt.specs.Nests.{Nests};
ghost use Rattle.std.specs.Prelude.{false};

use crate::form::{begins_target, part};
use crate::lists::{Piece, commas};
use crate::words::boxed;
use rdc_outside::Place;
use sqlite_items::Boxed;
use std::alloc::Global;
use vlog_expr::{Cursor, Stuck};
use vlog_tree::{Expr, Name, Part};

/// Targets whose parts are no deeper than `room`.
#[derive(Clone, Copy)]
struct Targets<F> {
    alloc: Global,
    room: usize,
    /// Reads a target no deeper than a number.
    target: F,
}

impl<F: Fn(Global, &mut Cursor<'_>, usize) -> Result<Expr, Stuck>> Piece for Targets<F> {
    type Out = Expr;

    ghost ready = { λ s. Nests s.room (spec.target s.room) (F.pre s.target) (F.post s.target) };

    ghost goes_on = { λ s o. false };

    ghost reader = { λ s. spec.target s.room };

    fn goes_on(&self, _cursor: &Cursor<'_>) -> bool {
        false
    }

    fn read(&self, cursor: &mut Cursor<'_>) -> Result<Expr, Stuck> {
        (self.target)(self.alloc, cursor, self.room)
    }
}

impl<F: Fn(Global, &mut Cursor<'_>, usize) -> Result<Expr, Stuck>> Targets<F> {
    /// "]" behind a name, "[" and an expression
    #[tactic(auto, unfolding(crate::specs::Targets::index_end))]
    fn index_end(
        &self,
        cursor: &mut Cursor<'_>,
        place: Place,
        name: Name,
        index: Boxed<Expr>,
    ) -> Result<Expr, Stuck>
        ensures { Reads (spec.index_end self.now.room (spec.target self.now.room) place name index cursor.old) result cursor.new }
    {
        cursor.expect(b"]")?;
        Ok(Expr::Index(place, name, index))
    }

    /// expr "]" behind a name, "[", an expression and a mark
    #[tactic(auto, unfolding(crate::specs::Targets::part_end))]
    fn part_end(
        &self,
        cursor: &mut Cursor<'_>,
        place: Place,
        name: Name,
        part: Part,
        first: Boxed<Expr>,
    ) -> Result<Expr, Stuck>
        ensures { Reads (spec.part_end self.now.room (spec.target self.now.room) place name first part cursor.old) result cursor.new }
    {
        let second = boxed(self.alloc, cursor, self.room)?;
        cursor.expect(b"]")?;
        Ok(Expr::Select(part, place, name, first, second))
    }

    /// "[" expr [ ( ":" | "+:" | "-:" ) expr ] "]"
    #[tactic(auto, unfolding(crate::specs::Targets::select, crate::specs::Lists::known, crate::specs::Lists::known_by))]
    fn select(&self, cursor: &mut Cursor<'_>, place: Place, name: Name) -> Result<Expr, Stuck>
        ensures { Reads (spec.select self.now.room (spec.target self.now.room) place name cursor.old) result cursor.new }
    {
        cursor.expect(b"[")?;
        let first = boxed(self.alloc, cursor, self.room)?;
        let Some(by) = part(cursor) else {
            return self.index_end(cursor, place, name, first);
        };
        cursor.advance();
        self.part_end(cursor, place, name, by, first)
    }

    /// [ sel ] behind a name
    #[tactic(auto, unfolding(crate::specs::Targets::named))]
    fn named(&self, cursor: &mut Cursor<'_>, place: Place, name: &[u8]) -> Result<Expr, Stuck>
        ensures { Reads (spec.named self.now.room (spec.target self.now.room) place name.now cursor.old) result cursor.new }
    {
        let name = Name::from_slice(self.alloc, name)?;
        if !cursor.sees(b"[") {
            return Ok(Expr::Name(place, name));
        }
        if self.room == 0 {
            return Err(Stuck::Deep);
        }
        self.select(cursor, place, name)
    }

    /// "{" lval { "," lval } "}"
    #[tactic(auto, unfolding(crate::specs::Targets::members), using(crate::proofs::TargetsSteady::target_keeps))]
    fn members(&self, cursor: &mut Cursor<'_>, place: Place) -> Result<Expr, Stuck>
        requires { Nests self.now.room (spec.target self.now.room) (F.pre self.now.target) (F.post self.now.target) }
        ensures { Reads (spec.members self.now.room (spec.target self.now.room) place cursor.old) result cursor.new }
    {
        cursor.expect(b"{")?;
        let members = commas(self.alloc, self, cursor)?;
        cursor.expect(b"}")?;
        Ok(Expr::Concat(place, members))
    }

    /// A target that begins with a brace.
    #[tactic(auto, unfolding(crate::specs::Targets::braced))]
    fn braced(&self, cursor: &mut Cursor<'_>, place: Place) -> Result<Expr, Stuck>
        requires { Nests self.now.room (spec.target self.now.room) (F.pre self.now.target) (F.post self.now.target) }
        ensures { Reads (spec.braced self.now.room (spec.target self.now.room) place cursor.old) result cursor.new }
    {
        if !cursor.sees(b"{") {
            return Err(Stuck::Wrong);
        }
        if self.room == 0 {
            return Err(Stuck::Deep);
        }
        self.members(cursor, place)
    }

    /// id [ sel ] | "{" lval { "," lval } "}"
    #[tactic(auto, unfolding(crate::specs::Targets::whole_target, crate::specs::Lists::known, crate::specs::Lists::known_by))]
    fn whole(&self, cursor: &mut Cursor<'_>) -> Result<Expr, Stuck>
        requires { Nests self.now.room (spec.target self.now.room) (F.pre self.now.target) (F.post self.now.target) }
        ensures { Reads (spec.whole_target self.now.room (spec.target self.now.room) cursor.old) result cursor.new }
    {
        let place = cursor.place();
        let Some(name) = cursor.name() else {
            return self.braced(cursor, place);
        };
        cursor.advance();
        self.named(cursor, place, name)
    }
}

/// Why a target stops where no depth is left.
#[tactic(auto, unfolding(crate::specs::Targets::no_target))]
fn no_target(cursor: &mut Cursor<'_>) -> Result<Expr, Stuck>
    ensures { Reads (spec.no_target cursor.old) result cursor.new }
{
    if begins_target(cursor) {
        return Err(Stuck::Deep);
    }
    Err(Stuck::Wrong)
}

/// A target no deeper than `room`, in front of a cursor.
#[tactic(auto, unfolding(crate::specs::Targets::target))]
pub fn target(alloc: Global, cursor: &mut Cursor<'_>, room: usize) -> Result<Expr, Stuck>
    ensures value { Reads (spec.target room cursor.old) result cursor.new }
{
    if room == 0 {
        return no_target(cursor);
    }
    Targets {
        alloc,
        room: room - 1,
        target,
    }
    .whole(cursor)
}
