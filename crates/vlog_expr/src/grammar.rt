//! Expressions, production by production (IEEE 1364-2005, A.8), with the reader of inner ones as a parameter.

ghost use Rattle.std.specs.Prelude.{◌+◌, ◌≤◌, IfOk, None, Some};
ghost use Rattle.vlog_tree.specs.Depth.{depth, depth as depth_of, deepest_of};
ghost use Rattle.vlog_expr.specs.Reading.{Reads, Adds};
ghost use Rattle.vlog_expr.specs.Exprs as spec;
ghost use Rattle.vlog_expr.specs.Nests.{Nests};

use crate::cursor::{Cursor, Next};
use crate::measured::{Measured, MeasuredList};
use crate::operators::level_of;
use crate::stuck::Stuck;
use rdc_outside::Place;
use std::alloc::Global;
use vlog_tree::{Binary, Name, Part};

#[derive(Clone, Copy)]
pub(crate) struct Grammar<F> {
    pub(crate) alloc: Global,
    /// How deep a part may be.
    pub(crate) room: usize,
    /// Reads an expression no deeper than a number, to stand at a level.
    pub(crate) expr: F,
}

impl<F: Fn(Global, &mut Cursor<'_>, usize, u8) -> Result<Measured, Stuck>> Grammar<F> {
    fn inner(&self, cursor: &mut Cursor<'_>, level: u8) -> Result<Measured, Stuck>
        requires nests { Nests self.now.room (F.pre self.now.expr) (F.post self.now.expr) }
        ensures value { Reads (spec.expr self.now.room level cursor.old) result cursor.new }
        ensures within { IfOk result (λ x. depth x ≤ self.now.room) }
    {
        (self.expr)(self.alloc, cursor, self.room, level)
    }

    /// "(" expr ")"
    #[tactic(auto, unfolding(crate::specs::Exprs::brackets), using(vlog_tree::proofs::DepthLemmas::depths))]
    fn brackets(&self, cursor: &mut Cursor<'_>, place: Place) -> Result<Measured, Stuck>
        requires nests { Nests self.now.room (F.pre self.now.expr) (F.post self.now.expr) }
        ensures value { Reads (spec.brackets self.now.room (spec.expr self.now.room) place cursor.old) result cursor.new }
        ensures within { IfOk result (λ x. depth x ≤ self.now.room + 1) }
    {
        cursor.advance();
        let inner = self.inner(cursor, 0)?;
        cursor.expect(b")")?;
        Ok(Measured::brackets(self.alloc, place, inner)?)
    }

    /// "]" behind a name, "[" and an expression
    #[tactic(auto, unfolding(crate::specs::Exprs::select_by), using(vlog_tree::proofs::DepthLemmas::depths))]
    fn index(
        &self,
        cursor: &mut Cursor<'_>,
        place: Place,
        name: Name,
        first: Measured,
    ) -> Result<Measured, Stuck>
        requires nests { Nests self.now.room (F.pre self.now.expr) (F.post self.now.expr) }
        requires within { depth first ≤ self.now.room }
        ensures value { Reads (spec.select_by self.now.room (spec.expr self.now.room) place name first None cursor.old) result cursor.new }
        ensures within { IfOk result (λ x. depth x ≤ self.now.room + 1) }
    {
        cursor.expect(b"]")?;
        Ok(Measured::index(self.alloc, place, name, first)?)
    }

    /// expr "]" behind the mark of a part
    #[tactic(auto, unfolding(crate::specs::Exprs::select_by), using(vlog_tree::proofs::DepthLemmas::depths))]
    fn part(
        &self,
        cursor: &mut Cursor<'_>,
        place: Place,
        name: Name,
        part: Part,
        first: Measured,
    ) -> Result<Measured, Stuck>
        requires nests { Nests self.now.room (F.pre self.now.expr) (F.post self.now.expr) }
        requires within { depth first ≤ self.now.room }
        ensures value { Reads (spec.select_by self.now.room (spec.expr self.now.room) place name first (Some part) cursor.old) result cursor.new }
        ensures within { IfOk result (λ x. depth x ≤ self.now.room + 1) }
    {
        cursor.advance();
        let second = self.inner(cursor, 0)?;
        cursor.expect(b"]")?;
        Ok(Measured::select(self.alloc, place, name, part, first, second)?)
    }

    /// expr [ ":" expr ] "]" behind a name and "["
    #[tactic(auto, unfolding(crate::specs::Exprs::select))]
    fn select(&self, cursor: &mut Cursor<'_>, place: Place, name: Name) -> Result<Measured, Stuck>
        requires nests { Nests self.now.room (F.pre self.now.expr) (F.post self.now.expr) }
        ensures value { Reads (spec.select self.now.room (spec.expr self.now.room) place name cursor.old) result cursor.new }
        ensures within { IfOk result (λ x. depth x ≤ self.now.room + 1) }
    {
        cursor.advance();
        let first = self.inner(cursor, 0)?;
        match cursor.part() {
            None => self.index(cursor, place, name, first),
            Some(part) => self.part(cursor, place, name, part, first),
        }
    }

    /// id [ sel ], behind the name
    #[tactic(auto, unfolding(crate::specs::Exprs::named, crate::specs::Exprs::within), using(vlog_tree::proofs::DepthLemmas::depths))]
    fn named(&self, cursor: &mut Cursor<'_>, place: Place, name: &[u8]) -> Result<Measured, Stuck>
        requires nests { Nests self.now.room (F.pre self.now.expr) (F.post self.now.expr) }
        ensures value { Reads (spec.named self.now.room (spec.expr self.now.room) place name.now cursor.old) result cursor.new }
        ensures within { IfOk result (λ x. depth x ≤ self.now.room + 1) }
    {
        let name = Name::from_slice(self.alloc, name)?;
        if !cursor.sees(b"[") {
            return Ok(Measured::name(place, name));
        }
        if self.room == 0 {
            return Err(Stuck::Deep);
        }
        self.select(cursor, place, name)
    }

    /// { "," expr }
    #[tactic(auto, unfolding(crate::specs::Exprs::others, crate::specs::Exprs::others_from), using(vlog_tree::proofs::DepthLemmas::depths))]
    fn others(&self, cursor: &mut Cursor<'_>, found: &mut MeasuredList) -> Result<(), Stuck>
        requires nests { Nests self.now.room (F.pre self.now.expr) (F.post self.now.expr) }
        requires within { deepest_of depth found.old ≤ self.now.room }
        ensures value { Adds (spec.others self.now.room (spec.expr self.now.room) cursor.old) found.old result found.new cursor.new }
        ensures within { IfOk result (λ _. deepest_of depth found.new ≤ self.now.room) }
    {
        'members: while cursor.sees(b",") {
            cursor.advance();
            let next = self.inner(cursor, 0)?;
            found.push(next)?;
        }
        Ok(())
    }

    /// "}" "}" behind the members of a replication
    #[tactic(auto, using(vlog_tree::proofs::DepthLemmas::depths))]
    fn closed(
        &self,
        cursor: &mut Cursor<'_>,
        place: Place,
        count: Measured,
        members: MeasuredList,
    ) -> Result<Measured, Stuck>
        requires nests { Nests self.now.room (F.pre self.now.expr) (F.post self.now.expr) }
        requires count { depth count ≤ self.now.room }
        requires members { deepest_of depth members ≤ self.now.room }
        ensures value { Reads (spec.closed self.now.room (spec.expr self.now.room) place count members cursor.old) result cursor.new }
        ensures within { IfOk result (λ x. depth x ≤ self.now.room + 1) }
    {
        cursor.expect(b"}")?;
        cursor.expect(b"}")?;
        Ok(Measured::repeat(self.alloc, place, count, members)?)
    }

    /// expr { "," expr } "}" "}", behind the count of a replication
    #[tactic(auto, unfolding(crate::specs::Exprs::repeat), using(vlog_tree::proofs::DepthLemmas::depths))]
    fn repeat(
        &self,
        cursor: &mut Cursor<'_>,
        place: Place,
        count: Measured,
    ) -> Result<Measured, Stuck>
        requires nests { Nests self.now.room (F.pre self.now.expr) (F.post self.now.expr) }
        requires within { depth count ≤ self.now.room }
        ensures value { Reads (spec.repeat self.now.room (spec.expr self.now.room) place count cursor.old) result cursor.new }
        ensures within { IfOk result (λ x. depth x ≤ self.now.room + 1) }
    {
        cursor.advance();
        let first = self.inner(cursor, 0)?;
        let mut members = MeasuredList::of(self.alloc, first)?;
        self.others(cursor, &mut members)?;
        self.closed(cursor, place, count, members)
    }

    /// { "," expr } "}", behind the first member
    #[tactic(auto, unfolding(crate::specs::Exprs::concat), using(vlog_tree::proofs::DepthLemmas::depths))]
    fn concat(
        &self,
        cursor: &mut Cursor<'_>,
        place: Place,
        first: Measured,
    ) -> Result<Measured, Stuck>
        requires nests { Nests self.now.room (F.pre self.now.expr) (F.post self.now.expr) }
        requires within { depth first ≤ self.now.room }
        ensures value { Reads (spec.concat self.now.room (spec.expr self.now.room) place first cursor.old) result cursor.new }
        ensures within { IfOk result (λ x. depth x ≤ self.now.room + 1) }
    {
        let mut members = MeasuredList::of(self.alloc, first)?;
        self.others(cursor, &mut members)?;
        cursor.expect(b"}")?;
        Ok(Measured::concat(self.alloc, place, members)?)
    }

    /// "{" L(expr) "}" | "{" expr "{" L(expr) "}" "}"
    #[tactic(auto, unfolding(crate::specs::Exprs::braces), using(vlog_tree::proofs::DepthLemmas::depths))]
    fn braces(&self, cursor: &mut Cursor<'_>, place: Place) -> Result<Measured, Stuck>
        requires nests { Nests self.now.room (F.pre self.now.expr) (F.post self.now.expr) }
        ensures value { Reads (spec.braces self.now.room (spec.expr self.now.room) place cursor.old) result cursor.new }
        ensures within { IfOk result (λ x. depth x ≤ self.now.room + 1) }
    {
        cursor.advance();
        let first = self.inner(cursor, 0)?;
        if cursor.sees(b"{") {
            self.repeat(cursor, place, first)
        } else {
            self.concat(cursor, place, first)
        }
    }

    /// A primary that begins with a brace.
    #[tactic(auto, unfolding(crate::specs::Exprs::braced, crate::specs::Exprs::within), using(vlog_tree::proofs::DepthLemmas::depths))]
    fn braced(&self, cursor: &mut Cursor<'_>, place: Place) -> Result<Measured, Stuck>
        requires nests { Nests self.now.room (F.pre self.now.expr) (F.post self.now.expr) }
        ensures value { Reads (spec.braced self.now.room (spec.expr self.now.room) place cursor.old) result cursor.new }
        ensures within { IfOk result (λ x. depth x ≤ self.now.room + 1) }
    {
        if !cursor.sees(b"{") {
            return Err(Stuck::Wrong);
        }
        if self.room == 0 {
            return Err(Stuck::Deep);
        }
        self.braces(cursor, place)
    }

    /// A primary that begins with a mark.
    #[tactic(auto, unfolding(crate::specs::Exprs::group, crate::specs::Exprs::within), using(vlog_tree::proofs::DepthLemmas::depths))]
    fn group(&self, cursor: &mut Cursor<'_>, place: Place) -> Result<Measured, Stuck>
        requires nests { Nests self.now.room (F.pre self.now.expr) (F.post self.now.expr) }
        ensures value { Reads (spec.group self.now.room (spec.expr self.now.room) place cursor.old) result cursor.new }
        ensures within { IfOk result (λ x. depth x ≤ self.now.room + 1) }
    {
        if !cursor.sees(b"(") {
            return self.braced(cursor, place);
        }
        if self.room == 0 {
            return Err(Stuck::Deep);
        }
        self.brackets(cursor, place)
    }

    /// number | id [ sel ] | "(" expr ")" | "{" .. "}"
    #[tactic(auto, unfolding(crate::specs::Exprs::primary, crate::specs::Exprs::primary_by, crate::specs::Exprs::name_by), using(vlog_tree::proofs::DepthLemmas::depths))]
    fn primary(&self, cursor: &mut Cursor<'_>, place: Place) -> Result<Measured, Stuck>
        requires nests { Nests self.now.room (F.pre self.now.expr) (F.post self.now.expr) }
        ensures value { Reads (spec.primary self.now.room (spec.expr self.now.room) place cursor.old) result cursor.new }
        ensures within { IfOk result (λ x. depth x ≤ self.now.room + 1) }
    {
        if let Some(number) = cursor.number() {
            cursor.advance();
            return Ok(Measured::number(self.alloc, place, number)?);
        }
        let Some(name) = cursor.name() else {
            return self.group(cursor, place);
        };
        cursor.advance();
        self.named(cursor, place, name)
    }

    /// [ operator ] primary
    #[tactic(auto, unfolding(crate::specs::Exprs::operand, crate::specs::Exprs::operand_by, crate::specs::Exprs::negated, crate::specs::Exprs::within), using(vlog_tree::proofs::DepthLemmas::depths))]
    fn operand(&self, cursor: &mut Cursor<'_>, level: u8, place: Place) -> Result<Measured, Stuck>
        requires nests { Nests self.now.room (F.pre self.now.expr) (F.post self.now.expr) }
        ensures value { Reads (spec.operand self.now.room (spec.expr self.now.room) level place cursor.old) result cursor.new }
        ensures within { IfOk result (λ x. depth x ≤ self.now.room + 1) }
    {
        let Some(op) = cursor.unary(level) else {
            return self.primary(cursor, place);
        };
        if self.room == 0 {
            return Err(Stuck::Deep);
        }
        cursor.advance();
        let operand = self.inner(cursor, 13)?;
        Ok(Measured::unary(self.alloc, place, op, operand)?)
    }

    /// ":" expr, behind the first side
    #[tactic(auto, using(vlog_tree::proofs::DepthLemmas::depths))]
    fn otherwise(
        &self,
        cursor: &mut Cursor<'_>,
        place: Place,
        test: Measured,
        yes: Measured,
    ) -> Result<Measured, Stuck>
        requires nests { Nests self.now.room (F.pre self.now.expr) (F.post self.now.expr) }
        requires test { depth test ≤ self.now.room }
        requires yes { depth yes ≤ self.now.room }
        ensures value { Reads (spec.otherwise self.now.room (spec.expr self.now.room) place test yes cursor.old) result cursor.new }
        ensures within { IfOk result (λ x. depth x ≤ self.now.room + 1) }
    {
        cursor.expect(b":")?;
        let no = self.inner(cursor, 0)?;
        Ok(Measured::conditional(self.alloc, place, test, yes, no)?)
    }

    /// "?" expr ":" expr, behind the test
    #[tactic(auto, unfolding(crate::specs::Exprs::choice), using(vlog_tree::proofs::DepthLemmas::depths))]
    fn choice(
        &self,
        cursor: &mut Cursor<'_>,
        place: Place,
        test: Measured,
    ) -> Result<Measured, Stuck>
        requires nests { Nests self.now.room (F.pre self.now.expr) (F.post self.now.expr) }
        requires within { depth test ≤ self.now.room }
        ensures value { Reads (spec.choice self.now.room (spec.expr self.now.room) place test cursor.old) result cursor.new }
        ensures within { IfOk result (λ x. depth x ≤ self.now.room + 1) }
    {
        cursor.advance();
        let yes = self.inner(cursor, 0)?;
        self.otherwise(cursor, place, test, yes)
    }

    /// The right operand of an operator.
    #[tactic(auto, unfolding(crate::specs::Exprs::right))]
    fn right(&self, cursor: &mut Cursor<'_>, op: Binary) -> Result<Measured, Stuck>
        requires nests { Nests self.now.room (F.pre self.now.expr) (F.post self.now.expr) }
        ensures value { Reads (spec.right self.now.room (spec.expr self.now.room) op cursor.old) result cursor.new }
        ensures within { IfOk result (λ x. depth x ≤ self.now.room) }
    {
        cursor.advance();
        self.inner(cursor, level_of(op) + 1)
    }

    /// What stands behind the first operand, from left to right.
    #[tactic(auto, unfolding(crate::specs::Exprs::climb, crate::specs::Exprs::step_by), using(vlog_tree::proofs::DepthLemmas::depths))]
    fn climb(
        &self,
        cursor: &mut Cursor<'_>,
        level: u8,
        place: Place,
        first: Measured,
    ) -> Result<Measured, Stuck>
        requires nests { Nests self.now.room (F.pre self.now.expr) (F.post self.now.expr) }
        requires within { depth first ≤ self.now.room + 1 }
        ensures value { Reads (spec.climb self.now.room (spec.expr self.now.room) (self.now.room + 2) level place first cursor.old) result cursor.new }
        ensures within { IfOk result (λ x. depth x ≤ self.now.room + 1) }
    {
        let mut left = first;
        'operators: loop {
            match cursor.next(level) {
                Next::End => return Ok(left),
                Next::Question => {
                    if left.depth() > self.room {
                        return Err(Stuck::Deep);
                    }
                    return self.choice(cursor, place, left);
                }
                Next::Operator(op) => {
                    if left.depth() > self.room {
                        return Err(Stuck::Deep);
                    }
                    let right = self.right(cursor, op)?;
                    left = Measured::binary(self.alloc, place, op, left, right)?;
                }
            }
        }
    }

    /// An expression.
    #[tactic(auto, unfolding(crate::specs::Exprs::whole), using(vlog_tree::proofs::DepthLemmas::depths))]
    pub(crate) fn whole(&self, cursor: &mut Cursor<'_>, level: u8) -> Result<Measured, Stuck>
        requires nests { Nests self.now.room (F.pre self.now.expr) (F.post self.now.expr) }
        ensures value { Reads (spec.whole self.now.room (spec.expr self.now.room) level cursor.old) result cursor.new }
        ensures within { IfOk result (λ x. depth x ≤ self.now.room + 1) }
    {
        let place = cursor.place();
        let first = self.operand(cursor, level, place)?;
        self.climb(cursor, level, place, first)
    }
}

/// An expression no deeper than `depth`, to stand at a level.
#[tactic(auto, unfolding(crate::specs::Exprs::expr))]
pub(crate) fn expr(
    alloc: Global,
    cursor: &mut Cursor<'_>,
    depth: usize,
    level: u8,
) -> Result<Measured, Stuck>
    ensures value { Reads (spec.expr depth level cursor.old) result cursor.new }
    ensures within { IfOk result (λ x. depth_of x ≤ depth) }
{
    if depth == 0 {
        return Err(Stuck::Deep);
    }
    Grammar {
        alloc,
        room: depth - 1,
        expr,
    }
    .whole(cursor, level)
}
