//! Generate cases (IEEE 1364-2005, A.4.2).

ghost use Rattle.std.specs.Prelude.{◌≡◌, false, not, if◌then◌else◌};
ghost use Rattle.vlog_expr.specs.declared.stuck.Stuck.TheVariants.{Wrong};
ghost use Rattle.vlog_expr.specs.Reading.{Reads, stop};
ghost use Rattle.vlog_stmt.specs.Nests.{Nests};
ghost use Rattle.vlog_stmt.specs.Lists.{within};
ghost use Rattle.vlog_parse.specs.Items as spec;

use crate::items::Holding;
use crate::lists::{Values, commas};
use rdc_outside::Place;
use sqlite_items::Items;
use std::alloc::Global;
use vlog_expr::{Cursor, Stuck, plain_expr};
use vlog_tree::{Arm, Block, Item, fitted};

/// A default may still follow a case item.
fn may_follow(may: bool, other: bool) -> bool
    ensures { result ≡ (if may then not other else false) }
{
    may && !other
}

impl<F: Fn(Global, &mut Cursor<'_>, usize) -> Result<Item, Stuck>> Holding<F> {
    /// gblock behind `default`
    #[tactic(auto, unfolding(crate::specs::Items::default_body))]
    fn default_body(
        &self,
        cursor: &mut Cursor<'_>,
        place: Place,
    ) -> Result<Arm<Block<Items<Item>>>, Stuck>
        requires { Nests self.now.room (spec.item self.now.room) (F.pre self.now.item) (F.post self.now.item) }
        ensures { Reads (spec.default_body self.now.room (spec.item self.now.room) place cursor.old) result cursor.new }
    {
        let chosen = self.block(cursor)?;
        Ok(Arm {
            place,
            labels: Items::new(self.alloc),
            body: chosen,
        })
    }

    /// "default" [ ":" ] gblock
    #[tactic(auto, unfolding(crate::specs::Items::default_arm))]
    fn default_arm(&self, cursor: &mut Cursor<'_>) -> Result<Arm<Block<Items<Item>>>, Stuck>
        requires { Nests self.now.room (spec.item self.now.room) (F.pre self.now.item) (F.post self.now.item) }
        ensures { Reads (spec.default_arm self.now.room (spec.item self.now.room) cursor.old) result cursor.new }
    {
        let place = cursor.place();
        cursor.expect_word(b"default")?;
        if !cursor.sees(b":") {
            return self.default_body(cursor, place);
        }
        cursor.expect(b":")?;
        self.default_body(cursor, place)
    }

    /// L(expr) ":" gblock
    #[tactic(auto, unfolding(crate::specs::Items::labelled_arm), using(crate::proofs::KeepsLemmas::keeps_values))]
    fn labelled_arm(&self, cursor: &mut Cursor<'_>) -> Result<Arm<Block<Items<Item>>>, Stuck>
        requires { Nests self.now.room (spec.item self.now.room) (F.pre self.now.item) (F.post self.now.item) }
        ensures { Reads (spec.labelled_arm self.now.room (spec.item self.now.room) cursor.old) result cursor.new }
    {
        let place = cursor.place();
        let values = Values {
            alloc: self.alloc,
            room: self.room,
        };
        let labels = commas(self.alloc, &values, cursor)?;
        cursor.expect(b":")?;
        let body = self.block(cursor)?;
        Ok(Arm {
            place,
            labels,
            body,
        })
    }

    /// A case item, the default where one stands in front and may.
    fn arm(
        &self,
        cursor: &mut Cursor<'_>,
        other: bool,
        may: bool,
    ) -> Result<Arm<Block<Items<Item>>>, Stuck>
        requires { Nests self.now.room (spec.item self.now.room) (F.pre self.now.item) (F.post self.now.item) }
        ensures { Reads ((if other then (if may then spec.default_arm self.now.room (spec.item self.now.room) else stop Wrong) else spec.labelled_arm self.now.room (spec.item self.now.room)) cursor.old) result cursor.new }
    {
        if !other {
            return self.labelled_arm(cursor);
        }
        if !may {
            return Err(Stuck::Wrong);
        }
        self.default_arm(cursor)
    }

    /// { L(expr) ":" gblock | "default" [ ":" ] gblock } "endcase", with one default at most
    #[tactic(auto, unfolding(crate::specs::Items::arms))]
    fn arms(&self, cursor: &mut Cursor<'_>) -> Result<Items<Arm<Block<Items<Item>>>>, Stuck>
        requires { Nests self.now.room (spec.item self.now.room) (F.pre self.now.item) (F.post self.now.item) }
        ensures { Reads (spec.arms self.now.room (spec.item self.now.room) cursor.old) result cursor.new }
    {
        let mut found = Items::new(self.alloc);
        let mut may = true;
        'arms: while !cursor.sees_word(b"endcase") {
            let other = cursor.sees_word(b"default");
            let next = self.arm(cursor, other, may)?;
            found.push(next)?;
            may = may_follow(may, other);
        }
        cursor.advance();
        Ok(fitted(self.alloc, found)?)
    }

    /// "case" "(" expr ")" { case item } "endcase"
    #[tactic(auto, unfolding(crate::specs::Items::cases, crate::specs::Lists::plain_expr))]
    pub(crate) fn cases(&self, cursor: &mut Cursor<'_>) -> Result<Item, Stuck>
        requires { Nests self.now.room (spec.item self.now.room) (F.pre self.now.item) (F.post self.now.item) }
        ensures { Reads (within self.now.room (spec.cases self.now.room (spec.item self.now.room)) cursor.old) result cursor.new }
    {
        if self.room == 0 {
            return Err(Stuck::Deep);
        }
        let place = cursor.place();
        cursor.expect_word(b"case")?;
        cursor.expect(b"(")?;
        let selector = plain_expr(self.alloc, cursor, self.room)?;
        cursor.expect(b")")?;
        let arms = self.arms(cursor)?;
        Ok(Item::Case(place, selector, arms))
    }
}
