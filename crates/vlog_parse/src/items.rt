//! Items and what holds them, production by production (IEEE 1364-2005, A.1.4 and A.4.2). The reader of inner items is a
//! parameter, so that each production is proved by itself.

ghost use Rattle.std.specs.Prelude.{◌≡◌, codes};
ghost use Rattle.vlog_expr.specs.Reading.{Reads, sees, sees_word};
ghost use Rattle.vlog_stmt.specs.Nests.{Nests};
ghost use Rattle.vlog_stmt.specs.Lists.{within};
ghost use Rattle.vlog_parse.specs.Lists.{optional};
ghost use Rattle.vlog_parse.specs.Items as spec;

use crate::declarations::{
    always, assign, constants, gates, genvars, instances, integers, parameters, ports, registers,
    wires,
};
use crate::heads::{Head, head_of};
use crate::lists::{Piece, until};
use rdc_outside::Place;
use sqlite_items::{Boxed, Items};
use std::alloc::Global;
use vlog_expr::{Cursor, Stuck, plain_expr};
use vlog_stmt::{ident, loop_header};
use vlog_tree::{Block, Ident, Item, Loop, sole};

/// What holds items no deeper than `room`, and is itself an item or a part of one.
#[derive(Clone, Copy)]
pub(crate) struct Holding<F> {
    pub(crate) alloc: Global,
    pub(crate) room: usize,
    /// Reads an item no deeper than a number.
    pub(crate) item: F,
}

impl<F: Fn(Global, &mut Cursor<'_>, usize) -> Result<Item, Stuck>> Piece for Holding<F> {
    type Out = Item;

    ghost ready = { λ s. Nests s.room (spec.item s.room) (F.pre s.item) (F.post s.item) };

    ghost reader = { λ s. spec.item s.room };

    /// An item in the item.
    fn read(&self, cursor: &mut Cursor<'_>) -> Result<Item, Stuck> {
        (self.item)(self.alloc, cursor, self.room)
    }
}

/// ":" id
#[tactic(auto, unfolding(crate::specs::Items::label))]
fn label(alloc: Global, cursor: &mut Cursor<'_>) -> Result<Ident, Stuck>
    ensures { Reads (spec.label cursor.old) result cursor.new }
{
    cursor.expect(b":")?;
    ident(alloc, cursor)
}

/// [ ":" id ]
#[tactic(auto, unfolding(crate::specs::Lists::optional))]
fn maybe_label(alloc: Global, cursor: &mut Cursor<'_>) -> Result<Option<Boxed<Ident>>, Stuck>
    ensures { Reads (optional (sees (codes ":")) spec.label cursor.old) result cursor.new }
{
    if !cursor.sees(b":") {
        return Ok(None);
    }
    let name = label(alloc, cursor)?;
    Ok(Some(Boxed::new(alloc, name)?))
}

impl<F: Fn(Global, &mut Cursor<'_>, usize) -> Result<Item, Stuck>> Holding<F> {
    /// "generate" { item } "endgenerate"
    #[tactic(auto, unfolding(crate::specs::Items::generate), using(crate::proofs::EatsLemmas::eats_items))]
    fn generate(&self, cursor: &mut Cursor<'_>) -> Result<Item, Stuck>
        requires { Nests self.now.room (spec.item self.now.room) (F.pre self.now.item) (F.post self.now.item) }
        ensures { Reads (spec.generate self.now.room (spec.item self.now.room) cursor.old) result cursor.new }
    {
        let place = cursor.place();
        cursor.expect_word(b"generate")?;
        let items = until(self.alloc, self, cursor, b"endgenerate")?;
        Ok(Item::Generate(place, items))
    }

    /// "begin" ":" id { item } "end", behind the header of a loop
    #[tactic(auto, unfolding(crate::specs::Items::turned), using(crate::proofs::EatsLemmas::eats_items))]
    fn turned(&self, cursor: &mut Cursor<'_>, place: Place, turns: Loop) -> Result<Item, Stuck>
        requires { Nests self.now.room (spec.item self.now.room) (F.pre self.now.item) (F.post self.now.item) }
        ensures { Reads (spec.turned self.now.room (spec.item self.now.room) place turns cursor.old) result cursor.new }
    {
        cursor.expect_word(b"begin")?;
        let name = label(self.alloc, cursor)?;
        let items = until(self.alloc, self, cursor, b"end")?;
        Ok(Item::For(place, turns, name, items))
    }

    /// "for" "(" .. ")" "begin" ":" id { item } "end"
    #[tactic(auto, unfolding(crate::specs::Items::repeated))]
    fn repeated(&self, cursor: &mut Cursor<'_>) -> Result<Item, Stuck>
        requires { Nests self.now.room (spec.item self.now.room) (F.pre self.now.item) (F.post self.now.item) }
        ensures { Reads (within self.now.room (spec.repeated self.now.room (spec.item self.now.room)) cursor.old) result cursor.new }
    {
        if self.room == 0 {
            return Err(Stuck::Deep);
        }
        let place = cursor.place();
        cursor.expect_word(b"for")?;
        let turns = loop_header(self.alloc, cursor, self.room)?;
        self.turned(cursor, place, turns)
    }

    /// "begin" [ ":" id ] { item } "end"
    #[tactic(auto, unfolding(crate::specs::Items::group), using(crate::proofs::EatsLemmas::eats_items))]
    fn group(&self, cursor: &mut Cursor<'_>) -> Result<Block<Items<Item>>, Stuck>
        requires { Nests self.now.room (spec.item self.now.room) (F.pre self.now.item) (F.post self.now.item) }
        ensures { Reads (spec.group self.now.room (spec.item self.now.room) cursor.old) result cursor.new }
    {
        cursor.expect_word(b"begin")?;
        let name = maybe_label(self.alloc, cursor)?;
        let items = until(self.alloc, self, cursor, b"end")?;
        Ok(Block { name, items })
    }

    /// item | ";"
    #[tactic(auto, unfolding(crate::specs::Items::short, crate::specs::Items::nothing))]
    fn short(&self, cursor: &mut Cursor<'_>) -> Result<Block<Items<Item>>, Stuck>
        requires { Nests self.now.room (spec.item self.now.room) (F.pre self.now.item) (F.post self.now.item) }
        ensures { Reads (spec.short self.now.room (spec.item self.now.room) cursor.old) result cursor.new }
    {
        if cursor.sees(b";") {
            cursor.expect(b";")?;
            return Ok(Block {
                name: None,
                items: Items::new(self.alloc),
            });
        }
        let one = self.read(cursor)?;
        Ok(Block {
            name: None,
            items: sole(self.alloc, one)?,
        })
    }

    /// item | ";" | "begin" [ ":" id ] { item } "end"
    #[tactic(auto, unfolding(crate::specs::Items::block))]
    pub(crate) fn block(&self, cursor: &mut Cursor<'_>) -> Result<Block<Items<Item>>, Stuck>
        requires { Nests self.now.room (spec.item self.now.room) (F.pre self.now.item) (F.post self.now.item) }
        ensures { Reads (spec.block self.now.room (spec.item self.now.room) cursor.old) result cursor.new }
    {
        if cursor.sees_word(b"begin") {
            self.group(cursor)
        } else {
            self.short(cursor)
        }
    }

    /// "else" gblock
    #[tactic(auto, unfolding(crate::specs::Items::otherwise))]
    fn otherwise(&self, cursor: &mut Cursor<'_>) -> Result<Block<Items<Item>>, Stuck>
        requires { Nests self.now.room (spec.item self.now.room) (F.pre self.now.item) (F.post self.now.item) }
        ensures { Reads (spec.otherwise self.now.room (spec.item self.now.room) cursor.old) result cursor.new }
    {
        cursor.expect_word(b"else")?;
        self.block(cursor)
    }

    /// [ "else" gblock ], which belongs to the nearest `if`
    #[tactic(auto, unfolding(crate::specs::Lists::optional))]
    fn maybe_otherwise(&self, cursor: &mut Cursor<'_>) -> Result<Option<Block<Items<Item>>>, Stuck>
        requires { Nests self.now.room (spec.item self.now.room) (F.pre self.now.item) (F.post self.now.item) }
        ensures { Reads (optional (sees_word (codes "else")) (spec.otherwise self.now.room (spec.item self.now.room)) cursor.old) result cursor.new }
    {
        if !cursor.sees_word(b"else") {
            return Ok(None);
        }
        let found = self.otherwise(cursor)?;
        Ok(Some(found))
    }

    /// "if" "(" expr ")" gblock [ "else" gblock ]
    #[tactic(auto, unfolding(crate::specs::Items::choice, crate::specs::Lists::plain_expr))]
    fn choice(&self, cursor: &mut Cursor<'_>) -> Result<Item, Stuck>
        requires { Nests self.now.room (spec.item self.now.room) (F.pre self.now.item) (F.post self.now.item) }
        ensures { Reads (within self.now.room (spec.choice self.now.room (spec.item self.now.room)) cursor.old) result cursor.new }
    {
        if self.room == 0 {
            return Err(Stuck::Deep);
        }
        let place = cursor.place();
        cursor.expect_word(b"if")?;
        cursor.expect(b"(")?;
        let test = plain_expr(self.alloc, cursor, self.room)?;
        cursor.expect(b")")?;
        let chosen = self.block(cursor)?;
        let rest = self.maybe_otherwise(cursor)?;
        Ok(Item::If(place, test, chosen, rest))
    }

    /// The item that begins so, no deeper than `depth`.
    #[tactic(auto, unfolding(crate::specs::Items::item_by))]
    fn by_head(&self, cursor: &mut Cursor<'_>, depth: usize, head: Head) -> Result<Item, Stuck>
        requires { Nests self.now.room (spec.item self.now.room) (F.pre self.now.item) (F.post self.now.item) }
        ensures { Reads (spec.item_by self.now.room (spec.item self.now.room) depth head cursor.old) result cursor.new }
    {
        match head {
            Head::Ports => ports(self.alloc, cursor, depth),
            Head::Wires => wires(self.alloc, cursor, depth),
            Head::Registers => registers(self.alloc, cursor, depth),
            Head::Integers => integers(self.alloc, cursor),
            Head::Genvars => genvars(self.alloc, cursor),
            Head::Parameters => parameters(self.alloc, cursor, depth),
            Head::Constants => constants(self.alloc, cursor, depth),
            Head::Assign => assign(self.alloc, cursor, depth),
            Head::Gates(which) => gates(self.alloc, cursor, depth, which),
            Head::Instances => instances(self.alloc, cursor, depth),
            Head::Always => always(self.alloc, cursor, depth),
            Head::Generate => self.generate(cursor),
            Head::For => self.repeated(cursor),
            Head::If => self.choice(cursor),
            Head::Case => self.cases(cursor),
            Head::Nothing => Err(Stuck::Wrong),
        }
    }
}

/// Why an item stops where no depth is left.
#[tactic(auto, unfolding(crate::specs::Items::item, crate::specs::Items::deep_by))]
fn no_item(cursor: &Cursor<'_>) -> Result<Item, Stuck>
    ensures { Reads (spec.item 0 cursor.now) result cursor.now }
{
    match head_of(cursor) {
        Head::Nothing => Err(Stuck::Wrong),
        _ => Err(Stuck::Deep),
    }
}

/// An item no deeper than `room`, in front of a cursor.
#[tactic(auto, unfolding(crate::specs::Items::item))]
pub(crate) fn item(alloc: Global, cursor: &mut Cursor<'_>, room: usize) -> Result<Item, Stuck>
    ensures value { Reads (spec.item room cursor.old) result cursor.new }
{
    if room == 0 {
        return no_item(cursor);
    }
    let head = head_of(cursor);
    let holding = Holding {
        alloc,
        room: room - 1,
        item,
    };
    holding.by_head(cursor, room, head)
}
