//! Gates and instances, production by production (IEEE 1364-2005, A.3 and A.4.1).

ghost use Rattle.std.specs.Prelude.{◌≡◌};
ghost use Rattle.vlog_expr.specs.Reading.{Reads, first};
ghost use Rattle.vlog_parse.specs.Lists.{optional, plain_expr, some, ident as spec_ident};
ghost use Rattle.vlog_parse.specs.Parts as spec;

use crate::lists::{Piece, Values, commas};
use crate::words::sees_name;
use sqlite_items::Items;
use std::alloc::Global;
use vlog_expr::{Cursor, Stuck, plain_expr};
use vlog_stmt::ident;
use vlog_tree::{Connections, Expr, Gate, Ident, Instance, NamedConnection};

/// [ id ]
#[tactic(auto, unfolding(crate::specs::Lists::optional))]
fn maybe_name(alloc: Global, cursor: &mut Cursor<'_>) -> Result<Option<Ident>, Stuck>
    ensures { Reads (optional spec.names spec_ident cursor.old) result cursor.new }
{
    if !sees_name(cursor) {
        return Ok(None);
    }
    let found = ident(alloc, cursor)?;
    Ok(Some(found))
}

/// Gates.
#[derive(Clone, Copy)]
pub(crate) struct EachGate {
    pub(crate) alloc: Global,
    pub(crate) room: usize,
}

impl Piece for EachGate {
    type Out = Gate;

    ghost ready = { λ s. Unit {0} };

    ghost reader = { λ s. spec.gate s.room };

    /// [ id ] "(" L(expr) ")"
    #[tactic(auto, unfolding(crate::specs::Parts::gate), using(crate::proofs::KeepsLemmas::keeps_values))]
    fn read(&self, cursor: &mut Cursor<'_>) -> Result<Gate, Stuck> {
        let place = cursor.place();
        let name = maybe_name(self.alloc, cursor)?;
        cursor.expect(b"(")?;
        let values = Values {
            alloc: self.alloc,
            room: self.room,
        };
        let terminals = commas(self.alloc, &values, cursor)?;
        cursor.expect(b")")?;
        Ok(Gate {
            place,
            name,
            terminals,
        })
    }
}

/// The next token is none that ends a connection.
#[tactic(auto, unfolding(crate::specs::Parts::goes_on))]
fn goes_on(cursor: &Cursor<'_>) -> bool
    ensures { result ≡ spec.goes_on (first cursor.now) }
{
    !(cursor.sees(b",") || cursor.sees(b")"))
}

/// Connections in order.
#[derive(Clone, Copy)]
struct OrderedOnes {
    alloc: Global,
    room: usize,
}

impl Piece for OrderedOnes {
    type Out = Option<Expr>;

    ghost ready = { λ s. Unit {0} };

    ghost reader = { λ s. optional spec.goes_on (plain_expr s.room) };

    /// [ expr ]
    #[tactic(auto, unfolding(crate::specs::Lists::optional, crate::specs::Lists::plain_expr))]
    fn read(&self, cursor: &mut Cursor<'_>) -> Result<Option<Expr>, Stuck> {
        if !goes_on(cursor) {
            return Ok(None);
        }
        let found = plain_expr(self.alloc, cursor, self.room)?;
        Ok(Some(found))
    }
}

/// Connections by name.
#[derive(Clone, Copy)]
struct NamedOnes {
    alloc: Global,
    room: usize,
}

impl Piece for NamedOnes {
    type Out = NamedConnection;

    ghost ready = { λ s. Unit {0} };

    ghost reader = { λ s. spec.named s.room };

    /// "." id "(" [ expr ] ")"
    #[tactic(auto, unfolding(crate::specs::Parts::named))]
    fn read(&self, cursor: &mut Cursor<'_>) -> Result<NamedConnection, Stuck> {
        cursor.expect(b".")?;
        let name = ident(self.alloc, cursor)?;
        cursor.expect(b"(")?;
        let bound = OrderedOnes {
            alloc: self.alloc,
            room: self.room,
        };
        let value = bound.read(cursor)?;
        cursor.expect(b")")?;
        Ok(NamedConnection { name, value })
    }
}

/// [ expr ] { "," [ expr ] }, or named ones
#[tactic(auto, unfolding(crate::specs::Parts::named_or, crate::specs::Parts::ordered), using(crate::proofs::KeepsLemmas::keeps_named, crate::proofs::KeepsLemmas::keeps_ordered))]
fn some_connections(
    alloc: Global,
    cursor: &mut Cursor<'_>,
    room: usize,
) -> Result<Connections, Stuck>
    ensures { Reads (spec.named_or room (spec.ordered room) cursor.old) result cursor.new }
{
    if cursor.sees(b".") {
        let found = commas(alloc, &NamedOnes { alloc, room }, cursor)?;
        return Ok(Connections::Named(found));
    }
    let found = commas(alloc, &OrderedOnes { alloc, room }, cursor)?;
    Ok(Connections::Ordered(found))
}

/// [ conns ], where `)` stands behind
#[tactic(auto, unfolding(crate::specs::Parts::connections))]
fn connections(alloc: Global, cursor: &mut Cursor<'_>, room: usize) -> Result<Connections, Stuck>
    ensures { Reads (spec.connections room cursor.old) result cursor.new }
{
    if cursor.sees(b")") {
        return Ok(Connections::Ordered(Items::new(alloc)));
    }
    some_connections(alloc, cursor, room)
}

/// Values that are passed in order.
#[derive(Clone, Copy)]
struct Given {
    alloc: Global,
    room: usize,
}

impl Piece for Given {
    type Out = Option<Expr>;

    ghost ready = { λ s. Unit {0} };

    ghost reader = { λ s. some (plain_expr s.room) };

    /// expr
    #[tactic(auto, unfolding(crate::specs::Lists::plain_expr))]
    fn read(&self, cursor: &mut Cursor<'_>) -> Result<Option<Expr>, Stuck> {
        let found = plain_expr(self.alloc, cursor, self.room)?;
        Ok(Some(found))
    }
}

/// L(expr)
#[tactic(auto, unfolding(crate::specs::Parts::listed), using(crate::proofs::KeepsLemmas::keeps_given, crate::proofs::LoopLemmas::commas_some))]
fn listed(alloc: Global, cursor: &mut Cursor<'_>, room: usize) -> Result<Connections, Stuck>
    ensures { Reads (spec.listed room cursor.old) result cursor.new }
{
    let found = commas(alloc, &Given { alloc, room }, cursor)?;
    Ok(Connections::Ordered(found))
}

/// L(expr) | L(named)
#[tactic(auto, unfolding(crate::specs::Parts::named_or), using(crate::proofs::KeepsLemmas::keeps_named))]
fn listed_or_named(
    alloc: Global,
    cursor: &mut Cursor<'_>,
    room: usize,
) -> Result<Connections, Stuck>
    ensures { Reads (spec.named_or room (spec.listed room) cursor.old) result cursor.new }
{
    if !cursor.sees(b".") {
        return listed(alloc, cursor, room);
    }
    let found = commas(alloc, &NamedOnes { alloc, room }, cursor)?;
    Ok(Connections::Named(found))
}

/// "#" "(" ( L(expr) | L(named) ) ")"
#[tactic(auto, unfolding(crate::specs::Parts::parameters_passed))]
fn parameters_passed(
    alloc: Global,
    cursor: &mut Cursor<'_>,
    room: usize,
) -> Result<Connections, Stuck>
    ensures { Reads (spec.parameters_passed room cursor.old) result cursor.new }
{
    cursor.expect(b"#")?;
    cursor.expect(b"(")?;
    let passed = listed_or_named(alloc, cursor, room)?;
    cursor.expect(b")")?;
    Ok(passed)
}

/// [ "#" "(" ( L(expr) | L(named) ) ")" ]
#[tactic(auto, unfolding(crate::specs::Parts::passed))]
pub(crate) fn passed(
    alloc: Global,
    cursor: &mut Cursor<'_>,
    room: usize,
) -> Result<Connections, Stuck>
    ensures { Reads (spec.passed room cursor.old) result cursor.new }
{
    if !cursor.sees(b"#") {
        return Ok(Connections::Ordered(Items::new(alloc)));
    }
    parameters_passed(alloc, cursor, room)
}

/// Instances.
#[derive(Clone, Copy)]
pub(crate) struct EachInstance {
    pub(crate) alloc: Global,
    pub(crate) room: usize,
}

impl Piece for EachInstance {
    type Out = Instance;

    ghost ready = { λ s. Unit {0} };

    ghost reader = { λ s. spec.instance s.room };

    /// id "(" [ conns ] ")"
    #[tactic(auto, unfolding(crate::specs::Parts::instance))]
    fn read(&self, cursor: &mut Cursor<'_>) -> Result<Instance, Stuck> {
        let name = ident(self.alloc, cursor)?;
        cursor.expect(b"(")?;
        let connections = connections(self.alloc, cursor, self.room)?;
        cursor.expect(b")")?;
        Ok(Instance { name, connections })
    }
}
