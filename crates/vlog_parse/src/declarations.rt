//! Declarations, instances and processes, production by production (IEEE 1364-2005, A.1.4, A.2, A.3, A.4.1 and A.6).

ghost use Rattle.std.specs.Prelude.{◌≡◌, ◌≤◌, length};
ghost use Rattle.vlog_expr.specs.Reading.{Reads};
ghost use Rattle.vlog_parse.specs.Lists.{commas as spec_commas, Keeps};
ghost use Rattle.vlog_parse.specs.Items as spec;

use crate::gates::{EachGate, EachInstance, passed};
use crate::lists::{Names, Piece, commas};
use crate::parts::{Assignments, Bindings, Nets, direction, shape};
use sqlite_items::Items;
use std::alloc::Global;
use vlog_expr::{Cursor, Stuck};
use vlog_stmt::{control_at, ident, stmt};
use vlog_tree::{GateKind, Item, Shape};

/// [ "signed" ] [ range ] and a list
#[tactic(auto, unfolding(crate::specs::Items::shaped))]
fn shaped<P: Piece>(
    alloc: Global,
    piece: &P,
    cursor: &mut Cursor<'_>,
    room: usize,
) -> Result<(Shape, Items<P::Out>), Stuck>
    requires ready { P.ready piece.now }
    requires keeps { Keeps (P.reader piece.now) }
    ensures { Reads (spec.shaped room (spec_commas (P.reader piece.now)) cursor.old) result cursor.new }
{
    let shape = shape(alloc, cursor, room)?;
    let found = commas(alloc, piece, cursor)?;
    Ok((shape, found))
}

/// dir [ "signed" ] [ range ] L(id) ";"
#[tactic(auto, unfolding(crate::specs::Items::ports), using(crate::proofs::KeepsLemmas::keeps_ident))]
pub(crate) fn ports(alloc: Global, cursor: &mut Cursor<'_>, room: usize) -> Result<Item, Stuck>
    ensures { Reads (spec.ports room cursor.old) result cursor.new }
{
    let place = cursor.place();
    let direction = direction(cursor)?;
    let (shape, names) = shaped(alloc, &Names { alloc }, cursor, room)?;
    cursor.expect(b";")?;
    Ok(Item::Ports(place, direction, shape, names))
}

/// "wire" [ "signed" ] [ range ] L( id [ "=" expr ] ) ";"
#[tactic(auto, unfolding(crate::specs::Items::wires, crate::specs::Items::declared), using(crate::proofs::KeepsLemmas::keeps_nets))]
pub(crate) fn wires(alloc: Global, cursor: &mut Cursor<'_>, room: usize) -> Result<Item, Stuck>
    ensures { Reads (spec.wires room cursor.old) result cursor.new }
{
    let place = cursor.place();
    cursor.expect_word(b"wire")?;
    let (shape, nets) = shaped(alloc, &Nets { alloc, room }, cursor, room)?;
    cursor.expect(b";")?;
    Ok(Item::Wires(place, shape, nets))
}

/// "reg" [ "signed" ] [ range ] L(id) ";"
#[tactic(auto, unfolding(crate::specs::Items::registers, crate::specs::Items::declared), using(crate::proofs::KeepsLemmas::keeps_ident))]
pub(crate) fn registers(alloc: Global, cursor: &mut Cursor<'_>, room: usize) -> Result<Item, Stuck>
    ensures { Reads (spec.registers room cursor.old) result cursor.new }
{
    let place = cursor.place();
    cursor.expect_word(b"reg")?;
    let (shape, names) = shaped(alloc, &Names { alloc }, cursor, room)?;
    cursor.expect(b";")?;
    Ok(Item::Registers(place, shape, names))
}

/// "integer" L(id) ";"
#[tactic(auto, unfolding(crate::specs::Items::integers, crate::specs::Items::declared), using(crate::proofs::KeepsLemmas::keeps_ident))]
pub(crate) fn integers(alloc: Global, cursor: &mut Cursor<'_>) -> Result<Item, Stuck>
    ensures { Reads (spec.integers cursor.old) result cursor.new }
{
    let place = cursor.place();
    cursor.expect_word(b"integer")?;
    let names = commas(alloc, &Names { alloc }, cursor)?;
    cursor.expect(b";")?;
    Ok(Item::Integers(place, names))
}

/// "genvar" L(id) ";"
#[tactic(auto, unfolding(crate::specs::Items::genvars, crate::specs::Items::declared), using(crate::proofs::KeepsLemmas::keeps_ident))]
pub(crate) fn genvars(alloc: Global, cursor: &mut Cursor<'_>) -> Result<Item, Stuck>
    ensures { Reads (spec.genvars cursor.old) result cursor.new }
{
    let place = cursor.place();
    cursor.expect_word(b"genvar")?;
    let names = commas(alloc, &Names { alloc }, cursor)?;
    cursor.expect(b";")?;
    Ok(Item::Genvars(place, names))
}

/// "parameter" [ "signed" ] [ range ] L( id "=" expr ) ";"
#[tactic(auto, unfolding(crate::specs::Items::parameters, crate::specs::Items::declared), using(crate::proofs::KeepsLemmas::keeps_bindings))]
pub(crate) fn parameters(alloc: Global, cursor: &mut Cursor<'_>, room: usize) -> Result<Item, Stuck>
    ensures { Reads (spec.parameters room cursor.old) result cursor.new }
{
    let place = cursor.place();
    cursor.expect_word(b"parameter")?;
    let (shape, bindings) = shaped(alloc, &Bindings { alloc, room }, cursor, room)?;
    cursor.expect(b";")?;
    Ok(Item::Parameters(place, shape, bindings))
}

/// "localparam" [ "signed" ] [ range ] L( id "=" expr ) ";"
#[tactic(auto, unfolding(crate::specs::Items::constants, crate::specs::Items::declared), using(crate::proofs::KeepsLemmas::keeps_bindings))]
pub(crate) fn constants(alloc: Global, cursor: &mut Cursor<'_>, room: usize) -> Result<Item, Stuck>
    ensures { Reads (spec.constants room cursor.old) result cursor.new }
{
    let place = cursor.place();
    cursor.expect_word(b"localparam")?;
    let (shape, bindings) = shaped(alloc, &Bindings { alloc, room }, cursor, room)?;
    cursor.expect(b";")?;
    Ok(Item::Constants(place, shape, bindings))
}

/// "assign" L( lval "=" expr ) ";"
#[tactic(auto, unfolding(crate::specs::Items::assign, crate::specs::Items::declared), using(crate::proofs::EatsLemmas::keeps_assignments))]
pub(crate) fn assign(alloc: Global, cursor: &mut Cursor<'_>, room: usize) -> Result<Item, Stuck>
    ensures { Reads (spec.assign room cursor.old) result cursor.new }
{
    let place = cursor.place();
    cursor.expect_word(b"assign")?;
    let assignments = commas(alloc, &Assignments { alloc, room }, cursor)?;
    cursor.expect(b";")?;
    Ok(Item::Assign(place, assignments))
}

#[tactic(auto, unfolding(crate::specs::Items::word_of_gate))]
fn word_of_gate(which: GateKind) -> &'static [u8]
    ensures value { result.now ≡ spec.word_of_gate which }
    ensures some { 1 ≤ length result.now }
{
    match which {
        GateKind::And => b"and",
        GateKind::Nand => b"nand",
        GateKind::Or => b"or",
        GateKind::Nor => b"nor",
        GateKind::Xor => b"xor",
        GateKind::Xnor => b"xnor",
        GateKind::Not => b"not",
        GateKind::Buf => b"buf",
    }
}

/// gate L( [ id ] "(" L(expr) ")" ) ";"
#[tactic(auto, unfolding(crate::specs::Items::gates, crate::specs::Items::declared), using(crate::proofs::KeepsLemmas::keeps_gates))]
pub(crate) fn gates(
    alloc: Global,
    cursor: &mut Cursor<'_>,
    room: usize,
    which: GateKind,
) -> Result<Item, Stuck>
    ensures { Reads (spec.gates room which cursor.old) result cursor.new }
{
    let place = cursor.place();
    cursor.expect_word(word_of_gate(which))?;
    let found = commas(alloc, &EachGate { alloc, room }, cursor)?;
    cursor.expect(b";")?;
    Ok(Item::Gates(place, which, found))
}

/// id [ "#" "(" ( L(expr) | L(named) ) ")" ] L( id "(" [ conns ] ")" ) ";"
#[tactic(auto, unfolding(crate::specs::Items::instances), using(crate::proofs::KeepsLemmas::keeps_instances))]
pub(crate) fn instances(alloc: Global, cursor: &mut Cursor<'_>, room: usize) -> Result<Item, Stuck>
    ensures { Reads (spec.instances room cursor.old) result cursor.new }
{
    let called = ident(alloc, cursor)?;
    let given = passed(alloc, cursor, room)?;
    let found = commas(alloc, &EachInstance { alloc, room }, cursor)?;
    cursor.expect(b";")?;
    Ok(Item::Instances(called.place, called, given, found))
}

/// "always" "@" control stmt
#[tactic(auto, unfolding(crate::specs::Items::always))]
pub(crate) fn always(alloc: Global, cursor: &mut Cursor<'_>, room: usize) -> Result<Item, Stuck>
    ensures { Reads (spec.always room cursor.old) result cursor.new }
{
    let place = cursor.place();
    cursor.expect_word(b"always")?;
    cursor.expect(b"@")?;
    let control = control_at(alloc, cursor, room)?;
    let body = stmt(alloc, cursor, room)?;
    Ok(Item::Always(place, control, body))
}
