//! Modules and their heads, production by production (IEEE 1364-2005, A.1.2 and A.1.3).

ghost use Rattle.std.specs.Prelude.{codes};
ghost use Rattle.vlog_expr.specs.Reading.{Reads};
ghost use Rattle.vlog_parse.specs.Items.{item as spec_item};
ghost use Rattle.vlog_parse.specs.Lists.{until as spec_until};
ghost use Rattle.vlog_parse.specs.Modules as spec;

use crate::items::{Holding, item};
use crate::lists::{Piece, commas, others, until};
use crate::parts::{Bindings, direction, shape};
use crate::words::sees_name;
use sqlite_items::Items;
use std::alloc::Global;
use vlog_expr::{Cursor, Stuck};
use vlog_stmt::{ident, took_word};
use vlog_tree::{Item, Module, Parameter, Port, fitted, sole};

/// [ "signed" ] [ range ] id "=" expr
#[tactic(auto, unfolding(crate::specs::Modules::parameter))]
fn parameter(alloc: Global, cursor: &mut Cursor<'_>, room: usize) -> Result<Parameter, Stuck>
    ensures { Reads (spec.parameter room cursor.old) result cursor.new }
{
    let shape = shape(alloc, cursor, room)?;
    let bindings = Bindings { alloc, room };
    let binding = bindings.read(cursor)?;
    Ok(Parameter { shape, binding })
}

/// Parameters behind the first.
#[derive(Clone, Copy)]
struct Further {
    alloc: Global,
    room: usize,
}

impl Piece for Further {
    type Out = Parameter;

    ghost ready = { λ s. Unit {0} };

    ghost reader = { λ s. spec.further s.room };

    /// [ "parameter" ] pbind
    #[tactic(auto, unfolding(crate::specs::Modules::further))]
    fn read(&self, cursor: &mut Cursor<'_>) -> Result<Parameter, Stuck> {
        let _said = took_word(cursor, b"parameter");
        parameter(self.alloc, cursor, self.room)
    }
}

/// "parameter" pbind { "," [ "parameter" ] pbind }
#[tactic(auto, unfolding(crate::specs::Modules::parameter_list), using(crate::proofs::EatsLemmas::keeps_further))]
fn parameter_list(
    alloc: Global,
    cursor: &mut Cursor<'_>,
    room: usize,
) -> Result<Items<Parameter>, Stuck>
    ensures { Reads (spec.parameter_list room cursor.old) result cursor.new }
{
    cursor.expect_word(b"parameter")?;
    let first = parameter(alloc, cursor, room)?;
    let mut found = sole(alloc, first)?;
    others(&Further { alloc, room }, cursor, &mut found)?;
    Ok(fitted(alloc, found)?)
}

/// "#" "(" .. ")"
#[tactic(auto, unfolding(crate::specs::Modules::parameters_there))]
fn parameters_there(
    alloc: Global,
    cursor: &mut Cursor<'_>,
    room: usize,
) -> Result<Items<Parameter>, Stuck>
    ensures { Reads (spec.parameters_there room cursor.old) result cursor.new }
{
    cursor.expect(b"#")?;
    cursor.expect(b"(")?;
    let found = parameter_list(alloc, cursor, room)?;
    cursor.expect(b")")?;
    Ok(found)
}

/// [ "#" "(" .. ")" ]
#[tactic(auto, unfolding(crate::specs::Modules::parameters))]
fn parameters(
    alloc: Global,
    cursor: &mut Cursor<'_>,
    room: usize,
) -> Result<Items<Parameter>, Stuck>
    ensures { Reads (spec.parameters room cursor.old) result cursor.new }
{
    if !cursor.sees(b"#") {
        return Ok(Items::new(alloc));
    }
    parameters_there(alloc, cursor, room)
}

/// AnyPorts by their names alone.
#[derive(Clone, Copy)]
struct Bare {
    alloc: Global,
}

impl Piece for Bare {
    type Out = Port;

    ghost ready = { λ s. Unit {0} };

    ghost reader = { λ s. spec.bare };

    /// id
    #[tactic(auto, unfolding(crate::specs::Modules::bare))]
    fn read(&self, cursor: &mut Cursor<'_>) -> Result<Port, Stuck> {
        let name = ident(self.alloc, cursor)?;
        Ok(Port::Named(name))
    }
}

/// dir [ "signed" ] [ range ] id
#[tactic(auto, unfolding(crate::specs::Modules::ansi))]
fn ansi(alloc: Global, cursor: &mut Cursor<'_>, room: usize) -> Result<Port, Stuck>
    ensures { Reads (spec.ansi room cursor.old) result cursor.new }
{
    let direction = direction(cursor)?;
    let shape = shape(alloc, cursor, room)?;
    let name = ident(alloc, cursor)?;
    Ok(Port::Declared(direction, shape, name))
}

/// Ports of both kinds.
#[derive(Clone, Copy)]
struct AnyPorts {
    alloc: Global,
    room: usize,
}

impl Piece for AnyPorts {
    type Out = Port;

    ghost ready = { λ s. Unit {0} };

    ghost reader = { λ s. spec.port s.room };

    /// ansi or id
    #[tactic(auto, unfolding(crate::specs::Modules::port))]
    fn read(&self, cursor: &mut Cursor<'_>) -> Result<Port, Stuck> {
        if !sees_name(cursor) {
            return ansi(self.alloc, cursor, self.room);
        }
        let bare = Bare { alloc: self.alloc };
        bare.read(cursor)
    }
}

/// ansi { "," ( ansi | id ) }
#[tactic(auto, unfolding(crate::specs::Modules::ansi_list), using(crate::proofs::EatsLemmas::keeps_ports))]
fn ansi_list(alloc: Global, cursor: &mut Cursor<'_>, room: usize) -> Result<Items<Port>, Stuck>
    ensures { Reads (spec.ansi_list room cursor.old) result cursor.new }
{
    let first = ansi(alloc, cursor, room)?;
    let mut found = sole(alloc, first)?;
    others(&AnyPorts { alloc, room }, cursor, &mut found)?;
    Ok(fitted(alloc, found)?)
}

/// L(id) | ansi { "," ( ansi | id ) }
#[tactic(auto, unfolding(crate::specs::Modules::port_list), using(crate::proofs::EatsLemmas::keeps_bare))]
fn port_list(alloc: Global, cursor: &mut Cursor<'_>, room: usize) -> Result<Items<Port>, Stuck>
    ensures { Reads (spec.port_list room cursor.old) result cursor.new }
{
    if sees_name(cursor) {
        return commas(alloc, &Bare { alloc }, cursor);
    }
    ansi_list(alloc, cursor, room)
}

/// [ ports ], where `)` stands behind
#[tactic(auto, unfolding(crate::specs::Modules::some_ports))]
fn some_ports(alloc: Global, cursor: &mut Cursor<'_>, room: usize) -> Result<Items<Port>, Stuck>
    ensures { Reads (spec.some_ports room cursor.old) result cursor.new }
{
    if cursor.sees(b")") {
        return Ok(Items::new(alloc));
    }
    port_list(alloc, cursor, room)
}

/// [ "(" [ ports ] ")" ]
#[tactic(auto, unfolding(crate::specs::Modules::ports, crate::specs::Modules::ports_there))]
fn ports(alloc: Global, cursor: &mut Cursor<'_>, room: usize) -> Result<Items<Port>, Stuck>
    ensures { Reads (spec.ports room cursor.old) result cursor.new }
{
    if !cursor.sees(b"(") {
        return Ok(Items::new(alloc));
    }
    cursor.expect(b"(")?;
    let found = some_ports(alloc, cursor, room)?;
    cursor.expect(b")")?;
    Ok(found)
}

/// The items of a module, up to `endmodule`.
#[tactic(auto, using(crate::proofs::EatsLemmas::eats_items))]
fn items(alloc: Global, cursor: &mut Cursor<'_>, room: usize) -> Result<Items<Item>, Stuck>
    ensures { Reads (spec_until (codes "endmodule") (spec_item room) cursor.old) result cursor.new }
{
    until(alloc, &Holding { alloc, room, item }, cursor, b"endmodule")
}

/// "module" id [ parameters ] [ "(" [ ports ] ")" ] ";" { item } "endmodule"
#[tactic(auto, unfolding(crate::specs::Modules::module_of))]
pub(crate) fn module_of(
    alloc: Global,
    cursor: &mut Cursor<'_>,
    room: usize,
) -> Result<Module, Stuck>
    ensures { Reads (spec.module_of room cursor.old) result cursor.new }
{
    let place = cursor.place();
    cursor.expect_word(b"module")?;
    let name = ident(alloc, cursor)?;
    let parameters = parameters(alloc, cursor, room)?;
    let ports = ports(alloc, cursor, room)?;
    cursor.expect(b";")?;
    let items = items(alloc, cursor, room)?;
    Ok(Module {
        place,
        name,
        parameters,
        ports,
        items,
    })
}
