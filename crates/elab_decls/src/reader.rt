//! Reading the declarations of a scope, one after another.
ghost use Rattle.std.specs.Prelude.{◌≡◌, None, Some};
ghost use Rattle.std.specs.List.{flat_map};
ghost use Rattle.std.specs.Option.{option_copied};
ghost use Rattle.vlog_tree.specs.declared.port.Port.TheVariants as port;
ghost use Rattle.elab_decls.specs.Mentions.{all_said, last_after, port_as, said_if, said_of_head, said_of_item, said_of_port, spread};
ghost use Rattle.elab_decls.specs.Tables.{Answers, Changes, declared_in, entries, stands, table_of, whole};

use crate::entry::Refusal;
use crate::fault::DeclFault;
use crate::mention::{Mention, Sort};
use crate::naming::Naming;
use crate::table::{Entries, refused};
use std::alloc::Global;
use vlog_tree::{Ident, Item, Parameter, Port};

/// One name, declared so.
#[tactic(auto, unfolding(crate::specs::Mentions::said_if, crate::specs::Tables::entries, crate::specs::Tables::and_then))]
fn enter(
    alloc: Global,
    table: &mut Entries,
    name: &Ident,
    sort: Sort,
    signed: bool,
) -> Result<(), DeclFault>
    ensures { Changes result (table_of table.new) (entries (table_of table.old) (said_if sort signed (Some name.now))) }
{
    let mention = Mention {
        place: name.place,
        sort,
        signed,
    };
    table.enter(alloc, name.name.as_slice(), mention)
}

/// What may have a name, declared so.
#[tactic(auto, unfolding(crate::specs::Mentions::said_if, crate::specs::Tables::entries))]
fn enter_one<N: Naming>(
    alloc: Global,
    table: &mut Entries,
    one: &N,
    sort: Sort,
    signed: bool,
) -> Result<(), DeclFault>
    ensures { Changes result (table_of table.new) (entries (table_of table.old) (said_if sort signed (N.ident one.now))) }
{
    match one.ident() {
        Some(name) => enter(alloc, table, name, sort, signed),
        None => Ok(()),
    }
}

/// What names things, each declared so.
fn enter_all<N: Naming>(
    alloc: Global,
    table: &mut Entries,
    all: &[N],
    sort: Sort,
    signed: bool,
) -> Result<(), DeclFault>
    ensures { Changes result (table_of table.new) (entries (table_of table.old) (all_said N.ident sort signed all.now)) }
{
    for one in all {
        match enter_one(alloc, table, one, sort, signed) {
            Ok(()) => {}
            Err(fault) => return Err(fault),
        }
    }
    Ok(())
}

/// The last port that is declared, after one more.
#[tactic(auto, unfolding(crate::specs::Mentions::last_after))]
pub fn last_after<'a>(last: Option<&'a Port>, port: &'a Port) -> Option<&'a Port>
    ensures { option_copied result ≡ last_after (option_copied last.entry) port.now }
{
    match port {
        Port::Declared(_, _, _) => Some(port),
        Port::Named(_) => last,
    }
}

/// The list of ports.
fn enter_ports(alloc: Global, table: &mut Entries, ports: &[Port]) -> Result<(), DeclFault>
    ensures { Changes result (table_of table.new) (entries (table_of table.old) (flat_map said_of_port (spread None ports.now))) }
{
    let mut last = None;
    for port in ports {
        match enter_port(alloc, table, last, port) {
            Ok(()) => {}
            Err(fault) => return Err(fault),
        }
        last = last_after(last, port);
    }
    Ok(())
}

/// One port in the list, behind the last declared one.
#[tactic(auto, unfolding(crate::specs::Mentions::port_as, crate::specs::Mentions::said_of_port, crate::specs::Mentions::said_if))]
fn enter_port(
    alloc: Global,
    table: &mut Entries,
    last: Option<&Port>,
    port: &Port,
) -> Result<(), DeclFault>
    ensures { Changes result (table_of table.new) (entries (table_of table.old) (said_of_port (port_as (option_copied last.entry) port.now))) }
{
    match port {
        Port::Declared(direction, shape, name) => {
            enter(alloc, table, name, Sort::Headed(*direction), shape.signed)
        }
        Port::Named(name) => enter_named(alloc, table, last, name),
    }
}

/// A name alone in the list, behind the last declared port.
#[tactic(auto, unfolding(crate::specs::Mentions::port_as, crate::specs::Mentions::said_of_port, crate::specs::Mentions::said_if))]
fn enter_named(
    alloc: Global,
    table: &mut Entries,
    last: Option<&Port>,
    name: &Ident,
) -> Result<(), DeclFault>
    ensures { Changes result (table_of table.new) (entries (table_of table.old) (said_of_port (port_as (option_copied last.entry) (port.Named name.now)))) }
{
    match last {
        Some(Port::Declared(direction, shape, _)) => {
            enter(alloc, table, name, Sort::Headed(*direction), shape.signed)
        }
        Some(Port::Named(_)) => enter(alloc, table, name, Sort::Listed, false),
        None => enter(alloc, table, name, Sort::Listed, false),
    }
}

/// Items.
#[cycle(items)]
fn enter_items(alloc: Global, table: &mut Entries, items: &[Item]) -> Result<(), DeclFault>
    ensures { Changes result (table_of table.new) (entries (table_of table.old) (flat_map said_of_item items.now)) }
{
    for item in items {
        match enter_item(alloc, table, item) {
            Ok(()) => {}
            Err(fault) => return Err(fault),
        }
    }
    Ok(())
}

/// One item.
#[cycle(items)]
#[tactic(auto, using(crate::proofs::ItemForms::forms), unfolding(crate::specs::Tables::entries))]
fn enter_item(alloc: Global, table: &mut Entries, item: &Item) -> Result<(), DeclFault>
    ensures { Changes result (table_of table.new) (entries (table_of table.old) (said_of_item item.now)) }
{
    match item {
        Item::Ports(_, direction, shape, names) => enter_all(
            alloc,
            table,
            names.as_slice(),
            Sort::Directed(*direction),
            shape.signed,
        ),
        Item::Wires(_, shape, nets) => {
            enter_all(alloc, table, nets.as_slice(), Sort::Wire, shape.signed)
        }
        Item::Registers(_, shape, names) => {
            enter_all(alloc, table, names.as_slice(), Sort::Register, shape.signed)
        }
        Item::Integers(_, names) => {
            enter_all(alloc, table, names.as_slice(), Sort::Integer, false)
        }
        Item::Genvars(_, names) => enter_all(alloc, table, names.as_slice(), Sort::Genvar, false),
        Item::Parameters(_, _, bindings) | Item::Constants(_, _, bindings) => {
            enter_all(alloc, table, bindings.as_slice(), Sort::Thing, false)
        }
        Item::Gates(_, _, gates) => enter_all(alloc, table, gates.as_slice(), Sort::Thing, false),
        Item::Instances(_, _, _, instances) => {
            enter_all(alloc, table, instances.as_slice(), Sort::Thing, false)
        }
        Item::Generate(_, items) => enter_items(alloc, table, items.as_slice()),
        Item::Assign(_, _)
        | Item::Always(_, _, _)
        | Item::For(_, _, _, _)
        | Item::If(_, _, _, _)
        | Item::Case(_, _, _) => Ok(()),
    }
}

/// A module's head.
#[tactic(auto, using(crate::proofs::ListLemmas::passed, crate::proofs::ListLemmas::stopped))]
fn enter_head(
    alloc: Global,
    table: &mut Entries,
    parameters: &[Parameter],
    ports: &[Port],
) -> Result<(), DeclFault>
    ensures { Changes result (table_of table.new) (entries (table_of table.old) (said_of_head parameters.now ports.now)) }
{
    enter_all(alloc, table, parameters, Sort::Thing, false)?;
    enter_ports(alloc, table, ports)
}

/// What a scope declares. The body of a module has the parameters and the ports of its head; a generate block has none.
///
/// # Errors
/// `NoPort` for a direction of a name that the list of ports hasn't, and for a name in that list that gets none;
/// `TwiceDeclared` for a further declaration, but for the direction of a port that stands alone in the list, and for one
/// net of such a port, or one register where it is an output. The first in the order of the text is answered, a port
/// without a direction last.
#[tactic(auto, using(crate::proofs::ListLemmas::passed, crate::proofs::ListLemmas::stopped), unfolding(crate::specs::Tables::and_then))]
pub fn declared(
    alloc: Global,
    parameters: &[Parameter],
    ports: &[Port],
    items: &[Item],
) -> Result<Entries, DeclFault>
    ensures { Answers table_of result (declared_in parameters.now ports.now items.now) }
{
    let mut table = Entries::new(alloc);
    enter_head(alloc, &mut table, parameters, ports)?;
    enter_items(alloc, &mut table, items)?;
    whole(alloc, &table, ports)?;
    Ok(table)
}

/// Whether each name that stands alone in the list of ports has a direction.
fn whole(alloc: Global, table: &Entries, ports: &[Port]) -> Result<(), DeclFault>
    ensures { Changes result (table_of table.now) (whole (table_of table.now) (spread None ports.now)) }
{
    let mut last = None;
    for port in ports {
        match is_whole(alloc, table, last, port) {
            Ok(()) => {}
            Err(fault) => return Err(fault),
        }
        last = last_after(last, port);
    }
    Ok(())
}

/// Whether a port has a direction, behind the last declared one.
#[tactic(auto, unfolding(crate::specs::Mentions::port_as, crate::specs::Tables::stands, crate::specs::Tables::fault_of))]
fn is_whole(
    alloc: Global,
    table: &Entries,
    last: Option<&Port>,
    port: &Port,
) -> Result<(), DeclFault>
    ensures { Changes result (table_of table.now) (stands (table_of table.now) (port_as (option_copied last.entry) port.now)) }
{
    match port {
        Port::Declared(_, _, _) => Ok(()),
        Port::Named(name) => is_directed(alloc, table, last, name),
    }
}

/// Whether a name alone in the list has a direction, behind the last declared port.
#[tactic(auto, unfolding(crate::specs::Mentions::port_as, crate::specs::Tables::stands, crate::specs::Tables::fault_of))]
fn is_directed(
    alloc: Global,
    table: &Entries,
    last: Option<&Port>,
    name: &Ident,
) -> Result<(), DeclFault>
    ensures { Changes result (table_of table.now) (stands (table_of table.now) (port_as (option_copied last.entry) (port.Named name.now))) }
{
    match last {
        Some(Port::Declared(_, _, _)) => Ok(()),
        Some(Port::Named(_)) => has_direction(alloc, table, name),
        None => has_direction(alloc, table, name),
    }
}

/// Whether a name has a direction.
#[tactic(auto, unfolding(crate::specs::Tables::stands, crate::specs::Tables::fault_of))]
fn has_direction(alloc: Global, table: &Entries, name: &Ident) -> Result<(), DeclFault>
    ensures { Changes result (table_of table.now) (stands (table_of table.now) (port.Named name.now)) }
{
    if table.has_direction(name.name.as_slice()) {
        return Ok(());
    }
    Err(refused(alloc, Refusal::NoPort, name.name.as_slice(), name.place))
}
