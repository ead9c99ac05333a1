//! Trees and faults as texts, for the tests.

ghost use Rattle.std.specs.Prelude.{◌≡◌, ◌+◌, length, IfOk};

use crate::shown_parts::{
    bytes_shown, connections, control, exprs, header, labels, name_shown, names_shown, shape, stmt,
    value,
};
use rdc_outside::{Place, Seq, Text};
use sqlite_items::Items;
use std::alloc::{AllocError, Global};
use vlog_lex::lex;
use vlog_parse::{ParseFault, parse};
use vlog_tree::{
    Arm, Assignment, Binding, Block, Connections, Control, Direction, Expr, Gate, Ident, Instance,
    Item, Module, Net, Shape, Stmt,
};

// A text whose lines and columns are counted from 1.
pub(crate) fn text_of(alloc: Global, bytes: &[u8]) -> Result<Text, AllocError>
    ensures { IfOk result (λ t. length t.places ≡ length t.bytes + 1) }
{
    let mut places = Vec::new(alloc);
    let mut line: u32 = 1;
    let mut col: u32 = 1;
    for i in 0..bytes.len() {
        places.push(Place { file: 0, line, col })?;
        if bytes[i] == b'\n' {
            line = line.saturating_add(1);
            col = 1;
        } else {
            col = col.saturating_add(1);
        }
    }
    places.push(Place { file: 0, line, col })?;
    Ok(Text {
        bytes: Seq::from_vec(Vec::from_slice(alloc, bytes)?),
        places: Seq::from_vec(places),
        files: Seq::new(alloc),
    })
}

fn ports(
    alloc: Global,
    direction: Direction,
    across: &Shape,
    names: &[Ident],
    out: &mut String,
) -> Result<(), AllocError> {
    out.push_str(match direction {
        Direction::Input => "input",
        Direction::Output => "output",
        Direction::Register => "output reg",
    })?;
    shape(alloc, across, out)?;
    names_shown(names, out)
}

fn wires(alloc: Global, across: &Shape, nets: &[Net], out: &mut String) -> Result<(), AllocError> {
    out.push_str("wire")?;
    shape(alloc, across, out)?;
    for net in nets {
        out.push_str(" ")?;
        name_shown(&net.name, out)?;
        if let Some(driver) = &net.driver {
            out.push_str("=")?;
            value(alloc, driver, out)?;
        }
    }
    Ok(())
}

fn bound(
    alloc: Global,
    word: &str,
    across: &Shape,
    bindings: &[Binding],
    out: &mut String,
) -> Result<(), AllocError> {
    out.push_str(word)?;
    shape(alloc, across, out)?;
    for b in bindings {
        out.push_str(" ")?;
        name_shown(&b.name, out)?;
        out.push_str("=")?;
        value(alloc, &b.value, out)?;
    }
    Ok(())
}

fn assigns(alloc: Global, assignments: &[Assignment], out: &mut String) -> Result<(), AllocError> {
    out.push_str("assign")?;
    for a in assignments {
        out.push_str(" ")?;
        value(alloc, &a.target, out)?;
        out.push_str("=")?;
        value(alloc, &a.value, out)?;
    }
    Ok(())
}

fn gates(alloc: Global, gates: &[Gate], out: &mut String) -> Result<(), AllocError> {
    out.push_str("gates")?;
    for gate in gates {
        out.push_str(" ")?;
        if let Some(name) = &gate.name {
            name_shown(name, out)?;
        }
        exprs(alloc, gate.terminals.as_slice(), 300, out)?;
    }
    Ok(())
}

fn instances(
    alloc: Global,
    called: &Ident,
    passed: &Connections,
    instances: &[Instance],
    out: &mut String,
) -> Result<(), AllocError> {
    name_shown(called, out)?;
    connections(alloc, passed, out)?;
    for instance in instances {
        out.push_str(" ")?;
        name_shown(&instance.name, out)?;
        connections(alloc, &instance.connections, out)?;
    }
    Ok(())
}

fn process(
    alloc: Global,
    c: &Control,
    s: &Stmt,
    depth: usize,
    out: &mut String,
) -> Result<(), AllocError> {
    out.push_str("always")?;
    control(c, out)?;
    out.push_str(" ")?;
    stmt(alloc, s, depth, out)
}

fn listed(word: &str, names: &[Ident], out: &mut String) -> Result<(), AllocError> {
    out.push_str(word)?;
    names_shown(names, out)
}

// An item down to some depth.
#[cycle(item)]
fn item(alloc: Global, i: &Item, depth: usize, out: &mut String) -> Result<(), AllocError> {
    if depth == 0 {
        return Ok(());
    }
    match i {
        Item::Ports(_, direction, across, names) => {
            ports(alloc, *direction, across, names.as_slice(), out)
        }
        Item::Wires(_, across, nets) => wires(alloc, across, nets.as_slice(), out),
        Item::Registers(_, across, names) => {
            out.push_str("reg")?;
            shape(alloc, across, out)?;
            names_shown(names.as_slice(), out)
        }
        Item::Integers(_, names) => listed("integer", names.as_slice(), out),
        Item::Genvars(_, names) => listed("genvar", names.as_slice(), out),
        Item::Parameters(_, across, bindings) => {
            bound(alloc, "parameter", across, bindings.as_slice(), out)
        }
        Item::Constants(_, across, bindings) => {
            bound(alloc, "localparam", across, bindings.as_slice(), out)
        }
        Item::Assign(_, assignments) => assigns(alloc, assignments.as_slice(), out),
        Item::Always(_, c, s) => process(alloc, c, s, depth, out),
        Item::Gates(_, _, held) => gates(alloc, held.as_slice(), out),
        Item::Instances(_, called, passed, held) => {
            instances(alloc, called, passed, held.as_slice(), out)
        }
        Item::Generate(_, held) => {
            out.push_str("generate")?;
            items(alloc, held.as_slice(), depth - 1, out)
        }
        Item::For(_, turns, name, held) => {
            out.push_str("for ")?;
            header(alloc, turns, out)?;
            out.push_str(" ")?;
            name_shown(name, out)?;
            items(alloc, held.as_slice(), depth - 1, out)
        }
        Item::If(_, test, yes, no) => choice(alloc, test, yes, no, depth - 1, out),
        Item::Case(_, selector, arms) => cases(alloc, selector, arms.as_slice(), depth - 1, out),
    }
}

#[cycle(item)]
fn choice(
    alloc: Global,
    test: &Expr,
    yes: &Block<Items<Item>>,
    no: &Option<Block<Items<Item>>>,
    depth: usize,
    out: &mut String,
) -> Result<(), AllocError> {
    out.push_str("if ")?;
    value(alloc, test, out)?;
    block(alloc, yes, depth, out)?;
    let Some(no) = no else {
        return Ok(());
    };
    out.push_str(" else")?;
    block(alloc, no, depth, out)
}

#[cycle(item)]
fn cases(
    alloc: Global,
    selector: &Expr,
    arms: &[Arm<Block<Items<Item>>>],
    depth: usize,
    out: &mut String,
) -> Result<(), AllocError> {
    out.push_str("case ")?;
    value(alloc, selector, out)?;
    for arm in arms {
        labels(alloc, arm.labels.as_slice(), out)?;
        block(alloc, &arm.body, depth, out)?;
    }
    Ok(())
}

#[cycle(item)]
fn items(alloc: Global, held: &[Item], depth: usize, out: &mut String) -> Result<(), AllocError> {
    out.push_str(" <")?;
    for i in held {
        out.push_str(" ")?;
        item(alloc, i, depth, out)?;
    }
    out.push_str(" >")
}

#[cycle(item)]
fn block(
    alloc: Global,
    b: &Block<Items<Item>>,
    depth: usize,
    out: &mut String,
) -> Result<(), AllocError> {
    if let Some(name) = &b.name {
        out.push_str(" ")?;
        name_shown(name.get(), out)?;
    }
    items(alloc, b.items.as_slice(), depth, out)
}

fn placed(alloc: Global, word: &str, place: Place) -> Result<String, AllocError> {
    let line = place.line;
    let col = place.col;
    format!(in alloc; "{word} {line}:{col}")
}

fn fault_shown(alloc: Global, fault: ParseFault) -> Result<String, AllocError> {
    match fault {
        ParseFault::Memory => String::from_str(alloc, "Memory"),
        ParseFault::Syntax(place) => placed(alloc, "Syntax", place),
        ParseFault::TooDeep(place) => placed(alloc, "TooDeep", place),
        ParseFault::Unsupported(word, place) => {
            let mut out = String::from_str(alloc, "Unsupported ")?;
            bytes_shown(word.as_slice(), &mut out)?;
            let at = placed(alloc, "", place)?;
            out.push_str(at.as_str())?;
            Ok(out)
        }
    }
}

// One item of one module, by their numbers.
fn one_item(
    alloc: Global,
    modules: &[Module],
    module: usize,
    number: usize,
) -> Result<String, AllocError> {
    let mut out = String::new(alloc);
    if module < modules.len() {
        let held = modules[module].items.as_slice();
        if number < held.len() {
            item(alloc, &held[number], 300, &mut out)?;
        }
    }
    Ok(out)
}

// An item of a text; where no module has the number, how many modules there are; or the text's fault.
pub(crate) fn shown(
    alloc: Global,
    bytes: &[u8],
    module: usize,
    number: usize,
) -> Result<String, AllocError> {
    let text = text_of(alloc, bytes)?;
    let Ok(tokens) = lex(alloc, &text) else {
        return String::from_str(alloc, "no tokens");
    };
    match parse(alloc, &text, tokens.as_slice()) {
        Err(fault) => fault_shown(alloc, fault),
        Ok(found) => {
            let count = found.as_slice().len();
            if module < count {
                one_item(alloc, found.as_slice(), module, number)
            } else {
                format!(in alloc; "{count} modules")
            }
        }
    }
}
