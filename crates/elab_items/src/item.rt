//! What items add to the flat design.
ghost use Rattle.std.specs.Prelude.{◌≡◌, ◌≤◌, IfOk, IfSome, OnOk, map};
ghost use Rattle.std.specs.Option.{option_map};
ghost use Rattle.elab_items.specs.Items.{arm_chosen, arm_of, block_of, blocked, blocked_if, bodied, count_in, item_act, items_act, looped, once, running, scoped, stepped, stopped, turned, turns_from};
ghost use Rattle.elab_items.specs.Tables.{Turns, lib_of, plan_of};
ghost use Rattle.elab_names.specs.Answers.{Answers};
ghost use Rattle.elab_names.specs.Meanings.{frames_of};
ghost use Rattle.elab_scopes.specs.Tables.{Changes};

use crate::instance::{Said, instances};
use crate::plan::Plan;
use crate::scopes::{begin, block_prefix, end, genvar, label, label_as, turn_prefix};
use elab_binds::Library;
use elab_choices::{chosen, is_true};
use elab_drivers::{assign_all, gate_all, process, wire_all};
use elab_names::{ElabFault, Meaning, Scope, constant_within};
use rdc_outside::Place;
use sqlite_items::{Boxed, Items};
use std::alloc::{AllocError, Global};
use vlog_const::ConstValue;
use vlog_tree::{Arm, Block, Expr, Ident, Item, Loop};

/// The value of a genvar, as by an assignment to 32 bits.
#[tactic(auto, unfolding(crate::specs::Items::count_in, elab_names::specs::Answers::and_then))]
fn count_in(alloc: Global, e: &Expr, scope: &Scope) -> Result<ConstValue, ElabFault>
    ensures value { Answers (λ v. v) result (count_in (frames_of scope.now) e.now) }
    ensures bound { IfOk result (λ v. v.width ≤ 128) }
{
    let value = constant_within(alloc, e, scope, 32)?;
    Ok(ConstValue {
        bits: value.bits % (1 << 32),
        width: 32,
        signed: true,
    })
}

/// The value for the next turn.
#[tactic(auto, unfolding(crate::specs::Items::stepped))]
fn stepped(
    alloc: Global,
    scope: &Scope,
    header: &Loop,
    value: ConstValue,
) -> Result<ConstValue, ElabFault>
    requires { value.width ≤ 128 }
    ensures value { Answers (λ v. v) result (stepped (frames_of scope.now) header.now value) }
    ensures bound { IfOk result (λ v. v.width ≤ 128) }
{
    if header.stepped.name.as_slice() == header.variable.name.as_slice() {
        return count_in(alloc, header.step.get(), scope);
    }
    Ok(value)
}

/// The names with a genvar's value.
fn run(p: &mut Plan, name: &Ident, value: ConstValue) -> Result<(), AllocError>
    ensures { OnOk result (plan_of p.new ≡ running (plan_of p.old) name.now value) }
{
    let scope = &mut p.draft.drawing.scope;
    scope.enter()?;
    scope.set(name.name.as_slice(), Meaning::Constant(value))
}

/// Out of a turn's names.
fn stop(p: &mut Plan)
    ensures { plan_of p.new ≡ stopped (plan_of p.old) }
{
    p.draft.drawing.scope.leave();
}

/// The turns of all loops are fewer.
const MOST_TURNS: u32 = 65_536;

/// What an item stands in.
#[derive(Clone, Copy)]
struct Around<'a> {
    library: &'a Library<'a>,
    /// What goes before its names.
    prefix: &'a [u8],
}

impl<'a> Around<'a> {
    /// The same within a block.
    fn within(self, prefix: &'a [u8]) -> Around<'a>
        ensures library { result.library.now ≡ self.entry.library.now }
        ensures prefix { result.prefix.now ≡ prefix.now }
    {
        Around {
            library: self.library,
            prefix,
        }
    }
}

/// A loop's header with its place and the name of its block.
#[derive(Clone, Copy)]
struct Head<'a> {
    place: Place,
    header: &'a Loop,
    label: &'a Ident,
}

/// A block as a scope.
#[cycle(items)]
#[tactic(auto, using(crate::proofs::BodyForms::bodies), unfolding(crate::specs::Items::scoped, elab_names::specs::Answers::and_then))]
fn scoped(alloc: Global, p: &mut Plan, at: Around<'_>, body: &[Item]) -> Result<(), ElabFault>
    ensures { Changes result (plan_of p.new) (scoped at.entry.prefix.now (bodied (lib_of at.entry.library.now) body.now) (plan_of p.old)) }
{
    begin(alloc, p, at.prefix, body)?;
    all(alloc, p, at, body)?;
    end(p);
    Ok(())
}

/// A block with its name, if it has one.
#[cycle(items)]
#[tactic(auto, unfolding(crate::specs::Items::blocked, elab_names::specs::Answers::and_then))]
fn block(
    alloc: Global,
    p: &mut Plan,
    at: Around<'_>,
    name: &Option<Boxed<Ident>>,
    body: &[Item],
) -> Result<(), ElabFault>
    ensures { Changes result (plan_of p.new) (blocked (record { name = name.now; items = bodied (lib_of at.entry.library.now) body.now }) at.entry.prefix.now (plan_of p.old)) }
{
    label(alloc, p, name)?;
    let prefix = block_prefix(alloc, at.prefix, name)?;
    scoped(alloc, p, at.within(&prefix), body)
}

/// One turn, unless it is one too many.
#[cycle(items)]
#[tactic(auto, unfolding(crate::specs::Items::turned))]
fn turn(
    alloc: Global,
    p: &mut Plan,
    at: Around<'_>,
    head: Head<'_>,
    body: &[Item],
    value: ConstValue,
) -> Result<(), ElabFault>
    requires { value.width ≤ 128 }
    ensures { Changes result (plan_of p.new) (turned head.entry.place at.entry.prefix.now head.entry.header.now head.entry.label.now (bodied (lib_of at.entry.library.now) body.now) value (plan_of p.old)) }
{
    if MOST_TURNS - 1 <= p.turns {
        return Err(ElabFault::GenerateLimit(head.place));
    }
    let prefix = turn_prefix(alloc, at.prefix, head.label.name.as_slice(), value)?;
    p.turns += 1;
    scoped(alloc, p, at.within(&prefix), body)
}

/// A test and, where it is true, a turn.
#[cycle(items)]
#[tactic(auto, unfolding(crate::specs::Items::once, crate::specs::Items::taken_on, elab_names::specs::Answers::and_then))]
fn once(
    alloc: Global,
    p: &mut Plan,
    at: Around<'_>,
    head: Head<'_>,
    body: &[Item],
    value: ConstValue,
) -> Result<Option<ConstValue>, ElabFault>
    requires { value.width ≤ 128 }
    ensures bound { IfOk result (λ next. IfSome next (λ v. v.width ≤ 128)) }
    ensures value { Turns result (plan_of p.new) (once head.entry.place at.entry.prefix.now head.entry.header.now head.entry.label.now (bodied (lib_of at.entry.library.now) body.now) value (plan_of p.old)) }
{
    run(p, &head.header.variable, value)?;
    if !is_true(alloc, head.header.test.get(), &p.draft.drawing.scope)? {
        stop(p);
        return Ok(None);
    }
    turn(alloc, p, at, head, body, value)?;
    let next = stepped(alloc, &p.draft.drawing.scope, head.header, value)?;
    stop(p);
    Ok(Some(next))
}

/// The turns of a loop.
#[cycle(items)]
fn turns(
    alloc: Global,
    p: &mut Plan,
    at: Around<'_>,
    head: Head<'_>,
    body: &[Item],
    first: ConstValue,
) -> Result<(), ElabFault>
    requires { first.width ≤ 128 }
    ensures { Changes result (plan_of p.new) (turns_from 65536 head.entry.place at.entry.prefix.now head.entry.header.now head.entry.label.now (bodied (lib_of at.entry.library.now) body.now) first (plan_of p.old)) }
{
    let mut value = first;
    let mut left = MOST_TURNS;
    while 0 < left {
        left -= 1;
        match once(alloc, p, at, head, body, value) {
            Ok(Some(next)) => value = next,
            Ok(None) => return Ok(()),
            Err(fault) => return Err(fault),
        }
    }
    Err(ElabFault::GenerateLimit(head.place))
}

/// A loop.
#[cycle(items)]
#[tactic(auto, unfolding(crate::specs::Items::looped, elab_names::specs::Answers::and_then))]
fn for_loop(
    alloc: Global,
    p: &mut Plan,
    at: Around<'_>,
    head: Head<'_>,
    body: &[Item],
) -> Result<(), ElabFault>
    ensures { Changes result (plan_of p.new) (looped head.entry.place head.entry.header.now head.entry.label.now (bodied (lib_of at.entry.library.now) body.now) at.entry.prefix.now (plan_of p.old)) }
{
    genvar(alloc, &p.around, &head.header.variable)?;
    genvar(alloc, &p.around, &head.header.stepped)?;
    label_as(alloc, p, head.label)?;
    let first = count_in(alloc, head.header.start.get(), &p.draft.drawing.scope)?;
    turns(alloc, p, at, head, body, first)
}

/// The arm of a generate `case` that is chosen.
#[cycle(items)]
#[tactic(auto, unfolding(crate::specs::Items::arm_chosen, crate::specs::Items::arm_at))]
fn arm(
    alloc: Global,
    p: &mut Plan,
    at: Around<'_>,
    arms: &[Arm<Block<Items<Item>>>],
    chosen: Option<usize>,
) -> Result<(), ElabFault>
    ensures { Changes result (plan_of p.new) (arm_chosen chosen (map (arm_of (lib_of at.entry.library.now)) arms.now) at.entry.prefix.now (plan_of p.old)) }
{
    let Some(k) = chosen else {
        return Ok(());
    };
    if arms.len() <= k {
        return Ok(());
    }
    let body = &arms[k].body;
    block(alloc, p, at, &body.name, body.items.as_slice())
}

/// Items.
#[cycle(items)]
fn all(alloc: Global, p: &mut Plan, at: Around<'_>, items: &[Item]) -> Result<(), ElabFault>
    ensures { Changes result (plan_of p.new) (items_act (lib_of at.entry.library.now) at.entry.prefix.now (plan_of p.old) items.now) }
{
    for one in items {
        match item(alloc, p, at, one) {
            Ok(()) => {}
            Err(fault) => return Err(fault),
        }
    }
    Ok(())
}

/// What an item adds.
#[cycle(items)]
#[tactic(auto, using(crate::proofs::ActForms::forms), unfolding(crate::specs::Plans::on_draft, crate::specs::Items::blocked_if, elab_names::specs::Answers::and_then))]
fn item(alloc: Global, p: &mut Plan, at: Around<'_>, item: &Item) -> Result<(), ElabFault>
    ensures { Changes result (plan_of p.new) (item_act (lib_of at.entry.library.now) item.now at.entry.prefix.now (plan_of p.old)) }
{
    match item {
        Item::Wires(_, _, nets) => wire_all(alloc, &mut p.draft, nets.as_slice()),
        Item::Assign(_, assignments) => assign_all(alloc, &mut p.draft, assignments.as_slice()),
        Item::Always(place, control, body) => process(alloc, &mut p.draft, *place, control, body),
        Item::Gates(_, kind, gates) => gate_all(alloc, &mut p.draft, *kind, gates.as_slice()),
        Item::Instances(_, called, passed, of_it) => {
            let said = Said {
                prefix: at.prefix,
                called,
                passed,
            };
            instances(alloc, p, at.library, said, of_it.as_slice())
        }
        Item::Generate(_, items) => all(alloc, p, at, items.as_slice()),
        Item::For(place, header, label, items) => {
            let head = Head {
                place: *place,
                header,
                label,
            };
            for_loop(alloc, p, at, head, items.as_slice())
        }
        Item::If(_, test, yes, no) => {
            if is_true(alloc, test, &p.draft.drawing.scope)? {
                return block(alloc, p, at, &yes.name, yes.items.as_slice());
            }
            match no {
                Some(no) => block(alloc, p, at, &no.name, no.items.as_slice()),
                None => Ok(()),
            }
        }
        Item::Case(_, selector, arms) => {
            let arms = arms.as_slice();
            let k = chosen(alloc, selector, arms, &p.draft.drawing.scope)?;
            arm(alloc, p, at, arms, k)
        }
        Item::Ports(_, _, _, _)
        | Item::Registers(_, _, _)
        | Item::Integers(_, _)
        | Item::Genvars(_, _)
        | Item::Parameters(_, _, _)
        | Item::Constants(_, _, _) => Ok(()),
    }
}

/// What the items of a module add to the flat design, in the order of the text: its drivers, processes and gates, those of
/// generate constructs unrolled, the drivers of its instances' ports, and the instances themselves, which are still to be
/// elaborated. The names and signals of the module are those of the plan, and `prefix` goes before its names.
///
/// # Errors
/// Of the first item that has one: what `wire_all`, `assign_all`, `process` and `gate_all` answer; of instances what
/// `Library::find`, `given` and `bind` do; of generate constructs `Undeclared` at a name that is no genvar, `TwiceDeclared` at
/// a block's name, `GenerateLimit` where the turns of all loops reach 65,536, and what `open_scope` answers of a block.
pub fn items(
    alloc: Global,
    p: &mut Plan,
    library: &Library<'_>,
    prefix: &[u8],
    items: &[Item],
) -> Result<(), ElabFault>
    ensures { Changes result (plan_of p.new) (items_act (lib_of library.now) prefix.now (plan_of p.old) items.now) }
{
    all(alloc, p, Around { library, prefix }, items)
}
