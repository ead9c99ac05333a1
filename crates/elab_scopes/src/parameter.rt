//! Parameters and their values.
ghost use Rattle.std.specs.Prelude.{◌≡◌, ◌≤◌, IfOk, Some, None};
ghost use Rattle.elab_names.specs.Answers.{Answers};
ghost use Rattle.elab_names.specs.Meanings.{Frames, frames_of};
ghost use Rattle.elab_scopes.specs.Parameters.{cut, entered, given_value, headed, parameters, parameters_of_item, valued, valued_as, width_in};
ghost use Rattle.elab_scopes.specs.Tables.{Changes, given_of};
ghost use Rattle.elab_scopes.specs.Threads.{threaded};

use crate::given::Given;
use crate::place::place_of;
use crate::ranges::bounds;
use design_form::Bounds;
use elab_names::{ElabFault, Meaning, Scope, alone, put_in, within};
use rdc_outside::Place;
use std::alloc::Global;
use vlog_const::{ConstFault, ConstValue};
use vlog_tree::{Binding, Expr, Item, Parameter, Range, Shape};

/// The width of a parameter's range.
#[tactic(auto, unfolding(crate::specs::Parameters::width_in))]
fn width_in(place: Place, bounds: Bounds) -> Result<u32, ElabFault>
    ensures value { Answers (λ w. w) result (width_in place bounds) }
    ensures bound { IfOk result (λ w. w ≤ 128) }
{
    let width = bounds.width();
    if 128 < width {
        return Err(ElabFault::Const(ConstFault::TooWide(place)));
    }
    Ok(width as u32)
}

/// The lowest bits of a value.
fn cut(width: u32, signed: bool, value: ConstValue) -> ConstValue
    requires { width ≤ 128 }
    ensures { result ≡ cut width signed value }
{
    let bits = if width < 128 {
        value.bits % (1 << width)
    } else {
        value.bits
    };
    ConstValue {
        bits,
        width,
        signed,
    }
}

/// The value of a parameter without a range.
#[tactic(auto, unfolding(crate::specs::Parameters::valued_as, elab_names::specs::Answers::and_then))]
fn unranged(alloc: Global, signed: bool, e: &Expr) -> Result<ConstValue, ElabFault>
    ensures { (frames : Frames) → Answers (λ v. v) result (valued_as frames signed None e.now) }
{
    let value = alone(alloc, e)?;
    Ok(ConstValue {
        signed: signed || value.signed,
        ..value
    })
}

/// The value of a parameter with a range.
#[tactic(auto, unfolding(crate::specs::Parameters::valued_as, elab_names::specs::Answers::and_then))]
fn ranged(
    alloc: Global,
    signed: bool,
    range: &Range,
    e: &Expr,
    scope: &Scope,
) -> Result<ConstValue, ElabFault>
    ensures { Answers (λ v. v) result (valued_as (frames_of scope.now) signed (Some range.now) e.now) }
{
    let bounds = bounds(alloc, range, scope)?;
    let width = width_in(place_of(&range.msb), bounds)?;
    let value = within(alloc, e, width)?;
    Ok(cut(width, signed, value))
}

/// The value of a parameter of some shape, of an expression that is put in.
///
/// # Errors
/// As `bounds` of its range; `Const(TooWide)` at a range of more than 128 bits; and what `value` answers of the expression.
pub fn parameter_value(
    alloc: Global,
    shape: &Shape,
    e: &Expr,
    scope: &Scope,
) -> Result<ConstValue, ElabFault>
    ensures { Answers (λ v. v) result (valued (frames_of scope.now) shape.now e.now) }
{
    match &shape.range {
        Some(range) => ranged(alloc, shape.signed, range.get(), e, scope),
        None => unranged(alloc, shape.signed, e),
    }
}

/// The value of a parameter: of what is given, or else of its own expression.
#[tactic(auto, unfolding(crate::specs::Parameters::given_value, crate::specs::Parameters::source, elab_names::specs::Answers::and_then))]
fn value_of(
    alloc: Global,
    shape: &Shape,
    given: &Given,
    binding: &Binding,
    scope: &Scope,
) -> Result<ConstValue, ElabFault>
    ensures { Answers (λ v. v) result (given_value (frames_of scope.now) shape.now (given_of given.now) binding.now) }
{
    match given.get(binding.name.name.as_slice()) {
        Some(e) => parameter_value(alloc, shape, e, scope),
        None => {
            let own = put_in(alloc, &binding.value, scope)?;
            parameter_value(alloc, shape, &own, scope)
        }
    }
}

/// One more parameter.
#[tactic(auto, unfolding(crate::specs::Parameters::entered, elab_names::specs::Answers::and_then))]
fn enter(
    alloc: Global,
    scope: &mut Scope,
    shape: &Shape,
    given: &Given,
    binding: &Binding,
) -> Result<(), ElabFault>
    ensures { Changes result (frames_of scope.new) (entered shape.now (given_of given.now) (frames_of scope.old) binding.now) }
{
    let value = value_of(alloc, shape, given, binding, scope)?;
    scope.set(binding.name.name.as_slice(), Meaning::Constant(value))?;
    Ok(())
}

/// Parameters of one shape.
fn enter_all(
    alloc: Global,
    scope: &mut Scope,
    shape: &Shape,
    given: &Given,
    bindings: &[Binding],
) -> Result<(), ElabFault>
    ensures { Changes result (frames_of scope.new) (threaded (entered shape.now (given_of given.now)) (frames_of scope.old) bindings.now) }
{
    for binding in bindings {
        match enter(alloc, scope, shape, given, binding) {
            Ok(()) => {}
            Err(fault) => return Err(fault),
        }
    }
    Ok(())
}

/// Those of items.
#[cycle(items)]
fn enter_items(
    alloc: Global,
    scope: &mut Scope,
    given: &Given,
    items: &[Item],
) -> Result<(), ElabFault>
    ensures { Changes result (frames_of scope.new) (threaded (parameters_of_item (given_of given.now)) (frames_of scope.old) items.now) }
{
    for item in items {
        match enter_item(alloc, scope, given, item) {
            Ok(()) => {}
            Err(fault) => return Err(fault),
        }
    }
    Ok(())
}

/// Those of an item.
#[cycle(items)]
#[tactic(auto, using(crate::proofs::ParameterForms::forms))]
fn enter_item(alloc: Global, scope: &mut Scope, given: &Given, item: &Item) -> Result<(), ElabFault>
    ensures { Changes result (frames_of scope.new) (parameters_of_item (given_of given.now) (frames_of scope.old) item.now) }
{
    match item {
        Item::Parameters(_, shape, bindings) => {
            enter_all(alloc, scope, shape, given, bindings.as_slice())
        }
        Item::Constants(_, shape, bindings) => {
            let none = Given::none(alloc);
            enter_all(alloc, scope, shape, &none, bindings.as_slice())
        }
        Item::Generate(_, items) => enter_items(alloc, scope, given, items.as_slice()),
        Item::Ports(_, _, _, _)
        | Item::Wires(_, _, _)
        | Item::Registers(_, _, _)
        | Item::Integers(_, _)
        | Item::Genvars(_, _)
        | Item::Assign(_, _)
        | Item::Always(_, _, _)
        | Item::Gates(_, _, _)
        | Item::Instances(_, _, _, _)
        | Item::For(_, _, _, _)
        | Item::If(_, _, _, _)
        | Item::Case(_, _, _) => Ok(()),
    }
}

/// Those of a module's head.
fn enter_head(
    alloc: Global,
    scope: &mut Scope,
    given: &Given,
    head: &[Parameter],
) -> Result<(), ElabFault>
    ensures { Changes result (frames_of scope.new) (threaded (headed (given_of given.now)) (frames_of scope.old) head.now) }
{
    for one in head {
        match enter(alloc, scope, &one.shape, given, &one.binding) {
            Ok(()) => {}
            Err(fault) => return Err(fault),
        }
    }
    Ok(())
}

/// The parameters of a scope with their values, in the order of the text: those of the module's head, which a generate block
/// hasn't, and those of its items. What is given to a name takes the place of its own value; a local one takes none.
///
/// # Errors
/// Of the first parameter that has no value: what `parameter_value` answers, and `put_in` of its own expression.
#[tactic(auto, unfolding(crate::specs::Parameters::parameters, elab_names::specs::Answers::and_then))]
pub fn parameters(
    alloc: Global,
    scope: &mut Scope,
    given: &Given,
    head: &[Parameter],
    items: &[Item],
) -> Result<(), ElabFault>
    ensures { Changes result (frames_of scope.new) (parameters (given_of given.now) (frames_of scope.old) head.now items.now) }
{
    enter_head(alloc, scope, given, head)?;
    enter_items(alloc, scope, given, items)
}
