//! The values that an instance gives to parameters.
ghost use Rattle.std.specs.Prelude.{◌≡◌, ◌≤◌, Bool, length};
ghost use Rattle.elab_names.specs.Answers.{Answers};
ghost use Rattle.elab_names.specs.Meanings.{frames_of};
ghost use Rattle.elab_scopes.specs.Parameters.{none_given};
ghost use Rattle.elab_scopes.specs.Tables.{Changes, given_of};
ghost use Rattle.elab_scopes.specs.Threads.{threaded};
ghost use Rattle.elab_binds.specs.Connections.{named, named_one, ordered, paired, so_far};
ghost use Rattle.elab_binds.specs.Flags.{flags_of};
ghost use Rattle.elab_binds.specs.Passed.{always, given, giving, same};

use crate::flags::{Flags, flags_in, taking};
use elab_names::{ElabFault, Scope, put_in};
use elab_scopes::Given;
use rdc_outside::{Place, Seq};
use std::alloc::Global;
use vlog_tree::{Connections, Expr, NamedConnection};

/// One more value, if there is one.
#[tactic(auto, unfolding(crate::specs::Passed::giving, elab_names::specs::Answers::and_then))]
fn give(
    alloc: Global,
    given: &mut Given,
    name: &[u8],
    value: &Option<Expr>,
    scope: &Scope,
) -> Result<(), ElabFault>
    ensures { (flag : Bool) → Changes result (given_of given.new) (giving (frames_of scope.now) (given_of given.old) name.now flag value.now) }
{
    match value {
        Some(value) => {
            let value = put_in(alloc, value, scope)?;
            given.give(name.to_vec(alloc)?, value)?;
            Ok(())
        }
        None => Ok(()),
    }
}

/// The same of a name in the list.
fn give_to(
    alloc: Global,
    given: &mut Given,
    name: &Seq<u8>,
    value: &Option<Expr>,
    scope: &Scope,
) -> Result<(), ElabFault>
    ensures { Changes result (given_of given.new) (giving (frames_of scope.now) (given_of given.old) (same name.now) (always name.now) value.now) }
{
    give(alloc, given, name.as_slice(), value, scope)
}

/// Values in order.
fn give_paired(
    alloc: Global,
    given: &mut Given,
    names: &[Seq<u8>],
    values: &[Option<Expr>],
    scope: &Scope,
) -> Result<(), ElabFault>
    requires { length values.now ≤ length names.now }
    ensures { Changes result (given_of given.new) (paired (λ g name value. giving (frames_of scope.now) g (same name) (always name) value) (given_of given.old) names.now values.now) }
{
    for (k, value) in values.iter().enumerate() {
        match give_to(alloc, given, &names[k], value, scope) {
            Ok(()) => {}
            Err(fault) => return Err(fault),
        }
    }
    Ok(())
}

/// The values that are given in order.
#[tactic(auto, unfolding(crate::specs::Connections::ordered))]
fn given_in_order(
    alloc: Global,
    values: &[Option<Expr>],
    names: &[Seq<u8>],
    scope: &Scope,
    place: Place,
) -> Result<Given, ElabFault>
    ensures { Answers given_of result (ordered (λ g name value. giving (frames_of scope.now) g (same name) (always name) value) place none_given names.now values.now) }
{
    if names.len() < values.len() {
        return Err(ElabFault::PortCount(place));
    }
    let mut given = Given::none(alloc);
    give_paired(alloc, &mut given, names, values, scope)?;
    Ok(given)
}

/// One more value by its name.
#[tactic(auto, unfolding(crate::specs::Connections::named_one, elab_names::specs::Answers::and_then))]
fn give_named(
    alloc: Global,
    given: &mut Given,
    taken: &mut Flags,
    known: &Flags,
    one: &NamedConnection,
    scope: &Scope,
) -> Result<(), ElabFault>
    ensures { Changes result (so_far (flags_of taken.new) (given_of given.new)) (named_one (giving (frames_of scope.now)) (flags_of known.now) (so_far (flags_of taken.old) (given_of given.old)) one.now) }
{
    let name = one.name.name.as_slice();
    let flag = taking(alloc, known, taken, &one.name)?;
    give(alloc, given, name, &one.value, scope)?;
    taken.set(alloc, name, flag)?;
    Ok(())
}

/// Values by name.
fn give_all(
    alloc: Global,
    given: &mut Given,
    taken: &mut Flags,
    known: &Flags,
    all: &[NamedConnection],
    scope: &Scope,
) -> Result<(), ElabFault>
    ensures { Changes result (so_far (flags_of taken.new) (given_of given.new)) (threaded (named_one (giving (frames_of scope.now)) (flags_of known.now)) (so_far (flags_of taken.old) (given_of given.old)) all.now) }
{
    for one in all {
        match give_named(alloc, given, taken, known, one, scope) {
            Ok(()) => {}
            Err(fault) => return Err(fault),
        }
    }
    Ok(())
}

/// The values that are given by name.
#[tactic(auto, unfolding(crate::specs::Connections::named, elab_names::specs::Answers::and_then))]
fn given_by_name(
    alloc: Global,
    all: &[NamedConnection],
    known: &Flags,
    scope: &Scope,
) -> Result<Given, ElabFault>
    ensures { Answers given_of result (named (giving (frames_of scope.now)) (flags_of known.now) none_given all.now) }
{
    let mut given = Given::none(alloc);
    let mut taken = Flags::none(alloc);
    give_all(alloc, &mut given, &mut taken, known, all, scope)?;
    Ok(given)
}

/// The values that an instance gives to parameters of these names, each put in where the instance stands. The first
/// expression goes to the first name, or each to its own; what is left out is not given.
///
/// # Errors
/// `PortCount` where more stand in order than there are names. By name, the first in the order of the text: `TwiceDeclared` at
/// a name that stands before, `NoPort` at one that no parameter has, and what `put_in` answers of the expression.
#[tactic(auto, unfolding(crate::specs::Connections::connected))]
pub fn given(
    alloc: Global,
    passed: &Connections,
    names: &[Seq<u8>],
    scope: &Scope,
    place: Place,
) -> Result<Given, ElabFault>
    ensures { Answers given_of result (given (frames_of scope.now) place names.now passed.now) }
{
    match passed {
        Connections::Ordered(values) => given_in_order(
            alloc,
            values.as_slice(),
            names,
            scope,
            place,
        ),
        Connections::Named(all) => {
            let known = flags_in(alloc, names)?;
            given_by_name(alloc, all.as_slice(), &known, scope)
        }
    }
}
