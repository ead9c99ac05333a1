//! Generate blocks as scopes.
ghost use Rattle.std.specs.Prelude.{◌≡◌, ◌⊎◌, ◌++◌, ◌≤◌, IfOk, OnOk, Some};
ghost use Rattle.std.specs.Option.{option_copied};
ghost use Rattle.elab_names.specs.declared.fault.ElabFault.TheVariants.{Memory, TwiceDeclared, Undeclared};
ghost use Rattle.elab_names.specs.Answers.{Answers};
ghost use Rattle.elab_items.specs.Scopes.{begun, block_prefix, ended, entry_in, genvar, is_form, is_genvar, labelled, labelled_as, numeral, turn_prefix};
ghost use Rattle.elab_items.specs.Tables.{around_of, plan_of};
ghost use Rattle.elab_scopes.specs.Tables.{Changes};
ghost use Rattle.vlog_const.specs.Selects.{whole};

use crate::plan::Plan;
use elab_decls::{Entries, Entry, Form};
use elab_names::{ElabFault, Meaning};
use elab_scopes::{Given, open_scope};
use rdc_outside::{Place, Seq};
use sqlite_items::Boxed;
use std::alloc::{AllocError, Global};
use vlog_const::{ConstValue, Whole};
use vlog_tree::{Ident, Item};

/// A number with its sign, behind what stands.
#[tactic(auto, unfolding(crate::specs::Scopes::numeral))]
fn put_numeral(alloc: Global, text: &mut Vec<u8>, n: Whole) -> Result<(), AllocError>
    ensures { OnOk result (text.new.items ≡ text.old.items ++ numeral n) }
{
    if n.negative {
        text.push(b'-')?;
    }
    let digits = format!(in alloc; "{}", n.magnitude)?;
    text.extend_from_slice(digits.as_bytes())
}

/// What stands in a block that has a name.
#[tactic(auto, unfolding(crate::specs::Scopes::block_prefix))]
fn named_prefix(alloc: Global, prefix: &[u8], name: &Ident) -> Result<Vec<u8>, AllocError>
    ensures { IfOk result (λ p. p.items ≡ block_prefix prefix.now (Some name.now)) }
{
    let mut inner = prefix.to_vec(alloc)?;
    inner.extend_from_slice(name.name.as_slice())?;
    inner.push(b'.')?;
    Ok(inner)
}

/// What stands in a block.
#[tactic(auto, unfolding(crate::specs::Scopes::block_prefix))]
pub(crate) fn block_prefix(
    alloc: Global,
    prefix: &[u8],
    name: &Option<Boxed<Ident>>,
) -> Result<Vec<u8>, AllocError>
    ensures { IfOk result (λ p. p.items ≡ block_prefix prefix.now name.now) }
{
    match name {
        Some(name) => named_prefix(alloc, prefix, name.get()),
        None => prefix.to_vec(alloc),
    }
}

/// What stands in a turn of a loop.
#[tactic(auto, unfolding(crate::specs::Scopes::turn_prefix))]
pub(crate) fn turn_prefix(
    alloc: Global,
    prefix: &[u8],
    label: &[u8],
    value: ConstValue,
) -> Result<Vec<u8>, AllocError>
    requires { value.width ≤ 128 }
    ensures { IfOk result (λ p. p.items ≡ turn_prefix prefix.now label.now value) }
{
    let mut inner = prefix.to_vec(alloc)?;
    inner.extend_from_slice(label)?;
    inner.push(b'[')?;
    put_numeral(alloc, &mut inner, Whole::of(value))?;
    inner.extend_from_slice(b"].")?;
    Ok(inner)
}

/// A name that is declared already.
fn twice(alloc: Global, name: &Ident) -> ElabFault
    ensures { (result ≡ Memory) ⊎ (result ≡ TwiceDeclared name.now.name name.now.place) }
{
    match name.name.as_slice().to_vec(alloc) {
        Ok(bytes) => ElabFault::TwiceDeclared(Seq::from_vec(bytes), name.place),
        Err(_) => ElabFault::Memory,
    }
}

/// A name that is no genvar.
fn undeclared(alloc: Global, name: &Ident) -> ElabFault
    ensures { (result ≡ Memory) ⊎ (result ≡ Undeclared name.now.name name.now.place) }
{
    match name.name.as_slice().to_vec(alloc) {
        Ok(bytes) => ElabFault::Undeclared(Seq::from_vec(bytes), name.place),
        Err(_) => ElabFault::Memory,
    }
}

/// The name of a block, in the scope around it.
#[tactic(auto, unfolding(crate::specs::Scopes::labelled_as))]
pub(crate) fn label_as(alloc: Global, p: &mut Plan, name: &Ident) -> Result<(), ElabFault>
    ensures { Changes result (plan_of p.new) (labelled_as (plan_of p.old) name.now) }
{
    let scope = &mut p.draft.drawing.scope;
    if scope.has(name.name.as_slice()) {
        return Err(twice(alloc, name));
    }
    scope.set(name.name.as_slice(), Meaning::Other)?;
    Ok(())
}

/// The name of a block that has one.
#[tactic(auto, unfolding(crate::specs::Scopes::labelled))]
pub(crate) fn label(
    alloc: Global,
    p: &mut Plan,
    name: &Option<Boxed<Ident>>,
) -> Result<(), ElabFault>
    ensures { Changes result (plan_of p.new) (labelled (plan_of p.old) name.now) }
{
    match name {
        Some(name) => label_as(alloc, p, name.get()),
        None => Ok(()),
    }
}

/// What the first scope that declares a name says of it; the last is the innermost.
#[tactic(auto, unfolding(crate::specs::Scopes::entry_in))]
fn entry_in<'a>(around: &'a [Entries], name: &[u8]) -> Option<&'a Entry>
    ensures { option_copied result ≡ entry_in (around_of around.now) name.now }
{
    match around {
        [] => None,
        [outer @ .., last] => match last.get(name) {
            Some(entry) => Some(entry),
            None => entry_in(outer, name),
        },
    }
}

/// Whether an entry is that of a genvar.
#[tactic(auto, unfolding(crate::specs::Scopes::is_genvar, crate::specs::Scopes::is_form))]
fn is_genvar(entry: Option<&Entry>) -> bool
    ensures { result ≡ is_genvar (option_copied entry.entry) }
{
    match entry {
        Some(entry) => matches!(entry.form, Some(Form::Genvar)),
        None => false,
    }
}

/// A name that has to be a genvar.
#[tactic(auto, unfolding(crate::specs::Scopes::genvar))]
pub(crate) fn genvar(alloc: Global, around: &[Entries], name: &Ident) -> Result<(), ElabFault>
    ensures { Answers (λ u. u) result (genvar (around_of around.now) name.now) }
{
    if is_genvar(entry_in(around, name.name.as_slice())) {
        return Ok(());
    }
    Err(undeclared(alloc, name))
}

/// Into a scope of these items.
#[tactic(auto, unfolding(crate::specs::Scopes::begun, elab_names::specs::Answers::and_then))]
pub(crate) fn begin(
    alloc: Global,
    p: &mut Plan,
    prefix: &[u8],
    items: &[Item],
) -> Result<(), ElabFault>
    ensures { Changes result (plan_of p.new) (begun prefix.now items.now (plan_of p.old)) }
{
    let none = Given::none(alloc);
    let entries = open_scope(alloc, &mut p.draft.drawing, prefix, &none, &[], &[], items)?;
    p.around.push(entries)?;
    Ok(())
}

/// And out of it.
#[tactic(auto, unfolding(crate::specs::Scopes::ended))]
pub(crate) fn end(p: &mut Plan)
    ensures { plan_of p.new ≡ ended (plan_of p.old) }
{
    p.draft.drawing.scope.leave();
    p.around.pop();
}
