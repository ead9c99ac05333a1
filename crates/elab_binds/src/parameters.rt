//! The parameters of a module that can be given.
ghost use Rattle.std.specs.Prelude.{◌≡◌, [], ◌∷◌, ◌++◌, IfOk, OnOk, map};
ghost use Rattle.std.specs.List.{flat_map};
ghost use Rattle.elab_binds.specs.ParameterNames.{name_of, name_of_parameter, names_of_item, parameter_names};

use rdc_outside::Seq;
use std::alloc::{AllocError, Global};
use vlog_tree::{Binding, Item, Parameter};

/// One more name.
fn add(alloc: Global, names: &mut Seq<Seq<u8>>, name: &[u8]) -> Result<(), AllocError>
    ensures { OnOk result (names.new ≡ names.old ++ name.now ∷ []) }
{
    names.push(Seq::from_vec(name.to_vec(alloc)?))
}

/// Those of bindings.
fn name_all(alloc: Global, names: &mut Seq<Seq<u8>>, bindings: &[Binding]) -> Result<(), AllocError>
    ensures { OnOk result (names.new ≡ names.old ++ map name_of bindings.now) }
{
    for binding in bindings {
        add(alloc, names, binding.name.name.as_slice())?;
    }
    Ok(())
}

/// Those of a module's head.
fn name_head(alloc: Global, names: &mut Seq<Seq<u8>>, head: &[Parameter]) -> Result<(), AllocError>
    ensures { OnOk result (names.new ≡ names.old ++ map name_of_parameter head.now) }
{
    for one in head {
        add(alloc, names, one.binding.name.name.as_slice())?;
    }
    Ok(())
}

/// Those of items.
#[cycle(items)]
fn name_items(alloc: Global, names: &mut Seq<Seq<u8>>, items: &[Item]) -> Result<(), AllocError>
    ensures { OnOk result (names.new ≡ names.old ++ flat_map names_of_item items.now) }
{
    for item in items {
        match name_item(alloc, names, item) {
            Ok(()) => {}
            Err(fault) => return Err(fault),
        }
    }
    Ok(())
}

/// Those of an item.
#[cycle(items)]
#[tactic(auto, using(crate::proofs::NameForms::forms))]
fn name_item(alloc: Global, names: &mut Seq<Seq<u8>>, item: &Item) -> Result<(), AllocError>
    ensures { OnOk result (names.new ≡ names.old ++ names_of_item item.now) }
{
    match item {
        Item::Parameters(_, _, bindings) => name_all(alloc, names, bindings.as_slice()),
        Item::Generate(_, items) => name_items(alloc, names, items.as_slice()),
        Item::Ports(_, _, _, _)
        | Item::Wires(_, _, _)
        | Item::Registers(_, _, _)
        | Item::Integers(_, _)
        | Item::Genvars(_, _)
        | Item::Constants(_, _, _)
        | Item::Assign(_, _)
        | Item::Always(_, _, _)
        | Item::Gates(_, _, _)
        | Item::Instances(_, _, _, _)
        | Item::For(_, _, _, _)
        | Item::If(_, _, _, _)
        | Item::Case(_, _, _) => Ok(()),
    }
}

/// The names of a module's parameters that can be given, in the order of the text: those of its head, and then those of its
/// `parameter` items, also between `generate` and `endgenerate`.
pub fn parameter_names(
    alloc: Global,
    head: &[Parameter],
    items: &[Item],
) -> Result<Seq<Seq<u8>>, AllocError>
    ensures { IfOk result (λ names. names ≡ parameter_names head.now items.now) }
{
    let mut names = Seq::new(alloc);
    name_head(alloc, &mut names, head)?;
    name_items(alloc, &mut names, items)?;
    Ok(names)
}
