//! What a module declares, in name order.

ghost use Rattle.std.specs.Prelude.{◌≡◌, not, filter, IsTrue, ◌↔◌, IfOk};
ghost use Rattle.std.specs.Result.{IsErrOf};
ghost use Rattle.thin_tree.specs.Written.{a_module, all_declared, texts};
ghost use Rattle.thin_form.specs.Design.{IsAscending};
ghost use Rattle.thin_form.specs.Rules.{class_eq, declared, names_of, IsDeclaredOnce};
ghost use Rattle.thin_form.specs.Order.{IsOrderOf, of_class, no_wires};

use std::alloc::{AllocError, Global};
use thin_tree::{Class, Declared, FormFault, Module};

/// What is declared.
fn all<'a>(alloc: Global, parsed: &Module<'a>) -> Result<Vec<Declared<'a>>, AllocError>
    ensures { IfOk result (λ v. all_declared v.items ≡ declared (a_module parsed.now)) }
{
    Vec::from_slice(alloc, &parsed.declared)
}

/// Each name is below the next.
fn ascends(declared: &[Declared]) -> bool
    ensures { IsTrue result ↔ IsAscending (names_of (all_declared declared.now)) }
{
    declared.is_sorted_by(|a, b| a.name.cmp(b.name).is_lt())
}

/// What a module declares, in name order, where each name is declared once.
pub(crate) fn ordered<'a>(
    alloc: Global,
    parsed: &Module<'a>,
) -> Result<Vec<Declared<'a>>, FormFault>
    ensures order { IfOk result (λ v. IsOrderOf (declared (a_module parsed.now)) (all_declared v.items)) }
    ensures not_of_form { IsErrOf result FormFault.NotOfForm → IsDeclaredOnce (declared (a_module parsed.now)) → ⊥ }
{
    let mut declared = all(alloc, parsed)?;
    declared.sort_by_key(|d| d.name)?;
    if !ascends(&declared) {
        return Err(FormFault::NotOfForm);
    }
    Ok(declared)
}

/// The two are one class.
pub(crate) fn same_class(a: Class, b: Class) -> bool
    ensures { result ≡ class_eq a b }
{
    match (a, b) {
        (Class::Input, Class::Input) => true,
        (Class::Net, Class::Net) => true,
        (Class::Register, Class::Register) => true,
        _ => false,
    }
}

/// The names of a class.
pub(crate) fn names_of_class<'a>(
    alloc: Global,
    declared: &[Declared<'a>],
    class: Class,
) -> Result<Vec<&'a [u8]>, AllocError>
    ensures { IfOk result (λ v. texts v.items ≡ of_class class (all_declared declared.now)) }
{
    let mut out = Vec::new(alloc);
    for d in declared {
        if same_class(class, d.class) {
            out.push(d.name)?;
        }
    }
    Ok(out)
}

/// The names of the sources: those of ports and registers, without the wires.
pub(crate) fn names_of_sources<'a>(
    alloc: Global,
    declared: &[Declared<'a>],
) -> Result<Vec<&'a [u8]>, AllocError>
    ensures { IfOk result (λ v. texts v.items ≡ no_wires (all_declared declared.now)) }
{
    let mut out = Vec::new(alloc);
    for d in declared {
        if !same_class(Class::Net, d.class) {
            out.push(d.name)?;
        }
    }
    Ok(out)
}
