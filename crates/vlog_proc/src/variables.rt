//! The variables of loops.
ghost use Rattle.std.specs.Prelude.{◌≡◌, ◌∷◌, [], ◌++◌, IfOk, OnOk};
ghost use Rattle.std.specs.List.{flat_map};
ghost use Rattle.vlog_proc.specs.Assigns.{loop_variables};

use rdc_outside::Seq;
use sqlite_items::Boxed;
use std::alloc::{AllocError, Global};
use vlog_tree::{Arm, Stmt};

/// A name behind those that are there.
pub(crate) fn put_name(
    alloc: Global,
    name: &[u8],
    names: &mut Vec<Seq<u8>>,
) -> Result<(), AllocError>
    ensures { OnOk result (names.new.items ≡ names.old.items ++ name.now ∷ []) }
{
    names.push(Seq::from_vec(name.to_vec(alloc)?))?;
    Ok(())
}

/// The variables of the loops of a statement, behind those that are there.
///
/// # Errors
/// Want of memory.
#[cycle(collecting)]
#[tactic(auto, using(crate::proofs::VariableForms::forms))]
pub(crate) fn put_variables(
    alloc: Global,
    s: &Stmt,
    names: &mut Vec<Seq<u8>>,
) -> Result<(), AllocError>
    ensures { OnOk result (names.new.items ≡ names.old.items ++ loop_variables s.now) }
{
    match s {
        Stmt::Empty(_) | Stmt::Assign(_, _, _, _) => Ok(()),
        Stmt::Block(_, _, inner) => put_all_variables(alloc, inner.as_slice(), names),
        Stmt::If(_, _, first, other) => {
            put_variables(alloc, first.get(), names)?;
            match other {
                None => Ok(()),
                Some(other) => put_variables(alloc, other.get(), names),
            }
        }
        Stmt::Case(_, _, _, arms) => put_item_variables(alloc, arms.as_slice(), names),
        Stmt::For(_, header, body) => {
            put_name(alloc, header.variable.name.as_slice(), names)?;
            put_variables(alloc, body.get(), names)
        }
    }
}

/// The same of some statements.
#[cycle(collecting)]
fn put_all_variables(alloc: Global, ss: &[Stmt], names: &mut Vec<Seq<u8>>) -> Result<(), AllocError>
    ensures { OnOk result (names.new.items ≡ names.old.items ++ flat_map loop_variables ss.now) }
{
    for s in ss {
        match put_variables(alloc, s, names) {
            Ok(()) => {}
            Err(fault) => return Err(fault),
        }
    }
    Ok(())
}

/// The same of case items.
#[cycle(collecting)]
fn put_item_variables(
    alloc: Global,
    arms: &[Arm<Boxed<Stmt>>],
    names: &mut Vec<Seq<u8>>,
) -> Result<(), AllocError>
    ensures { OnOk result (names.new.items ≡ names.old.items ++ flat_map (λ arm. loop_variables arm.body) arms.now) }
{
    for arm in arms {
        match put_variables(alloc, arm.body.get(), names) {
            Ok(()) => {}
            Err(fault) => return Err(fault),
        }
    }
    Ok(())
}
