//! Positions of labels that don't count.
ghost use Rattle.std.specs.Prelude.{◌≡◌, ◌≤◌, bit_or, map, IfOk};
ghost use Rattle.vlog_const.specs.Names.{no_values};
ghost use Rattle.vlog_const.specs.Constants.{value_of};
ghost use Rattle.proc_cases.specs.Masks.{behind, copies, count_if, empty, mask_of, moved, row_of, width_of};

use std::alloc::{AllocError, Global};
use vlog_const::{ConstFault, Env, Whole, value};
use vlog_tree::Expr;

/// Positions side by side, as far as 128 of them go.
#[derive(Clone, Copy)]
pub(crate) struct Row {
    pub(crate) width: u32,
    /// A 1 in each that doesn't count.
    pub(crate) mask: u128,
}

/// How wide an expression is as a constant.
#[tactic(auto, unfolding(crate::specs::Masks::width_if))]
fn width_of(alloc: Global, e: &Expr) -> Result<u32, AllocError>
    ensures value { IfOk result (λ w. w ≡ width_of e.now) }
    ensures bound { IfOk result (λ w. w ≤ 128) }
{
    match value(alloc, e, &Env::new(alloc)) {
        Ok(value) => Ok(value.width),
        Err(ConstFault::Memory) => Err(AllocError),
        Err(_) => Ok(0),
    }
}

/// How many copies a replication makes, as far as 128 go.
#[tactic(auto, unfolding(crate::specs::Masks::count_if))]
fn count_of(alloc: Global, e: &Expr) -> Result<u32, AllocError>
    ensures { IfOk result (λ n. n ≡ count_if (value_of no_values e.now)) }
{
    match value(alloc, e, &Env::new(alloc)) {
        Ok(value) => Ok(Whole::of(value).count().min(128) as u32),
        Err(ConstFault::Memory) => Err(AllocError),
        Err(_) => Ok(0),
    }
}

/// So many places to the left.
#[tactic(auto, unfolding(crate::specs::Masks::moved))]
fn moved(width: u32, mask: u128) -> u128
    ensures { result ≡ moved width mask }
{
    if width < 128 { mask << width } else { 0 }
}

/// Positions, and more on their right.
#[tactic(auto, unfolding(crate::specs::Masks::behind))]
fn behind(row: Row, width: u32, mask: u128) -> Row
    requires { width ≤ 128 }
    ensures { result ≡ behind row width mask }
{
    Row {
        width: row.width.saturating_add(width).min(128),
        mask: moved(width, row.mask) | mask,
    }
}

/// The same positions some times.
#[tactic(auto, using(crate::proofs::CaseLemmas::one_copy), unfolding(crate::specs::Masks::copies))]
fn copies(count: u32, row: Row) -> u128
    ensures { result ≡ copies count row }
{
    let mut all = 0;
    for _ in 0..count {
        all = moved(row.width, all) | row.mask;
    }
    all
}

/// The positions of a label that don't count in `casez`.
///
/// # Errors
/// Want of memory.
#[cycle(masking)]
#[tactic(auto, using(crate::proofs::MaskForms::forms))]
pub fn mask_of(alloc: Global, e: &Expr) -> Result<u128, AllocError>
    ensures { IfOk result (λ m. m ≡ mask_of e.now) }
{
    match e {
        Expr::Number(_, number) => Ok(number.get().z),
        Expr::Brackets(_, inner) => mask_of(alloc, inner.get()),
        Expr::Concat(_, members) => match row_of(alloc, members.as_slice()) {
            Ok(row) => Ok(row.mask),
            Err(fault) => Err(fault),
        },
        Expr::Repeat(_, n, members) => {
            let count = count_of(alloc, n.get())?;
            match row_of(alloc, members.as_slice()) {
                Ok(row) => Ok(copies(count, row)),
                Err(fault) => Err(fault),
            }
        }
        Expr::Name(_, _)
        | Expr::Index(_, _, _)
        | Expr::Select(_, _, _, _, _)
        | Expr::Unary(_, _, _)
        | Expr::Binary(_, _, _, _)
        | Expr::Conditional(_, _, _, _) => Ok(0),
    }
}

/// The positions of some parts.
#[cycle(masking)]
fn row_of(alloc: Global, members: &[Expr]) -> Result<Row, AllocError>
    ensures { IfOk result (λ r. r ≡ row_of empty (map (λ e. (e, mask_of e)) members.now)) }
{
    let mut row = Row { width: 0, mask: 0 };
    for member in members {
        let width = match width_of(alloc, member) {
            Ok(width) => width,
            Err(fault) => return Err(fault),
        };
        let mask = match mask_of(alloc, member) {
            Ok(mask) => mask,
            Err(fault) => return Err(fault),
        };
        row = behind(row, width, mask);
    }
    Ok(row)
}
