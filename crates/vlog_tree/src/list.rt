//! Lists that take no more memory than they need: a tree has many short ones.
ghost use Rattle.std.specs.Prelude.{◌≡◌, [], ◌∷◌, IfOk};

use sqlite_items::Items;
use std::alloc::{AllocError, Global};

/// How long a list is whose unused places aren't worth a copy.
const LONG: usize = 16;

/// The list of this item alone, with no place for another.
pub fn sole<T: Drop>(alloc: Global, item: T) -> Result<Items<T>, AllocError>
    ensures { IfOk result (λ items. items ≡ item ∷ []) }
{
    let mut items = Items::from_vec(Vec::with_capacity(alloc, 1)?);
    items.push(item)?;
    Ok(items)
}

/// The same list, with no unused places where it is short. A list of one was made by `sole`.
pub fn fitted<T: Drop>(alloc: Global, items: Items<T>) -> Result<Items<T>, AllocError>
    ensures { IfOk result (λ fitted. fitted ≡ items) }
{
    let len = items.len();
    if len < 2 || LONG <= len {
        return Ok(items);
    }
    let mut fitted = Items::from_vec(Vec::with_capacity(alloc, len)?);
    fitted.append(items)?;
    Ok(fitted)
}
