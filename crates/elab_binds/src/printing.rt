//! Names in the flat design.
ghost use Rattle.std.specs.Prelude.{◌≡◌, ◌++◌, IfOk};

use std::alloc::{AllocError, Global};

/// A name behind the name of its instance.
pub(crate) fn printed(alloc: Global, prefix: &[u8], name: &[u8]) -> Result<Vec<u8>, AllocError>
    ensures { IfOk result (λ printed. printed.items ≡ prefix.now ++ name.now) }
{
    let mut printed = Vec::with_capacity(alloc, prefix.len())?;
    printed.extend_from_slice(prefix)?;
    printed.extend_from_slice(name)?;
    Ok(printed)
}
