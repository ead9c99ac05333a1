//! Appending to a vector that has room, which takes no memory.
ghost use Rattle.std.specs.Prelude.{◌≡◌, ◌+◌, ◌≤◌, ◌++◌, length, IfOk, vec_len, vec_capacity};

use std::alloc::{AllocError, Global};

/// Appends bytes for which there is room.
pub(crate) fn append_reserved(to: &mut Vec<u8>, piece: &[u8])
    requires { vec_len to.old + length piece.now ≤ vec_capacity to.old }
    ensures items { to.new.items ≡ to.old.items ++ piece.now }
    ensures len { vec_len to.new ≡ vec_len to.old + length piece.now }
    ensures capacity { vec_capacity to.new ≡ vec_capacity to.old }
{
    for byte in piece {
        to.push_reserved(*byte);
    }
}

/// A vector of the same bytes.
pub(crate) fn copy_of(alloc: Global, bytes: &[u8]) -> Result<Vec<u8>, AllocError>
    ensures { IfOk result (λ copy. copy.items ≡ bytes.now) }
{
    let mut copy = Vec::with_capacity(alloc, bytes.len())?;
    append_reserved(&mut copy, bytes);
    Ok(copy)
}
