//! The bytes of a name.
ghost use Rattle.std.specs.Prelude.{◌≡◌, IfOk};

use rdc_outside::Seq;
use sqlite_items::Boxed;
use std::alloc::{AllocError, Global};
use std::marker::Model;

/// How long a name is that stands in the tree itself.
const NEAR: usize = 22;

/// Where a name's bytes lie.
#[derive(Debug, Drop)]
enum Bytes {
    /// In the value: so many of these.
    Near(u8, [u8; NEAR]),
    Far(Boxed<Seq<u8>>),
}

/// A name, which clauses see as the list of its bytes. Most names are short and take no allocation.
#[derive(Debug, Drop)]
pub struct Name {
    bytes: Bytes,
}

impl Model for Name {
    ghost use Rattle.std.specs.Prelude.{List, ℕ};
    ghost use Rattle.vlog_tree.specs.Spelling.{name_bytes, IsWithin};

    ghost Value = { List ℕ };

    ghost view = { λ name. name_bytes name.bytes };

    ghost invariant = { λ name. IsWithin name.bytes };
}

impl Name {
    pub fn from_slice(alloc: Global, text: &[u8]) -> Result<Name, AllocError>
        ensures { IfOk result (λ name. name ≡ text.now) }
    {
        if text.len() > NEAR {
            return Name::far(alloc, text);
        }
        let mut bytes = [0; NEAR];
        bytes[..text.len()].copy_from_slice(text);
        Ok(Name {
            bytes: Bytes::Near(text.len() as u8, bytes),
        })
    }

    fn far(alloc: Global, text: &[u8]) -> Result<Name, AllocError>
        ensures { IfOk result (λ name. name ≡ text.now) }
    {
        let bytes = Seq::from_vec(text.to_vec(alloc)?);
        Ok(Name {
            bytes: Bytes::Far(Boxed::new(alloc, bytes)?),
        })
    }

    /// The bytes, lent.
    pub fn as_slice(&self) -> &[u8]
        ensures { result.now ≡ self.now }
    {
        match &self.bytes {
            Bytes::Near(len, bytes) => &bytes[..usize::from(*len)],
            Bytes::Far(bytes) => bytes.get().as_slice(),
        }
    }
}
