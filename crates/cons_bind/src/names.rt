//! Names of bits.

ghost use Rattle.std.specs.Prelude.{◌≡◌, ℕ, ◌<◌, length, All, MatchBool, IfOk};
ghost use Rattle.std.specs.List.{list_all};
ghost use Rattle.std.specs.Char.{is_ascii_digit};
ghost use Rattle.net_view.specs.Cone.{Lists};
ghost use Rattle.cons_bind.specs.Names.{net_of, IsIndexed, IsBitOf};

use net_view::FlopNet;
use std::alloc::{AllocError, Global};

/// Whether all bytes are decimal digits.
fn are_digits(bytes: &[u8]) -> bool
    ensures { result ≡ list_all is_ascii_digit bytes.now }
{
    bytes.iter().all(|b| b.is_ascii_digit())
}

/// Whether a name is the vector's with an index behind it.
fn is_indexed(vector: &[u8], name: &[u8]) -> bool
    ensures { MatchBool result (IsIndexed vector.now name.now) (IsIndexed vector.now name.now → ⊥) }
{
    let count = vector.len();
    if name.len() < 3 || name.len() - 3 < count {
        return false;
    }
    let (front, behind) = name.split_at(count);
    let (bracket, index) = behind.split_at(1);
    let (digits, close) = index.split_at(index.len() - 1);
    if front != vector {
        return false;
    }
    if bracket != b"[".as_slice() {
        return false;
    }
    if close != b"]".as_slice() {
        return false;
    }
    are_digits(digits)
}

/// Whether a bit is one of the vector.
fn is_bit_of<V: FlopNet>(view: &V, vector: &str, b: u32) -> bool
    requires { b < length (V.named_bits view.now) }
    ensures { let net = net_of (V.gates view.now) (V.names view.now) (V.kinds view.now) (V.named_bits view.now) in
        MatchBool result (IsBitOf net vector.now b) (IsBitOf net vector.now b → ⊥) }
{
    is_indexed(vector.as_bytes(), view.bit_name(b).as_bytes())
}

/// Whether some bit is one of the vector.
pub(crate) fn is_vector<V: FlopNet>(view: &V, vector: &str) -> bool
    ensures { let net = net_of (V.gates view.now) (V.names view.now) (V.kinds view.now) (V.named_bits view.now) in
        MatchBool result ((b : ℕ) × IsBitOf net vector.now b) ((b : ℕ) → IsBitOf net vector.now b → ⊥) }
{
    'bits: for b in 0..view.bits() {
        if is_bit_of(view, vector, b) {
            return true;
        }
    }
    false
}

/// The bits of the vector, in name order.
pub(crate) fn bits_of<V: FlopNet>(
    alloc: Global,
    view: &V,
    vector: &str,
) -> Result<Vec<u32>, AllocError>
    ensures bits { IfOk result (λ bits. let net = net_of (V.gates view.now) (V.names view.now) (V.kinds view.now) (V.named_bits view.now) in
        Lists (IsBitOf net vector.now) bits.items) }
    ensures within { IfOk result (λ bits. All (λ b. b < length (V.named_bits view.now)) bits.items) }
{
    let mut bits = Vec::new(alloc);
    'bits: for b in 0..view.bits() {
        if is_bit_of(view, vector, b) {
            bits.push(b)?;
        }
    }
    Ok(bits)
}
