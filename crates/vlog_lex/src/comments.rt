//! Comments: how far the one that begins with a slash reaches.
ghost use Rattle.std.specs.Prelude.{◌≡◌, ℕ, ◌+◌, ◌≤◌, length, drop, IfSome};
ghost use Rattle.vlog_lex.specs.Comments.{close_of};

use crate::bytes::byte_at;

/// How many bytes there are up to the end of the first `*/`.
#[tactic(auto, unfolding(crate::specs::Comments::close_from))]
pub(crate) fn close(bytes: &[u8]) -> Option<usize>
    ensures value { result ≡ close_of bytes.now }
    ensures within { IfSome result (λ n. n ≤ length bytes.now) }
{
    let mut count = 0;
    let mut rest = bytes;
    while let [b, others @ ..] = rest {
        if *b == b'*' && byte_at(others, 0) == b'/' {
            return Some(count + 2);
        }
        count += 1;
        rest = others;
    }
    None
}
