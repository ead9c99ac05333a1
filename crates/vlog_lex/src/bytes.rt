//! Classes of bytes, and how many bytes in a row are of one.
ghost use Rattle.std.specs.Prelude.{◌≡◌, ℕ, ◌+◌, ◌<◌, ◌≤◌, length, slice_index};
ghost use Rattle.std.specs.List.{prefix_len};
ghost use Rattle.vlog_lex.specs.Bytes.{is_blank, is_letter, is_digit, is_size_digit, is_name_byte, is_visible, is_quotable, is_in_line, is_ascii};

#[tactic(auto, unfolding(crate::specs::Bytes::is_blank))]
pub(crate) fn blank(b: u8) -> bool
    ensures { result ≡ is_blank b }
{
    b == b' ' || b == b'\t' || b == b'\n' || b == 12 || b == b'\r'
}

#[tactic(auto, unfolding(crate::specs::Bytes::is_letter))]
pub(crate) fn letter(b: u8) -> bool
    ensures { result ≡ is_letter b }
{
    (b'a' <= b && b <= b'z') || (b'A' <= b && b <= b'Z') || b == b'_'
}

#[tactic(auto, unfolding(crate::specs::Bytes::is_digit))]
pub(crate) fn digit(b: u8) -> bool
    ensures { result ≡ is_digit b }
{
    b'0' <= b && b <= b'9'
}

#[tactic(auto, unfolding(crate::specs::Bytes::is_size_digit))]
pub(crate) fn size_digit(b: u8) -> bool
    ensures { result ≡ is_size_digit b }
{
    digit(b) || b == b'_'
}

#[tactic(auto, unfolding(crate::specs::Bytes::is_name_byte))]
fn name_byte(b: u8) -> bool
    ensures { result ≡ is_name_byte b }
{
    letter(b) || digit(b) || b == b'$'
}

#[tactic(auto, unfolding(crate::specs::Bytes::is_visible))]
fn visible(b: u8) -> bool
    ensures { result ≡ is_visible b }
{
    !blank(b)
}

#[tactic(auto, unfolding(crate::specs::Bytes::is_quotable))]
fn quotable(b: u8) -> bool
    ensures { result ≡ is_quotable b }
{
    b != b'"' && b != b'\n'
}

#[tactic(auto, unfolding(crate::specs::Bytes::is_in_line))]
fn in_line(b: u8) -> bool
    ensures { result ≡ is_in_line b }
{
    b != b'\n'
}

#[tactic(auto, unfolding(crate::specs::Bytes::is_ascii))]
fn ascii(b: u8) -> bool
    ensures { result ≡ is_ascii b }
{
    b < 128
}

/// The byte at a place, or 0 past the end.
pub(crate) fn byte_at(bytes: &[u8], place: usize) -> u8
    ensures { result ≡ slice_index bytes.now place }
{
    if place < bytes.len() { bytes[place] } else { 0 }
}

/// How many blanks stand in front.
pub(crate) fn blanks(bytes: &[u8]) -> usize
    ensures value { result ≡ prefix_len is_blank bytes.now }
    ensures within { result ≤ length bytes.now }
{
    bytes.iter().take_while(|b| blank(**b)).count()
}

/// How many digits of a size stand in front.
pub(crate) fn size_digits(bytes: &[u8]) -> usize
    ensures value { result ≡ prefix_len is_size_digit bytes.now }
    ensures within { result ≤ length bytes.now }
{
    bytes.iter().take_while(|b| size_digit(**b)).count()
}

/// How many bytes in front go on with a name.
pub(crate) fn name_bytes(bytes: &[u8]) -> usize
    ensures value { result ≡ prefix_len is_name_byte bytes.now }
    ensures within { result ≤ length bytes.now }
{
    for (n, b) in bytes.iter().enumerate() {
        if !name_byte(*b) {
            return n;
        }
    }
    bytes.len()
}

/// How many bytes stand before the first blank.
pub(crate) fn visible_bytes(bytes: &[u8]) -> usize
    ensures value { result ≡ prefix_len is_visible bytes.now }
    ensures within { result ≤ length bytes.now }
{
    bytes.iter().take_while(|b| visible(**b)).count()
}

/// How many bytes stand before the first quote or end of a line.
pub(crate) fn quotable_bytes(bytes: &[u8]) -> usize
    ensures value { result ≡ prefix_len is_quotable bytes.now }
    ensures within { result ≤ length bytes.now }
{
    bytes.iter().take_while(|b| quotable(**b)).count()
}

/// How many bytes stand before the end of the line.
pub(crate) fn line_bytes(bytes: &[u8]) -> usize
    ensures value { result ≡ prefix_len is_in_line bytes.now }
    ensures within { result ≤ length bytes.now }
{
    bytes.iter().take_while(|b| in_line(**b)).count()
}

/// How many bytes stand before the first that is not ASCII.
pub(crate) fn ascii_bytes(bytes: &[u8]) -> usize
    ensures value { result ≡ prefix_len is_ascii bytes.now }
    ensures within { result ≤ length bytes.now }
{
    bytes.iter().take_while(|b| ascii(**b)).count()
}
