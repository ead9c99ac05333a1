//! Classes of bytes that are read in runs.
ghost use Rattle.std.specs.Prelude.{◌≡◌};
ghost use Rattle.vlog_items.specs.Bytes.{is_letter, is_name_byte, is_line_blank, is_blank, is_in};

/// A class of bytes.
#[derive(Clone, Copy, Debug, PartialEq, Eq)]
pub enum Class {
    /// Letters, digits, `_` and `$`.
    NameByte,
    /// Blanks that stand on a line.
    LineBlank,
    /// Blanks and line feeds.
    Blank,
    /// All but the line feed.
    InLine,
    /// All but the quote and the line feed.
    Quotable,
}

/// Whether a byte is a letter or `_`.
#[tactic(auto, unfolding(crate::specs::Bytes::is_letter))]
pub fn letter(b: u8) -> bool
    ensures { result ≡ is_letter b }
{
    (b'a' <= b && b <= b'z') || (b'A' <= b && b <= b'Z') || b == b'_'
}

#[tactic(auto, unfolding(crate::specs::Bytes::is_name_byte))]
fn name_byte(b: u8) -> bool
    ensures { result ≡ is_name_byte b }
{
    letter(b) || (b'0' <= b && b <= b'9') || b == b'$'
}

#[tactic(auto, unfolding(crate::specs::Bytes::is_line_blank))]
fn line_blank(b: u8) -> bool
    ensures { result ≡ is_line_blank b }
{
    b == b' ' || b == b'\t' || b == 12 || b == b'\r'
}

/// Whether a byte is a blank, a line feed among them.
#[tactic(auto, unfolding(crate::specs::Bytes::is_blank))]
pub fn blank(b: u8) -> bool
    ensures { result ≡ is_blank b }
{
    line_blank(b) || b == b'\n'
}

impl Class {
    /// Whether a byte is of the class.
    #[tactic(auto, unfolding(crate::specs::Bytes::is_in))]
    pub fn has(self, b: u8) -> bool
        ensures { result ≡ is_in self b }
    {
        match self {
            Class::NameByte => name_byte(b),
            Class::LineBlank => line_blank(b),
            Class::Blank => blank(b),
            Class::InLine => b != b'\n',
            Class::Quotable => b != b'"' && b != b'\n',
        }
    }
}
