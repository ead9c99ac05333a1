//! Lines without comments, and words: each call takes one from the front of the bytes.

ghost use Rattle.std.specs.Prelude.{◌≡◌, ◌<◌, ◌==◌, ◌∷◌, [], not, length, take, drop, position, unwrap_or, IfSome, IfNone};
ghost use Rattle.thin_cons.specs.Lines.{is_blank, without_comment, words_in, rows_of};
ghost use Rattle.thin_cons.specs.Front.{with_front, without_return};

/// The place of the first such byte.
fn place(bytes: &[u8], byte: u8) -> Option<usize>
    ensures { result ≡ position (λ b. b == byte) bytes.now }
{
    bytes.iter().position(|b| *b == byte)
}

/// The place of the first blank.
fn place_of_blank(text: &[u8]) -> Option<usize>
    ensures { result ≡ position is_blank text.now }
{
    text.iter().position(|b| *b == b' ' || *b == b'\t')
}

/// The place of the first byte that is no blank.
fn place_of_word(text: &[u8]) -> Option<usize>
    ensures { result ≡ position (λ b. not (is_blank b)) text.now }
{
    text.iter().position(|b| !(*b == b' ' || *b == b'\t'))
}

/// What stands before the place, or all where there is none, and what stands from it on.
fn split(bytes: &[u8], place: Option<usize>) -> (&[u8], &[u8])
    requires { IfSome place (λ n. n < length bytes.now) }
    ensures front { result.0.now ≡ take (unwrap_or place (length bytes.now)) bytes.now }
    ensures rest { result.1.now ≡ drop (unwrap_or place (length bytes.now)) bytes.now }
{
    match place {
        None => bytes.split_at(bytes.len()),
        Some(n) => bytes.split_at(n),
    }
}

/// The line without a carriage return at its end.
fn shortened(line: &[u8]) -> &[u8]
    ensures { result.now ≡ without_return line.now }
{
    let count = line.len();
    if count > 0 && line[count - 1] == b'\r' {
        line.split_at(count - 1).0
    } else {
        line
    }
}

/// The first line, and what stands after it.
fn first_line(bytes: &[u8]) -> (&[u8], &[u8])
    ensures rows { rows_of bytes.now ≡ with_front (words_in (without_comment result.0.now)) (rows_of result.1.now) }
    ensures shorter { 0 < length bytes.now → length result.1.now < length bytes.now }
{
    let (line, rest) = split(bytes, place(bytes, b'\n'));
    if rest.is_empty() {
        return (line, rest);
    }
    let (_, after) = rest.split_at(1);
    (shortened(line), after)
}

/// The line up to its comment.
fn uncommented(line: &[u8]) -> &[u8]
    ensures { result.now ≡ without_comment line.now }
{
    split(line, place(line, b'#')).0
}

/// The first line that isn't blank, without its comment, and what stands after it.
pub fn next_row(bytes: &[u8]) -> Option<(&[u8], &[u8])>
    ensures some { IfSome result (λ row. rows_of bytes.now ≡ words_in row.0.now ∷ rows_of row.1.now) }
    ensures shorter { IfSome result (λ row. length row.1.now < length bytes.now) }
    ensures none { IfNone result (rows_of bytes.now ≡ []) }
{
    let mut rest = bytes;
    while !rest.is_empty() {
        let (line, after) = first_line(rest);
        let text = uncommented(line);
        if !word(text).0.is_empty() {
            return Some((text, after));
        }
        rest = after;
    }
    None
}

/// The first word, empty where there is none, and what stands after it.
pub fn word(text: &[u8]) -> (&[u8], &[u8])
    ensures words { words_in text.now ≡ with_front result.0.now (words_in result.1.now) }
    ensures none { result.0.now ≡ [] → words_in text.now ≡ [] }
{
    let (_, text) = split(text, place_of_word(text));
    split(text, place_of_blank(text))
}
