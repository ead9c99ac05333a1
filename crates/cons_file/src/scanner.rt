//! Lines without comments: each call takes one from the front of the bytes.

ghost use Rattle.std.specs.Prelude.{◌≡◌, ℕ, ◌+◌, ◌<◌, ◌≤◌, ◌^◌, ◌==◌, ◌∷◌, [], length, take, drop, position, unwrap_or, IfSome, IfNone};
ghost use Rattle.std.specs.List.{list_all};
ghost use Rattle.cons_file.specs.Lines.{is_blank, without_comment, lines_of, rows_from, with_row};
ghost use Rattle.cons_file.specs.Front.{without_return, row_read};

/// A line that isn't blank: its number, and its text without a comment.
#[derive(Clone, Copy)]
pub(crate) struct Row<'a> {
    pub(crate) number: u32,
    pub(crate) text: &'a [u8],
}

/// The place of the first such byte.
fn place(bytes: &[u8], byte: u8) -> Option<usize>
    ensures { result ≡ position (λ b. b == byte) bytes.now }
{
    bytes.iter().position(|b| *b == byte)
}

/// What stands before the place, or all where there is none, and what stands from it on.
pub(crate) fn split(bytes: &[u8], place: Option<usize>) -> (&[u8], &[u8])
    requires { IfSome place (λ n. n < length bytes.now) }
    ensures front { result.0.now ≡ take (unwrap_or place (length bytes.now)) bytes.now }
    ensures rest { result.1.now ≡ drop (unwrap_or place (length bytes.now)) bytes.now }
{
    match place {
        None => bytes.split_at(bytes.len()),
        Some(n) => bytes.split_at(n),
    }
}

/// The line without a carriage return at its end.
fn shortened(line: &[u8]) -> &[u8]
    ensures { result.now ≡ without_return line.now }
{
    let count = line.len();
    if count > 0 && line[count - 1] == b'\r' {
        line.split_at(count - 1).0
    } else {
        line
    }
}

/// The first line, and what stands after it.
fn first_line(bytes: &[u8]) -> (&[u8], &[u8])
    ensures rows { (n : ℕ) → rows_from n (lines_of bytes.now) ≡ with_row n (without_comment result.0.now) (rows_from (n + 1) (lines_of result.1.now)) }
    ensures shorter { 0 < length bytes.now → length result.1.now < length bytes.now }
{
    let (line, rest) = split(bytes, place(bytes, b'\n'));
    if rest.is_empty() {
        return (line, rest);
    }
    let (_, after) = rest.split_at(1);
    (shortened(line), after)
}

/// The line up to its comment.
fn uncommented(line: &[u8]) -> &[u8]
    ensures { result.now ≡ without_comment line.now }
{
    split(line, place(line, b'#')).0
}

/// Whether blanks alone stand in the text.
fn is_all_blank(text: &[u8]) -> bool
    ensures { result ≡ list_all is_blank text.now }
{
    text.iter().all(|b| *b == b' ' || *b == b'\t')
}

/// The first line that isn't blank, the number of the line after it, and what stands there. Line `number` begins the
/// bytes.
pub(crate) fn next_row(number: u64, bytes: &[u8]) -> Option<(Row<'_>, u64, &[u8])>
    requires { number + length bytes.now ≤ 2 ^ 32 }
    ensures some { IfSome result (λ r. rows_from number (lines_of bytes.now) ≡ row_read r.0 ∷ rows_from r.1 (lines_of r.2.now)) }
    ensures shorter { IfSome result (λ r. length r.2.now < length bytes.now) }
    ensures within { IfSome result (λ r. r.1 + length r.2.now ≤ number + length bytes.now) }
    ensures none { IfNone result (rows_from number (lines_of bytes.now) ≡ []) }
{
    let mut number = number;
    let mut rest = bytes;
    while !rest.is_empty() {
        let (line, after) = first_line(rest);
        let text = uncommented(line);
        if !is_all_blank(text) {
            let number_of_line = number as u32;
            return Some((
                Row {
                    number: number_of_line,
                    text,
                },
                number + 1,
                after,
            ));
        }
        number += 1;
        rest = after;
    }
    None
}

/// How many lines aren't blank.
pub(crate) fn count_rows(bytes: &[u8]) -> usize
    requires { length bytes.now < 2 ^ 32 }
    ensures { result ≡ length (rows_from 1 (lines_of bytes.now)) }
{
    let mut count = 0;
    let mut number = 1;
    let mut rest = bytes;
    while let Some((_, next, after)) = next_row(number, rest) {
        count += 1;
        number = next;
        rest = after;
    }
    count
}
