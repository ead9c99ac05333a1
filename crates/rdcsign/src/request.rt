//! The words of the command line.

ghost use Rattle.std.specs.Prelude.{◌≡◌, option_map, string_bytes, codes};
ghost use Rattle.std.specs.List.{list_any};
ghost use Rattle.std.specs.Str.{bytes_eq};
ghost use Rattle.rdcsign.specs.Request.{request_of, asked, seen, texts, has_dash, has_words, first_of};

/// What is asked for: the module to judge, the name of its constraints, and those of its source.
#[derive(Clone, Copy)]
pub struct Request<'a> {
    pub top: &'a str,
    pub constraints: &'a str,
    pub files: &'a [String],
}

/// Whether a word begins as an option does.
fn begins_with_dash(word: &String) -> bool
    ensures { result ≡ has_dash (string_bytes word.now) }
{
    matches!(word.as_bytes(), [b'-', ..])
}

/// Whether one of the words does.
fn has_option(words: &[String]) -> bool
    ensures { result ≡ list_any has_dash (texts words.now) }
{
    for word in words {
        if begins_with_dash(word) {
            return true;
        }
    }
    false
}

/// Whether there is a word.
fn has_word(words: &[String]) -> bool
    ensures { result ≡ has_words (texts words.now) }
{
    !matches!(words, [])
}

/// Whether the word is the mode of the program.
fn is_check(word: &String) -> bool
    ensures { result ≡ bytes_eq (string_bytes word.now) (codes "check") }
{
    word.as_str() == "check"
}

/// The first of some words.
pub fn first_of(words: &[String]) -> &str
    ensures { result.now ≡ first_of (texts words.now) }
{
    match words {
        [] => "",
        [word, ..] => word.as_str(),
    }
}

/// The request of these words.
fn ask<'a>(
    mode: &'a String,
    top: &'a String,
    constraints: &'a String,
    files: &'a [String],
) -> Option<Request<'a>>
    ensures { option_map seen result ≡ asked (string_bytes mode.now) (string_bytes top.now) (string_bytes constraints.now) (texts files.now) }
{
    if !is_check(mode) || !has_word(files) {
        return None;
    }
    if begins_with_dash(top) || begins_with_dash(constraints) || has_option(files) {
        return None;
    }
    Some(Request {
        top: top.as_str(),
        constraints: constraints.as_str(),
        files,
    })
}

/// The request that the words spell: `check TOP CONSTRAINTS FILE..`.
pub fn read_words(words: &[String]) -> Option<Request<'_>>
    ensures { option_map seen result ≡ request_of (texts words.now) }
{
    let [mode, top, constraints, files @ ..] = words else {
        return None;
    };
    ask(mode, top, constraints, files)
}
