//! Which words are names (IEEE 1364-2005, 3.7 and annex B).

ghost use Rattle.std.specs.Prelude.{◌≡◌, map};
ghost use Rattle.std.specs.List.{list_any};
ghost use Rattle.std.specs.Option.{option_map};
ghost use Rattle.std.specs.Str.{bytes_eq};
ghost use Rattle.vlog_tree.specs.Reserved.{reserved_with, is_reserved};
ghost use Rattle.vlog_tree.specs.Names.{name_in};

/// The reserved words that begin with such a letter.
#[tactic(auto, unfolding(vlog_tree::specs::Reserved::reserved_with))]
fn reserved_with(letter: u8) -> &'static [&'static str]
    ensures { map (λ t. t.now) result.now ≡ reserved_with letter }
{
    match letter {
        b'a' => &["always", "and", "assign", "automatic"],
        b'b' => &["begin", "buf", "bufif0", "bufif1"],
        b'c' => &["case", "casex", "casez", "cell", "cmos", "config"],
        b'd' => &["deassign", "default", "defparam", "design", "disable"],
        b'e' => &[
            "edge",
            "else",
            "end",
            "endcase",
            "endconfig",
            "endfunction",
            "endgenerate",
            "endmodule",
            "endprimitive",
            "endspecify",
            "endtable",
            "endtask",
            "event",
        ],
        b'f' => &["for", "force", "forever", "fork", "function"],
        b'g' => &["generate", "genvar"],
        b'h' => &["highz0", "highz1"],
        b'i' => &[
            "if", "ifnone", "incdir", "include", "initial", "inout", "input", "instance", "integer",
        ],
        b'j' => &["join"],
        b'l' => &["large", "liblist", "library", "localparam"],
        b'm' => &["macromodule", "medium", "module"],
        b'n' => &[
            "nand",
            "negedge",
            "nmos",
            "nor",
            "noshowcancelled",
            "not",
            "notif0",
            "notif1",
        ],
        b'o' => &["or", "output"],
        b'p' => &[
            "parameter",
            "pmos",
            "posedge",
            "primitive",
            "pull0",
            "pull1",
            "pulldown",
            "pullup",
            "pulsestyle_ondetect",
            "pulsestyle_onevent",
        ],
        b'r' => &[
            "rcmos", "real", "realtime", "reg", "release", "repeat", "rnmos", "rpmos", "rtran",
            "rtranif0", "rtranif1",
        ],
        b's' => &[
            "scalared",
            "showcancelled",
            "signed",
            "small",
            "specify",
            "specparam",
            "strong0",
            "strong1",
            "supply0",
            "supply1",
        ],
        b't' => &[
            "table", "task", "time", "tran", "tranif0", "tranif1", "tri", "tri0", "tri1", "triand",
            "trior", "trireg",
        ],
        b'u' => &["unsigned", "use", "uwire"],
        b'v' => &["vectored"],
        b'w' => &["wait", "wand", "weak0", "weak1", "while", "wire", "wor"],
        b'x' => &["xnor", "xor"],
        _ => &[],
    }
}

/// The word is one of these.
pub(crate) fn is_one_of(word: &[u8], table: &[&str]) -> bool
    ensures { result ≡ list_any (bytes_eq word.now) (map (λ t. t.now) table.now) }
{
    for w in table {
        if word == w.as_bytes() {
            return true;
        }
    }
    false
}

#[tactic(auto, unfolding(vlog_tree::specs::Reserved::is_reserved))]
pub(crate) fn is_reserved(word: &[u8]) -> bool
    ensures { result ≡ is_reserved word.now }
{
    let letter = match word {
        [] => 0,
        [b, ..] => *b,
    };
    is_one_of(word, reserved_with(letter))
}

/// An escaped name without its backslash, or a plain one; neither a system name nor a reserved word.
#[tactic(auto, unfolding(vlog_tree::specs::Names::name_in))]
pub(crate) fn name_in(word: &[u8]) -> Option<&[u8]>
    ensures { option_map (λ b. b.now) result ≡ name_in word.now }
{
    match word {
        [] => None,
        [b'\\', rest @ ..] => Some(rest),
        [b, ..] => {
            if *b == b'$' || is_reserved(word) {
                None
            } else {
                Some(word)
            }
        }
    }
}
