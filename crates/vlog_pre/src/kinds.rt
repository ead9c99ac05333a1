//! What a name after a backtick asks for.
ghost use Rattle.std.specs.Prelude.{◌≡◌, codes};
ghost use Rattle.std.specs.Str.{bytes_eq};
ghost use Rattle.vlog_pre.specs.Kinds.{conditional_of, dropped_of, kind_of, is_free};

/// A directive of a conditional.
#[derive(Clone, Copy, Debug, PartialEq, Eq)]
pub(crate) enum Branch {
    Ifdef,
    Ifndef,
    Elsif,
    Else,
    Endif,
}

/// What a name after a backtick asks for.
#[derive(Clone, Copy, Debug, PartialEq, Eq)]
pub(crate) enum Kind {
    Define,
    Undef,
    Include,
    Condition(Branch),
    /// A directive that is dropped with the rest of its line.
    WithLine,
    /// A directive that is dropped alone.
    Alone,
    /// No directive: a macro, if there is one of the name.
    Other,
}

#[tactic(auto, unfolding(crate::specs::Kinds::conditional_of))]
fn conditional(name: &[u8]) -> Kind
    ensures { result ≡ conditional_of name.now }
{
    if name == "ifdef".as_bytes() {
        Kind::Condition(Branch::Ifdef)
    } else if name == "ifndef".as_bytes() {
        Kind::Condition(Branch::Ifndef)
    } else if name == "elsif".as_bytes() {
        Kind::Condition(Branch::Elsif)
    } else if name == "else".as_bytes() {
        Kind::Condition(Branch::Else)
    } else if name == "endif".as_bytes() {
        Kind::Condition(Branch::Endif)
    } else {
        Kind::Other
    }
}

#[tactic(auto, unfolding(crate::specs::Kinds::dropped_of))]
fn dropped(name: &[u8]) -> Kind
    ensures { result ≡ dropped_of name.now }
{
    if name == "timescale".as_bytes() || name == "default_nettype".as_bytes() {
        Kind::WithLine
    } else if name == "celldefine".as_bytes()
        || name == "endcelldefine".as_bytes()
        || name == "resetall".as_bytes()
    {
        Kind::Alone
    } else {
        conditional(name)
    }
}

#[tactic(auto, unfolding(crate::specs::Kinds::kind_of))]
pub(crate) fn wanted_by(name: &[u8]) -> Kind
    ensures { result ≡ kind_of name.now }
{
    if name == "define".as_bytes() {
        Kind::Define
    } else if name == "undef".as_bytes() {
        Kind::Undef
    } else if name == "include".as_bytes() {
        Kind::Include
    } else {
        dropped(name)
    }
}

#[tactic(auto, unfolding(crate::specs::Kinds::is_free))]
pub(crate) fn free(kind: Kind) -> bool
    ensures { result ≡ is_free kind }
{
    match kind {
        Kind::Other => true,
        Kind::Define
        | Kind::Undef
        | Kind::Include
        | Kind::Condition(_)
        | Kind::WithLine
        | Kind::Alone => false,
    }
}
