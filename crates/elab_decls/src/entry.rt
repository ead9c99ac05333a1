//! What is known of a name.
ghost use Rattle.std.specs.Prelude.{◌≡◌};
ghost use Rattle.elab_decls.specs.Entries.{begun, continued, directed, entered, form_of, further, may_be, may_keep};

use crate::mention::{Mention, Sort};
use rdc_outside::Place;
use vlog_tree::Direction;

/// What a name is declared as, beside a direction.
#[derive(Clone, Copy, Debug, PartialEq, Eq)]
pub enum Form {
    Wire,
    Register,
    Integer,
    Genvar,
    /// A parameter, a gate or an instance: no signal.
    Thing,
}

/// What the declarations of a name say together.
#[derive(Clone, Copy, Debug, PartialEq, Eq)]
pub struct Entry {
    /// The first declaration's.
    pub place: Place,
    /// Whether it stands alone in the list of ports.
    pub listed: bool,
    /// A port's, once it is known.
    pub direction: Option<Direction>,
    /// None for a port that is no more than that, which is a wire.
    pub form: Option<Form>,
    /// Whether a declaration of it is signed.
    pub signed: bool,
}

/// Why a declaration isn't allowed.
#[derive(Clone, Copy, Debug, PartialEq, Eq)]
pub(crate) enum Refusal {
    NoPort,
    Twice,
}

/// What a port is, by its direction alone.
#[tactic(auto, unfolding(crate::specs::Entries::form_of))]
fn form_of(direction: Direction) -> Option<Form>
    ensures { result ≡ form_of direction }
{
    match direction {
        Direction::Register => Some(Form::Register),
        Direction::Input | Direction::Output => None,
    }
}

/// What is known after the first declaration of a name.
#[tactic(auto, unfolding(crate::specs::Entries::begun))]
fn begun(m: Mention) -> Result<Entry, Refusal>
    ensures { result ≡ begun m m.sort }
{
    let (listed, direction, form) = match m.sort {
        Sort::Listed => (true, None, None),
        Sort::Headed(direction) => (false, Some(direction), form_of(direction)),
        Sort::Directed(_) => return Err(Refusal::NoPort),
        Sort::Wire => (false, None, Some(Form::Wire)),
        Sort::Register => (false, None, Some(Form::Register)),
        Sort::Integer => (false, None, Some(Form::Integer)),
        Sort::Genvar => (false, None, Some(Form::Genvar)),
        Sort::Thing => (false, None, Some(Form::Thing)),
    };
    Ok(Entry {
        place: m.place,
        listed,
        direction,
        form,
        signed: m.signed,
    })
}

/// Whether a port that is a net or a register already may have a direction.
#[tactic(auto, unfolding(crate::specs::Entries::may_be))]
fn may_be(direction: Direction, form: Option<Form>) -> bool
    ensures { result ≡ may_be direction form }
{
    match (direction, form) {
        (_, None) => true,
        (Direction::Input | Direction::Output, Some(Form::Wire)) => true,
        (Direction::Output, Some(Form::Register)) => true,
        _ => false,
    }
}

/// The direction of a port that stands alone in the list.
#[tactic(auto, unfolding(crate::specs::Entries::directed, crate::specs::Entries::both))]
fn directed(direction: Direction, e: Entry, m: Mention) -> Result<Entry, Refusal>
    ensures { result ≡ directed direction e m e.direction }
{
    if e.direction.is_some() {
        return Err(Refusal::Twice);
    }
    if !e.listed {
        return Err(Refusal::NoPort);
    }
    if !may_be(direction, e.form) {
        return Err(Refusal::Twice);
    }
    Ok(Entry {
        direction: Some(direction),
        form: e.form.or(form_of(direction)),
        signed: e.signed || m.signed,
        ..e
    })
}

/// Whether a port may be a register.
#[tactic(auto, unfolding(crate::specs::Entries::may_keep))]
fn may_keep(direction: Option<Direction>) -> bool
    ensures { result ≡ may_keep direction }
{
    !matches!(direction, Some(Direction::Input))
}

/// A net or a register of a port that stands alone in the list.
#[tactic(auto, unfolding(crate::specs::Entries::further))]
fn further(form: Form, fits: bool, e: Entry, m: Mention) -> Result<Entry, Refusal>
    ensures { result ≡ further form fits e m e.form }
{
    if e.form.is_some() || !e.listed || !fits {
        return Err(Refusal::Twice);
    }
    Ok(Entry {
        form: Some(form),
        signed: e.signed || m.signed,
        ..e
    })
}

/// What is known after one more declaration of a name that is declared.
#[tactic(auto, unfolding(crate::specs::Entries::continued))]
fn continued(e: Entry, m: Mention) -> Result<Entry, Refusal>
    ensures { result ≡ continued e m m.sort }
{
    match m.sort {
        Sort::Directed(direction) => directed(direction, e, m),
        Sort::Wire => further(Form::Wire, true, e, m),
        Sort::Register => further(Form::Register, may_keep(e.direction), e, m),
        Sort::Listed | Sort::Headed(_) | Sort::Integer | Sort::Genvar | Sort::Thing => Err(
            Refusal::Twice,
        ),
    }
}

/// What is known after one more declaration.
#[tactic(auto, unfolding(crate::specs::Entries::entered))]
pub(crate) fn entered(before: Option<Entry>, m: Mention) -> Result<Entry, Refusal>
    ensures { result ≡ entered before m }
{
    match before {
        Some(entry) => continued(entry, m),
        None => begun(m),
    }
}
