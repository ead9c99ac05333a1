//! Frames on one another: what is open.
ghost use Rattle.std.specs.Prelude.{◌≡◌, ◌++◌, ◌∷◌, [], List, map, true, IfOk, OnOk};
ghost use Rattle.std.specs.List.{list_any};
ghost use Rattle.std.specs.Str.{bytes_eq};
ghost use Rattle.std.specs.String.{string_bytes};
ghost use Rattle.vlog_items.specs.Items.{Item};
ghost use Rattle.vlog_items.specs.Stack.{items_of, names_of};

use crate::frames::Frame;
use rdc_outside::Seq;
use std::alloc::{AllocError, Global};
use std::collections::VecDeque;

/// Takes away frames of which nothing is left, and keeps the names of their macros.
pub(crate) fn uncover(
    top: &mut Frame,
    below: &mut VecDeque<Frame>,
    spent: &mut VecDeque<Seq<u8>>,
) -> Result<(), AllocError>
    ensures items { OnOk result ((later : List Item) → items_of later (top.new ∷ below.new.items) ≡ items_of later (top.old ∷ below.old.items)) }
    ensures names { OnOk result (spent.new.items ++ names_of (top.new ∷ below.new.items) ≡ spent.old.items ++ names_of (top.old ∷ below.old.items)) }
    ensures open { top.new.done ≡ true → below.new.items ≡ [] }
{
    'frames: while top.done {
        let Some(frame) = below.pop_front() else {
            return Ok(());
        };
        let Ok(()) = spent.append(&mut top.names) else {
            below.clear();
            return Err(AllocError);
        };
        *top = frame;
    }
    Ok(())
}

/// The names of files that are still to come.
pub(crate) fn names_to_come(alloc: Global, names: &[String]) -> Result<VecDeque<String>, AllocError>
    ensures { IfOk result (λ coming. map string_bytes coming.items ≡ map string_bytes names.now) }
{
    let mut coming = VecDeque::new(alloc);
    let mut left = names;
    'names: while let [name, others @ ..] = left {
        coming.push_back(String::from_str(alloc, name.as_str())?)?;
        left = others;
    }
    Ok(coming)
}

fn has_name(names: &VecDeque<Seq<u8>>, name: &[u8]) -> bool
    ensures { result ≡ list_any (bytes_eq name.now) names.now.items }
{
    names.iter().any(|known| name == known.as_slice())
}

/// Whether a name is that of a macro of these frames.
pub(crate) fn have_name(frames: &VecDeque<Frame>, name: &[u8]) -> bool
    ensures { result ≡ list_any (bytes_eq name.now) (names_of frames.now.items) }
{
    let mut at = 0;
    'frames: while let Some(frame) = frames.get(at) {
        if has_name(&frame.names, name) {
            return true;
        }
        at += 1;
    }
    false
}

/// Whether a name is one of those spent, or of a macro of these frames.
pub(crate) fn hold_name(
    spent: &VecDeque<Seq<u8>>,
    top: &Frame,
    below: &VecDeque<Frame>,
    name: &[u8],
) -> bool
    ensures { result ≡ list_any (bytes_eq name.now) (spent.now.items ++ names_of (top.now ∷ below.now.items)) }
{
    has_name(spent, name) || has_name(&top.names, name) || have_name(below, name)
}
