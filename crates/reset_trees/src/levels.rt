//! The levels of the declared resets, by source.

ghost use Rattle.std.specs.Prelude.{◌≡◌, ℕ, ◌<◌, length, IfOk, IfSome};
ghost use Rattle.cons_bind.specs.Binding.{forms_of};
ghost use Rattle.reset_trees.specs.Domains.{reset_in, AreInside};
ghost use Rattle.reset_trees.specs.Marking.{level_at, AreLevels};
ghost use Rattle.reset_trees.specs.Roles.{level_in, or_level};

use cons_bind::{BoundForm, BoundLine};
use std::alloc::{AllocError, Global};

/// Notes the level of the reset that a line declares, where none is noted yet.
fn note_level(form: &BoundForm, levels: &mut [Option<bool>])
    requires { IfSome (reset_in form.now) (λ s. s < length levels.old) }
    ensures { (s : ℕ) → level_at levels.new s ≡ or_level (level_at levels.old s) (level_in form.now s) }
{
    if let BoundForm::Reset(source, high) = form {
        if levels[*source as usize].is_none() {
            levels[*source as usize] = Some(*high);
        }
    }
}

/// The level of each source that the lines declare a reset.
pub(crate) fn levels_of(
    alloc: Global,
    count: u32,
    lines: &[BoundLine],
) -> Result<Vec<Option<bool>>, AllocError>
    requires { AreInside count (forms_of lines.now) }
    ensures levels { IfOk result (λ levels. AreLevels (forms_of lines.now) levels.items) }
    ensures len { IfOk result (λ levels. length levels.items ≡ count) }
{
    let mut levels = vec![in alloc; None; count as usize]?;
    'lines: for line in lines {
        note_level(&line.form, &mut levels);
    }
    Ok(levels)
}
