//! Laws of the definitions.

ghost use Rattle.std.specs.Prelude.{◌≡◌, ℕ, List};
ghost use Rattle.cons_file.specs.Forms.{Form, Spells};
ghost use Rattle.cons_file.specs.File.{Stated, IsFile};

/// A line spells at most one form, and a text is at most one list of lines.
pub fn one_file()
    ensures form { (text : List ℕ) (first second : Form) → Spells text first → Spells text second → first ≡ second }
    ensures lines { (bytes : List ℕ) (first second : List Stated) → IsFile bytes first → IsFile bytes second → first ≡ second }
{}
