//! Laws of the definitions.

ghost use Rattle.std.specs.Prelude.{◌≡◌, ℕ, List};
ghost use Rattle.thin_form.specs.Design.{Design};
ghost use Rattle.thin_cons.specs.Forms.{Declaration, IsFile};
ghost use Rattle.thin_cons.specs.Roles.{Declares};
ghost use Rattle.thin_cons.specs.declared.role.Role.{Role};

/// One text is at most one list of lines.
pub fn one_file()
    ensures { (bytes : List ℕ) (first second : List Declaration) → IsFile bytes first → IsFile bytes second → first ≡ second }
{}

/// The bytes give a design's sources one list of roles at most.
pub fn one_declaration()
    ensures { (design : Design) (bytes : List ℕ) (first second : List Role) → Declares design bytes first → Declares design bytes second → first ≡ second }
{}
