//! What the clauses mean. The laws compute nothing.

ghost use Rattle.std.specs.Prelude.{◌≡◌, ℕ, ◌*◌, ◌<◌, Bool, List, length, ℤ};
ghost use Rattle.rdc_tern.specs.declared.value.Tern.{Tern};
ghost use Rattle.net_view.specs.View.{Numbered, IsNet};
ghost use Rattle.tern_cnf.specs.Rails.{clauses_of};
ghost use Rattle.tern_cnf.specs.Sums.{ClauseMeans, SumMeans};
ghost use Rattle.tern_cnf.specs.Asked.{AreSources};
ghost use Rattle.tern_cnf.specs.States.{assignment, HasRails, ModelsAreStates};

/// The models of a net's clauses are the ternary states that meet the question, and each state makes an assignment.
pub fn models_are_states()
    ensures models { (gates : List Numbered) (sources : ℕ) (fixed : List ℕ) (side : List (List ℤ)) → IsNet gates sources →
        AreSources gates fixed → ModelsAreStates gates fixed side (clauses_of gates fixed side) }

    ensures rails { (values : List Tern) (more : ℕ → Bool) → HasRails (assignment values more) values }
    ensures further { (values : List Tern) (more : ℕ → Bool) (v : ℕ) → 2 * length values < v → assignment values more v ≡ more v }
{}

/// A clause says that one of its literals is true, and the clauses of a sum of products that a rail is worth that sum.
pub fn clauses_are_equations()
    ensures clause { ClauseMeans }
    ensures sum { SumMeans }
{}
