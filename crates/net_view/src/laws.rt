//! Laws of values, for whoever compares two nets or two states. They compute nothing.

ghost use Rattle.std.specs.Prelude.{◌≡◌, ℕ, List};
ghost use Rattle.rdc_tern.specs.declared.value.Tern.{Tern};
ghost use Rattle.rdc_tern.specs.Kleene.{IsSettled};
ghost use Rattle.net_view.specs.View.{Numbered, IsNet, IsGateAt};
ghost use Rattle.net_view.specs.FlopNet.{IsPlain, Kind};
ghost use Rattle.net_view.specs.PinOrder.{IsPinOrder, IsPinLoop};
ghost use Rattle.net_view.specs.Values.{State, at, values, IsValuation, gate_value};

/// In each state a net has exactly one valuation: `values`, from left to right.
pub fn one_valuation()
    ensures there_is_one { (gates : List Numbered) (sources : ℕ) (state : State) → IsNet gates sources →
        IsValuation gates state (values gates state) }
    ensures no_other { (gates : List Numbered) (sources : ℕ) (state : State) (found : List Tern) → IsNet gates sources →
        IsValuation gates state found → found ≡ values gates state }
{}

/// Settled sources give settled nodes, in a net of the gates that a design is made of.
pub fn settled_in_settled_out()
    ensures { (gates : List Numbered) (sources : ℕ) (state : State) (found : List Tern) → IsNet gates sources →
        ((k : ℕ) (g : Numbered) → IsGateAt gates k g → IsPlain g) → ((s : ℕ) → IsSettled (state s)) →
        IsValuation gates state found → (k : ℕ) (g : Numbered) → IsGateAt gates k g → IsSettled (at found k) }
{}

/// There is at most one pin order, and none where the pins of some flops read one another in a cycle.
pub fn one_pin_order()
    ensures at_most_one { (gates : List Numbered) (names : List (List ℕ)) (kinds : List Kind) (a b : List ℕ) →
        IsPinOrder gates names kinds a → IsPinOrder gates names kinds b → a ≡ b }
    ensures no_cycle { (gates : List Numbered) (names : List (List ℕ)) (kinds : List Kind) (order flops : List ℕ) →
        IsPinOrder gates names kinds order → IsPinLoop gates names kinds flops → ⊥ }
{}
