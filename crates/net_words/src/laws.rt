//! What the gates are worth: laws of values, for whoever builds with them. They compute nothing.
ghost use Rattle.std.specs.Prelude.{◌≡◌, ℕ, Bool, List, map};
ghost use Rattle.rdc_tern.specs.declared.value.Tern.{Tern};
ghost use Rattle.net_view.specs.View.{Numbered};
ghost use Rattle.rdc_tern.specs.Kleene.{not_of, and_of, or_of, xor_of, mux_of};
ghost use Rattle.rdc_tern.specs.Shifts.{select_of, shl_of, shr_of, sar_of};
ghost use Rattle.rdc_tern.specs.Words as word;
ghost use Rattle.net_view.specs.Values.{State, IsValuation, at, settled};
ghost use Rattle.net_view.specs.declared.gate.Gate.TheVariants.{Const, Source, Not, And, Or, Xor};
ghost use Rattle.net_words.specs.declared.bits.Bitwise.{Bitwise};
ghost use Rattle.net_words.specs.Builds.{put, Gives, IsWorth};
ghost use Rattle.net_words.specs.Bits as bits;
ghost use Rattle.net_words.specs.Words as words;
ghost use Rattle.net_words.specs.Words.{bit_of, each_of};
ghost use Rattle.net_words.specs.Shifts as shifts;
ghost use Rattle.net_words.specs.Sums as sums;
ghost use Rattle.net_words.specs.Products as products;
ghost use Rattle.net_words.specs.Comparisons as comparisons;

/// What one gate is worth.
pub fn gates_are_worth()
    ensures constant { (b : Bool) → IsWorth (put (Const b)) (λ v n. v n ≡ settled b) }
    ensures leaf { (s : ℕ) (whole : List Numbered) (state : State) (found : List Tern) → IsValuation whole state found → Gives whole (put (Source s)) (λ n. at found n ≡ state s) }
    ensures inverse { (a : ℕ) → IsWorth (put (Not a)) (λ v n. v n ≡ not_of (v a)) }
    ensures conjunction { (a b : ℕ) → IsWorth (put (And a b)) (λ v n. v n ≡ and_of (v a) (v b)) }
    ensures disjunction { (a b : ℕ) → IsWorth (put (Or a b)) (λ v n. v n ≡ or_of (v a) (v b)) }
    ensures difference { (a b : ℕ) → IsWorth (put (Xor a b)) (λ v n. v n ≡ xor_of (v a) (v b)) }
{}

/// What operations of two bits, and the selection, are worth.
pub fn bits_are_worth()
    ensures operation { (op : Bitwise) (a b : ℕ) → IsWorth (bits.bit op a b) (λ v n. v n ≡ bit_of op (v a) (v b)) }
    ensures selection { (s a b : ℕ) → IsWorth (bits.mux s a b) (λ v n. v n ≡ mux_of (v s) (v a) (v b)) }
{}

/// What operations bit by bit are worth.
pub fn words_are_worth()
    ensures inverse { (a : List ℕ) → IsWorth (words.inverted a) (λ v made. map v made ≡ word.inverted (map v a)) }
    ensures operation { (op : Bitwise) (a b : List ℕ) → IsWorth (words.each op a b) (λ v made. map v made ≡ each_of op (map v a) (map v b)) }
    ensures selection { (s : ℕ) (a b : List ℕ) → IsWorth (words.select s a b) (λ v made. map v made ≡ select_of (v s) (map v a) (map v b)) }
{}

/// What operations over all bits are worth.
pub fn reductions_are_worth()
    ensures any { (a : List ℕ) → IsWorth (words.any a) (λ v n. v n ≡ word.any_of (map v a)) }
    ensures all { (a : List ℕ) → IsWorth (words.all a) (λ v n. v n ≡ word.all_of (map v a)) }
    ensures parity { (a : List ℕ) → IsWorth (words.parity a) (λ v n. v n ≡ word.parity_of (map v a)) }
{}

/// What sums, differences and products are worth.
pub fn sums_are_worth()
    ensures sum { (a b : List ℕ) → IsWorth (sums.add a b) (λ v made. map v made ≡ word.add_of (map v a) (map v b)) }
    ensures difference { (a b : List ℕ) → IsWorth (sums.sub a b) (λ v made. map v made ≡ word.sub_of (map v a) (map v b)) }
    ensures product { (a b : List ℕ) → IsWorth (products.mul a b) (λ v made. map v made ≡ word.mul_of (map v a) (map v b)) }
    ensures negation { (a : List ℕ) → IsWorth (sums.neg a) (λ v made. map v made ≡ word.neg_of (map v a)) }
{}

/// What comparisons are worth.
pub fn comparisons_are_worth()
    ensures equal { (a b : List ℕ) → IsWorth (comparisons.eq a b) (λ v n. v n ≡ word.eq_of (map v a) (map v b)) }
    ensures less { (a b : List ℕ) → IsWorth (comparisons.lt a b) (λ v n. v n ≡ word.lt_of (map v a) (map v b)) }
    ensures signed_less { (a b : List ℕ) → IsWorth (comparisons.lt_signed a b) (λ v n. v n ≡ word.lt_signed_of (map v a) (map v b)) }
{}

/// What shifts are worth.
pub fn shifts_are_worth()
    ensures left { (a amount : List ℕ) → IsWorth (shifts.shl a amount) (λ v made. map v made ≡ shl_of (map v a) (map v amount)) }
    ensures right { (a amount : List ℕ) → IsWorth (shifts.shr a amount) (λ v made. map v made ≡ shr_of (map v a) (map v amount)) }
    ensures signed_right { (a amount : List ℕ) → IsWorth (shifts.sar a amount) (λ v made. map v made ≡ sar_of (map v a) (map v amount)) }
{}
