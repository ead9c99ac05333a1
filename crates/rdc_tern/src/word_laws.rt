//! Laws of the operations on words. They compute nothing.

ghost use Rattle.rdc_tern.specs.WordLaws.{KeepsWidth, RaisesWords, SettlesWords, AreNumbers, ComparesNumbers, MovesWords, ShiftsNumbers};

/// Words that are raised to X leave each result as it was, or raise it.
pub fn word_operations_are_monotone()
    ensures { RaisesWords }
{}

/// Settled words give settled results.
pub fn word_operations_settle()
    ensures { SettlesWords }
{}

/// Sums, differences and products of settled words are those of their numbers, modulo 2^width.
pub fn words_are_numbers()
    ensures { AreNumbers }
{}

/// Comparisons and reductions of settled words are those of their numbers.
pub fn words_compare_as_numbers()
    ensures { ComparesNumbers }
{}

/// By a settled amount a word moves as many places as the amount's number says.
pub fn shifts_move_words()
    ensures { MovesWords }
{}

/// Shifts of settled words are products and quotients by powers of two.
pub fn shifts_are_numbers()
    ensures { ShiftsNumbers }
{}

/// Results are as wide as their words.
pub fn word_operations_keep_width()
    ensures { KeepsWidth }
{}
