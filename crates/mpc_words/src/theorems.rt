//! What holds of every text and every spelling. The calls do nothing: their contracts are the theorems.

ghost use Rattle.std.specs.Prelude.{◌≡◌, ℕ, ◌^◌, ◌<◌, ◌≤◌, List, ◌∷◌, length, ℤ, unsigned_abs, decimal};
ghost use Rattle.std.specs.List.{concat};
ghost use Rattle.std.specs.Fmt.{signed_decimal};
ghost use Rattle.mpc_exact.specs.Rational.{ℚ};
ghost use Rattle.mpc_frac.specs.Fits.{FitsFrac};
ghost use Rattle.mpc_frac.specs.Text.{text_of};
ghost use Rattle.mpc_words.specs.Numerals.{numeral};
ghost use Rattle.mpc_words.specs.WholeLines.{before_line, whole_lines};
ghost use Rattle.mpc_words.specs.Words.{IsWithout, IsCutAt, IsLineOf, IsWord, words_of};

/// A text is cut at the first of a byte in one way, and in none where it hasn't that byte.
pub fn cut_theorems()
    ensures one_before { (byte : ℕ) (text before front behind back : List ℕ) → IsCutAt byte text before behind → IsCutAt byte text front back → before ≡ front }
    ensures one_behind { (byte : ℕ) (text before front behind back : List ℕ) → IsCutAt byte text before behind → IsCutAt byte text front back → behind ≡ back }
    ensures no_cut { (byte : ℕ) (text before behind : List ℕ) → IsWithout byte text → ¬ IsCutAt byte text before behind }
{}

/// A text is a line of one list of words only, its parts between the blanks.
pub fn line_theorems()
    ensures some_words { (text : List ℕ) → (first : List ℕ) × ((words : List (List ℕ)) × IsLineOf text first words) }
    ensures parts { (text first : List ℕ) (words : List (List ℕ)) → IsLineOf text first words → words_of text ≡ first ∷ words }
    ensures one_first { (text first other : List ℕ) (words others : List (List ℕ)) → IsLineOf text first words → IsLineOf text other others → first ≡ other }
    ensures one_list { (text first other : List ℕ) (words others : List (List ℕ)) → IsLineOf text first words → IsLineOf text other others → words ≡ others }
{}

/// The lines of a text, with their ends, are the text, and those behind a line are the lines of what stands
/// behind it. What stands before a line that is a word is no longer than the text.
pub fn whole_line_theorems()
    ensures joined { (text : List ℕ) → concat (whole_lines text) ≡ text }
    ensures rest { (text line : List ℕ) (more : List (List ℕ)) → whole_lines text ≡ line ∷ more → whole_lines (concat more) ≡ more }
    ensures short { (word text : List ℕ) → length (before_line word (whole_lines text)) ≤ length text }
{}

/// A natural number has one spelling, a word, and no other number has it. Below 10^64 it is the text
/// that is printed.
pub fn natural_theorems()
    ensures one_number { (m n : ℕ) → numeral m ≡ numeral n → m ≡ n }
    ensures word { (n : ℕ) → IsWord (numeral n) }
    ensures printed { (n : ℕ) → n < 10 ^ 64 → numeral n ≡ decimal n }
{}

/// A whole number below 10^64 in size is printed as a word, and no other is printed so.
pub fn integer_theorems()
    ensures one_number { (y z : ℤ) → unsigned_abs y < 10 ^ 64 → unsigned_abs z < 10 ^ 64 → signed_decimal y ≡ signed_decimal z → y ≡ z }
    ensures word { (z : ℤ) → unsigned_abs z < 10 ^ 64 → IsWord (signed_decimal z) }
{}

/// A fraction whose parts are at most 2^127 - 1 in size is written as a word, and no other is written
/// so.
pub fn fraction_theorems()
    ensures one_number { (x y : ℚ) → FitsFrac x → FitsFrac y → text_of x ≡ text_of y → x ≡ y }
    ensures word { (x : ℚ) → FitsFrac x → IsWord (text_of x) }
{}
