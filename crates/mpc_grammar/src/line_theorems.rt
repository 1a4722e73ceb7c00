//! What holds of every word that spells a number, and of every line of numbers. The calls do nothing: their contracts are the theorems.

ghost use Rattle.std.specs.Prelude.{◌≡◌, ℕ, ◌^◌, ◌<◌, List};
ghost use Rattle.mpc_grammar.specs.Lines.{count_line};
ghost use Rattle.mpc_grammar.specs.Spelling.{numeral_line};
ghost use Rattle.mpc_grammar.specs.LineTheorems.{WordTheorems, OneFractions, OneIntegers};

use mpc_words::{fraction_theorems, integer_theorems, line_theorems, natural_theorems};

/// Each number is spelled by a word of its own.
pub fn word_theorems()
    ensures { WordTheorems }
{
    line_theorems();
    natural_theorems();
    integer_theorems();
    fraction_theorems();
}

/// A line states one list of fractions only.
pub fn one_fractions()
    ensures { OneFractions }
{
    line_theorems();
    fraction_theorems();
}

/// A line states one list of whole numbers only.
pub fn one_integers()
    ensures { OneIntegers }
{
    line_theorems();
    integer_theorems();
}

/// A line states one natural number only. Below 10^64 it is what is printed.
pub fn one_number()
    ensures numeral { (name : List ℕ) (m n : ℕ) → numeral_line name m ≡ numeral_line name n → m ≡ n }
    ensures count { (name : List ℕ) (m n : ℕ) → m < 10 ^ 64 → n < 10 ^ 64 → count_line name m ≡ count_line name n → m ≡ n }
    ensures printed { (name : List ℕ) (n : ℕ) → n < 10 ^ 64 → count_line name n ≡ numeral_line name n }
{
    natural_theorems();
}
