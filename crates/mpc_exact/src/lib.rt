//! Rational numbers without a bound, for contracts and proofs: greatest common divisors, fractions with their field and order, pairs of
//! fractions in lexicographic order, and solvers for identities and for linear inequalities.
//!
//! The crate has no code that computes. Each function below has an empty body, and its clauses are the theorems that it is named after.
#![tactic(auto)]

ghost use Rattle.std.specs.Prelude.{◌≡◌, ◌≢◌, ◌⊎◌, ◌↔◌, ℕ, suc, ◌<◌, ◌≤◌, ◌*◌, ◌/◌, ℤ, pos, negsuc, ◌+ℤ◌, ◌-ℤ◌, ◌*ℤ◌, neg_ℤ, ◌≤ℤ◌, ◌<ℤ◌, unsigned_abs, T, List};
ghost use Rattle.std.specs.Int.{◌∣◌};
ghost use Rattle.mpc_exact.specs.Gcd.{gcd, lcm};
ghost use Rattle.mpc_exact.specs.Rational.{ℚ, frac, int, ◌+ℚ◌, ◌-ℚ◌, ◌*ℚ◌, ◌/ℚ◌, neg_ℚ, inv_ℚ, abs_ℚ, min_ℚ, max_ℚ, quotient, ◌≤ℚ◌, ◌<ℚ◌, le_ℚ, lt_ℚ, IsNonneg, IsPositive};
ghost use Rattle.mpc_exact.specs.Pair.{Pair, IsBelow, IsAtMost, pair_add, pair_scale};
ghost use Rattle.mpc_exact.specs.Denominator.{common_denom, IsCommonDenom};

/// The greatest common divisor and the least common multiple of natural numbers (Euclid, Elements VII).
pub fn divisor_theorems()
    ensures gcd_divides_left { (a b : ℕ) → gcd a b ∣ a }
    ensures gcd_divides_right { (a b : ℕ) → gcd a b ∣ b }
    ensures gcd_is_greatest { (a b d : ℕ) → d ∣ a → d ∣ b → d ∣ gcd a b }
    ensures lcm_is_multiple_left { (a b : ℕ) → a ∣ lcm a b }
    ensures lcm_is_multiple_right { (a b : ℕ) → b ∣ lcm a b }
    ensures lcm_is_least { (a b c : ℕ) → a ∣ c → b ∣ c → lcm a b ∣ c }
{}

/// School arithmetic: what n / d is equal to, added to and multiplied by, on cross products.
pub fn school_rules()
    ensures in_lowest_terms { (x : ℚ) → (frac x.numer x.denom ≡ x) × (0 < x.denom) × (gcd (unsigned_abs x.numer) x.denom ≡ 1) }
    ensures equal { (a c : ℤ) (b d : ℕ) → 0 < b → 0 < d → (frac a b ≡ frac c d) ↔ (a *ℤ pos d ≡ c *ℤ pos b) }
    ensures at_most { (a c : ℤ) (b d : ℕ) → 0 < b → 0 < d → (frac a b ≤ℚ frac c d) ↔ ((a *ℤ pos d) ≤ℤ (c *ℤ pos b)) }
    ensures below { (a c : ℤ) (b d : ℕ) → 0 < b → 0 < d → (frac a b <ℚ frac c d) ↔ ((a *ℤ pos d) <ℤ (c *ℤ pos b)) }
    ensures sum { (a c : ℤ) (b d : ℕ) → 0 < b → 0 < d → frac a b +ℚ frac c d ≡ frac (a *ℤ pos d +ℤ c *ℤ pos b) (b * d) }
    ensures difference { (a c : ℤ) (b d : ℕ) → 0 < b → 0 < d → frac a b -ℚ frac c d ≡ frac (a *ℤ pos d -ℤ c *ℤ pos b) (b * d) }
    ensures negative { (a : ℤ) (b : ℕ) → 0 < b → neg_ℚ (frac a b) ≡ frac (neg_ℤ a) b }
    ensures product { (a c : ℤ) (b d : ℕ) → 0 < b → 0 < d → frac a b *ℚ frac c d ≡ frac (a *ℤ c) (b * d) }
    ensures quotient_by_positive { (a : ℤ) (b c d : ℕ) → 0 < b → 0 < c → 0 < d → frac a b /ℚ frac (pos c) d ≡ frac (a *ℤ pos d) (b * c) }
    ensures quotient_by_negative { (a : ℤ) (b c d : ℕ) → 0 < b → 0 < d → frac a b /ℚ frac (negsuc c) d ≡ frac (a *ℤ neg_ℤ (pos d)) (b * suc c) }
    ensures quotient_by_zero { (x : ℚ) → x /ℚ int (pos 0) ≡ int (pos 0) }
{}

/// The rational numbers are a field.
pub fn field_theorems()
    ensures add_commutes { (x y : ℚ) → x +ℚ y ≡ y +ℚ x }
    ensures add_associates { (x y z : ℚ) → (x +ℚ y) +ℚ z ≡ x +ℚ (y +ℚ z) }
    ensures zero_added { (x : ℚ) → x +ℚ int (pos 0) ≡ x }
    ensures negative_added { (x : ℚ) → x +ℚ neg_ℚ x ≡ int (pos 0) }
    ensures multiply_commutes { (x y : ℚ) → x *ℚ y ≡ y *ℚ x }
    ensures multiply_associates { (x y z : ℚ) → (x *ℚ y) *ℚ z ≡ x *ℚ (y *ℚ z) }
    ensures multiplied_by_one { (x : ℚ) → x *ℚ int (pos 1) ≡ x }
    ensures multiplied_by_inverse { (x : ℚ) → x ≢ int (pos 0) → x *ℚ inv_ℚ x ≡ int (pos 1) }
    ensures distributes { (x y z : ℚ) → x *ℚ (y +ℚ z) ≡ x *ℚ y +ℚ x *ℚ z }
    ensures one_is_not_zero { int (pos 1) ≢ int (pos 0) }
{}

/// The order is total, and goes along with sums and products; the tests `le_ℚ` and `lt_ℚ` decide it.
pub fn order_theorems()
    ensures reflexive { (x : ℚ) → x ≤ℚ x }
    ensures transitive { (x y z : ℚ) → x ≤ℚ y → y ≤ℚ z → x ≤ℚ z }
    ensures antisymmetric { (x y : ℚ) → x ≤ℚ y → y ≤ℚ x → x ≡ y }
    ensures total { (x y : ℚ) → (x ≤ℚ y) ⊎ (y <ℚ x) }
    ensures strict { (x y : ℚ) → (x <ℚ y) ↔ ((x ≤ℚ y) × (x ≢ y)) }
    ensures sums { (x y z w : ℚ) → x ≤ℚ y → z ≤ℚ w → (x +ℚ z) ≤ℚ (y +ℚ w) }
    ensures products { (x y : ℚ) → IsNonneg x → IsNonneg y → IsNonneg (x *ℚ y) }
    ensures positive_products { (x y : ℚ) → IsPositive x → IsPositive y → IsPositive (x *ℚ y) }
    ensures at_most_is_tested { (x y : ℚ) → T (le_ℚ x y) ↔ (x ≤ℚ y) }
    ensures below_is_tested { (x y : ℚ) → T (lt_ℚ x y) ↔ (x <ℚ y) }
{}

/// Integers as fractions keep their sums, products and order; `quotient m n` is m divided by n.
pub fn integer_theorems()
    ensures equal { (m n : ℤ) → int m ≡ int n → m ≡ n }
    ensures at_most { (m n : ℤ) → (int m ≤ℚ int n) ↔ (m ≤ℤ n) }
    ensures below { (m n : ℤ) → (int m <ℚ int n) ↔ (m <ℤ n) }
    ensures sum { (m n : ℤ) → int (m +ℤ n) ≡ int m +ℚ int n }
    ensures difference { (m n : ℤ) → int (m -ℤ n) ≡ int m -ℚ int n }
    ensures product { (m n : ℤ) → int (m *ℤ n) ≡ int m *ℚ int n }
    ensures divided { (m n : ℤ) → n ≢ pos 0 → int n *ℚ quotient m n ≡ int m }
    ensures divided_by_zero { (m : ℤ) → quotient m (pos 0) ≡ int (pos 0) }
{}

/// Absolute values, and the lesser and the greater of two numbers.
pub fn absolute_theorems()
    ensures of_nonnegative { (x : ℚ) → IsNonneg x → abs_ℚ x ≡ x }
    ensures of_others { (x : ℚ) → x ≤ℚ int (pos 0) → abs_ℚ x ≡ neg_ℚ x }
    ensures triangle { (x y : ℚ) → abs_ℚ (x +ℚ y) ≤ℚ (abs_ℚ x +ℚ abs_ℚ y) }
    ensures product { (x y : ℚ) → abs_ℚ (x *ℚ y) ≡ abs_ℚ x *ℚ abs_ℚ y }
    ensures lesser { (x y z : ℚ) → (z ≤ℚ min_ℚ x y) ↔ ((z ≤ℚ x) × (z ≤ℚ y)) }
    ensures greater { (x y z : ℚ) → (max_ℚ x y ≤ℚ z) ↔ ((x ≤ℚ z) × (y ≤ℚ z)) }
{}

/// Common denominators: l times x is an integer exactly where the denominator of x divides l, and `common_denom` is the positive one that
/// serves a whole list and divides each other that does.
pub fn denominator_theorems()
    ensures over_a_multiple { (x : ℚ) (l : ℕ) → 0 < l → x.denom ∣ l → frac (x.numer *ℤ pos (l / x.denom)) l ≡ x }
    ensures at_a_multiple { (x : ℚ) (l : ℕ) → 0 < l → x.denom ∣ l → int (pos l) *ℚ x ≡ int (x.numer *ℤ pos (l / x.denom)) }
    ensures only_at_a_multiple { (x : ℚ) (l : ℕ) (z : ℤ) → int (pos l) *ℚ x ≡ int z → x.denom ∣ l }
    ensures positive { (xs : List ℚ) → 0 < common_denom xs }
    ensures common { (xs : List ℚ) → IsCommonDenom (common_denom xs) xs }
    ensures least { (n : ℕ) (xs : List ℚ) → IsCommonDenom n xs → common_denom xs ∣ n }
{}

/// Pairs of numbers, the first of more weight: a total order that goes along with sums, and with products by a number that is not negative.
pub fn pair_theorems()
    ensures reflexive { (p : Pair) → IsAtMost p p }
    ensures transitive { (p q r : Pair) → IsAtMost p q → IsAtMost q r → IsAtMost p r }
    ensures antisymmetric { (p q : Pair) → IsAtMost p q → IsAtMost q p → p ≡ q }
    ensures total { (p q : Pair) → IsAtMost p q ⊎ IsBelow q p }
    ensures not_both { (p q : Pair) → IsAtMost p q → IsBelow q p → ⊥ }
    ensures sums { (p q r s : Pair) → IsAtMost p q → IsAtMost r s → IsAtMost (pair_add p r) (pair_add q s) }
    ensures products { (k : ℚ) (p q : Pair) → IsNonneg k → IsAtMost p q → IsAtMost (pair_scale k p) (pair_scale k q) }
{}
