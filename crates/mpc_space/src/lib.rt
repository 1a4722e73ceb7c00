//! Vectors and matrices of rational numbers, positive definite matrices and convex quadratic programs, for contracts and proofs.
//!
//! A vector is a list, and stands for one with no end whose entries past the list are 0; a matrix is the list of its rows. So most laws
//! have no condition on lengths. The crate has no code that computes. Each function below has an empty body, and its clauses are the theorems
//! that it is named after.
#![tactic(auto)]

ghost use Rattle.std.specs.Prelude.{◌≡◌, ◌≢◌, ◌↔◌, ℕ, ◌<◌, ◌≤◌, List, [], ◌∷◌, length, map, All, get_or, slice_set, pos};
ghost use Rattle.mpc_exact.specs.Rational.{ℚ, int, ◌+ℚ◌, ◌-ℚ◌, ◌*ℚ◌, ◌≤ℚ◌, ◌<ℚ◌, IsNonneg, IsPositive};
ghost use Rattle.mpc_space.specs.Vector.{coordinate, cell, column, dot, vec_add, vec_scale, vec_sub, mat_vec, vec_mat, transpose, quadratic, bordered, later_entries, IsZero, IsSymmetric, IsIndependent, AllNonneg, AllAtMost};
ghost use Rattle.mpc_space.specs.Matrix.{RationalMatrix, height, IsRectangular, entry, mat_mul, identity};
ghost use Rattle.mpc_space.specs.Total.{total};
ghost use Rattle.mpc_space.specs.Definite.{IsDefinite, schur};
ghost use Rattle.mpc_space.specs.Optimality.{objective, IsStationary};

/// The dot is bilinear, symmetric and the sum of the products of entries.
pub fn dot_theorems()
    ensures entries { (xs ys : List ℚ) → dot xs ys ≡ total (length xs) (λ i. coordinate xs i *ℚ coordinate ys i) }
    ensures symmetric { (xs ys : List ℚ) → dot xs ys ≡ dot ys xs }
    ensures sums { (xs ys zs : List ℚ) → dot (vec_add xs ys) zs ≡ dot xs zs +ℚ dot ys zs }
    ensures multiples { (c : ℚ) (xs ys : List ℚ) → dot (vec_scale c xs) ys ≡ c *ℚ dot xs ys }
    ensures differences { (xs ys zs : List ℚ) → dot (vec_sub xs ys) zs ≡ dot xs zs -ℚ dot ys zs }
    ensures square_is_positive { (xs : List ℚ) → ¬ IsZero xs → IsPositive (dot xs xs) }
    ensures weighted { (ws xs ys : List ℚ) → AllNonneg ws → AllAtMost xs ys → dot ws xs ≤ℚ dot ws ys }
{}

/// Matrices as linear maps, their transposes and their products.
pub fn matrix_theorems()
    ensures entries { (m : List (List ℚ)) (xs : List ℚ) (i : ℕ) → coordinate (mat_vec m xs) i ≡ dot (get_or m i []) xs }
    ensures sums { (m : List (List ℚ)) (xs ys : List ℚ) → mat_vec m (vec_add xs ys) ≡ vec_add (mat_vec m xs) (mat_vec m ys) }
    ensures multiples { (m : List (List ℚ)) (c : ℚ) (xs : List ℚ) → mat_vec m (vec_scale c xs) ≡ vec_scale c (mat_vec m xs) }
    ensures transposed { (m : List (List ℚ)) (i j : ℕ) → cell (transpose m) i j ≡ cell m j i }
    ensures across { (m : List (List ℚ)) (xs ys : List ℚ) → dot (mat_vec m xs) ys ≡ dot xs (mat_vec (transpose m) ys) }
    ensures from_the_left { (m : List (List ℚ)) (xs ys : List ℚ) → dot (mat_vec m xs) ys ≡ dot xs (vec_mat ys m) }
    ensures product_entries { (a b : RationalMatrix) (i j : ℕ) → i < length a.rows → j < b.columns → entry (mat_mul a b) i j ≡ dot (get_or a.rows i []) (column b.rows j) }
    ensures product { (a b : RationalMatrix) (xs : List ℚ) → length xs ≤ b.columns → mat_vec (mat_mul a b).rows xs ≡ mat_vec a.rows (mat_vec b.rows xs) }
    ensures same_entries { (a b : RationalMatrix) → IsRectangular a → IsRectangular b → height a ≡ height b → a.columns ≡ b.columns → ((i j : ℕ) → i < height a → j < a.columns → entry a i j ≡ entry b i j) → a ≡ b }
    ensures identity_keeps { (n : ℕ) (xs : List ℚ) → length xs ≡ n → mat_vec (identity n).rows xs ≡ xs }
{}

/// Two steps of elimination keep the solutions of a system: a row times a number that isn't 0, and a multiple of another row added.
pub fn elimination_theorems()
    ensures scaled { (rows : List (List ℚ)) (rhs xs : List ℚ) (i : ℕ) (k : ℚ) → length rhs ≡ length rows → k ≢ int (pos 0) → (mat_vec rows xs ≡ rhs) ↔ (mat_vec (slice_set rows i (vec_scale k (get_or rows i []))) xs ≡ slice_set rhs i (k *ℚ coordinate rhs i)) }
    ensures added { (rows : List (List ℚ)) (rhs xs : List ℚ) (i j : ℕ) (k : ℚ) → length rhs ≡ length rows → j ≢ i → (mat_vec rows xs ≡ rhs) ↔ (mat_vec (slice_set rows i (vec_add (get_or rows i []) (vec_scale k (get_or rows j [])))) xs ≡ slice_set rhs i (coordinate rhs i +ℚ k *ℚ coordinate rhs j)) }
{}

/// Quadratic forms of symmetric matrices.
pub fn quadratic_theorems()
    ensures sums { (m : List (List ℚ)) → IsSymmetric m → (xs ys : List ℚ) → quadratic m (vec_add xs ys) ≡ quadratic m xs +ℚ int (pos 2) *ℚ dot xs (mat_vec m ys) +ℚ quadratic m ys }
    ensures differences { (m : List (List ℚ)) → IsSymmetric m → (xs ys : List ℚ) → quadratic m (vec_sub xs ys) ≡ quadratic m xs -ℚ int (pos 2) *ℚ dot xs (mat_vec m ys) +ℚ quadratic m ys }
    ensures multiples { (m : List (List ℚ)) (c : ℚ) (xs : List ℚ) → quadratic m (vec_scale c xs) ≡ (c *ℚ c) *ℚ quadratic m xs }
{}

/// A matrix [[a, b'], [b, c]] is positive definite exactly where its pivot a is positive and the rest after elimination, c - b b'/a, is
/// positive definite (elimination by Gauss; Schur's complement).
pub fn definite_theorems()
    ensures by_pivot { (a : ℚ) (b : List ℚ) (c : List (List ℚ)) → length b ≡ length c → IsDefinite (bordered a b c) ↔ (IsPositive a × IsDefinite (schur a b c)) }
    ensures any_symmetric_matrix { (a : ℚ) (b : List ℚ) (rows : List (List ℚ)) → length b ≡ length rows → All (λ row. 0 < length row) rows → IsSymmetric ((a ∷ b) ∷ rows) → (a ∷ b) ∷ rows ≡ bordered a b (map later_entries rows) }
    ensures stays_symmetric { (a : ℚ) (b : List ℚ) (c : List (List ℚ)) → IsSymmetric (bordered a b c) → IsSymmetric (schur a b c) }
{}

/// Convex quadratic programs: under the conditions of Karush (1939), Kuhn and Tucker (1951) no feasible point costs less, and where h is
/// positive definite every other feasible point costs more; the conditions' matrix is then singular only where the rows are dependent.
pub fn optimality_theorems()
    ensures least { (h : List (List ℚ)) (f : List ℚ) (g : List (List ℚ)) (w z l : List ℚ) → IsStationary h f g w z l → IsSymmetric h → ((x : List ℚ) → IsNonneg (quadratic h x)) → (x : List ℚ) → AllAtMost (mat_vec g x) w → objective h f z ≤ℚ objective h f x }
    ensures unique { (h : List (List ℚ)) (f : List ℚ) (g : List (List ℚ)) (w z l : List ℚ) → IsStationary h f g w z l → IsSymmetric h → IsDefinite h → length z ≡ length h → (x : List ℚ) → length x ≡ length h → x ≢ z → AllAtMost (mat_vec g x) w → objective h f z <ℚ objective h f x }
    ensures regular { (h g : List (List ℚ)) (x l : List ℚ) → IsZero (vec_add (mat_vec h x) (vec_mat l g)) → IsZero (mat_vec g x) → IsDefinite h → length x ≡ length h → IsIndependent g → length l ≡ length g → IsZero x × IsZero l }
{}
