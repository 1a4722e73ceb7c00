//! The first point, which is a form in the extended counts.

ghost use Rattle.std.specs.Prelude.{◌≡◌, ℕ, List, [], ◌∷◌, ◌^◌, ◌<◌, IfOk, IfSome, IsTrue, MatchResult, length, get_or};
ghost use Rattle.mpc_exact.specs.Rational.{ℚ};
ghost use Rattle.mpc_space.specs.Vector.{dot};
ghost use Rattle.mpc_space.specs.Definite.{IsDefinite};
ghost use Rattle.mpc_space.specs.Matrix.{height};
ghost use Rattle.mpc_linear.specs.Dot.{DotFits};
ghost use Rattle.mpc_bordered.specs.Stages.{ChangeFits};
ghost use Rattle.mpc_wholes.specs.Wholes.{IsDenominator};
ghost use Rattle.mpc_online.specs.Widths.{ProductsFit};
ghost use Rattle.mpc_online.specs.Wholes.{AreRowsOver, entries_of};
ghost use Rattle.mpc_online.specs.Shared.{IsKeptOf};
ghost use Rattle.mpc_online.specs.Openings.{AreCountsTo, IsSmallSum, AreExtendedCounts, IsFirstPoint, PointFits, AreOpeningForms, IsOpeningOf};
ghost use Rattle.mpc_online.specs.Answers.{IfStopWide};

use crate::matrices::opening_right;
use crate::points::{Point, point_of};
use crate::prepared::Opening;
use crate::solutions::{Stop, part, products, solution};
use crate::whole_moves::lowest;
use crate::wholes::{grown_size, products_in_wholes, whole_rows};
use mpc_bordered::{Kept, combined_theorems, first_stage, next_stage};
use mpc_frac::{Frac, NoMemory};
use mpc_linear::{Matrix, sum_theorems};
use mpc_rows::{Counts, Qp};
use mpc_sets::ActiveSet;
use mpc_wholes::{Wholes, common_in, common_of, numerator_over, over_theorems};
use std::alloc::{AllocError, Global};

/// Whether the sum of the products with counts up to these is small over the denominator, and so each sum on the way to it.
fn is_small_sum(entries: &[Frac], all: u128, most: &[u64]) -> bool
    requires sizes { length entries.now ≡ length most.now }
    requires denom { IsDenominator all }
    ensures { IsTrue result → (c : List ℚ) → AreCountsTo most.now c → IsSmallSum all entries.now c }
{
    sum_theorems();
    over_theorems();
    let mut total = 0;
    for index in 0..entries.len() {
        let Some(numerator) = numerator_over(&entries[index], all) else {
            return false;
        };
        let Some(next) = grown_size(total, numerator, most[index]) else {
            return false;
        };
        total = next;
    }
    true
}

/// Whether the products with counts up to these fit.
fn sum_fits(entries: &[Frac], most: &[u64]) -> bool
    requires { length entries.now ≡ length most.now }
    ensures { IsTrue result → (c : List ℚ) → AreCountsTo most.now c → DotFits entries.now c }
{
    let Some(all) = common_in(1, entries) else {
        return false;
    };
    is_small_sum(entries, all, most)
}

/// Whether the products of all rows with counts up to these fit.
fn sums_fit(matrix: &Matrix, most: &[u64]) -> bool
    requires { matrix.now.columns ≡ length most.now }
    ensures { IsTrue result → (c : List ℚ) → AreCountsTo most.now c → ProductsFit matrix.now c }
{
    let _columns = matrix.cols();
    for index in 0..matrix.rows() {
        if !sum_fits(matrix.row(index), most) {
            return false;
        }
    }
    true
}

/// A common denominator of both lists, where it is at most 2^124.
fn common_to(first: &[Frac], second: &[Frac]) -> Option<u128>
    ensures { IfSome result IsDenominator }
{
    let left = common_in(1, first)?;
    common_in(left, second)
}

/// Whether the operations fit that make the value of the new form of that of the old one, at all counts up to these.
fn change_fits(old: &[Frac], new: &[Frac], most: &[u64]) -> bool
    requires old { length old.now ≡ length most.now }
    requires new { length new.now ≡ length most.now }
    ensures { IsTrue result → (c : List ℚ) → AreCountsTo most.now c → ChangeFits (dot old.now c) (dot new.now c) }
{
    over_theorems();
    let Some(all) = common_to(old, new) else {
        return false;
    };
    if !is_small_sum(old, all, most) {
        return false;
    }
    is_small_sum(new, all, most)
}

/// Whether so do those of all forms.
fn changes_fit(old: &Matrix, new: &Matrix, most: &[u64]) -> bool
    requires rows { height new.now ≡ height old.now }
    requires old { old.now.columns ≡ length most.now }
    requires new { new.now.columns ≡ length most.now }
    ensures { IsTrue result → (c : List ℚ) → AreCountsTo most.now c → (i : ℕ) → i < height old.now → ChangeFits (dot (get_or old.now.rows i []) c) (dot (get_or new.now.rows i []) c) }
{
    let _columns = (old.cols(), new.cols(), new.rows());
    for index in 0..old.rows() {
        if !change_fits(old.row(index), new.row(index), most) {
            return false;
        }
    }
    true
}

/// The greatest extended counts of the grid.
fn greatest(alloc: Global, counts: &Counts) -> Result<Vec<u64>, AllocError>
    ensures { IfOk result (λ most. most.items ≡ 1 ∷ counts.now) }
{
    let mut most = Vec::with_capacity(alloc, counts.len().saturating_add(1))?;
    most.push(1)?;
    most.extend_from_slice(counts.as_slice())?;
    Ok(most)
}

/// The first point as forms, where bounds on their values show that each operation on the way to it fits at all states of the grid.
fn opening_forms(
    alloc: Global,
    qp: &Qp,
    kept: &Kept,
    most: &[u64],
) -> Result<Option<Matrix>, NoMemory>
    requires kept { IsKeptOf qp.now kept.now }
    requires most { most.now ≡ 1 ∷ qp.now.counts }
    ensures { IfOk result (λ o. IfSome o (AreOpeningForms qp.now)) }
{
    combined_theorems();
    let mut stage = first_stage(alloc, &qp.f)?;
    for column in 0..qp.h.rows() {
        let Some(next) = next_stage(alloc, kept, &stage, column)? else {
            return Ok(None);
        };
        if !changes_fit(&stage, &next, most) {
            return Ok(None);
        }
        stage = next;
    }
    Ok(Some(stage))
}

/// The first point as forms, where each operation on the way to it is shown to fit at all states of the grid.
pub fn opening_of(
    alloc: Global,
    qp: &Qp,
    shared: &Option<Kept>,
) -> Result<Option<Opening>, NoMemory>
    requires { IfSome shared.now (IsKeptOf qp.now) }
    ensures { IfOk result (λ o. IfSome o (IsOpeningOf qp.now)) }
{
    let Some(kept) = shared else {
        return Ok(None);
    };
    let most = greatest(alloc, &qp.counts)?;
    if !sums_fit(&qp.f, &most) {
        return Ok(None);
    }
    let Some(forms) = opening_forms(alloc, qp, kept, &most)? else {
        return Ok(None);
    };
    let rows = whole_rows(alloc, &forms, common_of(1, &forms).unwrap_or(1))?;
    Ok(Some(Opening { forms, rows }))
}

/// The first point by an elimination of its own.
fn eliminated_point(
    alloc: Global,
    qp: &Qp,
    extended_counts: &[Frac],
    costs: &[Option<Wholes>],
) -> Result<Vec<Frac>, Stop>
    requires definite { IsDefinite qp.now.h.rows }
    requires costs { AreRowsOver qp.now.f costs.now }
    requires extended { qp.now.f.columns ≡ length extended_counts.now }
    ensures point { IfOk result (λ z. IsFirstPoint qp.now extended_counts.now z.items) }
    ensures wide { MatchResult result (λ _. PointFits qp.now extended_counts.now) (λ stop. IfStopWide stop (¬ PointFits qp.now extended_counts.now)) }
{
    let slopes = products(alloc, &qp.f, extended_counts, costs)?;
    let right = opening_right(alloc, qp, &slopes)?;
    let solved = solution(alloc, qp, ActiveSet::empty(), &right)?;
    let point = part(alloc, &solved, 0, qp.h.rows())?;
    Ok(point)
}

/// The first point: the values of its forms, where these are kept and fit, in whole numbers where these are small.
pub fn first_point(
    alloc: Global,
    qp: &Qp,
    extended_counts: &[Frac],
    costs: &[Option<Wholes>],
    opening: &Option<Opening>,
) -> Result<Point, Stop>
    requires definite { IsDefinite qp.now.h.rows }
    requires costs { AreRowsOver qp.now.f costs.now }
    requires extended { AreExtendedCounts qp.now extended_counts.now }
    requires opening { IfSome opening.now (IsOpeningOf qp.now) }
    ensures point { IfOk result (λ z. IsFirstPoint qp.now extended_counts.now (entries_of z)) }
    ensures wide { MatchResult result (λ _. PointFits qp.now extended_counts.now) (λ stop. IfStopWide stop (¬ PointFits qp.now extended_counts.now)) }
{
    if let Some(known) = opening {
        if let Some(numbers) = products_in_wholes(&known.forms, &known.rows, extended_counts) {
            let count = known.rows.len();
            return Ok(Point::Whole(lowest(numbers, count), count));
        }
        match products(alloc, &known.forms, extended_counts, &known.rows) {
            Ok(point) => return Ok(point_of(point)),
            Err(Stop::NoMemory) => return Err(Stop::NoMemory),
            Err(Stop::Wide) => {}
        }
    }
    let point = eliminated_point(alloc, qp, extended_counts, costs)?;
    Ok(point_of(point))
}
