//! How many words the numbers of a controller's block have.

ghost use Rattle.std.specs.Prelude.{◌≡◌, ◌+◌, ◌*◌, ◌^◌, ◌≤◌, nat_lt, unsigned_abs, length, take, MatchOption};
ghost use Rattle.std.specs.List.{list_all};
ghost use Rattle.mpc_linear.specs.Whole.{WholeFits};
ghost use Rattle.mpc_controller.specs.Bounds.{LawFits, HasSize, reach};
ghost use Rattle.mpc_controller.specs.Parts.{IsLawFor};
ghost use Rattle.mpc_block.specs.Block.{spans_of, row_fits_word, form_fits_word, law_fits_word, width_of};

use crate::forms::{denominator, numerators};
use crate::lines::Width;
use mpc_controller::Controller;
use mpc_frac::Frac;
use mpc_plant::Plant;
use mpc_rows::{Law, Node};

/// The greatest counts of a plant's grid, and 1 where that is 0.
fn spans(plant: &Plant) -> [u64; 4]
    ensures { take plant.now.n result ≡ spans_of plant.now }
{
    let mut spans = [0; 4];
    for i in 0..plant.grid.len() {
        spans[i] = plant.grid.at(i).count.max(1);
    }
    spans
}

/// `far + |slope| count`, if it lies below 2^128.
fn farther(far: u128, slope: i128, count: u64) -> Option<u128>
    ensures { MatchOption result (2 ^ 127 ≤ far + unsigned_abs slope * count)
        (λ sum. sum ≡ far + unsigned_abs slope * count) }
{
    match slope.unsigned_abs().checked_mul(count as u128) {
        Some(step) => far.checked_add(step),
        None => None,
    }
}

/// Whether `start + k_1 t_1 + .. + k_n t_n` is formed within 63 bits, whatever the signs.
fn is_within_word(start: i128, slopes: &[i128], counts: &[u64]) -> bool
    requires sizes { length slopes.now ≡ length counts.now }
    ensures { result ≡ nat_lt (unsigned_abs start + reach slopes.now counts.now) (2 ^ 63) }
{
    let mut far = start.unsigned_abs();
    for i in 0..slopes.len() {
        match farther(far, slopes[i], counts[i]) {
            Some(sum) => far = sum,
            None => return false,
        }
    }
    far < 0x8000_0000_0000_0000
}

/// Whether the row of a node, if it is a split, keeps within 63 bits at such counts.
fn row_fits_word(node: &Node, spans: &[u64]) -> bool
    requires { HasSize (length spans.now) node.now }
    ensures { result ≡ row_fits_word spans.now node.now }
{
    match node {
        Node::Split(row) => is_within_word(row.b, row.a.as_slice(), spans),
        Node::Law { .. } | Node::NoMove { .. } => true,
    }
}

/// Whether the affine form with these coefficients keeps within 63 bits at such counts.
fn form_fits_word(form: &[Frac], spans: &[u64]) -> bool
    requires size { length form.now ≡ length spans.now + 1 }
    requires few { length form.now ≤ 5 }
    requires fits { WholeFits form.now }
    ensures { result ≡ form_fits_word spans.now form.now }
{
    let den = denominator(form);
    let k = numerators(form, den);
    den < 0x8000_0000_0000_0000 && is_within_word(k[0], &k[1..form.len()], spans)
}

/// Whether the first move of each of a law's inputs keeps within 63 bits at the counts of the grid.
fn law_fits_word(plant: &Plant, law: &Law) -> bool
    requires shape { IsLawFor plant.now law.now }
    requires fits { LawFits plant.now law.now }
    ensures { result ≡ law_fits_word plant.now law.now }
{
    let spans = spans(plant);
    for i in 0..plant.p {
        if !form_fits_word(law.moves.row(i), &spans[..plant.n as usize]) {
            return false;
        }
    }
    true
}

/// Whether each row of a controller's tree keeps within 63 bits at the counts of the grid.
fn rows_fit_word(controller: &Controller) -> bool
    ensures { result ≡ list_all (row_fits_word (spans_of controller.now.plant)) controller.now.tree }
{
    let plant = controller.plant();
    let tree = controller.tree();
    let spans = spans(plant);
    for k in 0..tree.len() {
        if !row_fits_word(tree.at(k), &spans[..plant.n as usize]) {
            return false;
        }
    }
    true
}

/// Whether each first move of a controller's laws does.
fn laws_fit_word(controller: &Controller) -> bool
    ensures { result ≡ list_all (law_fits_word controller.now.plant) controller.now.laws }
{
    let plant = controller.plant();
    let laws = controller.laws();
    for j in 0..laws.len() {
        if !law_fits_word(plant, laws.at(j)) {
            return false;
        }
    }
    true
}

/// How many words a number of a controller's block has.
pub fn width(controller: &Controller) -> Width
    ensures { result ≡ width_of controller.now }
{
    if rows_fit_word(controller) && laws_fit_word(controller) {
        Width::Short
    } else {
        Width::Wide
    }
}
