//! The bounds on a controller's numbers, tested law by law and node by node.

ghost use Rattle.std.specs.Prelude.{◌≡◌, ◌+◌, ◌*◌, ◌^◌, ◌<◌, ◌≤◌, ◌↔◌, length, All, unsigned_abs, IsTrue, IfOk, MatchOption};
ghost use Rattle.mpc_space.specs.Matrix.{height};
ghost use Rattle.mpc_controller.specs.Parts.{limits_of, IsLawFor, HaveShapes};
ghost use Rattle.mpc_controller.specs.Bounds.{reach, FormFits, SplitFits, InputsFit, LawFits, NodeFits, HasSize, IsFirstWideForm, IsWideInput, IsFirstWideNode, IsFirstBroken, KeepBounds};

use mpc_frac::{Frac, NoMemory};
use mpc_linear::{LinearError, RowInt, Vector, common};
use mpc_plant::Plant;
use mpc_rows::{Counts, Law, LawTable, Node, Place, Tree};
use std::alloc::Global;

/// The greatest counts of the plant's grid.
pub fn limits(alloc: Global, plant: &Plant) -> Result<Counts, NoMemory>
    ensures { IfOk result (λ counts. counts ≡ limits_of plant.now) }
{
    let mut counts = Counts::new(alloc);
    for i in 0..plant.grid.len() {
        counts.push(plant.grid.at(i).count)?;
    }
    Ok(counts)
}

/// `far + |slope| count`, if it lies below 2^128.
fn farther(far: u128, slope: i128, count: u64) -> Option<u128>
    ensures { MatchOption result (2 ^ 127 ≤ far + unsigned_abs slope * count)
        (λ sum. sum ≡ far + unsigned_abs slope * count) }
{
    match slope.unsigned_abs().checked_mul(u128::from(count)) {
        Some(step) => far.checked_add(step),
        None => None,
    }
}

/// Whether `start + k_1 t_1 + .. + k_n t_n` fits at all counts up to these, whatever the signs.
fn is_within_reach(start: i128, slopes: &[i128], counts: &[u64]) -> bool
    requires sizes { length slopes.now ≡ length counts.now }
    ensures { IsTrue result ↔ (unsigned_abs start + reach slopes.now counts.now < 2 ^ 127) }
{
    let mut far = start.unsigned_abs();
    for i in 0..slopes.len() {
        match farther(far, slopes[i], counts[i]) {
            Some(sum) => far = sum,
            None => return false,
        }
    }
    far <= i128::MAX as u128
}

/// Whether an affine form, its constant first, fits over its least common denominator, with each of
/// its values at counts up to these.
pub fn form_fits(alloc: Global, form: &Vector, counts: &[u64]) -> Result<bool, NoMemory>
    requires { length form.now ≡ length counts.now + 1 }
    ensures { IfOk result (λ fits. IsTrue fits ↔ FormFits counts.now form.now) }
{
    match common(alloc, form) {
        Ok(whole) => {
            let k = whole.k.as_slice();
            Ok(is_within_reach(k[0], &k[1..], counts))
        }
        Err(LinearError::Wide(_)) => Ok(false),
        Err(LinearError::NoMemory) => Err(NoMemory),
    }
}

/// Whether both sides of a row fit at counts up to these, also together.
pub fn split_fits(row: &RowInt, counts: &[u64]) -> bool
    requires { length row.now.a ≡ length counts.now }
    ensures { IsTrue result ↔ SplitFits counts.now row.now }
{
    is_within_reach(row.b, row.a.as_slice(), counts)
}

/// The number, from 1, of the law's first input whose form doesn't fit.
fn first_wide_input(
    alloc: Global,
    law: &Law,
    inputs: u32,
    counts: &[u64],
) -> Result<Option<u32>, NoMemory>
    requires inputs { inputs ≤ height law.now.moves }
    requires columns { law.now.moves.columns ≡ length counts.now + 1 }
    ensures { IfOk result (λ found. MatchOption found (InputsFit counts.now law.now inputs)
        (IsFirstWideForm counts.now law.now inputs)) }
{
    prove!(law.moves.cols() as usize == counts.len() + 1);
    for place in 0..inputs {
        let form = Vector::from_slice(alloc, law.moves.row(place))?;
        if !form_fits(alloc, &form, counts)? {
            return Ok(Some(place + 1));
        }
    }
    Ok(None)
}

/// The number of the first law that doesn't fit, and that of its first input whose form doesn't, both
/// from 1.
fn first_wide_law(
    alloc: Global,
    plant: &Plant,
    counts: &[u64],
    laws: &LawTable,
) -> Result<Option<(u32, u32)>, NoMemory>
    requires counts { counts.now ≡ limits_of plant.now }
    requires few { length laws.now ≤ 4598479 }
    requires shapes { All (IsLawFor plant.now) laws.now }
    ensures { IfOk result (λ found. MatchOption found (All (LawFits plant.now) laws.now)
        (λ w. IsWideInput plant.now laws.now w.0 w.1)) }
{
    for place in 0..laws.len() {
        if let Some(input) = first_wide_input(alloc, laws.at(place), plant.p, counts)? {
            return Ok(Some((place as u32 + 1, input)));
        }
    }
    Ok(None)
}

/// Whether the node's row fits at counts up to these; a leaf has none.
fn node_fits(node: &Node, counts: &[u64]) -> bool
    requires { HasSize (length counts.now) node.now }
    ensures { IsTrue result ↔ NodeFits counts.now node.now }
{
    match node {
        Node::Split(row) => split_fits(row, counts),
        Node::Law { .. } | Node::NoMove { .. } => true,
    }
}

/// The number, from 1, of the first node that doesn't fit.
fn first_wide_node(counts: &[u64], tree: &Tree) -> Option<u64>
    requires { All (HasSize (length counts.now)) tree.now }
    ensures { MatchOption result (All (NodeFits counts.now) tree.now)
        (IsFirstWideNode counts.now tree.now) }
{
    for place in 0..tree.len() {
        if !node_fits(tree.at(place), counts) {
            return Some(place as u64 + 1);
        }
    }
    None
}

/// The first bound that is broken.
pub fn first_broken(
    alloc: Global,
    plant: &Plant,
    counts: &[u64],
    laws: &LawTable,
    tree: &Tree,
) -> Result<Option<Place>, NoMemory>
    requires counts { counts.now ≡ limits_of plant.now }
    requires shapes { HaveShapes plant.now laws.now tree.now }
    ensures { IfOk result (λ found. MatchOption found (KeepBounds plant.now laws.now tree.now)
        (IsFirstBroken plant.now laws.now tree.now)) }
{
    if let Some((law, input)) = first_wide_law(alloc, plant, counts, laws)? {
        return Ok(Some(Place::LawBound(law, input)));
    }
    match first_wide_node(counts, tree) {
        Some(node) => Ok(Some(Place::NodeBound(node))),
        None => Ok(None),
    }
}
