//! Active sets: sets of row numbers, their order, and the next level.
#![tactic(auto)]

ghost use Rattle.std.specs.Prelude.{◌≡◌, ◌≢◌, ◌^◌, All, AllPairs, ℕ, List, ◌∷◌, ◌++◌, IfOk, OnOk, OnErr, vec_len, vec_capacity, ◌*◌, ◌+◌, ◌-◌, ◌<◌, ◌≤◌, ◌↔◌, [], IsTrue, Contains, length, slice_index};
ghost use Rattle.std.specs.Ordering.{nat_cmp};
ghost use Rattle.std.specs.Cmp.Lexicographic.{slice_cmp};
ghost use Rattle.mpc_sets.specs.RowSet.{IsSetOfRows, with_row, without_row};
ghost use Rattle.mpc_sets.specs.SetMask.{mask_of};
ghost use Rattle.std.specs.Fmt.{decimal};
ghost use Rattle.mpc_sets.specs.SetText.{set_text};
ghost use Rattle.mpc_sets.specs.SetOrder.{IsInOrder};
ghost use Rattle.mpc_sets.specs.NextLevel.{IsOfOneSize, IsLevel, IsNextOf, IsSingle, AllOneLarger, ExtendsOneOf, HoldsNext};

mod theorems;

use mpc_frac::NoMemory;
use std::alloc::Global;
use std::cmp::Ordering;
use std::marker::Model;
pub use theorems::{count_theorems, level_theorem, member_theorems, order_theorems};

/// The greatest row number that a set can hold.
pub const LAST_ROW: u32 = 60;

/// A set of row numbers from 1 to [`LAST_ROW`], as the rows of a quadratic program that hold with
/// equality. Contracts see the list of its members in rising order.
#[derive(Clone, Copy, Debug, Drop)]
pub struct ActiveSet {
    mask: u64,
}

impl Model for ActiveSet {
    ghost use Rattle.std.specs.Prelude.{ℕ, List};

    ghost Value = { List ℕ };

    ghost use Rattle.mpc_sets.specs.SetMask.{members_of, mask_of, IsMask, mask_of-members_of};

    ghost view = { λ s. members_of s.mask };

    ghost invariant = { λ s. IsMask s.mask };

    ghost inverse = { λ members. record { mask = mask_of members } };

    ghost inverse_ok = { λ s h. λ i. record { mask = mask_of-members_of s.mask h i } };
}

impl ActiveSet {
    /// The set without members.
    pub fn empty() -> ActiveSet
        ensures { result ≡ [] }
    {
        ActiveSet { mask: 0 }
    }

    /// This set with the row too.
    pub fn with(self, row: u32) -> ActiveSet
        requires from_one { 1 ≤ row }
        requires to_last { row ≤ LAST_ROW }
        ensures value { result ≡ with_row row self }
        ensures is_set { IsSetOfRows LAST_ROW result }
    {
        ActiveSet {
            mask: self.mask | 1 << row,
        }
    }

    /// This set without the row.
    pub fn without(self, row: u32) -> ActiveSet
        requires from_one { 1 ≤ row }
        requires to_last { row ≤ LAST_ROW }
        ensures value { result ≡ without_row row self }
        ensures is_set { IsSetOfRows LAST_ROW result }
    {
        ActiveSet {
            mask: self.mask & !(1 << row),
        }
    }

    /// Whether the row is a member.
    pub fn has(self, row: u32) -> bool
        requires from_one { 1 ≤ row }
        requires to_last { row ≤ LAST_ROW }
        ensures member { IsTrue result ↔ Contains self row }
        ensures is_set { IsSetOfRows LAST_ROW self }
    {
        self.mask >> row & 1 == 1
    }

    /// The number of members.
    pub fn size(self) -> u32
        ensures value { result ≡ length self }
        ensures within { result ≤ LAST_ROW }
        ensures is_set { IsSetOfRows LAST_ROW self }
    {
        self.mask.count_ones()
    }

    /// The member at the position in rising order, counted from 1.
    pub fn member(self, position: u32) -> u32
        requires from_one { 1 ≤ position }
        requires to_size { position ≤ length self }
        ensures value { result ≡ slice_index self (position - 1) }
        ensures within { (1 ≤ result) × (result ≤ LAST_ROW) }
        ensures is_set { IsSetOfRows LAST_ROW self }
    {
        let mut rest = self.mask;
        for _ in 1..position {
            rest &= rest - 1;
        }
        rest.trailing_zeros()
    }

    /// The greatest member.
    fn last(self) -> u32
        requires { 0 < length self }
        ensures value { self ≡ without_row result self ++ result ∷ [] }
        ensures within { (1 ≤ result) × (result ≤ LAST_ROW) }
        ensures is_set { IsSetOfRows LAST_ROW self }
    {
        63 - self.mask.leading_zeros()
    }

    /// The order of two sets of one size: the set with the least row that only one of them has is
    /// the first.
    fn cmp_members(&self, other: &ActiveSet) -> Ordering
        requires { length self.now ≡ length other.now }
        ensures { result ≡ slice_cmp nat_cmp self.now other.now }
    {
        let difference = self.mask ^ other.mask;
        if difference == 0 {
            return Ordering::Equal;
        }
        if self.mask >> difference.trailing_zeros() & 1 == 1 {
            Ordering::Less
        } else {
            Ordering::Greater
        }
    }

    /// The mask of the set: bit i stands for the row i.
    pub fn mask(self) -> u64
        ensures value { result ≡ mask_of self }
        ensures is_set { IsSetOfRows LAST_ROW self }
    {
        self.mask
    }
}

impl PartialEq for ActiveSet {
    ghost use Rattle.std.specs.Cmp.Lexicographic.{pointwise};
    ghost use Rattle.std.specs.Prelude.{nat_eq};
    ghost use Rattle.std.proofs.Common.{rules};
    ghost use Rattle.std.specs.Cmp.Rules.{comparing};

    ghost eq = { pointwise nat_eq };

    ghost laws = { Prim.search (comparing, rules) };

    fn eq(&self, other: &ActiveSet) -> bool {
        self.mask == other.mask
    }
}

impl Eq for ActiveSet {
    ghost use Rattle.std.proofs.Common.{rules};
    ghost use Rattle.std.specs.Cmp.Rules.{comparing};

    ghost laws = { Prim.search (comparing, rules) };
}

/// By the number of members, and sets of one size by the first member in which they differ.
impl Ord for ActiveSet {
    ghost use Rattle.std.proofs.Common.{rules};
    ghost use Rattle.std.specs.Cmp.Rules.{comparing};
    ghost use Rattle.mpc_sets.specs.SetOrder.{set_cmp, set_cmp-total, set_cmp-matches_eq};

    ghost cmp = { set_cmp };

    ghost total = { set_cmp-total };

    ghost matches_partial_cmp = { Prim.search (comparing, rules) };

    ghost matches_eq = { set_cmp-matches_eq };

    fn cmp(&self, other: &ActiveSet) -> Ordering {
        match self.size().cmp(&other.size()) {
            Ordering::Equal => self.cmp_members(other),
            unequal => unequal,
        }
    }
}

impl PartialOrd for ActiveSet {
    ghost use Rattle.std.proofs.Common.{rules};
    ghost use Rattle.std.specs.Cmp.{partial_order_from_own_ties};
    ghost use Rattle.std.specs.Cmp.Rules.{comparing};
    ghost use Rattle.std.specs.Ordering.{as_partial_cmp};
    ghost use Rattle.mpc_sets.specs.SetOrder.{set_cmp};

    ghost partial_cmp = { as_partial_cmp set_cmp };

    ghost laws = { partial_order_from_own_ties (Prim.search (comparing, rules)) (Prim.search (comparing, rules)) };

    fn partial_cmp(&self, other: &ActiveSet) -> Option<Ordering> {
        Some(self.cmp(other))
    }
}

/// Appends a row's number, for which there is room.
fn append_row(row: u32, out: &mut Vec<u8>)
    requires small { row ≤ LAST_ROW }
    requires room { vec_len out.old + 2 ≤ vec_capacity out.old }
    ensures text { out.new.items ≡ out.old.items ++ decimal row }
    ensures growth { vec_len out.new ≤ vec_len out.old + 2 }
    ensures capacity { vec_capacity out.old ≤ vec_capacity out.new }
{
    if row >= 10 {
        out.push(b'0' + (row / 10) as u8).unwrap();
    }
    out.push(b'0' + (row % 10) as u8).unwrap();
}

/// Appends the text of a set, for which there is room.
fn append_set(set: ActiveSet, out: &mut Vec<u8>)
    requires { vec_len out.old + (3 * length set + 2) ≤ vec_capacity out.old }
    ensures { out.new.items ≡ out.old.items ++ set_text set }
{
    out.push(b'{').unwrap();
    for position in 1..set.size() + 1 {
        if position > 1 {
            out.push(b',').unwrap();
        }
        append_row(set.member(position), out);
    }
    out.push(b'}').unwrap();
}

/// Appends the members in rising order between braces, as `{1,3}`. Room is reserved first, so that
/// `out` stays as it was where memory is refused, which is the only error.
pub fn write_set(set: ActiveSet, out: &mut Vec<u8>) -> Result<(), NoMemory>
    ensures ok { OnOk result (out.new.items ≡ out.old.items ++ set_text set) }
    ensures err { OnErr result (out.new.items ≡ out.old.items) }
{
    out.reserve(3 * set.size() as usize + 2)
        .map_err(|_| NoMemory)?;
    append_set(set, out);
    Ok(())
}

/// Whether the set is one of those given in order.
fn contains_set(sets: &[ActiveSet], set: ActiveSet) -> bool
    requires { IsInOrder sets.now }
    ensures { IsTrue result ↔ Contains sets.now set }
{
    sets.binary_search(&set).is_ok()
}

/// Whether the sets that lack one row of `beginning` are given.
fn is_supported(grown: &[ActiveSet], joined: ActiveSet, beginning: ActiveSet) -> bool
    requires { IsInOrder grown.now }
    ensures { IsTrue result ↔ ((row : ℕ) → Contains beginning row → Contains grown.now (without_row row joined)) }
{
    for position in 1..beginning.size() + 1 {
        if !contains_set(grown, joined.without(beginning.member(position))) {
            return false;
        }
    }
    true
}

/// Appends the sets of the next level that have the members of `grown[place]` and a row behind them.
/// Such a set is the union with a later set that differs in the last member alone.
fn append_joined(
    level: &mut Vec<ActiveSet>,
    grown: &[ActiveSet],
    place: usize,
    rows: u32,
) -> Result<(), NoMemory>
    requires in_range { place < length grown.now }
    requires rows { rows ≤ LAST_ROW }
    requires in_order { IsInOrder grown.now }
    requires one_size { IsOfOneSize grown.now }
    requires no_empty { Contains grown.now [] → ⊥ }
    requires so_far { HoldsNext (ExtendsOneOf grown.now place) grown.now rows level.old.items }
    ensures { OnOk result (HoldsNext (ExtendsOneOf grown.now (place + 1)) grown.now rows level.new.items) }
{
    let set = grown[place];
    let beginning = set.without(set.last());
    let later = &grown[place + 1..];
    for partner in later {
        let row = partner.last();
        if row > rows || partner.without(row) != beginning {
            return Ok(());
        }
        let joined = set.with(row);
        if is_supported(grown, joined, beginning) {
            level.push(joined).map_err(|_| NoMemory)?;
        }
    }
    Ok(())
}

/// The next level of sets that have members.
fn joined_level(alloc: Global, grown: &[ActiveSet], rows: u32) -> Result<Vec<ActiveSet>, NoMemory>
    requires rows { rows ≤ LAST_ROW }
    requires in_order { IsInOrder grown.now }
    requires one_size { IsOfOneSize grown.now }
    requires no_empty { Contains grown.now [] → ⊥ }
    ensures { IfOk result (λ level. HoldsNext (ExtendsOneOf grown.now (length grown.now)) grown.now rows level.items) }
{
    let mut level = Vec::new(alloc);
    for place in 0..grown.len() {
        append_joined(&mut level, grown, place, rows)?;
    }
    Ok(level)
}

/// The sets of one row.
fn single_rows(alloc: Global, rows: u32) -> Result<Vec<ActiveSet>, NoMemory>
    requires { rows ≤ LAST_ROW }
    ensures members { IfOk result (λ level. (s : List ℕ) → Contains level.items s ↔ IsSingle rows s) }
    ensures in_order { IfOk result (λ level. IsInOrder level.items) }
{
    let mut level = Vec::with_capacity(alloc, rows as usize).map_err(|_| NoMemory)?;
    for row in 1..rows + 1 {
        level
            .push(ActiveSet::empty().with(row))
            .map_err(|_| NoMemory)?;
    }
    Ok(level)
}

/// Whether the sets are in order, each once, and have the same number of members: what
/// [`next_level`] asks of the given sets.
pub fn is_level(sets: &[ActiveSet]) -> bool
    ensures { IsTrue result ↔ IsLevel sets.now }
{
    for i in 1..sets.len() {
        let (before, set) = (sets[i - 1], sets[i]);
        if before.size() != set.size() || before >= set {
            return false;
        }
    }
    true
}

/// Of the rows 1 to `rows`, all sets with one member more than the given ones whose every subset
/// of their size is given, in order and once each. Sets with a common beginning are joined, as in
/// the search for frequent sets (Agrawal and Srikant, 1994); on the levels of active sets see
/// Gupta, Bhartiya and Nataraj (2011). Refused memory is the only error.
pub fn next_level(alloc: Global, grown: &[ActiveSet], rows: u32) -> Result<Vec<ActiveSet>, NoMemory>
    requires rows { rows ≤ LAST_ROW }
    requires in_order { IsInOrder grown.now }
    requires one_size { IsOfOneSize grown.now }
    ensures members { IfOk result (λ level. (s : List ℕ) → Contains level.items s ↔ IsNextOf grown.now rows s) }
    ensures in_order { IfOk result (λ level. IsInOrder level.items) }
    ensures one_more { IfOk result (λ level. AllOneLarger grown.now level.items) }
{
    match grown.first() {
        Some(first) if first.size() == 0 => single_rows(alloc, rows),
        _ => joined_level(alloc, grown, rows),
    }
}

/// The number of sets, where they differ from each other and have at most six members: there are
/// fewer than 2^32 such sets, at most 4,598,479 of the rows 1 to 40, and at most 523,686 with at
/// most four members.
pub fn count_sets(sets: &[ActiveSet]) -> u32
    requires different { AllPairs (λ s t. s ≢ t) sets.now }
    requires sets_of_rows { All (IsSetOfRows LAST_ROW) sets.now }
    requires at_most_six { All (λ s. length s ≤ 6) sets.now }
    ensures value { result ≡ length sets.now }
    ensures few { length sets.now < 2 ^ 32 }
    ensures of_forty_rows { All (IsSetOfRows 40) sets.now → length sets.now ≤ 4598479 }
    ensures of_four_members { All (λ s. length s ≤ 4) sets.now → length sets.now ≤ 523686 }
{
    sets.len() as u32
}
