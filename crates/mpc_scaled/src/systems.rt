//! Systems whose rows are whole numbers over a scale each.

ghost use Rattle.std.specs.Prelude.{◌≡◌, ℕ, pos, ◌+◌, ◌*◌, ◌<◌, ◌≤◌, ◌^◌, true, cond, [], ◌∷◌, ◌++◌, All, length, take, map, replicate, get_or, neg_ℤ, unsigned_abs, IsTrue, IfSome, IfOk, OnOk, OnErr};
ghost use Rattle.mpc_exact.specs.Rational.{int, frac};
ghost use Rattle.mpc_space.specs.Vector.{coordinate};
ghost use Rattle.mpc_rows.specs.LinearSystem.{HasWidth, height, row_at};
ghost use Rattle.mpc_rows.specs.LawRows.{whole_row, broken_row};
ghost use Rattle.mpc_rows.specs.SetRuns.{turned};
ghost use Rattle.mpc_rows.specs.declared.systems.Row.{Row};
ghost use Rattle.mpc_scaled.specs.declared.systems.WholeLists.{WholeLists};
ghost use Rattle.mpc_scaled.specs.Scaled.{whole_at, scale_at, IsSmall, IsWholeSystem};
ghost use Rattle.mpc_scaled.specs.WholeSystems.{kept_row, system_of, AreLists, AreBehind, IsKept, IsAdded, AreAdded, HasRows, IsCut, IsSettled, IsCopy, IsEmpty, negated_where};

use crate::numbers::{narrow, negative};
use crate::scales::{greatest, row_scale, scaled};
use mpc_frac::Frac;
use mpc_linear::RowInt;
use mpc_rows::{Row, System};
use std::alloc::{AllocError, Global};
use std::marker::Model;

/// The numbers of a system: each row times its scale, with bounds that are at least what they bound.
#[derive(Drop)]
struct WholeLists {
    width: usize,
    /// The coefficients, row by row.
    a: Vec<i64>,
    /// The right sides.
    b: Vec<i64>,
    /// 1 for each unknown, then the scale of each row.
    scales: Vec<u64>,
    /// Which rows are strict.
    strict: Vec<bool>,
    /// A bound of the sizes of the coefficients.
    most_entry: u64,
    /// A bound of the sizes of the right sides, at least 1.
    most_side: u64,
    /// A bound of the scales, at least 1.
    most_scale: u64,
}

/// Puts the numbers of a row times its scale behind the others, or some of them where one isn't whole or too great, or without memory.
/// The result is a bound of them all.
fn add_entries(
    coefficients: &mut Vec<i64>,
    row: &[Frac],
    scale: u64,
    most: u64,
) -> Result<Option<u64>, AllocError>
    requires some { 0 < scale }
    requires scale_small { scale ≤ 2 ^ 40 }
    requires small { IsSmall most coefficients.old.items }
    ensures kept { take (length coefficients.old.items) coefficients.new.items ≡ coefficients.old.items }
    ensures behind { IfOk result (λ o. IfSome o (λ m. AreBehind coefficients.old.items coefficients.new.items (length row.now) scale (coordinate row.now) m)) }
    ensures bound { IfOk result (λ o. IfSome o (λ m. most ≤ m)) }
{
    let mut most = most;
    for number in row {
        let Some(whole) = scaled(number, scale) else {
            return Ok(None);
        };
        coefficients.push(whole)?;
        most = most.max(whole.unsigned_abs());
    }
    Ok(Some(most))
}

/// The number, or minus the number, if it is small.
fn small_number(number: i128, negated: bool) -> Option<i64>
    ensures value { IfSome result (λ y. y ≡ negated_where negated number) }
    ensures small { IfSome result (λ y. unsigned_abs y ≤ 2 ^ 62) }
{
    if number.unsigned_abs() > 1 << 62 {
        return None;
    }
    let small = narrow(number);
    if negated { Some(-small) } else { Some(small) }
}

/// Puts whole numbers, or minus each, behind the others, or some of them where one is too great, or without memory. The result is a bound
/// of them all.
fn add_numbers(
    coefficients: &mut Vec<i64>,
    row: &[i128],
    negated: bool,
    most: u64,
) -> Result<Option<u64>, AllocError>
    requires small { IsSmall most coefficients.old.items }
    ensures kept { take (length coefficients.old.items) coefficients.new.items ≡ coefficients.old.items }
    ensures behind { IfOk result (λ o. IfSome o (λ m. AreBehind coefficients.old.items coefficients.new.items (length row.now) 1 (λ j. int (negated_where negated (get_or row.now j (pos 0)))) m)) }
    ensures bound { IfOk result (λ o. IfSome o (λ m. most ≤ m)) }
{
    let mut most = most;
    for number in row {
        let Some(small) = small_number(*number, negated) else {
            return Ok(None);
        };
        coefficients.push(small)?;
        most = most.max(small.unsigned_abs());
    }
    Ok(Some(most))
}

/// Puts the negatives of so many of the numbers, from this place on, behind them, or some of them without memory.
fn add_negatives(coefficients: &mut Vec<i64>, from: usize, count: usize) -> Result<(), AllocError>
    requires within { from + count ≤ length coefficients.old.items }
    requires small { IsSmall (2 ^ 62) coefficients.old.items }
    ensures kept { take (length coefficients.old.items) coefficients.new.items ≡ coefficients.old.items }
    ensures behind { OnOk result ((scale most : ℕ) → IsSmall most coefficients.old.items
        → AreBehind coefficients.old.items coefficients.new.items count scale (λ j. frac (neg_ℤ (whole_at coefficients.old.items (from + j))) scale) most) }
{
    for place in 0..count {
        let opposite = negative(coefficients[from + place]);
        coefficients.push(opposite)?;
    }
    Ok(())
}

/// Puts one item behind each list. Without memory the items of the first lists may stand there.
fn add_ends(
    sides: &mut Vec<i64>,
    scales: &mut Vec<u64>,
    strict: &mut Vec<bool>,
    side: i64,
    scale: u64,
    is_strict: bool,
) -> Result<(), AllocError>
    ensures sides { OnOk result (sides.new.items ≡ sides.old.items ++ side ∷ []) }
    ensures scales { OnOk result (scales.new.items ≡ scales.old.items ++ scale ∷ []) }
    ensures strict { OnOk result (strict.new.items ≡ strict.old.items ++ is_strict ∷ []) }
    ensures sides_kept { take (length sides.old.items) sides.new.items ≡ sides.old.items }
    ensures scales_kept { take (length scales.old.items) scales.new.items ≡ scales.old.items }
    ensures strict_kept { take (length strict.old.items) strict.new.items ≡ strict.old.items }
{
    sides.push(side)?;
    scales.push(scale)?;
    strict.push(is_strict)?;
    Ok(())
}

/// Puts the row behind the others, or a part of it.
fn add_row(lists: &mut WholeLists, row: &Row) -> Result<bool, AllocError>
    requires lists { AreLists lists.old }
    requires width { length row.now.a ≡ lists.old.width }
    ensures kept { IsKept lists.old lists.new }
    ensures added { IfOk result (λ done. IsTrue done → IsAdded lists.old lists.new row.now) }
{
    let Some(scale) = row_scale(row) else {
        return Ok(false);
    };
    let Some(side) = scaled(&row.b, scale) else {
        return Ok(false);
    };
    let entries = row.a.as_slice();
    let Some(most) = add_entries(&mut lists.a, entries, scale, lists.most_entry)? else {
        return Ok(false);
    };
    add_ends(
        &mut lists.b,
        &mut lists.scales,
        &mut lists.strict,
        side,
        scale,
        row.strict,
    )?;
    lists.most_entry = most;
    lists.most_side = lists.most_side.max(side.unsigned_abs());
    lists.most_scale = lists.most_scale.max(scale);
    Ok(true)
}

/// Puts the row, or where it is broken the strict row that is met where it fails, behind the others, or a part of it.
fn add_whole(lists: &mut WholeLists, row: &RowInt, broken: bool) -> Result<bool, AllocError>
    requires lists { AreLists lists.old }
    requires width { length row.now.a ≡ lists.old.width }
    ensures kept { IsKept lists.old lists.new }
    ensures added { IfOk result (λ done. IsTrue done → IsAdded lists.old lists.new (cond broken (broken_row row.now) (whole_row row.now))) }
{
    let Some(side) = small_number(row.b, broken) else {
        return Ok(false);
    };
    let entries = row.a.as_slice();
    let Some(most) = add_numbers(&mut lists.a, entries, broken, lists.most_entry)? else {
        return Ok(false);
    };
    add_ends(
        &mut lists.b,
        &mut lists.scales,
        &mut lists.strict,
        side,
        1,
        broken,
    )?;
    lists.most_entry = most;
    lists.most_side = lists.most_side.max(side.unsigned_abs());
    Ok(true)
}

/// Puts the row of this number, the other way round, behind the others, or a part of it without memory.
fn add_turned(lists: &mut WholeLists, row: usize) -> Result<bool, AllocError>
    requires lists { AreLists lists.old }
    requires row { row < length lists.old.b.items }
    ensures kept { IsKept lists.old lists.new }
    ensures added { IfOk result (λ done. IsTrue done → IsAdded lists.old lists.new (turned (kept_row lists.old row))) }
{
    let width = lists.width;
    let side = negative(lists.b[row]);
    let scale = lists.scales[width + row];
    let is_strict = lists.strict[row];
    add_negatives(&mut lists.a, row * width, width)?;
    add_ends(
        &mut lists.b,
        &mut lists.scales,
        &mut lists.strict,
        side,
        scale,
        is_strict,
    )?;
    Ok(true)
}

/// Puts the row of these small numbers behind the others, or a part of it without memory.
fn add_small(lists: &mut WholeLists, entries: &[i64], side: i64) -> Result<(), AllocError>
    requires lists { AreLists lists.old }
    requires width { length entries.now ≡ lists.old.width }
    requires entries_small { IsSmall (2 ^ 62) entries.now }
    requires side_small { unsigned_abs side ≤ 2 ^ 62 }
    ensures kept { IsKept lists.old lists.new }
    ensures added { OnOk result (IsAdded lists.old lists.new (whole_row (record { a = entries.now; b = side }))) }
{
    lists.a.extend_from_slice(entries)?;
    add_ends(
        &mut lists.b,
        &mut lists.scales,
        &mut lists.strict,
        side,
        1,
        false,
    )?;
    lists.most_entry = lists.most_entry.max(greatest(entries));
    lists.most_side = lists.most_side.max(side.unsigned_abs());
    Ok(())
}

/// Puts the rows of other lists behind the others, or a part of them without memory.
fn add_lists(lists: &mut WholeLists, other: &WholeLists) -> Result<(), AllocError>
    requires { other.now.width ≤ length other.now.scales.items }
    ensures kept { IsKept lists.old lists.new }
    ensures added { OnOk result (AreAdded lists.old other.now lists.new) }
{
    let scales = other.scales.as_slice();
    lists.a.extend_from_slice(other.a.as_slice())?;
    lists.b.extend_from_slice(other.b.as_slice())?;
    lists.scales.extend_from_slice(&scales[other.width..])?;
    lists.strict.extend_from_slice(other.strict.as_slice())?;
    lists.most_entry = lists.most_entry.max(other.most_entry);
    lists.most_side = lists.most_side.max(other.most_side);
    lists.most_scale = lists.most_scale.max(other.most_scale);
    Ok(())
}

/// Keeps the first so many rows.
fn cut(lists: &mut WholeLists, count: usize)
    requires { HasRows lists.old count }
    ensures { IsCut lists.old lists.new count }
{
    lists.a.truncate(count * lists.width);
    lists.b.truncate(count);
    lists.scales.truncate(lists.width + count);
    lists.strict.truncate(count);
}

/// Takes away what an attempt to put one row behind so many others has left, where it failed.
fn settle(
    lists: &mut WholeLists,
    height: usize,
    added: Result<bool, AllocError>,
) -> Result<bool, AllocError>
    requires { HasRows lists.old height }
    ensures { (first : WholeLists) (row : Row) → AreLists first → length row.a ≡ first.width → height ≡ length first.b.items
        → IsKept first lists.old → IfOk added (λ done. IsTrue done → IsAdded first lists.old row) → IsSettled first lists.new row result }
{
    match added {
        Ok(true) => Ok(true),
        Ok(false) => {
            cut(lists, height);
            Ok(false)
        }
        Err(error) => {
            cut(lists, height);
            Err(error)
        }
    }
}

/// Puts the numbers of other lists in place of its own.
fn refill(lists: &mut WholeLists, other: &WholeLists) -> Result<(), AllocError>
    ensures { OnOk result (IsCopy other.now lists.new) }
{
    lists.a.clear();
    lists.b.clear();
    lists.scales.clear();
    lists.strict.clear();
    lists.a.extend_from_slice(other.a.as_slice())?;
    lists.b.extend_from_slice(other.b.as_slice())?;
    lists.scales.extend_from_slice(other.scales.as_slice())?;
    lists.strict.extend_from_slice(other.strict.as_slice())?;
    lists.width = other.width;
    lists.most_entry = other.most_entry;
    lists.most_side = other.most_side;
    lists.most_scale = other.most_scale;
    Ok(())
}

/// Takes memory at once for so many rows of so many unknowns more. Without memory that of the first lists may be taken.
fn reserve(lists: &mut WholeLists, rows: usize, width: usize) -> Result<(), AllocError>
    ensures { IsCopy lists.old lists.new }
{
    lists.a.reserve_exact(rows.saturating_mul(width))?;
    lists.b.reserve_exact(rows)?;
    lists.scales.reserve_exact(rows)?;
    lists.strict.reserve_exact(rows)
}

/// Empty lists with room for so many rows of so many unknowns.
fn room_for(alloc: Global, rows: usize, width: usize) -> Result<WholeLists, AllocError>
    ensures { IfOk result IsEmpty }
{
    Ok(WholeLists {
        width: 0,
        a: Vec::with_capacity(alloc, rows.saturating_mul(width))?,
        b: Vec::with_capacity(alloc, rows)?,
        scales: Vec::with_capacity(alloc, rows.saturating_add(width))?,
        strict: Vec::with_capacity(alloc, rows)?,
        most_entry: 0,
        most_side: 1,
        most_scale: 1,
    })
}

/// Gives up all rows and all unknowns.
fn clear(lists: &mut WholeLists)
    ensures { IsEmpty lists.new }
{
    lists.width = 0;
    lists.a.clear();
    lists.b.clear();
    lists.scales.clear();
    lists.strict.clear();
    lists.most_entry = 0;
    lists.most_side = 1;
    lists.most_scale = 1;
}

/// Puts the scale 1 of each of so many unknowns in place of other scales, or of some of them without memory.
fn put_ones(scales: &mut Vec<u64>, width: usize) -> Result<(), AllocError>
    ensures { OnOk result (scales.new.items ≡ replicate width 1) }
{
    scales.clear();
    for _ in 0..width {
        scales.push(1)?;
    }
    Ok(())
}

/// The numbers of a system, with bounds of their sizes.
#[derive(Clone, Copy, Drop)]
pub struct WholeNumbers<'a> {
    /// 1 for each unknown, then the scale of each row.
    pub scales: &'a [u64],
    /// The coefficients times the scales of their rows, row by row.
    pub a: &'a [i64],
    /// The right sides times the scales of their rows.
    pub b: &'a [i64],
    pub most_entry: u64,
    pub most_side: u64,
    pub most_scale: u64,
}

/// A system whose rows are whole numbers over a scale each.
#[derive(Drop)]
pub struct WholeSystem {
    lists: WholeLists,
}

impl Model for WholeSystem {
    ghost use Rattle.mpc_rows.specs.LinearSystem.{LinearSystem};

    ghost Value = { LinearSystem };

    ghost use Rattle.mpc_scaled.specs.WholeSystems.{system_of, AreLists};

    ghost view = { λ s. system_of s.lists };

    ghost invariant = { λ s. AreLists s.lists };
}

impl WholeSystem {
    /// The system without rows.
    pub fn new(alloc: Global, width: u32) -> Result<WholeSystem, AllocError>
        ensures width { IfOk result (λ s. s.width ≡ width) }
        ensures rows { IfOk result (λ s. s.rows ≡ []) }
    {
        let width = width as usize;
        let scales = vec![in alloc; 1; width]?;
        Ok(WholeSystem {
            lists: WholeLists {
                width,
                a: Vec::new(alloc),
                b: Vec::new(alloc),
                scales,
                strict: Vec::new(alloc),
                most_entry: 0,
                most_side: 1,
                most_scale: 1,
            },
        })
    }

    /// The system without unknowns and rows, which takes no memory.
    pub fn empty(alloc: Global) -> WholeSystem
        ensures width { result.width ≡ 0 }
        ensures rows { result.rows ≡ [] }
    {
        WholeSystem {
            lists: WholeLists {
                width: 0,
                a: Vec::new(alloc),
                b: Vec::new(alloc),
                scales: Vec::new(alloc),
                strict: Vec::new(alloc),
                most_entry: 0,
                most_side: 1,
                most_scale: 1,
            },
        }
    }

    /// The same rows, if each is whole times a scale of at most 2^40, with numbers of at most 2^62.
    pub fn read(alloc: Global, system: &System) -> Result<Option<WholeSystem>, AllocError>
        ensures { IfOk result (λ o. IfSome o (λ w. w ≡ system.now)) }
    {
        let mut whole = WholeSystem::new(alloc, system.width)?;
        whole.reserve(system.height())?;
        for at_row in 0..system.height() {
            if !whole.push(system.row(at_row))? {
                return Ok(None);
            }
        }
        Ok(Some(whole))
    }

    /// The system of these rows, if their numbers are at most 2^62 in size.
    pub fn of_rows(
        alloc: Global,
        width: u32,
        rows: &[RowInt],
    ) -> Result<Option<WholeSystem>, AllocError>
        requires { All (λ r. length r.a ≡ width) rows.now }
        ensures { IfOk result (λ o. IfSome o (λ w. w ≡ record { width = width; rows = map whole_row rows.now })) }
    {
        let mut whole = WholeSystem::new(alloc, width)?;
        whole.reserve(rows.len())?;
        for row in rows {
            if !whole.push_whole(row)? {
                return Ok(None);
            }
        }
        Ok(Some(whole))
    }

    /// Takes memory at once for so many rows more. The system stays as it is.
    pub fn reserve(&mut self, rows: usize) -> Result<(), AllocError>
        ensures width { self.new.width ≡ self.old.width }
        ensures rows { self.new.rows ≡ self.old.rows }
    {
        let width = self.lists.width;
        reserve(&mut self.lists, rows, width)
    }

    /// The same system in lists of its own, with room for so many rows more.
    pub fn copy_with_room(&self, alloc: Global, rows: usize) -> Result<WholeSystem, AllocError>
        ensures { IfOk result (λ s. s ≡ self.now) }
    {
        let width = self.lists.width;
        let rows = self.lists.b.len().saturating_add(rows);
        let lists = room_for(alloc, rows, width)?;
        let mut copy = WholeSystem { lists };
        copy.set_to(self)?;
        Ok(copy)
    }

    /// How many unknowns there are.
    #[inline]
    pub fn unknowns(&self) -> usize
        ensures { result ≡ self.now.width }
    {
        self.lists.width
    }

    /// How many rows there are.
    #[inline]
    pub fn height(&self) -> usize
        ensures { result ≡ height self.now }
    {
        self.lists.b.len()
    }

    /// Whether the row of this number, from 0, is strict.
    #[inline]
    pub fn is_strict(&self, row: usize) -> bool
        requires { row < height self.now }
        ensures { result ≡ (row_at self.now row).strict }
    {
        self.lists.strict[row]
    }

    /// Puts the row behind the others, if it is whole times a scale of at most 2^40, with numbers of at most 2^62; says whether it was.
    /// Without memory, and where it wasn't, the system stays as it was.
    pub fn push(&mut self, row: &Row) -> Result<bool, AllocError>
        requires { length row.now.a ≡ self.old.width }
        ensures width { self.new.width ≡ self.old.width }
        ensures ok { IfOk result (λ done. self.new.rows ≡ cond done (self.old.rows ++ row.now ∷ []) self.old.rows) }
        ensures err { OnErr result (self.new.rows ≡ self.old.rows) }
    {
        let height = self.lists.b.len();
        let added = add_row(&mut self.lists, row);
        settle(&mut self.lists, height, added)
    }

    /// Puts the row behind the others, if its numbers are at most 2^62 in size; says whether they were. Without memory, and where they
    /// weren't, the system stays as it was.
    pub fn push_whole(&mut self, row: &RowInt) -> Result<bool, AllocError>
        requires { length row.now.a ≡ self.old.width }
        ensures width { self.new.width ≡ self.old.width }
        ensures ok { IfOk result (λ done. self.new.rows ≡ cond done (self.old.rows ++ whole_row row.now ∷ []) self.old.rows) }
        ensures err { OnErr result (self.new.rows ≡ self.old.rows) }
    {
        let height = self.lists.b.len();
        let added = add_whole(&mut self.lists, row, false);
        settle(&mut self.lists, height, added)
    }

    /// Puts the row `entries · t ≤ side` of numbers of at most 2^62 in size behind the others. Without memory the system stays as it was.
    pub fn push_small(&mut self, entries: &[i64], side: i64) -> Result<(), AllocError>
        requires width { length entries.now ≡ self.old.width }
        requires entries_small { IsSmall (2 ^ 62) entries.now }
        requires side_small { unsigned_abs side ≤ 2 ^ 62 }
        ensures width { self.new.width ≡ self.old.width }
        ensures ok { OnOk result (self.new.rows ≡ self.old.rows ++ whole_row (record { a = entries.now; b = side }) ∷ []) }
        ensures err { OnErr result (self.new.rows ≡ self.old.rows) }
    {
        let height = self.lists.b.len();
        match add_small(&mut self.lists, entries, side) {
            Ok(()) => Ok(()),
            Err(error) => {
                cut(&mut self.lists, height);
                Err(error)
            }
        }
    }

    /// Puts all rows of another system behind the others. Without memory the system stays as it was.
    pub fn append(&mut self, other: &WholeSystem) -> Result<(), AllocError>
        requires { other.now.width ≡ self.old.width }
        ensures width { self.new.width ≡ self.old.width }
        ensures ok { OnOk result (self.new.rows ≡ self.old.rows ++ other.now.rows) }
        ensures err { OnErr result (self.new.rows ≡ self.old.rows) }
    {
        let height = self.lists.b.len();
        match add_lists(&mut self.lists, &other.lists) {
            Ok(()) => Ok(()),
            Err(error) => {
                cut(&mut self.lists, height);
                Err(error)
            }
        }
    }

    /// Puts the strict row `-a · t < -b`, which is met where this one fails, behind the others, if its numbers are at most 2^62 in size; says
    /// whether they were. Without memory, and where they weren't, the system stays as it was.
    pub fn push_broken(&mut self, row: &RowInt) -> Result<bool, AllocError>
        requires { length row.now.a ≡ self.old.width }
        ensures width { self.new.width ≡ self.old.width }
        ensures ok { IfOk result (λ done. self.new.rows ≡ cond done (self.old.rows ++ broken_row row.now ∷ []) self.old.rows) }
        ensures err { OnErr result (self.new.rows ≡ self.old.rows) }
    {
        let height = self.lists.b.len();
        let added = add_whole(&mut self.lists, row, true);
        settle(&mut self.lists, height, added)
    }

    /// Puts the row of this number, from 0, the other way round behind the others. Its numbers are as small as the row's. Without memory
    /// the system stays as it was.
    pub fn push_turned(&mut self, row: usize) -> Result<bool, AllocError>
        requires { row < height self.old }
        ensures width { self.new.width ≡ self.old.width }
        ensures ok { IfOk result (λ done. self.new.rows ≡ cond done (self.old.rows ++ turned (row_at self.old row) ∷ []) self.old.rows) }
        ensures err { OnErr result (self.new.rows ≡ self.old.rows) }
    {
        let height = self.lists.b.len();
        let added = add_turned(&mut self.lists, row);
        settle(&mut self.lists, height, added)
    }

    /// Becomes the other system, in its own memory where that is large enough. Without memory it becomes the system without unknowns and
    /// rows.
    pub fn set_to(&mut self, other: &WholeSystem) -> Result<(), AllocError>
        ensures ok { OnOk result (self.new ≡ other.now) }
        ensures err_width { OnErr result (self.new.width ≡ 0) }
        ensures err_rows { OnErr result (self.new.rows ≡ []) }
    {
        let filled = refill(&mut self.lists, &other.lists);
        if filled.is_err() {
            clear(&mut self.lists);
        }
        filled
    }

    /// Becomes the system of so many unknowns without rows, in its own memory where that is large enough. Without memory it becomes the
    /// system without unknowns and rows.
    pub fn restart(&mut self, width: usize) -> Result<(), AllocError>
        ensures ok { OnOk result (self.new.width ≡ width) }
        ensures err { OnErr result (self.new.width ≡ 0) }
        ensures rows { self.new.rows ≡ [] }
    {
        clear(&mut self.lists);
        match put_ones(&mut self.lists.scales, width) {
            Ok(()) => {
                self.lists.width = width;
                Ok(())
            }
            Err(error) => {
                self.lists.scales.clear();
                Err(error)
            }
        }
    }

    /// Keeps the first so many rows and gives up the others.
    pub fn truncate(&mut self, count: usize)
        ensures width { self.new.width ≡ self.old.width }
        ensures rows { self.new.rows ≡ take count self.old.rows }
    {
        if count < self.lists.b.len() {
            cut(&mut self.lists, count);
        }
    }

    /// Each row has one coefficient for each unknown. The call does nothing: its contract is the theorem.
    pub fn has_width(&self)
        ensures { HasWidth self.now.width self.now.rows }
    {
        let _ = &self.lists;
    }

    /// The numbers of the rows times their scales.
    pub fn numbers(&self) -> WholeNumbers
        ensures whole { IsWholeSystem self.now result.scales.now result.a.now result.b.now }
        ensures entries_small { IsSmall (2 ^ 62) result.a.now }
        ensures sides_small { IsSmall (2 ^ 62) result.b.now }
        ensures entries { IsSmall result.most_entry result.a.now }
        ensures sides { IsSmall result.most_side result.b.now }
        ensures some_side { 1 ≤ result.most_side }
        ensures scales { (x : ℕ) → scale_at result.scales.now x ≤ result.most_scale }
        ensures some_scale { 1 ≤ result.most_scale }
    {
        WholeNumbers {
            scales: self.lists.scales.as_slice(),
            a: self.lists.a.as_slice(),
            b: self.lists.b.as_slice(),
            most_entry: self.lists.most_entry,
            most_side: self.lists.most_side,
            most_scale: self.lists.most_scale,
        }
    }
}
