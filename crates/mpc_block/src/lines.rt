//! Lines of words, and the sums that their rows and forms have at counts.

ghost use Rattle.std.specs.Prelude.{◌≡◌, ◌≢◌, ℕ, ◌+◌, ◌*◌, ◌^◌, ◌<◌, ◌≤◌, ◌↔◌, All, pos, ◌+ℤ◌, ◌*ℤ◌, ◌≤ℤ◌, unsigned_abs, ◌∷◌, length, take, slice_index, IsTrue, MatchOption};
ghost use Rattle.std.specs.Int.{cast_signed, int_wrap, w64, w128};
ghost use Rattle.mpc_table.specs.Forms.{weighed};
ghost use Rattle.mpc_block.specs.declared.lines.Width.TheVariants.{Short, Wide};
ghost use Rattle.mpc_block.specs.Words.{words_from, number_at, entries, numbers_in};
ghost use Rattle.mpc_block.specs.Block.{line_size};
ghost use Rattle.mpc_block.specs.Layouts.{KeepsBefore};
ghost use Rattle.mpc_block.specs.Sums.{KeepsWithin};

use crate::words::{number_of, words_of};

/// The layout's name and version, the first word of each block: `mpcblk` and 3.
pub const LAYOUT: u64 = 0x6d70_6362_6c6b_0003;

/// How many words the head has, and a line of wide numbers.
pub const LINE: usize = 12;

/// How many words a number has: one or two.
#[derive(Clone, Copy, Debug, PartialEq, Eq)]
pub enum Width {
    Short,
    Wide,
}

/// How many words a line behind the head has.
#[inline(always)]
pub fn line_size(width: Width) -> usize
    ensures { result ≡ line_size width }
{
    match width {
        Width::Short => 6,
        Width::Wide => LINE,
    }
}

/// So many words from this one on, if they are there.
#[inline(always)]
pub fn part(words: &[u64], start: u64, size: usize) -> Option<&[u64]>
    ensures { MatchOption result (length words.now < start + size)
        (λ found. (found.now ≡ words_from words.now start size) × (length found.now ≡ size) × (start + size ≤ length words.now)) }
{
    if size > words.len() || start > (words.len() - size) as u64 {
        return None;
    }
    let start = start as usize;
    Some(&words[start..start + size])
}

/// The line of these at a place.
#[inline(always)]
pub fn line_of(lines: &[u64], place: usize, width: Width) -> &[u64]
    requires { line_size width * (place + 1) ≤ length lines.now }
    ensures line { result.now ≡ words_from lines.now (line_size width * place) (line_size width) }
    ensures size { length result.now ≡ line_size width }
{
    let size = line_size(width);
    &lines[size * place..size * place + size]
}

/// The number of a line at a place, of two words.
#[inline(always)]
pub fn number(line: &[u64], place: usize) -> i128
    requires { 2 * place + 1 < length line.now }
    ensures { result ≡ number_at Wide line.now place }
{
    number_of(line[2 * place], line[2 * place + 1])
}

/// `sum + entry count`, modulo 2^64.
#[inline(always)]
fn short_step(sum: i64, entry: u64, count: u64) -> i64
    ensures { result ≡ int_wrap w64 (sum +ℤ (cast_signed w64 entry *ℤ pos count)) }
{
    sum.wrapping_add(entry.cast_signed().wrapping_mul(count.cast_signed()))
}

/// `start` and the sum at the counts, modulo 2^64.
#[inline(always)]
pub fn short_sum(start: i64, line: &[u64], counts: &[u64]) -> i64
    requires size { length line.now ≡ 6 }
    requires few { length counts.now ≤ 4 }
    ensures { result ≡ int_wrap w64 (start +ℤ weighed (entries Short line.now) counts.now) }
{
    let mut sum = start;
    for i in 0..counts.len() {
        sum = short_step(sum, line[2 + i], counts[i]);
    }
    sum
}

/// `sum + entry count`, modulo 2^128.
#[inline(always)]
fn wide_step(sum: i128, entry: i128, count: u64) -> i128
    ensures { result ≡ int_wrap w128 (sum +ℤ (entry *ℤ pos count)) }
{
    sum.wrapping_add(entry.wrapping_mul(i128::from(count)))
}

/// `start` and the sum at the counts, modulo 2^128.
#[inline(always)]
pub fn wide_sum(start: i128, line: &[u64], counts: &[u64]) -> i128
    requires size { length line.now ≡ 12 }
    requires few { length counts.now ≤ 4 }
    ensures { result ≡ int_wrap w128 (start +ℤ weighed (entries Wide line.now) counts.now) }
{
    let mut sum = start;
    for i in 0..counts.len() {
        sum = wide_step(sum, number(line, 2 + i), counts[i]);
    }
    sum
}

/// Whether the row of a split's line holds at the counts, if it keeps within its words at them.
#[inline(always)]
pub fn holds(line: &[u64], counts: &[u64], width: Width) -> bool
    requires size { length line.now ≡ line_size width }
    requires few { length counts.now ≤ 4 }
    ensures { KeepsWithin width line.now counts.now
        → IsTrue result ↔ (weighed (entries width line.now) counts.now ≤ℤ number_at width line.now 1) }
{
    match width {
        Width::Short => short_sum(0, line, counts) <= line[1].cast_signed(),
        Width::Wide => wide_sum(0, line, counts) <= number(line, 1),
    }
}

/// The word of a number that has one.
fn word_of(number: &i128) -> u64
    requires { unsigned_abs number.now < 2 ^ 63 }
    ensures { cast_signed w64 result ≡ number.now }
{
    (*number as i64).cast_unsigned()
}

/// The line that begins with a word, and then has the numbers, of one word each.
pub fn short_line(first: u64, lead: &i128, others: &[i128]) -> [u64; 6]
    requires few { length others.now ≤ 4 }
    requires lead { unsigned_abs lead.now < 2 ^ 63 }
    requires small { All (λ z. unsigned_abs z < 2 ^ 63) others.now }
    ensures first { slice_index result 0 ≡ first }
    ensures numbers { take (length others.now + 1) (numbers_in Short result) ≡ lead.now ∷ others.now }
{
    let mut line = [first, word_of(lead), 0, 0, 0, 0];
    for i in 0..others.len() {
        line[2 + i] = word_of(&others[i]);
    }
    line
}

/// Writes the number of a line at a place, of two words.
fn put_number(line: &mut [u64], place: usize, number: &i128)
    requires { 2 * place + 1 < length line.old }
    ensures written { number_at Wide line.new place ≡ number.now }
    ensures others { (k : ℕ) → k ≢ 2 * place → k ≢ 2 * place + 1 → slice_index line.new k ≡ slice_index line.old k }
{
    let (low, high) = words_of(number);
    line[2 * place] = low;
    line[2 * place + 1] = high;
}

/// The line that begins with two words, and then has the numbers, of two words each.
pub fn wide_line(first: u64, second: u64, lead: &i128, others: &[i128]) -> [u64; 12]
    requires { length others.now ≤ 4 }
    ensures first { slice_index result 0 ≡ first }
    ensures second { slice_index result 1 ≡ second }
    ensures numbers { take (length others.now + 1) (numbers_in Wide result) ≡ lead.now ∷ others.now }
{
    let mut line = [0; LINE];
    line[0] = first;
    line[1] = second;
    put_number(&mut line, 1, lead);
    for i in 0..others.len() {
        put_number(&mut line, 2 + i, &others[i]);
    }
    line
}

/// Writes a line from this word on.
pub fn put_line(words: &mut [u64], start: usize, line: &[u64])
    requires { start + length line.now ≤ length words.old }
    ensures written { words_from words.new start (length line.now) ≡ line.now }
    ensures kept { KeepsBefore start words.old words.new }
{
    words[start..start + line.len()].copy_from_slice(line);
}
