//! Whole numbers in two words each.

ghost use Rattle.std.specs.Prelude.{◌≡◌, ◌+◌, ◌*◌, ◌^◌};
ghost use Rattle.mpc_block.specs.Words.{signed_number};

/// How many values a word has.
const WORD: u128 = 0x1_0000_0000_0000_0000;

/// The size in two words.
#[inline(always)]
fn size_of(low: u64, high: u64) -> u128
    ensures { result ≡ low + 2 ^ 64 * high }
{
    low as u128 + WORD * high as u128
}

/// The number in two words.
#[inline(always)]
pub fn number_of(low: u64, high: u64) -> i128
    ensures { result ≡ signed_number low high }
{
    size_of(low, high).cast_signed()
}

/// The low and the high word of a size.
#[inline(always)]
fn words_of_size(size: u128) -> (u64, u64)
    ensures { result.0 + 2 ^ 64 * result.1 ≡ size }
{
    ((size % WORD) as u64, (size / WORD) as u64)
}

/// The two words of the number, the low one first.
#[inline(always)]
pub fn words_of(number: &i128) -> (u64, u64)
    ensures { signed_number result.0 result.1 ≡ number.now }
{
    words_of_size(number.cast_unsigned())
}
