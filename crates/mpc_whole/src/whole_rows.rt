//! What the numbers of a position may have.

ghost use Rattle.std.specs.Prelude.{◌≡◌, ℕ, pos, ◌*◌, ◌≤◌, ◌^◌, IfSome, length};
ghost use Rattle.mpc_whole.specs.Whole.{IsUnit};
ghost use Rattle.mpc_scaled.specs.Scaled.{whole_at, IsSmall};

/// What may be multiplied by a factor, at most, if anything may.
fn share(factor: u128) -> Option<u64>
    requires { 1 ≤ factor }
    ensures some { IfSome result (λ m. 1 ≤ m) }
    ensures room { IfSome result (λ m. factor * m ≤ 2 ^ 62) }
    ensures top { IfSome result (λ m. m ≤ 2 ^ 62) }
{
    if factor > 1 << 62 {
        return None;
    }
    let most = (1 << 62) / factor as u64;
    Some(most)
}

/// What the numbers of a position may have, if there is room for any.
pub fn limit(
    width: usize,
    count: usize,
    most_entry: u64,
    most_side: u64,
    most_scale: u64,
) -> Option<u64>
    requires scale { 1 ≤ most_scale }
    ensures room { IfSome result (λ m. (width * (most_entry * m)) * most_scale ≤ 2 ^ 62) }
    ensures some { IfSome result (λ m. 1 ≤ m) }
    ensures top { IfSome result (λ m. m * most_scale ≤ 2 ^ 62) }
    ensures side_room { IfSome result (λ _. count * most_side ≤ 2 ^ 62) }
{
    let sides = count as u128 * most_side as u128;
    if sides > 1 << 62 {
        return None;
    }
    let entries = width as u128 * most_entry as u128;
    if entries > 1 << 62 {
        return None;
    }
    share(entries.max(1) * most_scale as u128)
}

/// Writes 1 onto the diagonal.
pub fn put_units(numbers: &mut [i64], width: usize)
    requires square { length numbers.old ≡ width * width }
    requires zeros { (k : ℕ) → whole_at numbers.old k ≡ pos 0 }
    ensures unit { IsUnit width numbers.new }
    ensures small { IsSmall 1 numbers.new }
{
    for index in 0..width {
        numbers[index * width + index] = 1;
    }
}
