//! Whole numbers over one denominator.

ghost use Rattle.mpc_wholes.specs.Sizes.{AreAtMost};

/// Up to six fractions over one denominator. No numerator and not the denominator is above `most` in size.
#[derive(Drop)]
pub struct Wholes {
    pub numerators: [i128; 6],
    pub den: u128,
    pub most: u128,
    pub ghost at_most: { AreAtMost numerators den most },
}
