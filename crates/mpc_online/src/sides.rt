//! The right sides of the rows at a state.

ghost use Rattle.mpc_online.specs.Sizes.{AreSmallSides};

use mpc_frac::Frac;

/// The right sides of all rows: so many numerators over one denominator.
#[derive(Drop)]
pub struct EvenSides {
    pub numerators: Vec<i128>,
    pub den: u128,
    pub ghost small: { AreSmallSides numerators.items den },
}

/// The right sides of all rows: over one denominator where they are small, or fractions.
#[derive(Drop)]
pub enum Sides {
    Even(EvenSides),
    Apart(Vec<Frac>),
}
