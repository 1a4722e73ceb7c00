//! Programs and laws in whole numbers.

use mpc_wholes::Wholes;

/// The matrices of a program in whole numbers over one denominator, row by row.
#[derive(Drop)]
pub struct WholeProgram {
    pub den: u128,
    pub h: Vec<Wholes>,
    pub f: Vec<Wholes>,
    pub g: Vec<Wholes>,
    pub w: Vec<Wholes>,
}

/// The coefficients of a law on one extended count, in whole numbers over one denominator.
#[derive(Drop)]
pub struct LawColumn {
    pub den: u128,
    pub moves: Wholes,
    pub mults: Wholes,
}
