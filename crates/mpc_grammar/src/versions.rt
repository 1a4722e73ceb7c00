//! The versions of a controller's text.

/// The version of a controller's text.
#[derive(Clone, Copy, Debug, PartialEq, Eq, Drop)]
pub enum Version {
    /// Without drift and targets.
    One,
    /// With a drift or a target that isn't 0.
    Two,
    /// With any drift and targets; equal affine forms and equal rows of splits are written once.
    Three,
}
