//! Tests of what no command shows, library by library: that calls succeed where memory suffices, and what no clause says.
#![tactic(auto)]

#[cfg(test)]
mod bytes;
#[cfg(test)]
mod condensing;
#[cfg(test)]
mod definite;
#[cfg(test)]
mod ends;
#[cfg(test)]
mod fleets;
#[cfg(test)]
mod fractions;
#[cfg(test)]
mod gates;
#[cfg(test)]
mod linear;
#[cfg(test)]
mod online;
#[cfg(test)]
mod plants;
#[cfg(test)]
mod programs;
#[cfg(test)]
mod quotients;
#[cfg(test)]
mod replies;
#[cfg(test)]
mod safety;
#[cfg(test)]
mod sets;
#[cfg(test)]
mod stated_systems;
#[cfg(test)]
mod workers;
