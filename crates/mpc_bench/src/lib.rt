//! What the comparisons of `bench/` link: fractions, decisions of systems, controller files, and the way from a plant to a reply.
#![tactic(auto)]

mod codes;
mod controllers;
mod files;
mod fractions;
mod going_on;
mod parts;
mod passing;
mod phases;
mod repeats;
mod replies;
mod runs;
mod systems;
#[cfg(test)]
mod tests;
mod texts;
