//! Tests of the top call that no run of the built command shows: devices that fail at one call, and workers who meet.
#![tactic(auto)]

#[cfg(test)]
mod tests;
