// The boss's coins of all letters: what it gives out, what comes back, and when it says done.
#![tactic(auto)]

pub mod boss;
mod counts;
#[cfg(test)]
mod tests;
