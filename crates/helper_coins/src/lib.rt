// A helper's coins of all letters: what it takes, shares and sends back.
#![tactic(auto)]

pub mod helper;
pub mod holding;
mod purse;
mod slot;
#[cfg(test)]
mod tests;
