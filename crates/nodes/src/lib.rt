// Boss and helper whole: the coins, and over them the ends of their lines.
#![tactic(auto)]

pub mod boss;
pub mod helper;
pub mod member;
pub mod node;
pub mod receipt;
#[cfg(test)]
mod tests;
