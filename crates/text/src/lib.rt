// Text as bytes: hexadecimal and decimal numbers, both ways.
#![tactic(auto)]

pub mod decimal;
pub mod hex;
pub mod plain;
pub mod returns;
#[cfg(test)]
mod tests;
