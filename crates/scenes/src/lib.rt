// What is played: commands, and what they do to a boss, helpers and the packets between them.
#![tactic(auto)]

pub mod command;
