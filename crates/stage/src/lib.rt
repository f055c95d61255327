// A boss and helpers in memory, and the messages between them: what is played here is a run of the system.
#![tactic(auto)]

pub mod cases;
pub mod command;
mod lines;
pub mod stage;
mod table;
