// A script that is played on a stage, line by line, and what is answered and shown.
#![tactic(auto)]

mod answer;
pub mod rehearsal;
pub mod run;
mod show;
