// A boss and helpers in memory, and the packets between them: what is played here is a run of the system.
#![tactic(auto)]

mod playing;
mod table;
mod wants;
