// The bytes of a message: what is written, what is read, and that the two agree.
#![tactic(auto)]

pub mod frame;
pub mod message;
pub mod read;
pub mod theorems;
pub mod write;
