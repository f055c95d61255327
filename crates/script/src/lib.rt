// The script language: what each line of a script asks for.
#![tactic(auto)]

pub mod line;
mod parts;
pub mod read;
mod words;
