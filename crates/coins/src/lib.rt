// Letters, messages and answers: what the boss and the helpers have in common.
#![tactic(auto)]

pub mod answer;
pub mod bytes;
pub mod ids;
pub mod letters;
pub mod limits;
pub mod mail;
pub mod parcel;
pub mod work;
