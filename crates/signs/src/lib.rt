// The signs of a pattern: special bytes, escapes and counts.
#![tactic(auto)]

pub mod count;
pub mod escape;
pub mod sign;
