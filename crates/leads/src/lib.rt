// The rows that lead to each row, and those that lead to a class that waits.
#![tactic(auto)]

pub mod preds;
pub mod touched;
