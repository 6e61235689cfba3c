#![tactic(auto)]

// The three demands of the functions that run and of what C and Rust link, and that they are kept. There is no code here.
