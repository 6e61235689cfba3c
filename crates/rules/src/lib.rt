#![tactic(auto)]

// The rules of the house: definitions in specs/, what is proved of them in proofs/. There is no code here.
