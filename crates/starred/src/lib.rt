#![tactic(auto)]

// The starred sums of docs/RULES.md, its numbers of nodes and its listing, proved about the definitions of rules. There is no code here.
