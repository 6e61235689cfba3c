#![tactic(auto)]

// Why classes that are cut only by what leads to waiting classes end as those of the rules; no code.
