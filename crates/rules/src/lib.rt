// The rules of the grid: the requirements as definitions, under specs/. There is no code here; every other crate cites
// these.

#![tactic(auto)]
