// Laws of the rules that proofs of code cite, under specs/: of every format and on any number of axes. There is no code
// here.

#![tactic(auto)]
