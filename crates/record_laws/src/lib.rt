// Laws of the map record that proofs of code cite, under specs/: that what was written is read again, and that what was
// read is written again. There is no code here.

#![tactic(auto)]
