// Laws that the proofs of several crates cite. There is no code here.
#![tactic(auto)]
