// Laws of the definitions of crate rules. There is no code here.
#![tactic(auto)]
