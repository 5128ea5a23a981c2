// Laws on lists, counting and tables. There is no code here.
#![tactic(auto)]
